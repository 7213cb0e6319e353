//! Which of the methods that are carried out catches what is thrown.
//!
//! ```text
//! match cover(&pools, &[Spot { method, place }], &classes) {
//!     Ok(Some((index, handler))) => { .. }   // the method at this spot goes on at its handler
//!     Ok(None) => { .. }                     // none catches
//!     Err((method, refusal)) => { .. }       // the method's exception table isn't whole
//! }
//! ```
#![tactic(auto)]

ghost use Rattle.std.specs.Prelude.{◌≡◌, reverse};
ghost use Rattle.t3_except.specs.Covering.{covered};

use t3_methods::{CodeRefusal, handler_in};
use t3_pools::Pools;

/// A method that is carried out, and the instruction at which it is.
#[derive(Clone, Copy, Debug, PartialEq, Eq, Hash)]
pub struct Spot {
    /// The address of the method's header.
    pub method: u32,
    /// The address of the instruction.
    pub place: u32,
}

/// The newest spot that catches an object of one of these classes, by its index, and the address of the
/// handler. The newest spot is the last one. `None` exactly where no method has a handler for the object,
/// and none is refused.
///
/// Where no newer spot has a handler, a spot is refused, by its method: as `Header` exactly where no
/// method header stands there, and else as `Table` exactly where the header names an exception table that
/// isn't whole. It takes no memory.
pub fn cover(
    pools: &Pools,
    spots: &[Spot],
    matches: &[u32],
) -> Result<Option<(usize, u32)>, (u32, CodeRefusal)>
    ensures { result ≡ covered pools.now.code matches.now (reverse spots.now) }
{
    let mut left = spots.len();
    while left > 0 {
        left -= 1;
        let spot = spots[left];
        match handler_in(pools, spot.method, spot.place, matches) {
            Ok(Some(handler)) => return Ok(Some((left, spot.method + u32::from(handler)))),
            Ok(None) => {}
            Err(refusal) => return Err((spot.method, refusal)),
        }
    }
    Ok(None)
}
