//! The cases of a switch.
ghost use Rattle.std.specs.Prelude.{◌≡◌, ℕ, ℤ, ◌+◌, ◌*◌, ◌^◌, ◌<◌, ◌≤◌, None, Some, IfSome, IsTrue};
ghost use Rattle.std.specs.FinMap.{get};
ghost use Rattle.t3_holder.specs.declared.holder.Holder.{Holder as AnyHolder};
ghost use Rattle.t3_methods.specs.Operands.{HasCase};
ghost use Rattle.t3_methods.specs.Answers.{FindsCase};
ghost use Rattle.t3_methods.specs.Inner.Cases.{DecidesSwitch, FindsJump, ReadsCase};

use crate::window::{WINDOW_SIZE, Window};
use t3_holder::{Holder, holder_of, read_raw};
use t3_pools::Pools;

/// How many bytes a case has: a holder, and a distance.
const CASE_SIZE: u32 = 7;

/// How many bytes a holder has.
const HOLDER_SIZE: u32 = 5;

/// Whether so many cases stand from an address on, and one more distance behind them.
pub(crate) fn has_switch(pools: &Pools, at: u32, count: u16) -> bool
    requires { at < 2 ^ 31 }
    ensures decides { DecidesSwitch pools.now.code at count result }
    ensures bounded { IsTrue result → at + (7 * count + 2) < 2 ^ 31 }
{
    let mut next = at;
    for _ in 0..count {
        let Some(_) = read_case(pools, next) else {
            return false;
        };
        next += CASE_SIZE;
    }
    read_jump(pools, next).is_some()
}

/// The case at an address: its holder, and its distance. `None` where none stands there.
fn read_case(pools: &Pools, at: u32) -> Option<(Holder, i16)>
    ensures reads { ReadsCase pools.now.code at result }
    ensures bounded { IfSome result (λ _. at + 7 < 2 ^ 31) }
    ensures beyond { (far : ℕ) → 2 ^ 31 ≤ far → get pools.now.code far ≡ None }
{
    let mut room = [0; WINDOW_SIZE];
    let window = Window::at(pools, at, &mut room);
    if window.bytes.len() < CASE_SIZE as usize {
        return None;
    }
    let Some(holder) = holder_of(read_raw(&window.five())) else {
        return None;
    };
    Some((holder, window.int2(HOLDER_SIZE)))
}

/// The distance at an address. `None` where none stands there.
fn read_jump(pools: &Pools, at: u32) -> Option<i16>
    ensures finds { FindsJump pools.now.code at result }
    ensures bounded { IfSome result (λ _. at + 2 < 2 ^ 31) }
{
    let mut room = [0; WINDOW_SIZE];
    let window = Window::at(pools, at, &mut room);
    if window.bytes.len() < 2 {
        return None;
    }
    Some(window.int2(0))
}

/// The case of a switch of this number, from 0, where the first stands at `at`: its holder, the address
/// of its distance, and that distance; of an address there is one case at most. `None` exactly where no
/// such case stands there, since bytes are missing or its holder means nothing. It takes no memory.
pub fn case_at(pools: &Pools, at: u32, nth: u16) -> Option<(Holder, u32, i16)>
    ensures finds { FindsCase pools.now.code at nth result }
    ensures only { (holder : AnyHolder) (jump : ℤ) → HasCase pools.now.code (at + 7 * nth) holder jump
        → result ≡ Some (holder, at + 7 * nth + 5, jump) }
    ensures bounded { IfSome result (λ found. found.1 + 2 < 2 ^ 31) }
{
    // An address that passes 32 bits has no case, as the last one of 32 bits hasn't.
    let place = at.saturating_add(u32::from(nth) * CASE_SIZE);
    let Some((holder, jump)) = read_case(pools, place) else {
        return None;
    };
    Some((holder, place + HOLDER_SIZE, jump))
}
