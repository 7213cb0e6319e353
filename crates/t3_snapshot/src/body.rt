//! What lies between the head and the digest.
ghost use Rattle.std.specs.Prelude.{◌≡◌, ◌<◌, ◌^◌, ◌++◌, ℕ, MatchResult, MatchOption, length};
ghost use Rattle.t3_holder.specs.NumberText.{little_endian};
ghost use Rattle.t3_snapshot.specs.State.{One, with_counts};
ghost use Rattle.t3_snapshot.specs.Refusal.{IsMalformed};
ghost use Rattle.t3_snapshot.specs.declared.body.BodyRefusal.TheVariants.{NoMemory as Wanting};
ghost use Rattle.t3_snapshot.specs.Inner.Body.{TakesOne, HasRead, HasLast, FailsAt, StopsAt, IsBody};

use crate::builder::StateBuilder;
use crate::object::take_object;
use crate::read_error::ReadError;
use std::alloc::Global;
use t3_holder::{NoMemory, u32_at};
use t3_store::Persistent;

/// Why a body gives no state.
#[derive(Clone, Copy, Debug, PartialEq, Eq)]
pub enum BodyRefusal {
    /// The body is malformed after so many objects.
    Malformed { items: u32 },
    /// An allocation was refused.
    NoMemory,
}

impl From<NoMemory> for BodyRefusal {
    ghost from_gives = { λ _ e. e ≡ Wanting };

    fn from(_error: NoMemory) -> BodyRefusal {
        BodyRefusal::NoMemory
    }
}

/// Reads an object and adds it.
fn take_one<'a>(
    alloc: Global,
    builder: &mut StateBuilder,
    last: u32,
    next: u32,
    bytes: &'a [u8],
) -> Result<(u32, &'a [u8]), ReadError>
    requires { HasLast next last builder.old }
    ensures { TakesOne last next bytes.now builder.old builder.new result }
{
    let (object, rest) = take_object(alloc, last, next, bytes)?;
    let number = object.number;
    builder.add(number, object.object)?;
    Ok((number, rest))
}

/// Reads so many objects.
fn take_objects(
    alloc: Global,
    due: u32,
    next: u32,
    bytes: &[u8],
) -> Result<(StateBuilder, &[u8]), BodyRefusal>
    ensures { MatchResult result (λ x. (last : ℕ) × HasRead next bytes.now x.0 last due x.1.now)
        (FailsAt (StopsAt next due bytes.now)) }
{
    let mut builder = StateBuilder::new(alloc, next);
    let mut last = 0;
    let mut items = 0;
    let mut rest = bytes;
    while items < due {
        match take_one(alloc, &mut builder, last, next, rest) {
            Ok((number, after)) => {
                last = number;
                rest = after;
                items += 1;
            }
            Err(ReadError::Misspelled) => return Err(BodyRefusal::Malformed { items }),
            Err(ReadError::NoMemory) => return Err(BodyRefusal::NoMemory),
        }
    }
    Ok((builder, rest))
}

/// The next number and the object count with which a body begins, and the bytes after them.
fn take_head(body: &[u8]) -> Option<(u32, u32, &[u8])>
    ensures { MatchOption result (length body.now < 8) (λ head.
        (head.0 < 2 ^ 32) × (head.1 < 2 ^ 32) × (body.now ≡ with_counts One head.0 head.1 head.2.now)) }
{
    if body.len() < 8 {
        return None;
    }
    let (_, objects) = body.split_at(8);
    Some((u32_at(body, 0), u32_at(body, 4), objects))
}

/// The state and the next number that a body says.
pub(crate) fn decode_body(alloc: Global, body: &[u8]) -> Result<(Persistent, u32), BodyRefusal>
    ensures { MatchResult result (λ x. IsBody One body.now x.0 x.1)
        (FailsAt (IsMalformed One body.now)) }
{
    match take_head(body) {
        Some((next, due, objects)) => decode_objects(alloc, body, next, due, objects),
        None => Err(BodyRefusal::Malformed { items: 0 }),
    }
}

/// The state of so many objects, with this next number.
fn decode_objects(
    alloc: Global,
    body: &[u8],
    next: u32,
    due: u32,
    objects: &[u8],
) -> Result<(Persistent, u32), BodyRefusal>
    requires { body.now ≡ with_counts One next due objects.now }
    ensures { MatchResult result (λ x. IsBody One body.now x.0 x.1)
        (FailsAt (IsMalformed One body.now)) }
{
    let _ = body;
    let (builder, rest) = take_objects(alloc, due, next, objects)?;
    if !rest.is_empty() {
        return Err(BodyRefusal::Malformed { items: due });
    }
    match builder.finish(alloc)? {
        Some(state) => Ok((state, next)),
        None => Err(BodyRefusal::Malformed { items: due }),
    }
}
