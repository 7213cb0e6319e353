//! Parts of texts and lists.
ghost use Rattle.std.specs.Prelude.{◌≡◌, take, drop};
ghost use Rattle.t3_ops.specs.Values.{integer};
ghost use Rattle.t3_ops.specs.Indexing.{element_index_of};
ghost use Rattle.t3_kinds.specs.Deeds.{part_of, part_after, counted_part, size_of};

use t3_holder::Holder;
use t3_ops::Fault;

/// So many characters or elements at most, where that is told, after so many.
#[derive(Clone, Copy)]
pub struct Part {
    pub skipped: usize,
    pub count: Option<usize>,
}

/// The part from a number on, from 1, with a count.
pub(crate) fn part_from(from: Holder, count: Option<Holder>) -> Result<Part, Fault>
    ensures { result ≡ part_of from count }
{
    let Holder::Int(from) = from else {
        return Err(Fault::Kind);
    };
    match count {
        None => part_after(skipped(from), None),
        Some(Holder::Int(count)) => counted_part(skipped(from), count),
        Some(_) => Err(Fault::Kind),
    }
}

fn part_after(skipped: Option<usize>, count: Option<usize>) -> Result<Part, Fault>
    ensures { result ≡ part_after skipped count }
{
    match skipped {
        Some(skipped) => Ok(Part { skipped, count }),
        None => Err(Fault::IndexRange),
    }
}

fn counted_part(skipped: Option<usize>, count: i32) -> Result<Part, Fault>
    ensures { result ≡ counted_part skipped count }
{
    match (skipped, size(count)) {
        (Some(skipped), Some(count)) => Ok(Part {
            skipped,
            count: Some(count),
        }),
        _ => Err(Fault::IndexRange),
    }
}

/// How many come before the one of a number, from 1 on.
pub(crate) fn skipped(number: i32) -> Option<usize>
    ensures { result ≡ element_index_of number }
{
    if number < 1 {
        return None;
    }
    Some(number as usize - 1)
}

/// A number that is 0 or more.
fn size(number: i32) -> Option<usize>
    ensures { result ≡ size_of number }
{
    if number < 0 {
        return None;
    }
    Some(number as usize)
}
