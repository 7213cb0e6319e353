//! Bytes of the input, taken piece by piece while a line is wanted.
ghost use Rattle.std.specs.Prelude.{◌-◌, ◌^◌, ◌<◌, ◌≤◌, ◌≡◌, MatchOption, length, take, drop, slice_index};
ghost use Rattle.t3_io.specs.Cause.{MovesFaults};
ghost use Rattle.t3_lines.specs.Lines.{limit, ended_lines};
ghost use Rattle.t3_lines.specs.Inner.Taking.{AddsPiece, TakesWanted, IsLineEnd, FindsEnd};

use t3_io::{Console, DeviceRefusal};

/// So many bytes are taken at most.
pub(crate) const LIMIT: usize = 16_777_216;

const PIECE: usize = 4096;

const NEWLINE: u8 = b'\n';

/// The place of the first newline.
fn newline_in(bytes: &[u8]) -> Option<usize>
    ensures { MatchOption result (ended_lines bytes.now ≡ 0) (λ place. IsLineEnd bytes.now place) }
{
    for (place, byte) in bytes.iter().enumerate() {
        if *byte == NEWLINE {
            return Some(place);
        }
    }
    None
}

/// Takes a piece of the input, and says how many bytes it has.
fn take_piece<C: Console>(taken: &mut Vec<u8>, console: &mut C) -> Result<usize, DeviceRefusal>
    requires room { length taken.old.items < limit }
    requires faults { C.faults console.old < 2 ^ 64 - 1 }
    ensures piece { AddsPiece taken.old.items taken.new.items (C.session console.old)
        (C.session console.new) result }
    ensures cause { MovesFaults (C.faults console.old) (C.faults console.new) result }
{
    let mut piece = [0; PIECE];
    let room = PIECE.min(LIMIT - taken.len());
    taken.reserve(room)?;
    let count = console.read(&mut piece[..room])?;
    // There is room, so this takes no memory.
    let _ = taken.extend_from_slice(&piece[..count]);
    Ok(count)
}

/// Takes pieces until one has a newline, the input has ended or the limit is reached. Answers the place of
/// that newline.
fn take_to_newline<C: Console>(
    taken: &mut Vec<u8>,
    is_ended: &mut bool,
    console: &mut C,
) -> Result<Option<usize>, DeviceRefusal>
    requires limited { length taken.old.items ≤ limit }
    requires faults { C.faults console.old < 2 ^ 64 - 1 }
    ensures takes { TakesWanted (ended_lines taken.old.items) taken.old.items taken.new.items
        is_ended.old is_ended.new (C.session console.old) (C.session console.new) }
    ensures found { FindsEnd (length taken.old.items) taken.new.items is_ended.new result }
    ensures cause { MovesFaults (C.faults console.old) (C.faults console.new) result }
{
    if *is_ended {
        return Ok(None);
    }
    while taken.len() < LIMIT {
        let start = taken.len();
        if take_piece(taken, console)? == 0 {
            *is_ended = true;
            return Ok(None);
        }
        if let Some(place) = newline_in(&taken[start..]) {
            return Ok(Some(start + place));
        }
    }
    Ok(None)
}

/// The place of the newline that ends the line at `start`, for which pieces are taken while there is none.
pub(crate) fn take_line_end<C: Console>(
    taken: &mut Vec<u8>,
    start: usize,
    is_ended: &mut bool,
    console: &mut C,
) -> Result<Option<usize>, DeviceRefusal>
    requires start { start ≤ length taken.old.items }
    requires limited { length taken.old.items ≤ limit }
    requires faults { C.faults console.old < 2 ^ 64 - 1 }
    ensures takes { TakesWanted (ended_lines (take start taken.old.items)) taken.old.items
        taken.new.items is_ended.old is_ended.new (C.session console.old) (C.session console.new) }
    ensures found { FindsEnd start taken.new.items is_ended.new result }
    ensures cause { MovesFaults (C.faults console.old) (C.faults console.new) result }
{
    match newline_in(&taken[start..]) {
        Some(place) => Ok(Some(start + place)),
        None => take_to_newline(taken, is_ended, console),
    }
}
