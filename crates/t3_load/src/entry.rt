//! Where the story of an image begins.
ghost use Rattle.std.specs.Prelude.{◌≡◌, ◌∷◌, [], IfOk};
ghost use Rattle.t3_load.specs.Entries.{entries};
ghost use Rattle.t3_load.specs.Inner.Deciding.{Decides};

use crate::refusal::LoadRefusal;
use t3_blocks::Block;
use t3_image_read::PlacedBlock;

/// How many bytes a method's header has, and an entry of an exception table.
const SIZE: u16 = 10;

/// What an `ENTP` block says.
#[derive(Clone, Copy, Debug)]
pub(crate) struct Entry {
    code: u32,
    method_size: u16,
    exception_size: u16,
}

/// The address of the entry method: rules 1 to 3.
pub(crate) fn entry_method(blocks: &[PlacedBlock]) -> Result<u32, LoadRefusal>
    ensures entry { IfOk result (λ code. entries blocks.now
        ≡ record { code = code; method_size = 10; exception_size = 10 } ∷ []) }
    ensures decides { Decides blocks.now 1 4 result }
{
    let mut found = None;
    for placed in blocks {
        if let Block::Entry {
            code,
            method_size,
            exception_size,
            ..
        } = &placed.block
        {
            if found.is_some() {
                return Err(LoadRefusal::TwoEntries);
            }
            found = Some(Entry {
                code: *code,
                method_size: *method_size,
                exception_size: *exception_size,
            });
        }
    }
    match found {
        None => Err(LoadRefusal::NoEntry),
        Some(entry) if entry.method_size == SIZE && entry.exception_size == SIZE => Ok(entry.code),
        Some(_) => Err(LoadRefusal::HeaderSizes),
    }
}
