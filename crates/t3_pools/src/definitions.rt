//! What the definitions of the two pools say.
ghost use Rattle.std.specs.Prelude.{◌≡◌, ◌≤◌, ◌*◌, ◌^◌, nat_le};
ghost use Rattle.t3_pools.specs.Pool.{said_of};
ghost use Rattle.t3_pools.specs.Inner.Gathering.{SaysOf, FindsLayouts};

use crate::refusal::DefinitionRule;
use t3_blocks::Block;
use t3_image_read::PlacedBlock;

/// The numbers of the pools of code and of constants in blocks.
pub(crate) const CODE: u16 = 1;

pub(crate) const CONSTANTS: u16 = 2;

/// How many pages a pool has, and how many bytes each of them at most.
#[derive(Clone, Copy, Debug)]
pub(crate) struct Layout {
    pub(crate) count: u32,
    pub(crate) size: u32,
}

/// What the definitions of one pool say.
#[derive(Clone, Copy, Debug)]
pub(crate) enum Definitions {
    /// There is none.
    Absent,
    Once(Layout),
    /// There are two or more.
    Repeated,
}

/// The layouts of code and of constants, or the first rule that their definitions break.
pub(crate) fn layouts(blocks: &[PlacedBlock]) -> Result<(Layout, Layout), DefinitionRule>
    ensures { FindsLayouts blocks.now result }
{
    let none = Layout { count: 0, size: 0 };
    let (code, constants) = match (
        definitions_of(blocks, CODE),
        definitions_of(blocks, CONSTANTS),
    ) {
        (Definitions::Absent, _) => return Err(DefinitionRule::NoCode),
        (Definitions::Once(code), Definitions::Once(constants)) => (code, constants),
        (Definitions::Once(code), Definitions::Absent) => (code, none),
        _ => return Err(DefinitionRule::TwoDefs),
    };
    if is_wide(code) || is_wide(constants) {
        return Err(DefinitionRule::TooWide);
    }
    Ok((code, constants))
}

/// Whether the page count times the page size is 2^31 or more.
fn is_wide(layout: Layout) -> bool
    ensures { result ≡ nat_le (2 ^ 31) (layout.count * layout.size) }
{
    u64::from(layout.count) * u64::from(layout.size) >= 1 << 31
}

/// What the definitions of the pool of a number say.
fn definitions_of(blocks: &[PlacedBlock], number: u16) -> Definitions
    ensures { SaysOf number (said_of number blocks.now).definitions result }
{
    let mut found = None;
    for placed in blocks {
        if let Block::PoolDef { pool, count, size } = &placed.block {
            if *pool == number {
                if found.is_some() {
                    return Definitions::Repeated;
                }
                found = Some(Layout {
                    count: *count,
                    size: *size,
                });
            }
        }
    }
    match found {
        Some(layout) => Definitions::Once(layout),
        None => Definitions::Absent,
    }
}
