//! The names of blocks, and what they say.
ghost use Rattle.std.specs.Prelude.{◌≡◌, false, MatchOption};
ghost use Rattle.t3_blocks.specs.BlockName.{layout_names, is_among, HasKind};

/// The name of the block that ends an image.
pub const END_NAME: [u8; 4] = *b"EOF ";

/// The names of the blocks that are kept and passed on unread, whether mandatory or not.
const KEPT_NAMES: [[u8; 4]; 6] = [*b"GSYM", *b"MACR", *b"MHLS", *b"SRCF", *b"SINI", *b"MRES"];

/// The flag of a block that a reader may not skip.
const MANDATORY: u16 = 0x0001;

/// What a name says of a block.
#[derive(Clone, Copy, Debug, PartialEq, Eq)]
pub enum BlockKind {
    Entry,
    Objects,
    PoolDef,
    Page,
    Metas,
    Functions,
    Symbols,
    /// The payload is kept and passed on unread.
    Kept,
    /// The image ends.
    End,
    /// The name means nothing here.
    Unknown,
}

impl BlockKind {
    ghost use Rattle.std.specs.Prelude.{◌≡◌, ℕ, List};
    ghost use Rattle.t3_blocks.specs.BlockName.{HasKind, is_unknown_mandatory as is_refused};

    /// The kind of a block of this name.
    pub fn of(name: [u8; 4]) -> BlockKind
        ensures { HasKind name result }
    {
        match kind_with_layout(name) {
            Some(kind) => kind,
            None => without_layout(name),
        }
    }

    /// Whether a block of this kind is marked mandatory and means nothing here, so that no reader may go
    /// past it.
    pub fn is_unknown_mandatory(self, flags: u16) -> bool
        ensures { (name : List ℕ) → HasKind name self → result ≡ is_refused name flags }
    {
        match self {
            BlockKind::Unknown => flags & MANDATORY != 0,
            _ => false,
        }
    }
}

/// The kind of a block whose payload has a layout here.
fn kind_with_layout(name: [u8; 4]) -> Option<BlockKind>
    ensures { MatchOption result (is_among name layout_names ≡ false) (HasKind name) }
{
    match &name {
        b"ENTP" => Some(BlockKind::Entry),
        b"OBJS" => Some(BlockKind::Objects),
        b"CPDF" => Some(BlockKind::PoolDef),
        b"CPPG" => Some(BlockKind::Page),
        b"MCLD" => Some(BlockKind::Metas),
        b"FNSD" => Some(BlockKind::Functions),
        b"SYMD" => Some(BlockKind::Symbols),
        _ => None,
    }
}

/// The kind of a block whose payload has no layout here.
fn without_layout(name: [u8; 4]) -> BlockKind
    requires { is_among name layout_names ≡ false }
    ensures { HasKind name result }
{
    if name == END_NAME {
        BlockKind::End
    } else if KEPT_NAMES.contains(&name) {
        BlockKind::Kept
    } else {
        BlockKind::Unknown
    }
}
