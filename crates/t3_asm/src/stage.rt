//! What may stand behind the lines so far.
ghost use Rattle.std.specs.Prelude.{◌≡◌, ◌==◌};
ghost use Rattle.std.specs.Int.{bit_at};
ghost use Rattle.std.specs.Str.{bytes_eq};
ghost use Rattle.t3_blocks.specs.Spelling.{size_width as width_by};
ghost use Rattle.t3_asm.specs.Source.{flags_in as flags_by};
ghost use Rattle.t3_asm.specs.Stages.{stage_of_name as begun_by, stage_behind as behind_line, takes as takes_line, takes_block as ends_here, takes_content as has_content, takes_kept as has_bytes, takes_object as has_objects, takes_metaclass as has_metaclasses, object_stage};

use crate::arguments::{block_name, short_at};
use t3_asm_line::{Argument, Keyword};

/// The flag of a block of objects whose sizes have four bytes.
const LARGE_SIZES: u16 = 0x0001;

/// Where a line stands: which line is due, or what the open block takes.
#[derive(Clone, Copy, Debug, PartialEq, Eq, Hash)]
pub enum Stage {
    /// The `image` line is due.
    Image,
    /// A `block` or `end` line is due.
    Between,
    /// The `entry` line is due.
    EntryHead,
    /// The `pool` line is due.
    PoolHead,
    /// The `page` line is due.
    PageHead,
    /// The `objects` line is due.
    ObjectsHead,
    /// What a page has.
    Page,
    /// Objects of a block with these flags, before the first.
    Objects(u16),
    /// What an object has, in a block with these flags.
    Object(u16),
    /// Metaclasses, before the first.
    Metaclasses,
    /// Properties of this size, of a metaclass.
    Metaclass(u16),
    FunctionSets,
    Symbols,
    /// The bytes of a block that is kept.
    Kept,
    /// Nothing more.
    End,
}

impl Stage {
    /// What a block of this name takes first.
    #[tactic(auto, unfolding(crate::specs::Stages::stage_of_name))]
    pub(crate) fn of_block(name: [u8; 4]) -> Stage
        ensures { result ≡ begun_by name }
    {
        if is_named(*b"ENTP", name) {
            Stage::EntryHead
        } else if is_named(*b"OBJS", name) {
            Stage::ObjectsHead
        } else if is_named(*b"CPDF", name) {
            Stage::PoolHead
        } else if is_named(*b"CPPG", name) {
            Stage::PageHead
        } else if is_named(*b"MCLD", name) {
            Stage::Metaclasses
        } else if is_named(*b"FNSD", name) {
            Stage::FunctionSets
        } else if is_named(*b"SYMD", name) {
            Stage::Symbols
        } else {
            Stage::Kept
        }
    }

    /// Where the line stands that follows a line which stands here.
    pub(crate) fn behind(self, keyword: Keyword, arguments: &[Argument]) -> Stage
        ensures { result ≡ behind_line self keyword arguments.now }
    {
        match keyword {
            Keyword::Image => Stage::Between,
            Keyword::ImageHead => Stage::Between,
            Keyword::Block => Stage::of_block(block_name(arguments)),
            Keyword::End => Stage::End,
            Keyword::Entry => Stage::Between,
            Keyword::Pool => Stage::Between,
            Keyword::Page => Stage::Page,
            Keyword::Objects => Stage::Objects(short_at(arguments, 1)),
            Keyword::Object => self.in_object(),
            Keyword::Metaclass => Stage::Metaclass(short_at(arguments, 1)),
            _ => self,
        }
    }

    /// Where what an object has stands, whose line stands here.
    fn in_object(self) -> Stage
        ensures { result ≡ object_stage self }
    {
        match self {
            Stage::Objects(flags) => Stage::Object(flags),
            _ => self,
        }
    }

    /// The flags of the block of objects that is open.
    pub(crate) fn flags(self) -> u16
        ensures { result ≡ flags_by self }
    {
        match self {
            Stage::Objects(flags) | Stage::Object(flags) => flags,
            _ => 0,
        }
    }

    /// Whether a line of this keyword may stand here.
    pub(crate) fn takes(self, keyword: Keyword) -> bool
        ensures { result ≡ takes_line self keyword }
    {
        match keyword {
            Keyword::Image | Keyword::ImageHead => self == Stage::Image,
            Keyword::Block | Keyword::End => self.takes_block(),
            Keyword::Entry => self == Stage::EntryHead,
            Keyword::Pool => self == Stage::PoolHead,
            Keyword::Page => self == Stage::PageHead,
            Keyword::Objects => self == Stage::ObjectsHead,
            Keyword::Object => self.takes_object(),
            Keyword::Metaclass => self.takes_metaclass(),
            Keyword::Prop | Keyword::PropBytes => matches!(self, Stage::Metaclass(_)),
            Keyword::FunctionSet => self == Stage::FunctionSets,
            Keyword::Symbol => self == Stage::Symbols,
            Keyword::Bytes => self.takes_kept(),
            Keyword::U1 | Keyword::U2 | Keyword::U4 | Keyword::Text | Keyword::Hold => {
                self.takes_content()
            }
            _ => self == Stage::Page,
        }
    }

    /// Whether the open block may end here, or none is open.
    fn takes_block(self) -> bool
        ensures { result ≡ ends_here self }
    {
        !matches!(
            self,
            Stage::Image
                | Stage::EntryHead
                | Stage::PoolHead
                | Stage::PageHead
                | Stage::ObjectsHead
                | Stage::End
        )
    }

    /// Whether what pages and objects have may stand here.
    fn takes_content(self) -> bool
        ensures { result ≡ has_content self }
    {
        matches!(self, Stage::Page | Stage::Object(_))
    }

    fn takes_kept(self) -> bool
        ensures { result ≡ has_bytes self }
    {
        matches!(self, Stage::Page | Stage::Object(_) | Stage::Kept)
    }

    fn takes_object(self) -> bool
        ensures { result ≡ has_objects self }
    {
        matches!(self, Stage::Objects(_) | Stage::Object(_))
    }

    fn takes_metaclass(self) -> bool
        ensures { result ≡ has_metaclasses self }
    {
        matches!(self, Stage::Metaclasses | Stage::Metaclass(_))
    }
}

fn is_named(known: [u8; 4], name: [u8; 4]) -> bool
    ensures { result ≡ bytes_eq known name }
{
    known == name
}

/// Whether a block of objects with these flags has sizes of four bytes and not two.
pub(crate) fn has_large_sizes(flags: u16) -> bool
    ensures { result ≡ (bit_at flags 0 == 1) }
{
    flags & LARGE_SIZES != 0
}

/// How many bytes a size has in such a block.
pub(crate) fn size_width(flags: u16) -> u8
    ensures { result ≡ width_by flags }
{
    if has_large_sizes(flags) { 4 } else { 2 }
}
