//! Lines with their places.
ghost use Rattle.std.specs.Prelude.{◌≡◌, ◌||◌};
ghost use Rattle.std.specs.List.{list_any};
ghost use Rattle.t3_blocks.specs.BlockName.{is_unknown_mandatory as is_refused};
ghost use Rattle.t3_asm.specs.Arguments.{is_address as is_address_here, is_offset as is_offset_here};
ghost use Rattle.t3_asm.specs.Forms.{is_resized as is_resized_line, has_size as has_this_size, is_label_line as is_label, has_page_size as has_page, has_method as has_method_here, is_good_block as is_good, has_good_name as has_good, is_in_order as in_order};

use crate::arguments::{block_name, extra_bytes, name_address, name_offset, short_at};
use crate::place::Place;
use crate::stage::Stage;
use t3_asm_line::{Arguments, Keyword};
use t3_blocks::{BlockKind, END_NAME};

/// A line of source that has words.
#[derive(Debug, Drop)]
pub struct Item {
    /// The number of the line, counted from 1.
    pub(crate) line: u32,
    pub(crate) place: Place,
    pub(crate) keyword: Keyword,
    pub(crate) arguments: Arguments,
}

impl Item {
    /// Whether it is a property with another number of bytes than its metaclass says.
    pub(crate) fn is_resized(&self) -> bool
        ensures { result
            ≡ is_resized_line self.now.place.stage self.now.keyword self.now.arguments }
    {
        match self.place.stage {
            Stage::Metaclass(size) => !self.has_size(size),
            _ => false,
        }
    }

    fn has_size(&self, size: u16) -> bool
        ensures { result ≡ has_this_size size self.now.keyword self.now.arguments }
    {
        match self.keyword {
            Keyword::Prop | Keyword::PropBytes => usize::from(size)
                == 2 + extra_bytes(self.keyword, &self.arguments.0).len(),
            _ => true,
        }
    }

    /// Whether it may stand where it stands.
    pub(crate) fn is_in_order(&self) -> bool
        ensures { result ≡ in_order self.now }
    {
        self.place.stage.takes(self.keyword)
            && self.has_page_size()
            && self.has_method()
            && self.has_good_name()
    }

    /// Whether the page's size is known where a label or `@L` in a page wants it.
    fn has_page_size(&self) -> bool
        ensures { result ≡ has_page self.now }
    {
        self.place.size.is_some() || !(self.place.stage == Stage::Page && self.wants_page_size())
    }

    fn wants_page_size(&self) -> bool
        ensures { result
            ≡ (is_label self.now.keyword || list_any is_address_here self.now.arguments) }
    {
        self.keyword == Keyword::Label || name_address(&self.arguments.0)
    }

    /// Whether the method has an address where `~L` wants it.
    fn has_method(&self) -> bool
        ensures { result ≡ has_method_here self.now }
    {
        self.place.method.is_some() || !name_offset(&self.arguments.0)
    }

    /// Whether a block isn't the end's, nor one that can't be skipped and has an unknown name.
    fn has_good_name(&self) -> bool
        ensures { result ≡ has_good self.now.keyword self.now.arguments }
    {
        match self.keyword {
            Keyword::Block => {
                is_good_block(
                    block_name(&self.arguments.0),
                    short_at(&self.arguments.0, 1),
                )
            }
            _ => true,
        }
    }
}

fn is_good_block(name: [u8; 4], flags: u16) -> bool
    ensures { result ≡ is_good name flags }
{
    !(END_NAME == name || is_unknown_mandatory(name, flags))
}

fn is_unknown_mandatory(name: [u8; 4], flags: u16) -> bool
    ensures { result ≡ is_refused name flags }
{
    BlockKind::of(name).is_unknown_mandatory(flags)
}
