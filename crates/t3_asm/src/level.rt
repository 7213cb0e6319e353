//! How far what a line begins goes on.
ghost use Rattle.std.specs.Prelude.{◌≡◌};
ghost use Rattle.t3_asm.specs.Blocks.{is_block as begins_block, ends_block as closes_block, is_object as begins_object, is_meta as begins_meta, is_prop as begins_prop, is_function_set as begins_function_set, is_symbol as begins_symbol, ends as ends_level};

use t3_asm_line::Keyword;

/// What lines stand in.
#[derive(Clone, Copy, Debug, PartialEq, Eq, Hash)]
pub enum Level {
    /// The image, which no line ends.
    Image,
    /// A block, which the next one ends, or the end.
    InBlock,
    /// An object or a metaclass, which the next one ends, or the block's end.
    InEntry,
}

impl Level {
    /// Whether a line of this keyword ends it.
    pub(crate) fn is_ended_by(self, keyword: Keyword) -> bool
        ensures { result ≡ ends_level self keyword }
    {
        match self {
            Level::Image => false,
            Level::InBlock => ends_block(keyword),
            Level::InEntry => ends_block(keyword) || is_object(keyword) || is_meta(keyword),
        }
    }
}

pub(crate) fn is_block(keyword: Keyword) -> bool
    ensures { result ≡ begins_block keyword }
{
    matches!(keyword, Keyword::Block)
}

pub(crate) fn ends_block(keyword: Keyword) -> bool
    ensures { result ≡ closes_block keyword }
{
    matches!(keyword, Keyword::Block | Keyword::End)
}

pub(crate) fn is_object(keyword: Keyword) -> bool
    ensures { result ≡ begins_object keyword }
{
    matches!(keyword, Keyword::Object)
}

pub(crate) fn is_meta(keyword: Keyword) -> bool
    ensures { result ≡ begins_meta keyword }
{
    matches!(keyword, Keyword::Metaclass)
}

pub(crate) fn is_prop(keyword: Keyword) -> bool
    ensures { result ≡ begins_prop keyword }
{
    matches!(keyword, Keyword::Prop | Keyword::PropBytes)
}

pub(crate) fn is_function_set(keyword: Keyword) -> bool
    ensures { result ≡ begins_function_set keyword }
{
    matches!(keyword, Keyword::FunctionSet)
}

pub(crate) fn is_symbol(keyword: Keyword) -> bool
    ensures { result ≡ begins_symbol keyword }
{
    matches!(keyword, Keyword::Symbol)
}
