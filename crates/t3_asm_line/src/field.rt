//! The fields of lines.
ghost use Rattle.std.specs.Prelude.{◌≡◌};
ghost use Rattle.t3_asm_line.specs.Fields.{layout_of, IsSound};

/// What stands in one place of a line.
#[derive(Clone, Copy, Debug, PartialEq, Eq, Hash)]
pub enum Field {
    /// A number from 0 to 255.
    Ubyte,
    /// A number from 0 to 65,535.
    Uint2,
    /// A number from 0 to 4,294,967,295.
    Uint4,
    /// A number from -128 to 127.
    Sbyte,
    /// A number from -2,147,483,648 to 2,147,483,647.
    Int4,
    /// A number from 0 to 4,294,967,295, or `@L`.
    Address,
    /// A number from 0 to 65,535, or `~L`.
    Offset,
    /// A number from -2,147,483,648 to 4,294,967,295, or `@L`.
    Value,
    /// A number from -32,768 to 32,767, or `@L`.
    Jump,
    /// A quoted text of four bytes.
    BlockName,
    /// A quoted text of at most 255 bytes.
    Name,
    /// A quoted text of at most 65,535 bytes.
    Text,
    /// HEX of 32 bytes.
    Reserved,
    /// HEX of 24 bytes.
    Timestamp,
    /// HEX.
    Bytes,
}

/// What may stand in place of a number.
#[derive(Clone, Copy, Debug, PartialEq, Eq, Hash)]
pub enum Reference {
    /// Nothing else.
    Nothing,
    /// `@L`, the address of a label.
    Address,
    /// `~L`, the address of a label less that of the method.
    Offset,
}

/// How a field is written, and what it holds.
#[derive(Clone, Copy, Debug, PartialEq, Eq, Hash)]
pub enum Layout {
    /// A number in so many bytes, at most so far below 0 and at most so great.
    Number {
        width: u8,
        below: u32,
        most: u32,
        reference: Reference,
    },
    /// A quoted text of so many bytes at least, and at most so many.
    Quoted {
        least: u16,
        most: Option<u16>,
    },
    /// HEX of so many bytes at least, and at most so many.
    Hex {
        least: u16,
        most: Option<u16>,
    },
}

impl Field {
    /// How it is written, and what it holds.
    pub fn layout(self) -> Layout
        ensures layout { result ≡ layout_of self }
        ensures sound { IsSound result }
    {
        match self {
            Field::Ubyte => number(1, 0, 0xFF, Reference::Nothing),
            Field::Uint2 => number(2, 0, 0xFFFF, Reference::Nothing),
            Field::Uint4 => number(4, 0, u32::MAX, Reference::Nothing),
            Field::Sbyte => number(1, 0x80, 0x7F, Reference::Nothing),
            Field::Int4 => number(4, 0x8000_0000, 0x7FFF_FFFF, Reference::Nothing),
            Field::Address => number(4, 0, u32::MAX, Reference::Address),
            Field::Offset => number(2, 0, 0xFFFF, Reference::Offset),
            Field::Value => number(4, 0x8000_0000, u32::MAX, Reference::Address),
            Field::Jump => number(2, 0x8000, 0x7FFF, Reference::Address),
            Field::BlockName => quoted(4, 4),
            Field::Name => quoted(0, 255),
            Field::Text => quoted(0, u16::MAX),
            Field::Reserved => hex_of_size(32),
            Field::Timestamp => hex_of_size(24),
            Field::Bytes => Layout::Hex {
                least: 0,
                most: None,
            },
        }
    }
}

fn number(width: u8, below: u32, most: u32, reference: Reference) -> Layout
    ensures { result ≡ Layout.Number width below most reference }
{
    Layout::Number {
        width,
        below,
        most,
        reference,
    }
}

fn quoted(least: u16, most: u16) -> Layout
    ensures { result ≡ Layout.Quoted least (Some most) }
{
    Layout::Quoted {
        least,
        most: Some(most),
    }
}

fn hex_of_size(size: u16) -> Layout
    ensures { result ≡ Layout.Hex size (Some size) }
{
    Layout::Hex {
        least: size,
        most: Some(size),
    }
}
