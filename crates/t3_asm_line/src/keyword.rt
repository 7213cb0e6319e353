//! The table of lines.
ghost use Rattle.std.specs.Prelude.{◌≡◌, ◌<◌, length, slice_index_or, IfSome, find};
ghost use Rattle.t3_asm_line.specs.Instructions.{instr_at, opcode_named};
ghost use Rattle.t3_asm_line.specs.Keywords.{name_of, fields_of, is_form as is_form_of, keywords, keyword_of, row_at, if_form};
ghost use Rattle.t3_asm_line.specs.Inner.Rows.{fields_in};

use crate::field::Field;
use crate::instruction::{opcode, operand_field};
use t3_methods::{Kind, shape_of};

/// What a line begins with, and so which fields follow. `image`, `prop` and `method` have a keyword for
/// each number of fields.
#[derive(Clone, Copy, Debug, PartialEq, Eq, Hash)]
pub enum Keyword {
    /// `image`
    Image,
    /// `image HEX HEX`
    ImageHead,
    /// `block "NAME" FLAGS`
    Block,
    /// `end FLAGS`
    End,
    /// `entry N N N N N N N HEX`
    Entry,
    /// `pool K COUNT SIZE`
    Pool,
    /// `page K INDEX MASK`
    Page,
    /// `objects META FLAGS`
    Objects,
    /// `object NUMBER`
    Object,
    /// `metaclass "NAME" SIZE HEX`
    Metaclass,
    /// `prop N`
    Prop,
    /// `prop N HEX`
    PropBytes,
    /// `function-set "NAME"`
    FunctionSet,
    /// `symbol TAG BITS "NAME"`
    Symbol,
    /// `bytes HEX`
    Bytes,
    /// `u1 N`
    U1,
    /// `u2 N`
    U2,
    /// `u4 N`
    U4,
    /// `text "T"`
    Text,
    /// `hold TAG VALUE`
    Hold,
    /// `method P L D X`
    Method,
    /// `method P L D X O`
    MethodOptional,
    /// `table N`
    Table,
    /// `handler A B CLASS H`
    Handler,
    /// `case TAG VALUE J`
    Case,
    /// `default J`
    Default,
    /// `L:`, which has the label as its one argument, and no field.
    Label,
    /// An instruction, by its opcode, and its operands. `switch` has how many cases it has.
    Instruction(u8),
}

/// A line of the table.
#[derive(Drop)]
struct Row {
    name: &'static [u8],
    fields: Fields,
}

/// The fields of a line of the table.
#[derive(Clone, Copy)]
pub enum Fields {
    /// These.
    Listed(&'static [Field]),
    /// Those of operands of these kinds.
    Operands(&'static [Kind]),
}

impl Fields {
    /// How many fields there are.
    fn len(self) -> usize
        ensures { result ≡ length (fields_in self) }
    {
        match self {
            Fields::Listed(fields) => fields.len(),
            Fields::Operands(kinds) => kinds.len(),
        }
    }

    /// One of them, counted from 0.
    fn at(self, at: usize) -> Field
        requires { at < length (fields_in self) }
        ensures { result ≡ slice_index_or (fields_in self) at result }
    {
        match self {
            Fields::Listed(fields) => fields[at],
            Fields::Operands(kinds) => operand_field(kinds[at]),
        }
    }
}

/// The fields of an entry point: its address, the sizes of its tables, and the bytes that are kept.
const ENTRY: [Field; 8] = [
    Field::Address,
    Field::Uint2,
    Field::Uint2,
    Field::Uint2,
    Field::Uint2,
    Field::Uint2,
    Field::Uint2,
    Field::Bytes,
];

/// The keywords that begin a line by their name.
const KEYWORDS: [Keyword; 26] = [
    Keyword::Image,
    Keyword::ImageHead,
    Keyword::Block,
    Keyword::End,
    Keyword::Entry,
    Keyword::Pool,
    Keyword::Page,
    Keyword::Objects,
    Keyword::Object,
    Keyword::Metaclass,
    Keyword::Prop,
    Keyword::PropBytes,
    Keyword::FunctionSet,
    Keyword::Symbol,
    Keyword::Bytes,
    Keyword::U1,
    Keyword::U2,
    Keyword::U4,
    Keyword::Text,
    Keyword::Hold,
    Keyword::Method,
    Keyword::MethodOptional,
    Keyword::Table,
    Keyword::Handler,
    Keyword::Case,
    Keyword::Default,
];

impl Keyword {
    /// The word that begins a line of it; nothing for a label, and for a byte that is no opcode.
    pub fn name(self) -> &'static [u8]
        ensures { result.now ≡ name_of self }
    {
        self.row().name
    }

    /// How many fields stand behind that word.
    pub fn field_count(self) -> usize
        ensures { result ≡ length (fields_of self) }
    {
        self.row().fields.len()
    }

    /// One of these fields, counted from 0.
    pub fn field(self, at: usize) -> Field
        requires { at < length (fields_of self) }
        ensures { result ≡ slice_index_or (fields_of self) at result }
    {
        self.row().fields.at(at)
    }

    /// Whether a line of it begins with this word, and has so many others.
    fn is_form(self, word: &[u8], count: usize) -> bool
        ensures { result ≡ is_form_of word.now count self }
    {
        self.name() == word && self.field_count() == count
    }

    /// Its line of the table.
    fn row(self) -> Row
        ensures name { result.name.now ≡ name_of self }
        ensures fields { fields_in result.fields ≡ fields_of self }
    {
        use Field::{Address, BlockName, Jump, Name, Offset, Uint2, Uint4, Ubyte, Value};
        match self {
            Keyword::Image => begins(b"image", &[]),
            Keyword::ImageHead => begins(b"image", &[Field::Reserved, Field::Timestamp]),
            Keyword::Block => begins(b"block", &[BlockName, Uint2]),
            Keyword::End => begins(b"end", &[Uint2]),
            Keyword::Entry => begins(b"entry", &ENTRY),
            Keyword::Pool => begins(b"pool", &[Uint2, Uint4, Uint4]),
            Keyword::Page => begins(b"page", &[Uint2, Uint4, Ubyte]),
            Keyword::Objects => begins(b"objects", &[Uint2, Uint2]),
            Keyword::Object => begins(b"object", &[Uint4]),
            Keyword::Metaclass => begins(b"metaclass", &[Name, Uint2, Field::Bytes]),
            Keyword::Prop => begins(b"prop", &[Uint2]),
            Keyword::PropBytes => begins(b"prop", &[Uint2, Field::Bytes]),
            Keyword::FunctionSet => begins(b"function-set", &[Name]),
            Keyword::Symbol => begins(b"symbol", &[Ubyte, Value, Name]),
            Keyword::Bytes => begins(b"bytes", &[Field::Bytes]),
            Keyword::U1 => begins(b"u1", &[Ubyte]),
            Keyword::U2 => begins(b"u2", &[Offset]),
            Keyword::U4 => begins(b"u4", &[Address]),
            Keyword::Text => begins(b"text", &[Field::Text]),
            Keyword::Hold => begins(b"hold", &[Ubyte, Value]),
            Keyword::Method => begins(b"method", &[Ubyte, Uint2, Uint2, Offset]),
            Keyword::MethodOptional => begins(b"method", &[Ubyte, Uint2, Uint2, Offset, Ubyte]),
            Keyword::Table => begins(b"table", &[Uint2]),
            Keyword::Handler => begins(b"handler", &[Offset, Offset, Uint4, Offset]),
            Keyword::Case => begins(b"case", &[Ubyte, Value, Jump]),
            Keyword::Default => begins(b"default", &[Jump]),
            Keyword::Label => begins(b"", &[]),
            Keyword::Instruction(opcode) => instruction_row(opcode),
        }
    }
}

/// A line that begins by this name.
fn begins(name: &'static [u8], fields: &'static [Field]) -> Row
    ensures name { result.name.now ≡ name.now }
    ensures fields { fields_in result.fields ≡ fields.now }
{
    Row {
        name,
        fields: Fields::Listed(fields),
    }
}

/// The line of an opcode's instruction.
fn instruction_row(opcode: u8) -> Row
    ensures name { result.name.now ≡ (row_at (instr_at opcode)).name }
    ensures fields { fields_in result.fields ≡ (row_at (instr_at opcode)).fields }
{
    match shape_of(opcode) {
        Some(shape) => Row {
            name: shape.name.as_bytes(),
            fields: Fields::Operands(shape.kinds),
        },
        None => begins(b"", &[]),
    }
}

/// The keyword of a line that begins with this word, and has so many others.
#[tactic(auto, unfolding(crate::specs::Keywords::keyword_of))]
pub(crate) fn keyword_named(word: &[u8], count: usize) -> Option<Keyword>
    ensures keyword { result ≡ keyword_of word.now count }
    ensures count { IfSome result (λ keyword. length (fields_of keyword) ≡ count) }
{
    match listed_keyword(word, count) {
        Some(keyword) => Some(keyword),
        None => instruction(word, count),
    }
}

/// The same, but for instructions.
fn listed_keyword(word: &[u8], count: usize) -> Option<Keyword>
    ensures { result ≡ find (is_form_of word.now count) keywords }
{
    KEYWORDS
        .iter()
        .copied()
        .find(|keyword| keyword.is_form(word, count))
}

/// The instruction of a line that begins with this word, and has so many others.
fn instruction(word: &[u8], count: usize) -> Option<Keyword>
    ensures { result ≡ if_form word.now count (opcode_named word.now) }
{
    match opcode(word) {
        Some(opcode) if Keyword::Instruction(opcode).is_form(word, count) => {
            Some(Keyword::Instruction(opcode))
        }
        _ => None,
    }
}
