use std::marker::Model;
use t3_holder::Bytes;

/// What a word of a line says in its field.
#[derive(Debug, Drop)]
pub enum Argument {
    /// A number, as the bits of its field: a negative one as two's complement of the field's bytes.
    Number(u32),
    /// `@L`: the address of a label.
    Address(Bytes),
    /// `~L`: the address of a label less that of the method.
    Offset(Bytes),
    /// The bytes of a quoted text or of HEX, or the label that a line puts.
    Text(Bytes),
}

/// The arguments of a line. Contracts see the list.
///
/// It is made from a `Vec`, and gives it back, without memory.
#[derive(Debug, Drop)]
pub struct Arguments(pub Vec<Argument>);

impl Model for Arguments {
    ghost use Rattle.std.specs.Prelude.{List};
    ghost use Rattle.t3_asm_line.specs.declared.argument.Argument.{Argument};

    ghost Value = { List Argument };

    ghost view = { λ a. a.0.items };
}
