//! What an instruction asks for.
use t3_ops::Fault;

/// Why no instruction is carried out at an address.
#[derive(Clone, Copy, Debug, PartialEq, Eq)]
pub enum CodeWhy {
    /// No byte of code stands there.
    NoByte,
    /// The byte that stands there is no opcode.
    Opcode(u8),
    /// The operands don't stand there whole.
    Operand,
    /// No method header stands there.
    Header,
    /// The exception table that the method's header names isn't whole.
    Table,
    /// The instruction takes more operands than there are.
    Underflow,
    /// The instruction names a local that its method hasn't.
    Local,
    /// The instruction names an argument that its method hasn't got.
    Argument,
}

/// What an instruction asks for that says nothing. It owns nothing, so handing it on costs nothing.
#[derive(Clone, Copy, Debug)]
pub enum Quiet {
    /// To go on at the next instruction.
    Next,
    /// To go on at an address, or at what is none.
    Jump(Option<u32>),
    /// To call the method that [`crate::Core`] says.
    Call,
    /// To return. The register has been set.
    Return,
    /// To be given a line of input, by which the instruction is finished.
    WantLine,
    /// To make the exception of a fault, and throw it.
    Fault(Fault),
    /// To end the run, since nothing can be carried out at the frame's place.
    Stop(CodeWhy),
    /// To throw the object of a number.
    Throw(u32),
    /// To end the run, since the store has no room.
    StoreFull,
}
