use thiserror::Error;

/// Why no instruction, method header or exception table is read at an address.
#[derive(Clone, Copy, Debug, PartialEq, Eq, Hash, Error)]
pub enum CodeRefusal {
    /// No byte of code stands at the address.
    #[error("no byte of code stands there")]
    NoByte,
    /// The byte at the address is no opcode.
    #[error("{0} is no opcode")]
    Opcode(u8),
    /// The opcode's operands aren't there whole, or name property 0 or object 0, or the holder of a
    /// case of a switch means nothing.
    #[error("an operand is bad")]
    Operand,
    /// Fewer than ten bytes of a method header are there.
    #[error("no method header stands there")]
    Header,
    /// The exception table that a method header names isn't whole.
    #[error("the exception table isn't whole")]
    Table,
}
