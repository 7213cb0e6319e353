use crate::instr::Instr;

/// Which variable of its method an instruction names, numbered from 0.
#[derive(Clone, Copy, Debug, PartialEq, Eq, Hash)]
pub enum Slot {
    /// None.
    NoSlot,
    /// A local variable.
    LocalSlot(u16),
    /// An argument.
    ArgumentSlot(u16),
}

/// An instruction that stands in code, with what its row of the instruction table says of it.
#[derive(Clone, Copy, Debug, PartialEq, Eq, Hash)]
pub struct Decoded {
    /// The instruction.
    pub instr: Instr,
    /// How many bytes it has.
    pub size: u32,
    /// How many values it takes off the stack, or looks at there.
    pub takes: u32,
    /// The variable that it names.
    pub slot: Slot,
}
