/// The kinds of operands of instructions.
#[derive(Clone, Copy, Debug, PartialEq, Eq, Hash)]
pub enum Kind {
    /// An unsigned byte.
    Ubyte,
    /// A signed byte.
    Sbyte,
    /// Two bytes, unsigned.
    Uint2,
    /// Two bytes, signed: the distance of a jump from this operand's own address.
    Jump,
    /// Four bytes, unsigned.
    Uint4,
    /// Four bytes, signed.
    Int4,
    /// The number of a property in two bytes, other than 0.
    Property,
    /// The number of an object in four bytes, other than 0.
    Object,
    /// How many cases a switch has, in two bytes, then these, and then one more jump.
    Cases,
}
