//! Why an instruction throws.
ghost use Rattle.std.specs.Prelude.{◌≡◌};
ghost use Rattle.t3_ops.specs.Faults.{fault_number};

/// Why an instruction throws, by what a story calls it: its number.
#[derive(Clone, Copy, Debug, PartialEq, Eq)]
pub enum Fault {
    /// An object is wanted, and the value is none.
    NotObject = 1,
    /// A method or a function got arguments that it doesn't take.
    ArgCount = 2,
    /// A value is of a kind that the operation doesn't take.
    Kind = 3,
    /// An integer is divided by 0.
    DivideByZero = 4,
    /// A number doesn't fit 32 bits.
    Overflow = 5,
    /// An index, or another number, is outside its range.
    IndexRange = 6,
    /// There is no such method of a kind of objects.
    NoMethod = 7,
    /// There is no such built-in function.
    NoBuiltin = 8,
    /// The frames have no room for one value more.
    StackFull = 9,
    /// A string would pass 65,535 bytes.
    TextLong = 10,
    /// A list or a vector would pass 65,535 elements.
    ListLong = 11,
    /// Something is to be said, and there is no function that says it.
    NoSay = 12,
    /// Too many pairs of values would have to be compared.
    CompareLong = 13,
    /// A value can't be the key of a table.
    KeyKind = 14,
    /// The object has no properties that can be set.
    CannotSet = 15,
    /// No object of this kind can be made.
    CannotMake = 16,
    /// A text is no name of a file.
    FileName = 17,
    /// There is no saved state in the file.
    NoSnapshot = 18,
    /// The saved state isn't whole, or isn't one of this image.
    BadSnapshot = 19,
    /// The object is gone.
    Stale = 20,
    /// No constant string, or no constant list, stands at an address.
    BadConstant = 21,
    /// A persistent object would have a transient superclass.
    TransientSuper = 22,
}

impl Fault {
    /// Its number, from 1 to 22, as it is shown.
    pub fn number(self) -> u16
        ensures { result ≡ fault_number self }
    {
        self as u16
    }
}
