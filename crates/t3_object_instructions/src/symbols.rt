//! What the symbols of an image name for the machine.
ghost use Rattle.std.specs.Prelude.{◌≡◌};
ghost use Rattle.t3_object_instructions.specs.Symbols.{object_named as object_by, property_named as property_by};

use t3_load::SymbolTable;

/// The type of a data holder that is a reference to an object.
const OBJECT: u8 = 5;

/// The type of one that is a property.
const PROPERTY: u8 = 6;

/// The number of the object that a symbol names, if it names one.
pub(crate) fn object_named(symbols: &SymbolTable, name: &[u8]) -> Option<u32>
    ensures { result ≡ object_by symbols.now name.now }
{
    let raw = symbols.raw(name)?;
    if raw.tag == OBJECT {
        Some(raw.bits)
    } else {
        None
    }
}

/// The number of the property that a symbol names, if it names one. The low 16 bits count.
pub(crate) fn property_named(symbols: &SymbolTable, name: &[u8]) -> Option<u16>
    ensures { result ≡ property_by symbols.now name.now }
{
    let raw = symbols.raw(name)?;
    if raw.tag != PROPERTY {
        return None;
    }
    match raw.bits % 0x1_0000 {
        0 => None,
        number => Some(number as u16),
    }
}
