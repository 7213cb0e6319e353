//! Metaclasses, function sets, symbols and static objects.
use crate::images::block;
use std::alloc::{AllocError, Global};

/// A number as two bytes.
fn two(number: usize) -> [u8; 2] {
    u16::try_from(number).unwrap_or(0).to_le_bytes()
}

/// A name behind its length.
fn named(alloc: Global, name: &[u8]) -> Result<Vec<u8>, AllocError> {
    let mut bytes = Vec::new(alloc);
    bytes.push(u8::try_from(name.len()).unwrap_or(0))?;
    bytes.extend_from_slice(name)?;
    Ok(bytes)
}

/// A block of so many items, which these bytes spell.
fn counted(alloc: Global, name: &[u8], count: usize, items: &[u8]) -> Result<Vec<u8>, AllocError> {
    let mut payload = Vec::from_slice(alloc, &two(count))?;
    payload.extend_from_slice(items)?;
    block(alloc, name, &payload)
}

/// The metaclasses of these names, without properties.
pub fn metaclasses(alloc: Global, names: &[&[u8]]) -> Result<Vec<u8>, AllocError> {
    metaclasses_with(alloc, names, b"\x00\x00\x02\x00")
}

/// The metaclasses of these names, each with these properties behind their count and size.
pub fn metaclasses_with(
    alloc: Global,
    names: &[&[u8]],
    props: &[u8],
) -> Result<Vec<u8>, AllocError> {
    let mut items = Vec::new(alloc);
    for name in names {
        let mut entry = named(alloc, name)?;
        entry.extend_from_slice(props)?;
        items.extend_from_slice(&two(entry.len().wrapping_add(2)))?;
        items.extend_from_slice(&entry)?;
    }
    counted(alloc, b"MCLD", names.len(), &items)
}

/// The function sets of these names.
pub fn function_sets(alloc: Global, names: &[&[u8]]) -> Result<Vec<u8>, AllocError> {
    let mut items = Vec::new(alloc);
    for name in names {
        items.extend_from_slice(&named(alloc, name)?)?;
    }
    counted(alloc, b"FNSD", names.len(), &items)
}

/// The symbols of these names, each an integer.
pub fn symbols(alloc: Global, symbols: &[(&[u8], u8)]) -> Result<Vec<u8>, AllocError> {
    let mut items = Vec::new(alloc);
    for (name, number) in symbols {
        items.extend_from_slice(&[7, *number, 0, 0, 0])?;
        items.extend_from_slice(&named(alloc, name)?)?;
    }
    counted(alloc, b"SYMD", symbols.len(), &items)
}

/// A block of one object: its metaclass's index, whether it is transient, its number and its bytes.
pub fn object_block(
    alloc: Global,
    metaclass: u16,
    transient: bool,
    number: u32,
    bytes: &[u8],
) -> Result<Vec<u8>, AllocError> {
    let flags: u16 = if transient { 2 } else { 0 };
    let mut items = Vec::from_slice(alloc, &metaclass.to_le_bytes())?;
    items.extend_from_slice(&flags.to_le_bytes())?;
    items.extend_from_slice(&number.to_le_bytes())?;
    items.extend_from_slice(&two(bytes.len()))?;
    items.extend_from_slice(bytes)?;
    counted(alloc, b"OBJS", 1, &items)
}
