//! Numbers, bytes and names, appended to bytes.
ghost use Rattle.std.specs.Prelude.{◌≡◌, length};
ghost use Rattle.std.specs.List.{flat_map};
ghost use Rattle.t3_holder.specs.NumberText.{little_endian};
ghost use Rattle.t3_blocks.specs.Spelling.{masked_bytes, name_text, IsName};
ghost use Rattle.t3_blocks.specs.Inner.Appending.{Appends};

use t3_holder::{NoMemory, u16_bytes, u32_bytes};

pub(crate) fn append_bytes(bytes: &[u8], out: &mut Vec<u8>) -> Result<(), NoMemory>
    ensures { Appends out.old.items out.new.items bytes.now result }
{
    out.extend_from_slice(bytes)?;
    Ok(())
}

pub(crate) fn append_u16(number: u16, out: &mut Vec<u8>) -> Result<(), NoMemory>
    ensures { Appends out.old.items out.new.items (little_endian 2 number) result }
{
    append_bytes(&u16_bytes(number), out)
}

pub(crate) fn append_u32(number: u32, out: &mut Vec<u8>) -> Result<(), NoMemory>
    ensures { Appends out.old.items out.new.items (little_endian 4 number) result }
{
    append_bytes(&u32_bytes(number), out)
}

pub(crate) fn append_numbers(numbers: &[u16], out: &mut Vec<u8>) -> Result<(), NoMemory>
    ensures { Appends out.old.items out.new.items (flat_map (little_endian 2) numbers.now) result }
{
    for number in numbers {
        append_u16(*number, out)?;
    }
    Ok(())
}

/// Appends the bytes of a page under their mask.
pub(crate) fn append_masked(bytes: &[u8], mask: u8, out: &mut Vec<u8>) -> Result<(), NoMemory>
    ensures { Appends out.old.items out.new.items (masked_bytes mask bytes.now) result }
{
    let start = out.len();
    out.extend_from_slice(bytes)?;
    lay_mask(&mut out[start..], mask);
    Ok(())
}

/// Lays a mask on each byte.
fn lay_mask(bytes: &mut [u8], mask: u8)
    ensures { bytes.new ≡ masked_bytes mask bytes.old }
{
    for byte in bytes.iter_mut() {
        *byte ^= mask;
    }
}

/// Appends a length-prefixed name.
pub(crate) fn append_name(name: &[u8], out: &mut Vec<u8>) -> Result<(), NoMemory>
    requires { IsName name.now }
    ensures { Appends out.old.items out.new.items (name_text name.now) result }
{
    append_bytes(&[name.len() as u8], out)?;
    append_bytes(name, out)
}
