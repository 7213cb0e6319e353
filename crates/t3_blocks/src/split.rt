//! Parts that begin some bytes, and what follows them.
ghost use Rattle.std.specs.Prelude.{◌≡◌, ◌<◌, ◌^◌, ◌++◌, length, MatchOption};
ghost use Rattle.t3_holder.specs.NumberText.{little_endian};
ghost use Rattle.t3_holder.specs.HolderText.{raw_text, IsRaw};
ghost use Rattle.t3_blocks.specs.Spelling.{name_text, IsName, frame_text, IsFrame};
ghost use Rattle.t3_blocks.specs.Inner.Lists.{SplitsItem};

use t3_holder::{Raw, read_raw, u16_at, u32_at};

/// How many bytes a data holder has.
pub(crate) const RAW_SIZE: usize = 5;

/// A number of two bytes.
pub(crate) fn split_u16(bytes: &[u8]) -> Option<(u16, &[u8])>
    ensures { MatchOption result (length bytes.now < 2)
        (λ parts. (parts.0 < 2 ^ 16) × (bytes.now ≡ little_endian 2 parts.0 ++ parts.1.now)) }
{
    let (number, trailing) = bytes.split_at_checked(2)?;
    Some((u16_at(number, 0), trailing))
}

/// A number of four bytes.
pub(crate) fn split_u32(bytes: &[u8]) -> Option<(u32, &[u8])>
    ensures { MatchOption result (length bytes.now < 4)
        (λ parts. (parts.0 < 2 ^ 32) × (bytes.now ≡ little_endian 4 parts.0 ++ parts.1.now)) }
{
    let (number, trailing) = bytes.split_at_checked(4)?;
    Some((u32_at(number, 0), trailing))
}

/// A length-prefixed name.
pub(crate) fn split_name(bytes: &[u8]) -> Option<(&[u8], &[u8])>
    ensures { SplitsItem name_text IsName bytes.now result }
{
    let (length, rest) = bytes.split_first()?;
    rest.split_at_checked(usize::from(*length))
}

/// The body of an entry, which comes after its size in two bytes. The size is counted from its own first
/// byte.
pub(crate) fn split_frame(bytes: &[u8]) -> Option<(&[u8], &[u8])>
    ensures { SplitsItem frame_text IsFrame bytes.now result }
{
    let (size, rest) = split_u16(bytes)?;
    rest.split_at_checked(usize::from(size).checked_sub(2)?)
}

/// A data holder.
pub(crate) fn split_raw(bytes: &[u8]) -> Option<(Raw, &[u8])>
    ensures { MatchOption result (length bytes.now < 5)
        (λ parts. IsRaw parts.0 × (bytes.now ≡ raw_text parts.0 ++ parts.1.now)) }
{
    if bytes.len() < RAW_SIZE {
        return None;
    }
    let raw = read_raw(&[bytes[0], bytes[1], bytes[2], bytes[3], bytes[4]]);
    Some((raw, &bytes[RAW_SIZE..]))
}
