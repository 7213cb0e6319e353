//! The header of an image, and those of its blocks.
ghost use Rattle.std.specs.Prelude.{◌≡◌, ◌↔◌, length, IsTrue};
ghost use Rattle.t3_blocks.specs.BlockName.{HasKind, is_unknown_mandatory};
ghost use Rattle.t3_image_read.specs.ImageText.{head_text, header_text};
ghost use Rattle.t3_image_read.specs.Validity.{IsHead, IsHeader};
ghost use Rattle.t3_image_read.specs.Refusal.{DiffersFromSignature, HasOtherVersion, IsLoadedEnd, EndsTooLate};
ghost use Rattle.t3_image_read.specs.Inner.Faults.{HasHeadFault, HasHeaderFault, IsGoodSoFar, head_why, header_why};

use crate::image::Head;
use crate::refusal::ReadWhy;
use t3_blocks::{BlockKind, IMAGE_LIMIT};
use t3_holder::{u16_at, u32_at};

/// How many bytes the header has.
pub const HEAD_SIZE: usize = 69;

/// How many bytes the header of a block has, which comes before its payload.
pub const HEADER_SIZE: usize = 10;

/// How many block headers an image has at most, that of the end among them.
const HEADER_LIMIT: usize = 65_536;

/// The bytes with which an image begins.
pub const SIGNATURE: [u8; 11] = *b"T3-image\r\n\x1a";

/// The one version that there is.
pub const VERSION: u16 = 1;

/// Where the version stands, after the signature.
pub(crate) const VERSION_AT: usize = 11;

/// Where the reserved bytes stand, after the version.
const RESERVED_AT: usize = 13;

/// Where the time stands, after the reserved bytes.
const STAMP_AT: usize = 45;

/// What comes before a payload.
#[derive(Clone, Copy, Debug)]
pub(crate) struct BlockHeader {
    pub(crate) name: [u8; 4],
    pub(crate) size: u32,
    pub(crate) flags: u16,
}

/// What is wrong with the beginning of a stream.
#[derive(Clone, Copy, Debug)]
pub(crate) enum HeadFault {
    Signature,
    Version,
}

/// What is wrong with the header of a block.
#[derive(Clone, Copy, Debug)]
pub(crate) enum HeaderFault {
    TooMany,
    EofSize,
    TooLong,
    UnknownMandatory,
}

impl HeadFault {
    /// The rule that it breaks.
    pub(crate) fn why(self) -> ReadWhy
        ensures { result ≡ head_why self }
    {
        match self {
            HeadFault::Signature => ReadWhy::Signature,
            HeadFault::Version => ReadWhy::Version,
        }
    }
}

impl HeaderFault {
    /// The rule that it breaks.
    pub(crate) fn why(self) -> ReadWhy
        ensures { result ≡ header_why self }
    {
        match self {
            HeaderFault::TooMany => ReadWhy::TooMany,
            HeaderFault::EofSize => ReadWhy::EofSize,
            HeaderFault::TooLong => ReadWhy::TooLong,
            HeaderFault::UnknownMandatory => ReadWhy::UnknownMandatory,
        }
    }
}

impl BlockHeader {
    /// The header that these ten bytes are.
    pub(crate) fn read(bytes: &[u8]) -> BlockHeader
        requires { length bytes.now ≡ 10 }
        ensures text { header_text result ≡ bytes.now }
        ensures fits { IsHeader result }
    {
        BlockHeader {
            name: [bytes[0], bytes[1], bytes[2], bytes[3]],
            size: u32_at(bytes, 4),
            flags: u16_at(bytes, 8),
        }
    }
}

/// Whether one of the first bytes that are there isn't that of the signature.
fn differs_from_signature(bytes: &[u8]) -> bool
    ensures { IsTrue result ↔ DiffersFromSignature bytes.now }
{
    let shown = bytes.len().min(SIGNATURE.len());
    bytes[..shown] != SIGNATURE[..shown]
}

/// Whether the version is there and another one.
fn has_other_version(bytes: &[u8]) -> bool
    ensures { IsTrue result ↔ HasOtherVersion bytes.now }
{
    bytes.len() >= RESERVED_AT && u16_at(bytes, VERSION_AT) != VERSION
}

/// What is wrong with the beginning of a stream, as far as it is there.
pub(crate) fn head_fault(bytes: &[u8]) -> Option<HeadFault>
    ensures { HasHeadFault bytes.now result }
{
    if differs_from_signature(bytes) {
        return Some(HeadFault::Signature);
    }
    if has_other_version(bytes) {
        return Some(HeadFault::Version);
    }
    None
}

/// The parts that are kept of a whole header.
pub(crate) fn read_head(bytes: &[u8]) -> Head
    requires size { length bytes.now ≡ 69 }
    requires good { IsGoodSoFar bytes.now }
    ensures text { head_text result ≡ bytes.now }
    ensures head { IsHead result }
{
    let mut reserved = [0; 32];
    reserved.copy_from_slice(&bytes[RESERVED_AT..STAMP_AT]);
    let mut stamp = [0; 24];
    stamp.copy_from_slice(&bytes[STAMP_AT..HEAD_SIZE]);
    Head { reserved, stamp }
}

/// Whether a block is an end with a payload.
fn is_loaded_end(header: BlockHeader, kind: BlockKind) -> bool
    requires { HasKind header.name kind }
    ensures { IsTrue result ↔ IsLoadedEnd header }
{
    match kind {
        BlockKind::End => header.size > 0,
        _ => false,
    }
}

/// Whether a block at a place ends past the greatest image.
fn ends_too_late(place: u32, header: BlockHeader) -> bool
    ensures { IsTrue result ↔ EndsTooLate place header }
{
    let end = u64::from(place) + HEADER_SIZE as u64 + u64::from(header.size);
    end > u64::from(IMAGE_LIMIT)
}

/// Whether a block is marked mandatory and means nothing here.
fn is_unknown(header: BlockHeader, kind: BlockKind) -> bool
    requires { HasKind header.name kind }
    ensures { result ≡ is_unknown_mandatory header.name header.flags }
{
    kind.is_unknown_mandatory(header.flags)
}

/// What is wrong first with a block header, at a place after so many others.
pub(crate) fn header_fault(
    count: usize,
    place: u32,
    header: BlockHeader,
    kind: BlockKind,
) -> Option<HeaderFault>
    requires { HasKind header.name kind }
    ensures { HasHeaderFault count place header result }
{
    if count >= HEADER_LIMIT {
        return Some(HeaderFault::TooMany);
    }
    if is_loaded_end(header, kind) {
        return Some(HeaderFault::EofSize);
    }
    if ends_too_late(place, header) {
        return Some(HeaderFault::TooLong);
    }
    if is_unknown(header, kind) {
        return Some(HeaderFault::UnknownMandatory);
    }
    None
}
