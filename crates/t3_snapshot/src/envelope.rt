//! What stands around the body of a state: its head, and its digest.
ghost use Rattle.std.specs.Prelude.{◌≡◌, ◌↔◌, ◌≤◌, ◌<◌, length, take, drop, IsTrue, MatchResult};
ghost use Rattle.t3_snapshot.specs.State.{signature, Version, One};
ghost use Rattle.t3_snapshot.specs.Refusal.{IsRefused, SaysVersion, body_in};
ghost use Rattle.t3_snapshot.specs.Inner.Envelope.{HasEnvelope, HasDigest, refusal_of_envelope};

use sha2::{Digest, Sha256};
use t3_holder::u16_bytes;

/// The most bytes that a state has.
const STATE_LIMIT: usize = 268_435_456;

/// The bytes with which a state begins.
const SIGNATURE: [u8; 8] = *b"t3state\n";

/// The version that is read and written.
pub(crate) const VERSION: u16 = 1;

/// Why bytes haven't the head or the digest of a state.
#[derive(Clone, Copy, Debug, PartialEq, Eq)]
pub enum EnvelopeRefusal {
    TooLong,
    Signature,
    Version,
    OtherImage,
    Digest,
}

/// Whether this part stands in the bytes at this place.
fn stands_at(bytes: &[u8], at: usize, part: &[u8]) -> bool
    requires at { at ≤ 10 }
    requires few { length part.now ≤ 32 }
    requires some { 0 < length part.now }
    ensures { IsTrue result ↔ (take (length part.now) (drop at bytes.now) ≡ part.now) }
{
    if bytes.len() < at + part.len() {
        return false;
    }
    &bytes[at..at + part.len()] == part
}

/// Whether bytes have the version.
fn has_version(bytes: &[u8]) -> bool
    ensures { IsTrue result ↔ SaysVersion One bytes.now }
{
    stands_at(bytes, 8, &u16_bytes(VERSION))
}

/// Whether bytes are of an image.
fn has_fingerprint(bytes: &[u8], fingerprint: &[u8; 32]) -> bool
    ensures { IsTrue result ↔ (take 32 (drop 10 bytes.now) ≡ fingerprint.now) }
{
    stands_at(bytes, 10, fingerprint)
}

/// Whether bytes begin with the signature.
#[tactic(auto, unfolding(crate::specs::State::signature))]
fn has_signature(bytes: &[u8]) -> bool
    ensures { IsTrue result ↔ (take 8 bytes.now ≡ signature) }
{
    stands_at(bytes, 0, &SIGNATURE)
}

/// Whether the last 32 bytes are the digest of those before.
fn has_digest(bytes: &[u8]) -> bool
    ensures { IsTrue result ↔ HasDigest bytes.now }
{
    if bytes.len() < 74 {
        return false;
    }
    let (front, digest) = bytes.split_at(bytes.len() - 32);
    Sha256::digest(front).as_slice() == digest
}

/// What lies between the head and the digest.
pub(crate) fn body_of<'a>(
    bytes: &'a [u8],
    fingerprint: &[u8; 32],
) -> Result<&'a [u8], EnvelopeRefusal>
    ensures { MatchResult result
        (λ body. HasEnvelope One fingerprint.now bytes.now × (body.now ≡ body_in bytes.now))
        (λ why. IsRefused fingerprint.now bytes.now (refusal_of_envelope why)) }
{
    if bytes.len() > STATE_LIMIT {
        return Err(EnvelopeRefusal::TooLong);
    }
    if !has_signature(bytes) {
        return Err(EnvelopeRefusal::Signature);
    }
    if !has_version(bytes) {
        return Err(EnvelopeRefusal::Version);
    }
    if !has_fingerprint(bytes, fingerprint) {
        return Err(EnvelopeRefusal::OtherImage);
    }
    if !has_digest(bytes) {
        return Err(EnvelopeRefusal::Digest);
    }
    let (front, _) = bytes.split_at(bytes.len() - 32);
    let (_, body) = front.split_at(42);
    Ok(body)
}
