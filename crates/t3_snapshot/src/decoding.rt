ghost use Rattle.std.specs.Prelude.{◌≡◌, ℕ};
ghost use Rattle.t3_snapshot.specs.Refusal.{Decodes, GivesOnly, GivesRefusal, IsRefused};
ghost use Rattle.t3_snapshot.specs.State.{Spells};
ghost use Rattle.t3_snapshot.specs.declared.refusal.SnapshotRefusal.{SnapshotRefusal as AnyRefusal};
ghost use Rattle.t3_store.specs.Value.{Objects};
ghost use Rattle.t3_snapshot.specs.Inner.Envelope.{refusal_of_envelope};
ghost use Rattle.t3_snapshot.specs.Inner.Body.{refusal_of_body};

use crate::body::{BodyRefusal, decode_body};
use crate::envelope::{EnvelopeRefusal, body_of};
use crate::refusal::SnapshotRefusal;
use std::alloc::Global;
use t3_store::Persistent;

/// The state and the next number that bytes spell for an image of this fingerprint; or by which rule they
/// are refused, the first of [`SnapshotRefusal`]'s order that they break. Memory is taken for what was read,
/// and never for what a count announces.
pub fn decode(
    alloc: Global,
    bytes: &[u8],
    fingerprint: &[u8; 32],
) -> Result<(Persistent, u32), SnapshotRefusal>
    ensures gives { Decodes fingerprint.now bytes.now result }
    ensures only { (state : Objects) (next : ℕ) → Spells state next fingerprint.now bytes.now
        → GivesOnly state next result }
    ensures refuses { (why : AnyRefusal) → IsRefused fingerprint.now bytes.now why
        → GivesRefusal why result }
{
    decode_by_rules(alloc, bytes, fingerprint)
}

/// The same, by the rules in their order.
fn decode_by_rules(
    alloc: Global,
    bytes: &[u8],
    fingerprint: &[u8; 32],
) -> Result<(Persistent, u32), SnapshotRefusal>
    ensures { Decodes fingerprint.now bytes.now result }
{
    match body_of(bytes, fingerprint) {
        Ok(body) => match decode_body(alloc, body) {
            Ok((state, next)) => Ok((state, next)),
            Err(why) => Err(refusal_of_body(why)),
        },
        Err(why) => Err(refusal_of_envelope(why)),
    }
}

/// The refusal for which an envelope is refused.
fn refusal_of_envelope(why: EnvelopeRefusal) -> SnapshotRefusal
    ensures { result ≡ refusal_of_envelope why }
{
    match why {
        EnvelopeRefusal::TooLong => SnapshotRefusal::TooLong,
        EnvelopeRefusal::Signature => SnapshotRefusal::Signature,
        EnvelopeRefusal::Version => SnapshotRefusal::Version,
        EnvelopeRefusal::OtherImage => SnapshotRefusal::OtherImage,
        EnvelopeRefusal::Digest => SnapshotRefusal::Digest,
    }
}

/// The refusal for which a body is refused.
fn refusal_of_body(why: BodyRefusal) -> SnapshotRefusal
    ensures { result ≡ refusal_of_body why }
{
    match why {
        BodyRefusal::Malformed { items } => SnapshotRefusal::Malformed { items },
        BodyRefusal::NoMemory => SnapshotRefusal::NoMemory,
    }
}
