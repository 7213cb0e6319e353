use thiserror::Error;

/// Why bytes give no state, in the order in which the rules are tried.
#[derive(Clone, Copy, Debug, PartialEq, Eq, Error)]
pub enum SnapshotRefusal {
    /// There are more than 268,435,456 bytes.
    #[error("too long")]
    TooLong,
    /// They don't begin with the signature.
    #[error("no saved state")]
    Signature,
    /// They say another version, or none.
    #[error("another version")]
    Version,
    /// They have another image's fingerprint, or none.
    #[error("of another image")]
    OtherImage,
    /// There are fewer than 74 bytes, or the last 32 aren't the SHA-256 of those before.
    #[error("the digest differs")]
    Digest,
    /// No state has this body. So many whole objects stand in turn; it is the object count where only the
    /// state as a whole breaks a rule, or bytes are left.
    #[error("malformed after {items} objects")]
    Malformed { items: u32 },
    /// An allocation was refused.
    #[error("out of memory")]
    NoMemory,
}
