//! Hashes of keys.

/// Which hash of a key decides whether it may become a guard.
#[derive(Clone, Copy, Debug, PartialEq, Eq)]
pub enum HashKind {
    /// All bytes of the key, well mixed.
    Mixed,
    /// The last byte alone, so that a worked example can be followed by hand.
    LastByte,
}
