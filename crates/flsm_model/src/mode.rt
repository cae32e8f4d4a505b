//! Modes of claims.

/// What a running job may do with a range of a level: take tables away, append tables, or cut its
/// guards.
#[derive(Clone, Copy, Debug, PartialEq, Eq)]
pub enum Mode {
    Take,
    Append,
    Cut,
}
