//! Where an input goes next.

/// A move of an input of a merge.
#[derive(Clone, Copy, Debug, PartialEq, Eq)]
pub enum Step {
    /// To the first entry.
    First,
    /// To the last entry.
    Last,
    /// One entry on, and from no place to the first.
    Next,
    /// One entry back, and from no place to the last.
    Previous,
}
