//! Where a cursor goes next.

/// A move of a cursor.
#[derive(Clone, Copy, Debug, PartialEq, Eq)]
pub enum Step {
    /// To no place.
    Nowhere,
    /// To this place in the block on the page.
    Within(usize),
    /// To the first entry of the block at this index, or to no place where there is none.
    First(usize),
    /// To the last entry of the block at this index, or to no place where there is none.
    Last(usize),
}
