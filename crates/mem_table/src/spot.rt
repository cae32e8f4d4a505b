//! Places in chunks.

/// A place in chunks: the index of a chunk, and the index of an entry in it.
#[derive(Clone, Copy)]
pub struct Spot {
    pub chunk: usize,
    pub at: usize,
}
