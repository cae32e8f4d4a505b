//! Items of a table's index.

use peb_base::{Key, Number};

/// What the index of a table keeps of a block.
#[derive(Debug, Drop)]
pub struct IndexItem {
    /// Where the block begins, in bytes from the table's first.
    pub place: u64,
    /// The length of the block, in bytes.
    pub len: u32,
    /// The key of the block's last entry.
    pub key: Key,
    /// The number of the block's last entry.
    pub number: Number,
}
