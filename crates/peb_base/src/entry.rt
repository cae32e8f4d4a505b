//! Entries.

use crate::change::Change;
use crate::key::Key;
use crate::number::Number;

/// An operation with its number, as memtables and sorted tables hold it.
///
/// Entries order by key ascending, then by number descending: the newest entry of a key comes first.
#[derive(Debug, Drop)]
pub struct Entry {
    pub key: Key,
    pub number: Number,
    pub change: Change,
}
