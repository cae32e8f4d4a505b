//! Views.

use crate::version::Version;
use mem_table::MemView;
use peb_base::{Number, TableLike};
use std::alloc::Global;
use std::sync::Arc;

/// What a read or an iterator looks through: the memtables and the tables of a moment. None of them
/// changes.
#[derive(Drop)]
pub struct View<T: TableLike> {
    /// Entries above this number aren't seen.
    pub number: Number,
    /// The entries that were inserted last.
    pub mem: MemView,
    /// The entries that a flush is writing, where there is one.
    pub frozen: Option<MemView>,
    pub version: Arc<Version<T>, Global>,
}
