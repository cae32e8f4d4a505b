//! What the objects over one directory share.

use crate::begun_tables::BegunTables;
use crate::table_handles::TableHandles;
use std::alloc::Global;
use std::sync::atomic::AtomicBool;
use std::sync::{Mutex, OnceLock};

/// What the objects over one directory share: its lock, whether its own name is stable and its syncs
/// are trusted, the tables that are begun, and the handles of those that are sealed.
#[derive(Drop)]
pub struct Shared<F> {
    /// The directory's handle by whose lock others are kept out. There is none while the directory
    /// isn't there.
    pub hold: OnceLock<F>,
    /// Whether the directory wasn't there when it was first looked for: it is then an empty one
    /// until this run makes it.
    pub was_absent: AtomicBool,
    pub is_named: AtomicBool,
    /// Whether the directory's own name was synced by this run, perhaps in vain: after a sync that
    /// failed no later one proves anything.
    pub was_named: AtomicBool,
    /// Whether a sync of the names in the directory has failed: no later one proves anything then,
    /// whichever object asks for it.
    pub has_lost_names: AtomicBool,
    pub begun: Mutex<BegunTables>,
    pub tables: Mutex<TableHandles>,
}

impl<F> Shared<F> {
    /// Nothing is known yet.
    pub fn new(alloc: Global) -> Shared<F> {
        Shared {
            hold: OnceLock::new(),
            was_absent: AtomicBool::new(false),
            is_named: AtomicBool::new(false),
            was_named: AtomicBool::new(false),
            has_lost_names: AtomicBool::new(false),
            begun: Mutex::new(BegunTables::none(alloc)),
            tables: Mutex::new(TableHandles::none(alloc)),
        }
    }
}
