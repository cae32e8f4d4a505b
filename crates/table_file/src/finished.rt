//! What a job has made.

use crate::table::Table;
use disk_model::TableHandle;
use flsm_model::Edit;
use std::alloc::Global;
use std::sync::Arc;

/// What a job has made, for its edit to be installed.
#[derive(Drop)]
pub struct Finished<F: TableHandle> {
    /// The actor that ran the job; the caller of the job's call sets it.
    pub worker: u32,
    /// The edit, whose outputs are the rows of the tables.
    pub edit: Edit,
    /// The tables that it adds, in the order of its outputs.
    pub tables: Vec<Arc<Table<F>, Global>>,
    /// The lengths of the tables together, in bytes.
    pub bytes: u64,
}
