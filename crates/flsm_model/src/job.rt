//! Jobs.

use crate::job_kind::JobKind;
use peb_base::{Key, List, Number};

/// What a worker is to do, as it was settled when the job began.
#[derive(Debug, Drop)]
pub struct Job {
    pub kind: JobKind,
    /// The source of a Move, the level of a Cut, the last level for a Merge, 0 for a Flush.
    pub level: u8,
    /// The first key of the job's range; empty for the sentinel.
    pub lo: List<u8>,
    /// The end of the range, which isn't in it, or none.
    pub hi: Option<Key>,
    /// The numbers of the tables that are read, ascending.
    pub inputs: List<u64>,
    /// The next level's guards in the range for a Move, the new guards for a Cut.
    pub keys: List<Key>,
    /// The first of the table numbers that are reserved for the job.
    pub numbers: u64,
    /// The oldest live snapshot when the job began.
    pub floor: Number,
    /// Whether a Merge takes all tables of its guard.
    pub whole: bool,
}
