//! Why jobs are cut short.

use peb_base::LimitKind;

/// Why a job ended without an outcome.
#[derive(Clone, Copy, Debug, PartialEq, Eq)]
pub enum ShortCause {
    /// A device failed.
    Fault,
    /// The bytes of a table at a place aren't in their form.
    Damaged { table: u64, at: u64 },
    /// A stated limit would have been passed.
    Limit(LimitKind, u64),
    /// Memory was wanting.
    Memory,
}
