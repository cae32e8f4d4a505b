//! Why a table isn't read.

use thiserror::Error;

/// Why a read of sorted tables gives no entry.
#[derive(Clone, Copy, Debug, PartialEq, Eq, Error)]
pub enum ReadFault {
    /// The device failed.
    #[error("the device failed")]
    Fault,
    /// The table of this number isn't in its form at this place of its file.
    #[error("table {table} is damaged at {at}")]
    Damaged { table: u64, at: u64 },
}
