//! Why a table isn't opened.

use thiserror::Error;

/// Why a table isn't opened: the device failed, its file isn't that of its row, or memory is short.
#[derive(Clone, Copy, Debug, PartialEq, Eq, Error)]
pub enum TableFault {
    #[error("the device failed")]
    Fault,
    /// The table of this number isn't in its form, or disagrees with its row, at this place of its file.
    #[error("table {table} is damaged at {at}")]
    Damaged { table: u64, at: u64 },
    #[error("out of memory")]
    Memory,
}
