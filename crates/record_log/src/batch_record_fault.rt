//! Why bytes are no batch.

use thiserror::Error;

/// Why bytes are no batch: no batch has this spelling, or memory is short.
#[derive(Clone, Copy, Debug, PartialEq, Eq, Error)]
pub enum BatchRecordFault {
    #[error("no batch")]
    Form,
    #[error("out of memory")]
    Memory,
}
