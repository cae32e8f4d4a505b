use peb_base::LimitKind;
use thiserror::Error;

/// Why a batch isn't committed. The store is as before.
#[derive(Debug, Drop, Error)]
pub enum CommitFault {
    #[error("the journal has failed before")]
    Stopped,
    #[error("limit {0} {1}")]
    Limit(LimitKind, u64),
    #[error("out of memory")]
    Memory,
}
