use peb_base::{FileName, LimitKind, Profile};
use thiserror::Error;

/// Why a store isn't opened.
#[derive(Clone, Copy, Debug, PartialEq, Eq, Error)]
pub enum OpenFault {
    /// The journal failed.
    #[error("the journal failed")]
    Journal,
    /// The file isn't in its form, told at a place of it.
    #[error("damaged {0} {1}")]
    Damaged(FileName, u64),
    /// The profile of the files, and the one that was asked for.
    #[error("profile {0} {1}")]
    Profile(Profile, Profile),
    /// The next session would pass the limit.
    #[error("limit {0} {1}")]
    Limit(LimitKind, u64),
    #[error("out of memory")]
    Memory,
}
