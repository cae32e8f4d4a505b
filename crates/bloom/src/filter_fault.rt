//! Why bytes aren't taken as a filter.

use thiserror::Error;

/// Why bytes aren't taken as a filter.
#[derive(Clone, Copy, Debug, PartialEq, Eq, Error)]
pub enum FilterFault {
    /// They are fewer than 8.
    #[error("no filter")]
    Form,
    /// Want of memory.
    #[error("out of memory")]
    Memory,
}
