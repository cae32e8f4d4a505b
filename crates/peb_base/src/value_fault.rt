//! Why bytes are no value.

use thiserror::Error;

/// Why bytes are no value: there are more than 32,768, or there was no memory for a copy.
#[derive(Clone, Copy, Debug, PartialEq, Eq, Error)]
pub enum ValueFault {
    #[error("a value of {0} bytes")]
    Length(u64),
    #[error("out of memory")]
    Memory,
}
