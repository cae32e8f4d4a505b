//! Why bytes are no key.

use thiserror::Error;

/// Why bytes are no key: their number isn't 1 to 1024, or there was no memory for a copy.
#[derive(Clone, Copy, Debug, PartialEq, Eq, Error)]
pub enum KeyFault {
    #[error("a key of {0} bytes")]
    Length(u64),
    #[error("out of memory")]
    Memory,
}
