//! Why bytes are no block.

use thiserror::Error;

/// Why bytes are no block: no entries have this spelling.
#[derive(Clone, Copy, Debug, PartialEq, Eq, Error)]
pub enum BlockFault {
    #[error("no block")]
    Form,
}
