//! Operations.

use crate::change::Change;
use crate::key::Key;

/// A put or a deletion of a key.
#[derive(Debug, Drop)]
pub struct Op {
    pub key: Key,
    pub change: Change,
}
