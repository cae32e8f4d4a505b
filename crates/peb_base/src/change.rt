//! What an operation does to its key.

use crate::value::Value;

/// What an operation does to its key: it gives it a value, or takes it away.
#[derive(Debug, Drop)]
pub enum Change {
    Put(Value),
    Delete,
}
