//! Commands.

use peb_base::{Key, Value};

/// A command of a script.
#[derive(Debug, Drop)]
pub enum Command {
    /// A write of one put; `sync` asks that it is on the device when it answers.
    Put { key: Key, value: Value, sync: bool },
    /// A read at the last number.
    Get { key: Key },
}
