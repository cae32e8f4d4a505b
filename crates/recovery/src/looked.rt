//! What was read of a store.

ghost use Rattle.std.specs.Prelude.{◌≡◌};

use crate::logs_read::LogsRead;
use crate::recorded::Recorded;

/// What was read of a store: its record, and the logs that this asks for.
#[derive(Drop)]
pub struct Looked {
    pub recorded: Recorded,
    pub read: LogsRead,
    ghost same: { read.session ≡ recorded.shape.session },
}
