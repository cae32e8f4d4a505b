ghost use Rattle.std.specs.Prelude.{◌≤◌, ◌<◌, ◌+◌, ◌*◌, ◌^◌};

use crate::current_map::CurrentMap;
use peb_base::Number;
use record_log::LogFile;
use std::alloc::Global;

/// What an opening has made ready, of which a store is made.
#[derive(Drop)]
pub struct Parts<J> {
    pub alloc: Global,
    pub journal: J,
    /// The log that the opening has begun. Nothing waits in it.
    pub log: LogFile,
    /// The map after all batches.
    pub current: CurrentMap,
    pub session: u32,
    /// The number of the last operation, or 0.0 where there is none.
    pub last: Number,
    ghost begun: { 1 ≤ session },
    ghost possible: { session ≤ 8388607 },
    ghost within: { last < session * 2 ^ 40 + 2 ^ 40 },
}
