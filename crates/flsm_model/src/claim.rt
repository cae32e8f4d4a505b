//! Claims.

use crate::mode::Mode;
use peb_base::{Key, List};

/// A compaction lock: a range of keys of a level on which a running job works, from `lo` on and
/// below `hi`, if there is one.
#[derive(Debug, Drop)]
pub struct Claim {
    pub level: u8,
    pub lo: List<u8>,
    pub hi: Option<Key>,
    pub mode: Mode,
}
