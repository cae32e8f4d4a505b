//! Why a script is refused.

ghost use Rattle.std.specs.Prelude.{◌≡◌};
ghost use Rattle.script.specs.declared.parse_fault.ParseFault.TheVariants as faults;

use crate::why::Why;
use std::alloc::AllocFailed;
use thiserror::Error;

/// Why a script is refused: its first line outside the grammar, counted from 1, or want of memory.
#[derive(Clone, Copy, Debug, PartialEq, Eq, Error)]
pub enum ParseFault {
    #[error("line {line} {why}")]
    Bad { line: u64, why: Why },
    #[error("out of memory")]
    Memory,
}

impl<T: Drop> From<AllocFailed<T>> for ParseFault {
    ghost from_gives = { λ _ e. e ≡ faults.Memory };

    fn from(_e: AllocFailed<T>) -> ParseFault {
        ParseFault::Memory
    }
}
