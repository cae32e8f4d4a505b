ghost use Rattle.std.specs.Prelude.{◌≡◌};
ghost use Rattle.pebbles_cli.specs.Writes.{refused};

use flsm_core::CommitFault;
use peb_base::{LimitKind, Number};
use thiserror::Error;

/// Why a write isn't made, or isn't stable.
#[derive(Clone, Copy, Debug, PartialEq, Eq, Error)]
pub enum WriteFault {
    /// Nothing is committed for want of memory.
    #[error("out of memory")]
    Memory,
    /// Nothing is committed, since the number would be passed.
    #[error("limit {0} {1}")]
    Limit(LimitKind, u64),
    /// Nothing is committed, since the journal has failed before.
    #[error("the journal has failed before")]
    Stopped,
    /// The batch of this number is committed, and the journal failed before it was stable.
    #[error("{0} may be lost")]
    Unsynced(Number),
}

impl From<CommitFault> for WriteFault {
    ghost from_gives = { λ fault e. e ≡ refused fault };

    fn from(fault: CommitFault) -> WriteFault {
        match fault {
            CommitFault::Stopped => WriteFault::Stopped,
            CommitFault::Limit(kind, n) => WriteFault::Limit(kind, n),
            CommitFault::Memory => WriteFault::Memory,
        }
    }
}
