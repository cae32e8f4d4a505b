//! Why a log can't be made or read.

ghost use Rattle.std.specs.Prelude.{◌≡◌};
ghost use Rattle.record_log.specs.declared.log_fault.LogFault.TheVariants.{Fault, Memory};

use disk_model::Failed;
use std::alloc::AllocError;
use thiserror::Error;

/// Why a log can't be made or read: the device failed, the bytes from a place on aren't in form, or
/// memory is short.
#[derive(Clone, Copy, Debug, PartialEq, Eq, Error)]
pub enum LogFault {
    #[error("the journal failed")]
    Fault,
    #[error("damaged at {at}")]
    Damaged { at: u64 },
    #[error("out of memory")]
    Memory,
}

impl From<AllocError> for LogFault {
    ghost from_gives = { λ _ e. e ≡ Memory };

    fn from(_: AllocError) -> Self {
        LogFault::Memory
    }
}

impl From<Failed> for LogFault {
    ghost from_gives = { λ _ e. e ≡ Fault };

    fn from(_: Failed) -> Self {
        LogFault::Fault
    }
}
