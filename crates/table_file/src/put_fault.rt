//! Why a table isn't written.

ghost use Rattle.std.specs.Prelude.{◌≡◌};
ghost use Rattle.table_file.specs.declared.put_fault.PutFault.TheVariants.{Fault, Memory};

use disk_model::Failed;
use peb_base::LimitKind;
use std::alloc::{AllocError, AllocFailed};
use thiserror::Error;

/// Why a table isn't written: the device failed, a limit would be passed, or memory is short.
#[derive(Clone, Copy, Debug, PartialEq, Eq, Error)]
pub enum PutFault {
    #[error("the device failed")]
    Fault,
    /// What the limit counts, and the limit.
    #[error("limit {0} {1}")]
    Limit(LimitKind, u64),
    #[error("out of memory")]
    Memory,
}

impl From<AllocError> for PutFault {
    ghost from_gives = { λ _ e. e ≡ Memory };

    fn from(_: AllocError) -> Self {
        PutFault::Memory
    }
}

impl<T: Drop> From<AllocFailed<T>> for PutFault {
    ghost from_gives = { λ _ e. e ≡ Memory };

    fn from(_: AllocFailed<T>) -> Self {
        PutFault::Memory
    }
}

impl From<Failed> for PutFault {
    ghost from_gives = { λ _ e. e ≡ Fault };

    fn from(_: Failed) -> Self {
        PutFault::Fault
    }
}
