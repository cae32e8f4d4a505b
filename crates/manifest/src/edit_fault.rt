//! Why bytes are no edit.

ghost use Rattle.std.specs.Prelude.{◌≡◌};
ghost use Rattle.manifest.specs.declared.edit_fault.EditFault.TheVariants.{Memory};

use std::alloc::{AllocError, AllocFailed};
use thiserror::Error;

/// Why bytes are no edit: no edit has this spelling, or memory is short.
#[derive(Clone, Copy, Debug, PartialEq, Eq, Error)]
pub enum EditFault {
    #[error("no edit")]
    Form,
    #[error("out of memory")]
    Memory,
}

impl From<AllocError> for EditFault {
    ghost from_gives = { λ _ e. e ≡ Memory };

    fn from(_: AllocError) -> Self {
        EditFault::Memory
    }
}

impl<T: Drop> From<AllocFailed<T>> for EditFault {
    ghost from_gives = { λ _ e. e ≡ Memory };

    fn from(_: AllocFailed<T>) -> Self {
        EditFault::Memory
    }
}
