//! Why bytes spell nothing.

ghost use Rattle.std.specs.Prelude.{◌≡◌};
ghost use Rattle.record_log.specs.declared.form_fault.FormFault.TheVariants.{Memory};

use std::alloc::{AllocError, AllocFailed};

/// Why a reader gives nothing: the bytes aren't in its form, or memory is short.
#[derive(Clone, Copy, Debug, PartialEq, Eq)]
pub enum FormFault {
    Form,
    Memory,
}

impl From<AllocError> for FormFault {
    ghost from_gives = { λ _ e. e ≡ Memory };

    fn from(_: AllocError) -> Self {
        FormFault::Memory
    }
}

impl<T: Drop> From<AllocFailed<T>> for FormFault {
    ghost from_gives = { λ _ e. e ≡ Memory };

    fn from(_: AllocFailed<T>) -> Self {
        FormFault::Memory
    }
}
