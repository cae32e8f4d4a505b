//! Why a record isn't added.

ghost use Rattle.std.specs.Prelude.{◌≡◌};
ghost use Rattle.record_log.specs.declared.add_fault.AddFault.TheVariants.{Memory};

use std::alloc::AllocError;
use thiserror::Error;

/// Why a record isn't added to those that wait: they would pass the limit, or memory is short.
#[derive(Clone, Copy, Debug, PartialEq, Eq, Error)]
pub enum AddFault {
    #[error("more than 2147483648 bytes of records wait")]
    Full,
    #[error("out of memory")]
    Memory,
}

impl From<AllocError> for AddFault {
    ghost from_gives = { λ _ e. e ≡ Memory };

    fn from(_: AllocError) -> Self {
        AddFault::Memory
    }
}
