//! Why bytes are no index.

ghost use Rattle.std.specs.Prelude.{◌≡◌};
ghost use Rattle.table_file.specs.declared.index_fault.IndexFault.TheVariants.{Memory};

use std::alloc::{AllocError, AllocFailed};

/// Why a reader gives no index: the bytes aren't in its form, or memory is short.
#[derive(Clone, Copy, Debug, PartialEq, Eq)]
pub enum IndexFault {
    Form,
    Memory,
}

impl<T: Drop> From<AllocFailed<T>> for IndexFault {
    ghost from_gives = { λ _ e. e ≡ Memory };

    fn from(_: AllocFailed<T>) -> Self {
        IndexFault::Memory
    }
}
