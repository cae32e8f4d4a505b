//! Why a batch takes no further operation.

ghost use Rattle.std.specs.Prelude.{◌≡◌};
ghost use Rattle.peb_base.specs.declared.batch_fault.BatchFault.TheVariants as faults;
ghost use Rattle.peb_base.specs.Lengths.{fault_of_key, fault_of_value};

use crate::key_fault::KeyFault;
use crate::value_fault::ValueFault;
use thiserror::Error;

/// Why a batch takes no further operation: the first of these that applies.
#[derive(Clone, Copy, Debug, PartialEq, Eq, Error)]
pub enum BatchFault {
    #[error("more than 1000 operations")]
    TooManyOps,
    #[error("a key of {0} bytes")]
    KeyLength(u64),
    #[error("a value of {0} bytes")]
    ValueLength(u64),
    #[error("out of memory")]
    Memory,
}

impl From<KeyFault> for BatchFault {
    ghost from_gives = { λ key e. e ≡ fault_of_key key };

    fn from(fault: KeyFault) -> BatchFault {
        match fault {
            KeyFault::Length(n) => BatchFault::KeyLength(n),
            KeyFault::Memory => BatchFault::Memory,
        }
    }
}

impl From<ValueFault> for BatchFault {
    ghost from_gives = { λ value e. e ≡ fault_of_value value };

    fn from(fault: ValueFault) -> BatchFault {
        match fault {
            ValueFault::Length(n) => BatchFault::ValueLength(n),
            ValueFault::Memory => BatchFault::Memory,
        }
    }
}
