//! Why an edit isn't appended.

ghost use Rattle.std.specs.Prelude.{◌≡◌};
ghost use Rattle.manifest.specs.declared.append_fault.AppendFault.TheVariants.{Fault};
ghost use Rattle.manifest.specs.AppendFaults.{append_fault};

use disk_model::Failed;
use record_log::AddFault;
use thiserror::Error;

/// Why an edit isn't appended: the device failed, its record would pass the limit, or memory is
/// short.
#[derive(Clone, Copy, Debug, PartialEq, Eq, Error)]
pub enum AppendFault {
    #[error("the journal failed")]
    Fault,
    #[error("the edit has more than 2147483644 bytes")]
    Full,
    #[error("out of memory")]
    Memory,
}

impl From<AddFault> for AppendFault {
    ghost from_gives = { λ fault e. e ≡ append_fault fault };

    fn from(fault: AddFault) -> Self {
        match fault {
            AddFault::Full => AppendFault::Full,
            AddFault::Memory => AppendFault::Memory,
        }
    }
}

impl From<Failed> for AppendFault {
    ghost from_gives = { λ _ e. e ≡ Fault };

    fn from(_: Failed) -> Self {
        AppendFault::Fault
    }
}
