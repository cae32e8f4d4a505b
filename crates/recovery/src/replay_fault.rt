use thiserror::Error;

/// Why a record wasn't replayed.
#[derive(Clone, Copy, Debug, PartialEq, Eq, Error)]
pub enum ReplayFault {
    /// It is no batch that may stand there. The place is that of its group's gate.
    #[error("damaged {at}")]
    Damaged { at: u64 },
    #[error("out of memory")]
    Memory,
}
