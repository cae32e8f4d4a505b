use thiserror::Error;

/// Why a script wasn't read.
#[derive(Clone, Copy, Debug, PartialEq, Eq, Error)]
pub enum ReadFault {
    #[error("the source failed")]
    Source,
    #[error("more than 16777216 bytes")]
    TooLong,
    #[error("out of memory")]
    Memory,
}
