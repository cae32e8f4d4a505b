use thiserror::Error;

/// Why the table files aren't listed: the device failed, or memory is short.
#[derive(Clone, Copy, Debug, PartialEq, Eq, Error)]
pub enum ListFault {
    #[error("a device failed")]
    Failed,
    #[error("out of memory")]
    Memory,
}
