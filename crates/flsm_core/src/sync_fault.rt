use thiserror::Error;

/// Why the batches aren't stable.
#[derive(Clone, Copy, Debug, PartialEq, Eq, Error)]
pub enum SyncFault {
    #[error("the journal has failed before")]
    Stopped,
    #[error("the journal failed")]
    Journal,
}
