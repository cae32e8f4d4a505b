use thiserror::Error;

/// The one error of every device, script source and sink.
///
/// A call answers it only where the count of faults of its object rose in that call.
#[derive(Clone, Copy, Debug, PartialEq, Eq, Error)]
#[error("a device failed")]
pub struct Failed;
