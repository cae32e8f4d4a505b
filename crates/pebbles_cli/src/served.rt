use script::Cause;

/// How a client's commands went.
#[derive(Clone, Copy, Debug, PartialEq, Eq)]
pub struct Served {
    /// The first fault that a line told.
    pub fault: Option<Cause>,
    /// The client's sink failed, and the commands after that weren't run.
    pub sink_failed: bool,
}
