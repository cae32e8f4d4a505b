use disk_model::Label;

/// The labels of the clients' sinks that were handed back, and how often they had failed, the
/// latest first.
#[derive(Drop)]
pub enum Returned {
    Nothing,
    Sink(u32, Label, u64, Box<Returned>),
}
