//! What is read of a log.

/// A record of a log: its body, and the place in the file of the gate of its group.
#[derive(Debug, Drop)]
pub struct Record {
    pub gate: u64,
    pub body: Vec<u8>,
}
