//! The file of a client's replies.

ghost use Rattle.std.specs.Prelude.{None};

use crate::faults::Faults;
use crate::returned::Returned;
use disk_model::{Failed, Label, Sink};
use std::io::Write;

/// The file of a client's replies. It tells nothing of what it took.
///
/// Nothing is kept back: a reply is in the file when `put` answers.
#[derive(Drop)]
pub struct RealSink<F> {
    pub label: Label,
    pub file: F,
    pub faults: Faults,
    /// The place in which its label and its count are kept once it is handed back.
    pub place: Box<Returned>,
}

impl<F: Write + Drop> Sink for RealSink<F> {
    ghost taken = { λ _. None };

    ghost label = { λ sink. sink.label };

    ghost faults = { λ sink. sink.faults.count };

    fn put(&mut self, bytes: &[u8]) -> Result<(), Failed> {
        let written = self.file.write_all(bytes);
        self.faults.told(written)
    }
}
