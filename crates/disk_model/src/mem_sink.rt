use crate::returned::Returned;
use crate::taken::Taken;
use crate::{Failed, Label, Sink};

/// The sink of one client in memory. It brings the place in which it is kept once it is handed
/// back.
#[derive(Drop)]
pub struct MemSink {
    pub taken: Taken,
    pub label: Label,
    pub place: Box<Returned>,
}

impl Sink for MemSink {
    ghost use Rattle.std.specs.Prelude.{Some};

    ghost taken = { λ s. Some s.taken.bytes.items };

    ghost label = { λ s. s.label };

    ghost faults = { λ s. s.taken.faults };

    fn put(&mut self, bytes: &[u8]) -> Result<(), Failed> {
        self.taken.put(bytes)
    }
}
