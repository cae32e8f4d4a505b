ghost use Rattle.std.specs.Prelude.{◌≡◌, ℕ, [], None, Some, IfOk};
ghost use Rattle.std.specs.Option.{option_copied};
ghost use Rattle.disk_model.specs.SinkNames.{name_of};

use crate::returned::Returned;
use crate::taken::Taken;
use crate::turns::Turns;
use crate::{Failed, Label, MemSink, SinkPlans, Sinks};
use std::alloc::{AllocError, Global};
use std::mem;

/// Sinks in memory, for tests. They tell all that they took, and fail by their plans.
#[derive(Drop)]
pub struct MemSinks {
    alloc: Global,
    turns: Turns,
    rooms: Vec<(u32, u64)>,
    report: Taken,
    opened: u64,
    returned: Returned,
}

fn room_of(rooms: &[(u32, u64)], index: u32) -> Option<u64> {
    for (client, room) in rooms {
        if *client == index {
            return Some(*room);
        }
    }
    None
}

fn new_sink(
    alloc: Global,
    room: Option<u64>,
    client: u32,
    name: &str,
) -> Result<MemSink, AllocError>
    ensures taken { IfOk result (λ sink. sink.taken.bytes.items ≡ []) }
    ensures faults { IfOk result (λ sink. sink.taken.faults ≡ 0) }
    ensures label { IfOk result (λ sink. sink.label ≡ record { client = client; name = name.now }) }
{
    let name = String::from_str(alloc, name)?;
    let place = Box::new(alloc, Returned::Nothing)?;
    Ok(MemSink {
        taken: Taken::new(alloc, room),
        label: Label::new(client, name),
        place,
    })
}

impl MemSinks {
    /// Sinks that took nothing yet.
    pub fn new(alloc: Global, plans: SinkPlans) -> MemSinks
        ensures report { ⟦<MemSinks as Sinks>⟧.reported result ≡ Some [] }
        ensures took { (i : ℕ) → ⟦<MemSinks as Sinks>⟧.took result i ≡ None }
        ensures counts { (i : ℕ) → ⟦<MemSinks as Sinks>⟧.client_faults result i ≡ 0 }
        ensures faults { ⟦<MemSinks as Sinks>⟧.faults result ≡ 0 }
        ensures opened { (⟦<MemSinks as Sinks>⟧.names result).opened ≡ 0 }
        ensures returned { (i : ℕ) → (⟦<MemSinks as Sinks>⟧.names result).returned i ≡ None }
    {
        MemSinks {
            alloc,
            turns: Turns::new(plans.calls),
            rooms: plans.rooms,
            report: Taken::new(alloc, plans.report),
            opened: 0,
            returned: Returned::Nothing,
        }
    }

    /// The bytes that the sink of client `index` took, or `None` where it wasn't handed back.
    pub fn bytes_of(&self, index: u32) -> Option<&[u8]>
        ensures { option_copied result ≡ ⟦<MemSinks as Sinks>⟧.took self.now index }
    {
        self.returned.bytes_of(index)
    }

    /// The name of the sink that was handed back for client `index`, or `None` where none was.
    pub fn name_of(&self, index: u32) -> Option<&str>
        ensures { option_copied result
            ≡ name_of ((⟦<MemSinks as Sinks>⟧.names self.now).returned index) }
    {
        self.returned.name_of(index)
    }

    /// The report's bytes so far.
    pub fn report_bytes(&self) -> &[u8]
        ensures { Some result.now ≡ ⟦<MemSinks as Sinks>⟧.reported self.now }
    {
        &self.report.bytes
    }
}

impl Sinks for MemSinks {
    ghost use Rattle.std.specs.Prelude.{Some};
    ghost use Rattle.disk_model.specs.Returned.{took_by, failed_by, labelled_by};

    type One = MemSink;

    ghost reported = { λ s. Some s.report.bytes.items };

    ghost took = { λ s. took_by s.returned };

    ghost client_faults = { λ s. failed_by s.returned };

    ghost faults = { λ s. s.turns.faults };

    ghost names = { λ s. record { opened = s.opened; returned = labelled_by s.returned } };

    fn client(&mut self, index: u32, name: &str) -> Result<MemSink, Failed> {
        self.turns.begin()?;
        match new_sink(self.alloc, room_of(&self.rooms, index), index, name) {
            Ok(sink) => {
                self.opened = self.opened.saturating_add(1);
                Ok(sink)
            }
            Err(_) => Err(self.turns.fail()),
        }
    }

    fn report(&mut self, bytes: &[u8]) -> Result<(), Failed> {
        self.turns.begin()?;
        match self.report.put(bytes) {
            Ok(()) => Ok(()),
            Err(_) => Err(self.turns.fail()),
        }
    }

    fn back(&mut self, index: u32, one: MemSink) {
        let MemSink {
            taken,
            label,
            mut place,
        } = one;
        *place = mem::replace(&mut self.returned, Returned::Nothing);
        self.returned = Returned::Sink(index, label, taken, place);
    }
}
