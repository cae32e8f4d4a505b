//! Replies and the report to real files and to the standard output.

ghost use Rattle.std.specs.Prelude.{◌≡◌, None, IfOk};
ghost use Rattle.disk_real.specs.Returning.{failed_by, labelled_by};

use crate::faults::Faults;
use crate::real_sink::RealSink;
use crate::returned::Returned;
use disk_model::{Failed, Label, Sinks};
use std::fs::File;
use std::rt::Files;
use std::{io, mem};

/// Replies to real files, and the report to the standard output. They tell nothing of what was
/// taken.
#[derive(Drop)]
pub struct RealSinks<R: Files + Print + AllocGlobal + Clone + Drop> {
    rt: R,
    opened: u64,
    returned: Returned,
    faults: Faults,
}

impl<R: Files + Print + AllocGlobal + Clone + Drop> RealSinks<R> {
    /// Sinks of which none was opened or handed back. They keep the runtime.
    pub fn new(rt: R) -> RealSinks<R>
        ensures opened { result.opened ≡ 0 }
        ensures returned { result.returned ≡ Returned.Nothing }
        ensures faults { result.faults.count ≡ 0 }
    {
        RealSinks {
            rt,
            opened: 0,
            returned: Returned::Nothing,
            faults: Faults::none(),
        }
    }

    /// Makes the file, or empties it.
    fn open(&self, client: u32, name: &str) -> io::Result<RealSink<R::File>>
        ensures unused { IfOk result (λ sink. sink.faults.count ≡ 0) }
        ensures label { IfOk result (λ sink.
            sink.label ≡ record { client = client; name = name.now }) }
    {
        let place = Box::new(self.rt.alloc(), Returned::Nothing)?;
        let name = String::from_str(self.rt.alloc(), name)?;
        let file = File::create(&self.rt, name.as_str())?;
        Ok(RealSink {
            label: Label::new(client, name),
            file,
            faults: Faults::none(),
            place,
        })
    }
}

impl<R: Files<File: Send> + Print + AllocGlobal + Clone + Drop> Sinks for RealSinks<R> {
    type One = RealSink<R::File>;

    ghost reported = { λ _. None };

    ghost took = { λ _ _. None };

    ghost client_faults = { λ sinks. failed_by sinks.returned };

    ghost faults = { λ sinks. sinks.faults.count };

    ghost names = { λ sinks. record { opened = sinks.opened; returned = labelled_by sinks.returned } };

    fn client(&mut self, index: u32, name: &str) -> Result<RealSink<R::File>, Failed> {
        let opened = self.open(index, name);
        let sink = self.faults.told(opened)?;
        self.opened = self.opened.saturating_add(1);
        Ok(sink)
    }

    fn report(&mut self, bytes: &[u8]) -> Result<(), Failed> {
        let printed = self.rt.write_all(bytes);
        self.faults.told(printed)
    }

    fn back(&mut self, index: u32, one: RealSink<R::File>) {
        let RealSink {
            label,
            faults,
            mut place,
            ..
        } = one;
        *place = mem::replace(&mut self.returned, Returned::Nothing);
        self.returned = Returned::Sink(index, label, faults.count, place);
    }
}
