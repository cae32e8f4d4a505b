ghost use Rattle.std.specs.Prelude.{◌≡◌, ◌<◌, ◌^◌, [], IfOk, OnErr, None};
ghost use Rattle.std.specs.Arc.{arc_value};
ghost use Rattle.disk_model.specs.TableLists.{table_in};
ghost use Rattle.disk_model.specs.Shelf.{gone_of};

use crate::kind_turns::KindTurns;
use crate::made::Made;
use crate::port_tables::PortTables;
use crate::shared_turns::SharedTurns;
use crate::shelf::Shelf;
use crate::{Failed, Maker, MemTableFile};
use std::alloc::{AllocError, Global};
use std::sync::Arc;

/// A maker in memory. It tells what it writes and seals, and fails by the plan of all makers of its
/// devices.
#[derive(Drop)]
pub struct MemMaker {
    pub(crate) alloc: Global,
    pub(crate) turns: SharedTurns,
    pub(crate) written: Vec<u8>,
    pub(crate) taken: u64,
    pub(crate) made: Made,
    /// The place in which what it made is kept once it is handed back.
    pub(crate) place: Box<Shelf>,
    ghost fits: { taken < 2 ^ 64 },
}

impl MemMaker {
    /// A maker of these turns that made nothing yet.
    pub(crate) fn new(alloc: Global, kind: &Arc<KindTurns>) -> Result<MemMaker, AllocError>
        ensures kind { IfOk result (λ maker. arc_value maker.turns.kind ≡ arc_value kind.now) }
        ensures faults { IfOk result (λ maker. maker.turns.faults ≡ 0) }
        ensures taken { IfOk result (λ maker. maker.taken ≡ 0) }
        ensures tables { IfOk result (λ maker. maker.made.tables.items ≡ []) }
        ensures begun { IfOk result (λ maker. maker.made.begun ≡ None) }
        ensures retired { IfOk result (λ maker. maker.made.retired.items ≡ []) }
        ensures removed { IfOk result (λ maker. maker.made.removed.items ≡ []) }
    {
        Ok(MemMaker {
            alloc,
            turns: SharedTurns::new(kind)?,
            written: Vec::new(alloc),
            taken: 0,
            made: Made::nothing(alloc),
            place: Box::new(alloc, Shelf::Resting(PortTables::none(alloc)))?,
        })
    }
}

impl Maker for MemMaker {
    type File = MemTableFile;

    ghost begun = { λ maker. maker.made.begun };

    ghost written = { λ maker. maker.written.items };

    ghost sealed = { λ maker. table_in maker.made.tables.items };

    ghost gone = { λ maker. gone_of maker.made };

    ghost taken = { λ maker. maker.taken };

    ghost faults = { λ maker. maker.turns.faults };

    ghost taken_fits = { λ maker. maker.fits };

    fn begin(&mut self, number: u64) -> Result<(), Failed> {
        self.turns.begin()?;
        self.made.begun = Some(number);
        self.written.clear();
        Ok(())
    }

    fn write(&mut self, bytes: &[u8]) -> Result<(), Failed> {
        self.turns.begin()?;
        match self.written.extend_from_slice(bytes) {
            Ok(()) => {
                self.taken = self.taken.saturating_add(bytes.len() as u64);
                Ok(())
            }
            Err(_) => Err(self.turns.fail()),
        }
    }

    fn taken(&self) -> u64 {
        self.taken
    }

    fn seal(&mut self) -> Result<MemTableFile, Failed> {
        self.turns.begin()?;
        match self.made.seal(self.alloc, &self.written) {
            Ok(file) => Ok(file),
            Err(_) => Err(self.turns.fail()),
        }
    }

    fn retire(&mut self, file: &MemTableFile) -> Result<(), Failed> {
        self.turns.begin()?;
        match self.made.retired.push(file.number) {
            Ok(()) => Ok(()),
            Err(_) => Err(self.turns.fail()),
        }
    }

    fn remove(&mut self, number: u64) -> Result<(), Failed> {
        self.turns.begin()?;
        match self.made.removed.push(number) {
            Ok(()) => Ok(()),
            Err(_) => Err(self.turns.fail()),
        }
    }
}
