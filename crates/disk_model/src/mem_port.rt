ghost use Rattle.std.specs.Prelude.{◌≡◌, ◌<◌, ◌^◌, Err, OnErr, IfOk, IfSome, option_map};
ghost use Rattle.std.specs.Arc.{arc_value};
ghost use Rattle.disk_model.specs.TableLists.{table_bytes, table_in};
ghost use Rattle.disk_model.specs.Shelf.{files_in};
ghost use Rattle.disk_model.specs.Plans.{IsEmptyPlan};

use crate::files::copy_from;
use crate::kind_turns::KindTurns;
use crate::port_tables::PortTables;
use crate::shared_turns::SharedTurns;
use crate::shelf::table_of;
use crate::{Failed, ListFault, MemTableFile, Port};
use peb_base::Memory;
use std::alloc::{AllocError, Global};
use std::sync::Arc;

/// A port in memory. It tells the tables that it reads, and fails by the plan of all ports of its
/// devices.
#[derive(Drop)]
pub struct MemPort {
    alloc: Global,
    pub(crate) turns: SharedTurns,
    tables: Arc<PortTables>,
    pub(crate) reads: u64,
    ghost fits: { reads < 2 ^ 64 },
}

/// A further handle of the table of this number, if it is among these.
fn shared(tables: &[MemTableFile], number: u64) -> Result<Option<MemTableFile>, AllocError>
    ensures number { IfOk result (λ found. IfSome found (λ table. table.number ≡ number)) }
    ensures bytes { IfOk result (λ found.
        option_map table_bytes found ≡ table_in tables.now number) }
{
    match table_of(tables, number) {
        Some(table) => Ok(Some(table.share()?)),
        None => Ok(None),
    }
}

impl MemPort {
    /// A port of these turns over these tables.
    pub(crate) fn new(
        alloc: Global,
        kind: &Arc<KindTurns>,
        tables: Arc<PortTables>,
    ) -> Result<MemPort, AllocError>
        ensures kind { IfOk result (λ port. arc_value port.turns.kind ≡ arc_value kind.now) }
        ensures tables { IfOk result (λ port. port.tables ≡ tables) }
        ensures faults { IfOk result (λ port. port.turns.faults ≡ 0) }
        ensures reads { IfOk result (λ port. port.reads ≡ 0) }
    {
        Ok(MemPort {
            alloc,
            turns: SharedTurns::new(kind)?,
            tables,
            reads: 0,
        })
    }
}

impl Port for MemPort {
    type File = MemTableFile;

    ghost table_files = { λ port. files_in (arc_value port.tables) };

    ghost faults = { λ port. port.turns.faults };

    ghost reads = { λ port. port.reads };

    ghost steady = { λ port. IsEmptyPlan (arc_value port.turns.kind).plan };

    ghost reads_fit = { λ port. port.fits };

    fn find(&mut self, number: u64) -> Result<Option<MemTableFile>, Failed> {
        self.turns.begin()?;
        match shared(&self.tables.sealed, number) {
            Ok(found) => Ok(found),
            Err(_) => Err(self.turns.fail()),
        }
    }

    fn list(&mut self) -> Result<Vec<u64>, ListFault> {
        if self.turns.begin().is_err() {
            return Err(ListFault::Failed);
        }
        match self.tables.numbers(self.alloc) {
            Ok(numbers) => Ok(numbers),
            Err(_) => Err(ListFault::Memory),
        }
    }

    fn read(&mut self, file: &MemTableFile, at: u64, out: &mut [u8]) -> Result<usize, Failed> {
        self.turns.begin()?;
        self.reads = self.reads.saturating_add(1);
        Ok(copy_from(&file.bytes, at, out))
    }

    fn fork(&mut self) -> Result<MemPort, Memory> {
        let tables = Arc::try_clone(&self.tables)?;
        let fork = MemPort::new(self.alloc, &self.turns.kind, tables)?;
        Ok(fork)
    }

    fn join(&mut self, fork: MemPort) {
        self.reads = self.reads.saturating_add(fork.reads);
        self.turns.faults = self.turns.faults.saturating_add(fork.turns.faults);
    }
}
