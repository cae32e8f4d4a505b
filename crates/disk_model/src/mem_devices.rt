ghost use Rattle.std.specs.Prelude.{◌≡◌, ◌&&◌, ℕ, None, Some, IfOk, false};
ghost use Rattle.std.specs.Arc.{arc_value};
ghost use Rattle.std.specs.Option.{option_copied};
ghost use Rattle.disk_model.specs.declared.pick.Pick.TheVariants.{Old, New};
ghost use Rattle.disk_model.specs.Directories.{no_directories};
ghost use Rattle.disk_model.specs.Files.{changed};
ghost use Rattle.disk_model.specs.Images.{IsAtRest};
ghost use Rattle.disk_model.specs.Plans.{IsEmptyPlan, AreEmptyPlans};
ghost use Rattle.disk_model.specs.Shelf.{files_of, kept_by, tally_of, is_done, there_left};
ghost use Rattle.disk_model.specs.Tables.{with_table, is_listed};
ghost use Rattle.disk_model.specs.Told.{TellsTheSame, TablesStay, TablesRest, MayLeaveTables, told_by};
ghost use Rattle.disk_model.specs.Ports.{IsNewPort};

use crate::kind_turns::KindTurns;
use crate::port_tables::PortTables;
use crate::shelf::Shelf;
use crate::stock::Stock;
use crate::{
    Devices, Directories, FailPlan, Failed, Journal, JournalFile, MemJournal, MemMaker, MemPort,
    MemTableFile, Pick, Plans, Port,
};
use peb_base::Memory;
use std::alloc::{AllocError, Global};
use std::mem;
use std::sync::Arc;

/// Devices in memory, for tests. They tell all they hold, and their objects fail by plans.
#[derive(Drop)]
pub struct MemDevices {
    alloc: Global,
    journal: MemJournal,
    ports: Arc<KindTurns>,
    makers: Arc<KindTurns>,
    stock: Stock,
    directories: Directories,
    faults: u64,
}

impl MemDevices {
    ghost use Rattle.disk_model.specs.Synced.{synced_of};
    ghost use Rattle.disk_model.specs.Failing.{plans_of};

    /// Devices with no file, of which a crash leaves no file.
    ///
    /// Memory is the one refusal.
    pub fn new(alloc: Global, plans: Plans) -> Result<MemDevices, Memory>
        // what it gives
        ensures empty { IfOk result (λ devices.
            (⟦<MemDevices as Devices>⟧.journal_told devices).seen ≡ (λ _. None)) }
        ensures rests { IfOk result (λ devices.
            IsAtRest (⟦<MemDevices as Devices>⟧.journal_told devices).seen
            (⟦<MemDevices as Devices>⟧.journal_told devices).may_leave) }
        ensures count { IfOk result (λ devices.
            (⟦<MemDevices as Devices>⟧.journal_told devices).faults ≡ 0) }
        ensures faults { IfOk result (λ devices. ⟦<MemDevices as Devices>⟧.faults devices ≡ 0) }
        ensures steady { IsEmptyPlan plans.journal →
            IfOk result (λ devices. (⟦<MemDevices as Devices>⟧.journal_told devices).steady) }
        ensures no_tables { IfOk result (λ devices. (n : ℕ) →
            is_listed (⟦<MemDevices as Devices>⟧.tables_told devices).files n ≡ false) }
        ensures tables_rest { IfOk result (λ devices.
            TablesRest (⟦<MemDevices as Devices>⟧.tables_told devices)) }
        ensures table_faults { IfOk result (λ devices.
            (⟦<MemDevices as Devices>⟧.tables_told devices).faults ≡ 0) }
        ensures ports_steady { IsEmptyPlan plans.port →
            IfOk result (λ devices. (⟦<MemDevices as Devices>⟧.tables_told devices).steady) }
        ensures directories { IfOk result (λ devices.
            ⟦<MemDevices as Devices>⟧.directories devices ≡ no_directories) }
        ensures plans { IfOk result (λ devices. plans_of devices ≡ plans) }
    {
        let journal = MemJournal::new(alloc, plans.journal);
        let ports = Arc::new(alloc, KindTurns::new(plans.port))?;
        let makers = Arc::new(alloc, KindTurns::new(plans.maker))?;
        Ok(MemDevices {
            alloc,
            journal,
            ports,
            makers,
            stock: Stock::resting(PortTables::none(alloc)),
            directories: Directories::none(alloc),
            faults: 0,
        })
    }

    /// The devices after a crash: they hold one image that the crash may leave, and no call of them
    /// fails by a plan, and no directory is chosen yet. `Old` takes of each file what its last sync
    /// or removal left, and each table that was retired or removed, and no table that was begun and
    /// not sealed; `New` takes what is there. `Seeded` draws for each number whether what was done
    /// with its table's file stands. A table that is left unsealed is listed and not found.
    ///
    /// Memory is the one refusal; the devices are then gone.
    pub fn crash(self, pick: Pick) -> Result<MemDevices, Memory>
        // what it gives
        ensures allowed { IfOk result (λ after.
            (⟦<MemDevices as Devices>⟧.journal_told self).may_leave
            (⟦<MemDevices as Devices>⟧.journal_told after).seen) }
        ensures old { pick ≡ Old →
            IfOk result (λ after. (⟦<MemDevices as Devices>⟧.journal_told after).seen
            ≡ synced_of self) }
        ensures new { pick ≡ New →
            IfOk result (λ after. (⟦<MemDevices as Devices>⟧.journal_told after).seen
            ≡ (⟦<MemDevices as Devices>⟧.journal_told self).seen) }
        ensures rests { IfOk result (λ after.
            IsAtRest (⟦<MemDevices as Devices>⟧.journal_told after).seen
            (⟦<MemDevices as Devices>⟧.journal_told after).may_leave) }
        ensures count { IfOk result (λ after.
            (⟦<MemDevices as Devices>⟧.journal_told after).faults ≡ 0) }
        ensures faults { IfOk result (λ after. ⟦<MemDevices as Devices>⟧.faults after ≡ 0) }
        ensures steady { IfOk result (λ after.
            (⟦<MemDevices as Devices>⟧.journal_told after).steady) }
        ensures tables { IfOk result (λ after.
            MayLeaveTables (⟦<MemDevices as Devices>⟧.tables_told self)
            (⟦<MemDevices as Devices>⟧.tables_told after).files) }
        ensures old_tables { pick ≡ Old → IfOk result (λ after. (n : ℕ) →
            (⟦<MemDevices as Devices>⟧.tables_told after).files.sealed n
            ≡ (⟦<MemDevices as Devices>⟧.tables_told self).kept n) }
        ensures old_unsealed { pick ≡ Old → IfOk result (λ after. (n : ℕ) →
            (⟦<MemDevices as Devices>⟧.tables_told after).files.is_unsealed n ≡ false) }
        ensures unsealed { IfOk result (λ after. (n : ℕ) →
            (⟦<MemDevices as Devices>⟧.tables_told after).files.is_unsealed n
            ≡ (is_done pick n && (⟦<MemDevices as Devices>⟧.tables_told self).files.is_unsealed n)) }
        ensures new_tables { pick ≡ New →
            IfOk result (λ after. (⟦<MemDevices as Devices>⟧.tables_told after).files
            ≡ (⟦<MemDevices as Devices>⟧.tables_told self).files) }
        ensures tables_rest { IfOk result (λ after.
            TablesRest (⟦<MemDevices as Devices>⟧.tables_told after)) }
        ensures table_faults { IfOk result (λ after.
            (⟦<MemDevices as Devices>⟧.tables_told after).faults ≡ 0) }
        ensures ports_steady { IfOk result (λ after.
            (⟦<MemDevices as Devices>⟧.tables_told after).steady) }
        ensures directories { IfOk result (λ after. ⟦<MemDevices as Devices>⟧.directories after
            ≡ no_directories) }
        ensures plans { IfOk result (λ after. AreEmptyPlans (plans_of after)) }
    {
        let alloc = self.alloc;
        let tables = self.stock.shelf.leave(alloc, pick)?;
        Ok(MemDevices {
            alloc,
            journal: self.journal.crash(pick)?,
            ports: Arc::new(alloc, KindTurns::new(FailPlan::empty(alloc)))?,
            makers: Arc::new(alloc, KindTurns::new(FailPlan::empty(alloc)))?,
            stock: Stock::resting(tables),
            directories: Directories::none(alloc),
            faults: 0,
        })
    }

    /// The devices that rest on their files of the journal with `bytes` in place of one file's, as
    /// a damaged disk would. What they tell of tables stays.
    ///
    /// The plans stay, and the journal's counts begin again. Memory is the one refusal; the devices
    /// are then gone.
    pub fn with_file(self, file: JournalFile, bytes: &[u8]) -> Result<MemDevices, Memory>
        // what it gives
        ensures seen { IfOk result (λ after. (⟦<MemDevices as Devices>⟧.journal_told after).seen
            ≡ changed file (Some bytes.now) ((⟦<MemDevices as Devices>⟧.journal_told self).seen)) }
        ensures rests { IfOk result (λ after.
            IsAtRest (⟦<MemDevices as Devices>⟧.journal_told after).seen
            (⟦<MemDevices as Devices>⟧.journal_told after).may_leave) }
        ensures count { IfOk result (λ after.
            (⟦<MemDevices as Devices>⟧.journal_told after).faults ≡ 0) }
        ensures faults { IfOk result (λ after. ⟦<MemDevices as Devices>⟧.faults after ≡ 0) }
        ensures steady { (⟦<MemDevices as Devices>⟧.journal_told self).steady →
            IfOk result (λ after. (⟦<MemDevices as Devices>⟧.journal_told after).steady) }
        // what stays
        ensures tables { IfOk result (λ after.
            TablesStay (⟦<MemDevices as Devices>⟧.tables_told self)
            (⟦<MemDevices as Devices>⟧.tables_told after)) }
        ensures directories { IfOk result (λ after. ⟦<MemDevices as Devices>⟧.directories after
            ≡ ⟦<MemDevices as Devices>⟧.directories self) }
        ensures plans { IfOk result (λ after. plans_of after ≡ plans_of self) }
    {
        Ok(MemDevices {
            journal: self.journal.with_file(file, bytes)?,
            faults: 0,
            ..self
        })
    }

    /// The devices that rest on their tables with a sealed one of these bytes in place of any of
    /// its number, as a damaged disk would. What they tell of the journal stays.
    ///
    /// The plans stay, and the counts of ports and makers begin again. Memory is the one refusal;
    /// the devices are then gone.
    pub fn with_table(self, number: u64, bytes: &[u8]) -> Result<MemDevices, Memory>
        // what it gives
        ensures sealed { IfOk result (λ after. (n : ℕ) →
            (⟦<MemDevices as Devices>⟧.tables_told after).files.sealed n
            ≡ with_table number bytes.now
            (⟦<MemDevices as Devices>⟧.tables_told self).files.sealed n) }
        ensures unsealed { IfOk result (λ after. (n : ℕ) →
            (⟦<MemDevices as Devices>⟧.tables_told after).files.is_unsealed n
            ≡ (⟦<MemDevices as Devices>⟧.tables_told self).files.is_unsealed n) }
        ensures rests { IfOk result (λ after.
            TablesRest (⟦<MemDevices as Devices>⟧.tables_told after)) }
        ensures table_faults { IfOk result (λ after.
            (⟦<MemDevices as Devices>⟧.tables_told after).faults ≡ 0) }
        ensures ports_steady { (⟦<MemDevices as Devices>⟧.tables_told self).steady →
            IfOk result (λ after. (⟦<MemDevices as Devices>⟧.tables_told after).steady) }
        // what stays
        ensures told { IfOk result (λ after.
            TellsTheSame (⟦<MemDevices as Devices>⟧.journal_told self)
            (⟦<MemDevices as Devices>⟧.journal_told after)) }
        ensures faults { IfOk result (λ after. ⟦<MemDevices as Devices>⟧.faults after
            ≡ ⟦<MemDevices as Devices>⟧.faults self) }
        ensures directories { IfOk result (λ after. ⟦<MemDevices as Devices>⟧.directories after
            ≡ ⟦<MemDevices as Devices>⟧.directories self) }
        ensures plans { IfOk result (λ after. plans_of after ≡ plans_of self) }
    {
        let mut tables = self.stock.shelf.leave(self.alloc, Pick::New)?;
        let table = MemTableFile::new(self.alloc, number, bytes)?;
        tables.sealed.insert(0, table)?;
        Ok(MemDevices {
            stock: Stock::resting(tables),
            ..self
        })
    }

    /// The file's bytes as reads give them, or `None` where it isn't there.
    pub fn bytes_of(&self, file: JournalFile) -> Option<&[u8]>
        ensures { option_copied result
            ≡ (⟦<MemDevices as Devices>⟧.journal_told self.now).seen file }
    {
        self.journal.bytes_of(file)
    }

    /// The bytes of the sealed table of this number, or `None` where it isn't there.
    pub fn table_bytes(&self, number: u64) -> Option<&[u8]>
        ensures { option_copied result
            ≡ (⟦<MemDevices as Devices>⟧.tables_told self.now).files.sealed number }
    {
        if self.stock.shelf.has_lost(number) {
            return None;
        }
        match self.stock.shelf.kept(number) {
            Some(table) => Some(&table.bytes),
            None => None,
        }
    }

    /// A port over the table files that are there.
    fn make_port(&self) -> Result<MemPort, AllocError>
        ensures { IfOk result (λ port.
            IsNewPort ⟦<MemPort as Port>⟧ (⟦<MemDevices as Devices>⟧.tables_told self.now) port) }
    {
        let files = self.stock.shelf.leave(self.alloc, Pick::New)?;
        let tables = Arc::new(self.alloc, files)?;
        let port = MemPort::new(self.alloc, &self.ports, tables)?;
        Ok(port)
    }
}

impl Devices for MemDevices {
    ghost use Rattle.std.specs.Prelude.{reverse};
    ghost use Rattle.disk_model.specs.Files.{image_of};
    ghost use Rattle.disk_model.specs.Past.{left_now, only_left, kept_left};

    type J = MemJournal;

    type F = MemTableFile;

    type P = MemPort;

    type M = MemMaker;

    ghost journal_told = { λ d. told_by ⟦<MemJournal as Journal>⟧ d.journal };

    ghost tables_told = { λ d. record {
      files = files_of d.stock.shelf;
      kept = kept_by d.stock.shelf;
      tally = tally_of d.stock;
      faults = d.stock.faults;
      steady = IsEmptyPlan (arc_value d.ports).plan;
    } };

    ghost faults = { λ d. d.faults };

    ghost directories = { λ d. d.directories };

    ghost counts_now = { λ d t image le now. left_now (image_of d.journal.first.items)
        (reverse d.journal.past.items) t image now };

    ghost only_now = { λ d image left. only_left (image_of d.journal.first.items)
        (reverse d.journal.past.items) image left };

    ghost read_is_left = { λ d told. kept_left (image_of d.journal.first.items) (reverse d.journal.past.items)
        (image_of d.journal.files.items) d.journal.calls d.journal.agrees };

    ghost there_is_left = { λ d told. record { sealed = there_left d.stock.shelf; unsealed = λ n is. is } };

    fn set(&mut self, dir: &str) -> Result<(), Failed> {
        match String::from_str(self.alloc, dir) {
            Ok(name) => {
                self.directories.choose(name);
                Ok(())
            }
            Err(_) => {
                self.faults = self.faults.saturating_add(1);
                Err(Failed)
            }
        }
    }

    fn journal(&mut self) -> Result<MemJournal, Failed> {
        let none = MemJournal::new(self.alloc, FailPlan::empty(self.alloc));
        self.directories.open();
        Ok(mem::replace(&mut self.journal, none))
    }

    fn port(&mut self) -> Result<MemPort, Failed> {
        match self.make_port() {
            Ok(port) => Ok(port),
            Err(_) => Err(self.stock.fail()),
        }
    }

    fn maker(&mut self) -> Result<MemMaker, Failed> {
        match MemMaker::new(self.alloc, &self.makers) {
            Ok(maker) => Ok(maker),
            Err(_) => Err(self.stock.fail()),
        }
    }

    fn back(&mut self, journal: MemJournal) {
        self.journal = journal;
    }

    fn back_port(&mut self, port: MemPort) {
        self.stock.reads = self.stock.reads.saturating_add(port.reads);
        self.stock.faults = self.stock.faults.saturating_add(port.turns.faults);
    }

    fn back_maker(&mut self, maker: MemMaker) {
        self.stock.taken = self.stock.taken.saturating_add(maker.taken);
        self.stock.faults = self.stock.faults.saturating_add(maker.turns.faults);
        let MemMaker {
            made,
            mut place,
            ..
        } = maker;
        let none = Shelf::Resting(PortTables::none(self.alloc));
        *place = mem::replace(&mut self.stock.shelf, none);
        self.stock.shelf = Shelf::More(made, place);
    }
}
