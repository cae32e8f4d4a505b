//! The devices over a real directory.

ghost use Rattle.std.specs.Prelude.{◌≡◌, ◌≤◌, ◌&&◌, ℕ, None, Some, true, false, IfOk, string_bytes};
ghost use Rattle.disk_model.specs.Directories.{no_directories};
ghost use Rattle.disk_real.specs.Silent.{nothing_told, no_table_files, silent_journal};

use crate::faults::Faults;
use crate::folder::Folder;
use crate::journal_folder::JournalFolder;
use crate::keep_out::KeepOut;
use crate::makers::Makers;
use crate::real_journal::RealJournal;
use crate::real_maker::RealMaker;
use crate::real_port::RealPort;
use crate::real_table::RealTable;
use crate::shared::Shared;
use disk_model::{Devices, Directories, Failed};
use std::alloc::AllocError;
use std::io::ErrorKind;
use std::rt::Files;
use std::sync::{Arc, Wait};
use std::{io, mem};

/// The devices over a real directory. They tell nothing of what its files hold.
#[derive(Drop)]
pub struct RealDevices<R: Files<File: KeepOut> + Wait + AllocGlobal + Clone + Drop> {
    rt: R,
    directories: Directories,
    /// What the objects over the chosen directory share.
    shared: Option<Arc<Shared<R::File>>>,
    is_trusted: bool,
    journal_faults: Faults,
    faults: Faults,
    reads: u64,
    taken: u64,
    makers: Makers,
    table_faults: Faults,
}

impl<R: Files<File: KeepOut> + Wait + AllocGlobal + Clone + Drop> RealDevices<R> {
    ghost use Rattle.disk_real.specs.Gone.{gone_of, gone_by};
    ghost use Rattle.disk_model.specs.Tables.{none_gone};

    /// Devices whose directory isn't chosen yet. They keep the runtime.
    pub fn new(rt: R) -> RealDevices<R>
        ensures directories { result.directories ≡ no_directories }
        ensures trust { result.is_trusted ≡ true }
        ensures journal_faults { result.journal_faults.count ≡ 0 }
        ensures faults { result.faults.count ≡ 0 }
        ensures reads { result.reads ≡ 0 }
        ensures taken { result.taken ≡ 0 }
        ensures gone { gone_by result.makers ≡ none_gone }
        ensures table_faults { result.table_faults.count ≡ 0 }
    {
        let directories = Directories::none(rt.alloc());
        RealDevices {
            rt,
            directories,
            shared: None,
            is_trusted: true,
            journal_faults: Faults::none(),
            faults: Faults::none(),
            reads: 0,
            taken: 0,
            makers: Makers::Nothing,
            table_faults: Faults::none(),
        }
    }

    /// What the objects over a directory of this name share: where it is the chosen one, what they
    /// share already.
    fn shared_of(&self, name: &str) -> Result<Arc<Shared<R::File>>, AllocError> {
        match (&self.shared, self.directories.chosen()) {
            (Some(shared), Some(chosen)) if chosen == name => Arc::try_clone(shared),
            (_, _) => Ok(Arc::new(self.rt.alloc(), Shared::new(self.rt.alloc()))?),
        }
    }

    /// The directory that was chosen, with others kept out of it.
    fn chosen(&self) -> io::Result<Folder<R>>
        ensures { IfOk result (λ folder.
            Some (string_bytes folder.name) ≡ self.now.directories.chosen) }
    {
        let (Some(name), Some(shared)) = (self.directories.chosen(), &self.shared) else {
            return Err(io::Error::from(ErrorKind::NotFound));
        };
        let name = String::from_str(self.rt.alloc(), name)?;
        let folder = Folder::new(self.rt.clone()?, name, Arc::try_clone(shared)?);
        folder.keep_others_out()?;
        Ok(folder)
    }

    /// The journal in the directory that was chosen. It opens and makes nothing yet.
    fn open_journal(&self) -> io::Result<RealJournal<R>>
        ensures directory { IfOk result (λ journal. Some (string_bytes journal.folder.folder.name)
            ≡ self.now.directories.chosen) }
        ensures faults { IfOk result (λ journal. journal.faults ≡ self.now.journal_faults) }
        ensures trust { IfOk result (λ journal. journal.is_trusted ≡ self.now.is_trusted) }
    {
        let files = JournalFolder::new(self.chosen()?);
        Ok(RealJournal::new(files, self.is_trusted, self.journal_faults))
    }

    fn make_port(&self) -> io::Result<RealPort<R>>
        ensures faults { IfOk result (λ port. port.faults.count ≡ 0) }
        ensures reads { IfOk result (λ port. port.reads ≡ 0) }
    {
        Ok(RealPort::new(self.chosen()?))
    }

    fn make_maker(&self) -> io::Result<RealMaker<R>>
        ensures begun { IfOk result (λ maker. maker.begun ≡ None) }
        ensures taken { IfOk result (λ maker. maker.taken ≡ 0) }
        ensures away { IfOk result (λ maker. gone_of maker.away ≡ none_gone) }
        ensures faults { IfOk result (λ maker. maker.faults.count ≡ 0) }
    {
        Ok(RealMaker::new(self.chosen()?)?)
    }
}

impl<
    R: Files<File: KeepOut + Send + Sync> + Wait + AllocGlobal + Clone + Drop + Send + Sync,
> Devices for RealDevices<R> {
    ghost use Rattle.disk_real.specs.Gone.{gone_by};
    ghost use Rattle.disk_model.specs.Told.{TellsTheSame, TablesStay};

    type J = RealJournal<R>;

    type F = RealTable<R>;

    type P = RealPort<R>;

    type M = RealMaker<R>;

    ghost journal_told = { λ devices. silent_journal devices.journal_faults.count };

    ghost tables_told = { λ devices. record {
      files = no_table_files;
      kept = λ _. None;
      tally = record { reads = devices.reads; taken = devices.taken; gone = gone_by devices.makers };
      faults = devices.table_faults.count;
      steady = ⊥;
    } };

    ghost faults = { λ devices. devices.faults.count };

    ghost directories = { λ devices. devices.directories };

    ghost counts_now = { λ devices t image le now. now };

    ghost only_now = { λ devices image left. left };

    ghost read_is_left = { λ devices told. nothing_told told };

    ghost there_is_left = { λ devices told. absurd (nothing_told told) };

    fn set(&mut self, dir: &str) -> Result<(), Failed> {
        let name = String::from_str(self.rt.alloc(), dir);
        let name = self.faults.told(name)?;
        let shared = self.shared_of(dir);
        self.shared = Some(self.faults.told(shared)?);
        self.directories.choose(name);
        Ok(())
    }

    fn journal(&mut self) -> Result<RealJournal<R>, Failed> {
        let journal = self.open_journal();
        let journal = self.faults.told(journal)?;
        self.directories.open();
        Ok(journal)
    }

    fn port(&mut self) -> Result<RealPort<R>, Failed> {
        let port = self.make_port();
        self.table_faults.told(port)
    }

    fn maker(&mut self) -> Result<RealMaker<R>, Failed> {
        let maker = self.make_maker();
        self.table_faults.told(maker)
    }

    fn back(&mut self, journal: RealJournal<R>)
        // what it leaves
        ensures told { TellsTheSame (silent_journal journal.faults.count)
            (silent_journal self.new.journal_faults.count) }
        ensures trust { self.new.is_trusted ≡ (self.old.is_trusted && journal.is_trusted) }
        // what stays
        ensures tables { TablesStay (⟦<RealDevices<R> as Devices>⟧.tables_told self.old)
            (⟦<RealDevices<R> as Devices>⟧.tables_told self.new) }
        ensures directories { self.new.directories ≡ self.old.directories }
        ensures faults { self.new.faults ≡ self.old.faults }
    {
        self.is_trusted = self.is_trusted && journal.is_trusted;
        self.journal_faults = journal.faults;
    }

    fn back_port(&mut self, port: RealPort<R>) {
        self.reads = self.reads.saturating_add(port.reads);
        self.table_faults.add(port.faults);
    }

    fn back_maker(&mut self, maker: RealMaker<R>) {
        self.taken = self.taken.saturating_add(maker.taken);
        self.table_faults.add(maker.faults);
        let RealMaker {
            away,
            mut place,
            ..
        } = maker;
        *place = mem::replace(&mut self.makers, Makers::Nothing);
        self.makers = Makers::Maker(away, place);
    }
}
