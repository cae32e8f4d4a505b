//! The port over real files.

ghost use Rattle.std.specs.Prelude.{◌≡◌, ◌<◌, ◌^◌, None, false, IfOk, IfSome};

use crate::faults::Faults;
use crate::folder::Folder;
use crate::keep_out::KeepOut;
use crate::real_table::RealTable;
use disk_model::{Failed, ListFault, Port, ascending};
use peb_base::{FileName, Memory};
use std::alloc::{AllocError, Global};
use std::io::ErrorKind;
use std::rt::Files;
use std::sync::Wait;
use std::{fs, io};

/// The tables of one session have counts below this one.
const COUNTS: u64 = 1 << 40;

/// The port over real files, `table-S.C` in one directory. It tells nothing of what the files hold.
///
/// It looks at the directory when it is asked, so it knows also what was sealed or taken away since
/// it was made. A table that this opening has begun and not sealed is listed and not found. Whether
/// a file that an earlier run left was sealed can't be seen: it is found.
#[derive(Drop)]
pub struct RealPort<R: Files<File: KeepOut> + Wait + AllocGlobal + Clone + Drop> {
    folder: Folder<R>,
    pub reads: u64,
    pub faults: Faults,
    ghost fits: { reads < 2 ^ 64 },
}

/// The number that a name tells, if it begins as that of a table's file.
fn number_of(name: &str) -> Option<u64> {
    let (session, count) = name.strip_prefix("table-")?.split_once('.')?;
    let session = session.parse::<u64>().ok()?;
    let count = count.parse::<u64>().ok()?;
    session.checked_mul(COUNTS)?.checked_add(count)
}

/// Whether this is the name of the table's file, and not a number written in another way.
fn is_name_of(alloc: Global, name: &str, number: u64) -> Result<bool, AllocError> {
    let written = FileName::Table(number);
    Ok(format!(in alloc; "{written}")?.as_str() == name)
}

impl<R: Files<File: KeepOut> + Wait + AllocGlobal + Clone + Drop> RealPort<R> {
    /// A port on the tables in this directory, with counts of 0.
    pub fn new(folder: Folder<R>) -> RealPort<R>
        ensures faults { result.faults.count ≡ 0 }
        ensures reads { result.reads ≡ 0 }
    {
        RealPort {
            folder,
            reads: 0,
            faults: Faults::none(),
        }
    }

    fn look_for(&self, number: u64) -> io::Result<Option<RealTable<R>>>
        ensures { IfOk result (λ found. IfSome found (λ table. table.number ≡ number)) }
    {
        if !self.folder.is_held() {
            return Ok(None);
        }
        // The handle comes first, so that the file stays from when it was looked for.
        let table = RealTable::new(&self.folder, number)?;
        if self.folder.shared.begun.lock(&self.folder.rt).has(number) {
            return Ok(None);
        }
        match table.look() {
            Ok(()) => Ok(Some(table)),
            Err(error) if error.kind() == ErrorKind::NotFound => Ok(None),
            Err(error) => Err(error),
        }
    }

    /// Adds the number that this name tells, if it is that of a table's file.
    fn add_number(&self, name: &str, numbers: &mut Vec<u64>) -> io::Result<()> {
        if let Some(number) = number_of(name) {
            if is_name_of(self.folder.rt.alloc(), name, number)? {
                numbers.push(number)?;
            }
        }
        Ok(())
    }

    /// The numbers of all files in the directory that are named as a table's.
    fn numbers(&self) -> io::Result<Vec<u64>> {
        let mut numbers = Vec::new(self.folder.rt.alloc());
        if !self.folder.is_held() {
            return Ok(numbers);
        }
        let entries = match fs::read_dir(&self.folder.rt, self.folder.name()) {
            Ok(entries) => entries,
            Err(error) if error.kind() == ErrorKind::NotFound => return Ok(numbers),
            Err(error) => return Err(error),
        };
        for entry in entries {
            match entry {
                Ok(entry) => self.add_number(entry.file_name(), &mut numbers)?,
                // A name that isn't text is no table's.
                Err(error) if error.kind() == ErrorKind::InvalidFilename => {}
                Err(error) => return Err(error),
            }
        }
        Ok(numbers)
    }
}

impl<R: Files<File: KeepOut> + Wait + AllocGlobal + Clone + Drop> Port for RealPort<R> {
    ghost use Rattle.disk_real.specs.Silent.{no_table_files};

    type File = RealTable<R>;

    ghost table_files = { λ _. no_table_files };

    ghost reads = { λ port. port.reads };

    ghost faults = { λ port. port.faults.count };

    ghost steady = { λ _. ⊥ };

    ghost reads_fit = { λ port. port.fits };

    fn find(&mut self, number: u64) -> Result<Option<RealTable<R>>, Failed> {
        let found = self.look_for(number);
        self.faults.told(found)
    }

    fn list(&mut self) -> Result<Vec<u64>, ListFault> {
        let numbers = self.numbers();
        match self.faults.told(numbers) {
            Ok(numbers) => match ascending(numbers) {
                Ok(numbers) => Ok(numbers),
                Err(_) => Err(ListFault::Memory),
            },
            Err(_) => Err(ListFault::Failed),
        }
    }

    fn read(&mut self, file: &RealTable<R>, at: u64, out: &mut [u8]) -> Result<usize, Failed> {
        self.reads = self.reads.saturating_add(1);
        let answer = file.read(at, out);
        self.faults.told(answer)
    }

    fn fork(&mut self) -> Result<RealPort<R>, Memory> {
        Ok(RealPort::new(self.folder.copy()?))
    }

    fn join(&mut self, fork: RealPort<R>) {
        self.reads = self.reads.saturating_add(fork.reads);
        self.faults.add(fork.faults);
    }
}
