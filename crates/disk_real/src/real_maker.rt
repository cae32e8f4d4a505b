//! The maker over real files.

ghost use Rattle.std.specs.Prelude.{◌≡◌, ◌≤◌, ◌<◌, ◌^◌, [], None, IsSome, IfOk, OnOk, length, option_map};
ghost use Rattle.disk_model.specs.Tables.{none_gone};

use crate::faults::Faults;
use crate::file_at::write_counted;
use crate::folder::Folder;
use crate::keep_out::KeepOut;
use crate::makers::Makers;
use crate::real_table::RealTable;
use crate::taken_away::TakenAway;
use disk_model::{Failed, Maker};
use peb_base::FileName;
use std::alloc::AllocError;
use std::fs::{OpenFile, OpenOptions};
use std::io;
use std::io::{ErrorKind, Write};
use std::rt::Files;
use std::sync::Wait;

/// A table's file that isn't sealed yet. After a sync that failed no later one of it proves
/// anything.
#[derive(Drop)]
pub struct Begun<F> {
    pub number: u64,
    handle: F,
    is_trusted: bool,
}

/// The maker over real files, `table-S.C` in one directory. It tells nothing of what the files
/// hold.
#[derive(Drop)]
pub struct RealMaker<R: Files<File: KeepOut> + Wait + AllocGlobal + Clone + Drop> {
    folder: Folder<R>,
    begun: Option<Begun<R::File>>,
    pub taken: u64,
    pub away: TakenAway,
    pub faults: Faults,
    /// The place in which what it took away is kept once it is handed back.
    pub place: Box<Makers>,
    ghost fits: { taken < 2 ^ 64 },
}

/// Takes a file away that wasn't sealed, durably.
fn drop_begun<R: Files<File: KeepOut> + Wait + AllocGlobal + Clone + Drop>(
    folder: &Folder<R>,
    number: u64,
) -> io::Result<()> {
    if folder.remove(FileName::Table(number))? {
        folder.sync_names()?;
    }
    folder.shared.begun.lock(&folder.rt).end(number);
    Ok(())
}

/// Keeps that the table of this number is begun. One that is begun already is an error.
fn keep_begun<R: Files<File: KeepOut> + Wait + AllocGlobal + Clone + Drop>(
    folder: &Folder<R>,
    number: u64,
) -> io::Result<()> {
    let mut begun = folder.shared.begun.lock(&folder.rt);
    if begun.has(number) {
        return Err(io::Error::from(ErrorKind::AlreadyExists));
    }
    begun.begin(number)?;
    Ok(())
}

/// Makes the file of the table of this number.
fn create<R: Files<File: KeepOut> + Wait + AllocGlobal + Clone + Drop>(
    folder: &Folder<R>,
    number: u64,
) -> io::Result<R::File> {
    let path = folder.path_of(FileName::Table(number))?;
    OpenOptions::new()
        .write(true)
        .create_new(true)
        .open(&folder.rt, path)
}

/// Takes an earlier file away that wasn't sealed, and makes that of the table of this number.
fn begin_file<R: Files<File: KeepOut> + Wait + AllocGlobal + Clone + Drop>(
    folder: &Folder<R>,
    earlier: Option<Begun<R::File>>,
    number: u64,
) -> io::Result<Begun<R::File>>
    ensures { IfOk result (λ begun. begun.number ≡ number) }
{
    if let Some(earlier) = earlier {
        drop_begun(folder, earlier.number)?;
    }
    folder.make()?;
    // No port finds the file from before it is there until it is sealed.
    keep_begun(folder, number)?;
    match create(folder, number) {
        Ok(handle) => Ok(Begun {
            number,
            handle,
            is_trusted: true,
        }),
        Err(error) => {
            folder.shared.begun.lock(&folder.rt).end(number);
            Err(error)
        }
    }
}

/// Writes all bytes behind the earlier ones, and gives the count of those written also where some
/// aren't.
fn write_file<F: Write>(begun: &mut Begun<F>, bytes: &[u8], count: &mut usize) -> io::Result<()>
    requires { count.old ≡ 0 }
    ensures within { count.new ≤ length bytes.now }
    ensures whole { OnOk result (count.new ≡ length bytes.now) }
    ensures number { begun.new.number ≡ begun.old.number }
{
    write_counted(&mut begun.handle, bytes, count)
}

/// Makes the file and its name stable.
fn seal_file<R: Files<File: KeepOut> + Wait + AllocGlobal + Clone + Drop>(
    folder: &Folder<R>,
    begun: &mut Begun<R::File>,
) -> io::Result<RealTable<R>>
    ensures table { IfOk result (λ table. table.number ≡ begun.old.number) }
    ensures number { begun.new.number ≡ begun.old.number }
{
    let was_trusted = begun.is_trusted;
    begun.is_trusted = false;
    if !was_trusted {
        return Err(io::Error::from(ErrorKind::Other));
    }
    begun.handle.sync_all()?;
    folder.sync_names()?;
    begun.is_trusted = true;
    let table = RealTable::new(folder, begun.number)?;
    folder.shared.begun.lock(&folder.rt).end(begun.number);
    Ok(table)
}

impl<R: Files<File: KeepOut> + Wait + AllocGlobal + Clone + Drop> RealMaker<R> {
    ghost use Rattle.disk_real.specs.Gone.{gone_of};

    /// A maker of tables in this directory that made nothing yet.
    pub fn new(folder: Folder<R>) -> Result<RealMaker<R>, AllocError>
        ensures begun { IfOk result (λ maker. maker.begun ≡ None) }
        ensures taken { IfOk result (λ maker. maker.taken ≡ 0) }
        ensures away { IfOk result (λ maker. gone_of maker.away ≡ none_gone) }
        ensures faults { IfOk result (λ maker. maker.faults.count ≡ 0) }
    {
        let alloc = folder.rt.alloc();
        Ok(RealMaker {
            folder,
            begun: None,
            taken: 0,
            away: TakenAway::nothing(alloc),
            faults: Faults::none(),
            place: Box::new(alloc, Makers::Nothing)?,
        })
    }
}

impl<R: Files<File: KeepOut> + Wait + AllocGlobal + Clone + Drop> Maker for RealMaker<R> {
    ghost use Rattle.disk_real.specs.Gone.{gone_of};

    type File = RealTable<R>;

    ghost begun = { λ maker. option_map (λ begun. begun.number) maker.begun };

    ghost written = { λ _. [] };

    ghost sealed = { λ _ _. None };

    ghost gone = { λ maker. gone_of maker.away };

    ghost taken = { λ maker. maker.taken };

    ghost faults = { λ maker. maker.faults.count };

    ghost taken_fits = { λ maker. maker.fits };

    fn begin(&mut self, number: u64) -> Result<(), Failed> {
        let begun = begin_file(&self.folder, self.begun.take(), number);
        self.begun = Some(self.faults.told(begun)?);
        Ok(())
    }

    fn write(&mut self, bytes: &[u8]) -> Result<(), Failed> {
        let Some(begun) = &mut self.begun else {
            return Err(self.faults.fail());
        };
        let mut count = 0;
        let answer = write_file(begun, bytes, &mut count);
        self.taken = self.taken.saturating_add(count as u64);
        self.faults.told(answer)
    }

    fn taken(&self) -> u64 {
        self.taken
    }

    fn seal(&mut self) -> Result<RealTable<R>, Failed> {
        let Some(begun) = &mut self.begun else {
            return Err(self.faults.fail());
        };
        let sealed = seal_file(&self.folder, begun);
        let table = self.faults.told(sealed)?;
        self.begun = None;
        Ok(table)
    }

    fn retire(&mut self, file: &RealTable<R>) -> Result<(), Failed> {
        self.faults.told(self.away.retired.push(file.number))?;
        self.faults.told(file.retire())
    }

    fn remove(&mut self, number: u64) -> Result<(), Failed> {
        self.faults.told(self.away.removed.push(number))?;
        self.faults
            .told(self.folder.remove(FileName::Table(number)))?;
        Ok(())
    }
}
