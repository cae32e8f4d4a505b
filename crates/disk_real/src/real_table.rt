//! A handle of a table's file.

ghost use Rattle.std.specs.Prelude.{◌≡◌, ◌≤◌, [], false, length, IfOk};

use crate::file_at::read_at;
use crate::folder::Folder;
use crate::keep_out::KeepOut;
use crate::shared::Shared;
use disk_model::TableHandle;
use peb_base::FileName;
use std::alloc::AllocError;
use std::fs::File;
use std::rt::Files;
use std::sync::{Arc, Wait};
use std::{fs, io};

/// A handle of a table's file, `table-S.C`. It tells nothing of what the file holds.
///
/// It keeps the file's path alone, so that no place in an open file is shared between threads. All
/// handles of a table share whether it is retired: the last one that is dropped takes the file of a
/// retired table away.
pub struct RealTable<R: Files<File: KeepOut> + Wait + Drop> {
    rt: R,
    path: String,
    pub number: u64,
    shared: Arc<Shared<R::File>>,
}

impl<R: Files<File: KeepOut> + Wait + AllocGlobal + Clone + Drop> RealTable<R> {
    /// The table of this number in this directory.
    pub fn new(folder: &Folder<R>, number: u64) -> Result<RealTable<R>, AllocError>
        ensures { IfOk result (λ table. table.number ≡ number) }
    {
        let rt = folder.rt.clone()?;
        let path = folder.path_of(FileName::Table(number))?;
        let shared = Arc::try_clone(&folder.shared)?;
        shared.tables.lock(&rt).add(number)?;
        Ok(RealTable {
            rt,
            path,
            number,
            shared,
        })
    }

    /// Lets the file go with the last handle of the table.
    pub fn retire(&self) -> Result<(), AllocError> {
        self.shared.tables.lock(&self.rt).retire(self.number)
    }

    /// Looks whether the file is there. The error is `NotFound` where it isn't.
    pub fn look(&self) -> io::Result<()> {
        fs::metadata(&self.rt, self.path.as_str())?;
        Ok(())
    }

    /// Reads from place `at` on until `out` is full or the file ends.
    pub fn read(&self, at: u64, out: &mut [u8]) -> io::Result<usize>
        ensures count { IfOk result (λ n. n ≤ length out.old) }
    {
        let mut file = File::open(&self.rt, self.path.as_str())?;
        read_at(&mut file, at, out)
    }
}

impl<R: Files<File: KeepOut> + Wait + Drop> Drop for RealTable<R> {
    fn drop(self) {
        let RealTable {
            rt,
            path,
            number,
            shared,
        } = self;
        // The lock is kept meanwhile, so that a handle that is made at this time is counted before
        // or finds no file.
        let mut tables = shared.tables.lock(&rt);
        if tables.let_go(number) {
            // A file that stays is removed by the next opening.
            let _ = fs::remove_file(&rt, path);
        }
    }
}

impl<R: Files<File: KeepOut> + Wait + Drop> TableHandle for RealTable<R> {
    ghost tells = { false };

    ghost is_atomic = { false };

    ghost number = { λ table. table.number };

    ghost bytes = { λ _. [] };
}
