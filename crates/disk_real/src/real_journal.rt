//! The journal over real files.

ghost use Rattle.std.specs.Prelude.{◌≡◌, ◌≤◌, ℕ, None, false};
ghost use Rattle.disk_real.specs.Silent.{nothing_told};

use crate::faults::Faults;
use crate::journal_folder::JournalFolder;
use crate::keep_out::KeepOut;
use disk_model::{Failed, Journal, JournalFile};
use std::rt::Files;

/// The journal over real files, `log-N`, `manifest-a` and `manifest-b` in one directory.
///
/// It tells nothing of what the files hold. A directory that isn't there reads as an empty one, and
/// is made with its first file. After a sync that failed no later one proves anything, since the
/// system counts the pages as clean: so from then on each `sync` and `drop_file` fails.
#[derive(Drop)]
pub struct RealJournal<R: Files<File: KeepOut> + AllocGlobal + Clone + Drop> {
    folder: JournalFolder<R>,
    pub is_trusted: bool,
    pub faults: Faults,
}

impl<R: Files<File: KeepOut> + AllocGlobal + Clone + Drop> RealJournal<R> {
    /// The journal in this directory, with the faults that were counted before and whether its
    /// syncs are trusted.
    pub fn new(folder: JournalFolder<R>, is_trusted: bool, faults: Faults) -> RealJournal<R>
        ensures folder { result.folder ≡ folder }
        ensures trust { result.is_trusted ≡ is_trusted }
        ensures faults { result.faults ≡ faults }
    {
        RealJournal {
            folder,
            is_trusted,
            faults,
        }
    }
}

impl<R: Files<File: KeepOut> + AllocGlobal + Clone + Drop> Journal for RealJournal<R> {
    ghost tells = { false };

    ghost is_atomic = { false };

    ghost seen = { λ _ _. None };

    ghost may_leave = { λ _ _. ⊥ };

    ghost moment = { λ _. 0 };

    ghost left_since = { λ _ _ _. ⊥ };

    ghost faults = { λ journal. journal.faults.count };

    ghost steady = { λ _. ⊥ };

    ghost counts_now = { λ journal t image le now. now };

    ghost only_now = { λ journal image left. left };

    ghost read_is_left = { λ journal told. nothing_told told };

    fn size(&mut self, file: JournalFile) -> Result<Option<u64>, Failed> {
        self.faults.told(self.folder.size(file))
    }

    fn read(&mut self, file: JournalFile, at: u64, out: &mut [u8]) -> Result<usize, Failed> {
        self.faults.told(self.folder.read(file, at, out))
    }

    fn write(&mut self, file: JournalFile, at: u64, bytes: &[u8]) -> Result<(), Failed> {
        self.faults.told(self.folder.write(file, at, bytes))
    }

    fn sync(&mut self, file: JournalFile) -> Result<(), Failed> {
        if !self.is_trusted {
            return Err(self.faults.fail());
        }
        let answer = self.folder.sync(file);
        self.is_trusted = answer.is_ok();
        self.faults.told(answer)
    }

    fn drop_file(&mut self, file: JournalFile) -> Result<(), Failed> {
        if !self.is_trusted {
            return Err(self.faults.fail());
        }
        let answer = self.folder.drop_file(file);
        self.is_trusted = answer.is_ok();
        self.faults.told(answer)
    }
}
