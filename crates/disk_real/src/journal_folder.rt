//! The files of a journal, by calls of the file system.

ghost use Rattle.std.specs.Prelude.{◌≡◌, ◌≤◌, ◌<◌, ◌+◌, ◌^◌, length, IfOk, OnOk, IfSome};

use crate::file_at::{read_at, write_at};
use crate::folder::Folder;
use crate::keep_out::KeepOut;
use disk_model::JournalFile;
use std::fs::{File, OpenFile, OpenOptions};
use std::io;
use std::io::ErrorKind;
use std::rt::Files;

/// The places of a file lie below this one.
const PLACES: u64 = 1 << 63;

/// A file of the journal, and its handle.
#[derive(Drop)]
struct Opened<F> {
    file: JournalFile,
    handle: F,
}

/// Whether a file may be read all the same that couldn't be opened to be written.
fn is_read_only(error: &io::Error) -> bool {
    let kind = error.kind();
    kind == ErrorKind::PermissionDenied || kind == ErrorKind::ReadOnlyFilesystem
}

/// The files of a journal in their directory.
///
/// It keeps the handle of the file last used, so that a write and a sync open nothing.
#[derive(Drop)]
pub struct JournalFolder<R: Files<File: KeepOut> + AllocGlobal + Clone + Drop> {
    folder: Folder<R>,
    opened: Option<Opened<R::File>>,
    /// Whether no name in the directory has changed since it was synced. Before its first sync
    /// nothing is known.
    names_are_stable: bool,
}

impl<R: Files<File: KeepOut> + AllocGlobal + Clone + Drop> JournalFolder<R> {
    /// The journal in this directory.
    pub fn new(folder: Folder<R>) -> JournalFolder<R>
        ensures { result.folder ≡ folder }
    {
        JournalFolder {
            folder,
            opened: None,
            names_are_stable: false,
        }
    }

    /// The file's size in bytes, or `None` where it isn't there.
    pub fn size(&mut self, file: JournalFile) -> io::Result<Option<u64>>
        ensures fits { IfOk result (λ size. IfSome size (λ n. n < 2 ^ 63)) }
    {
        let Some(handle) = self.find(file)? else {
            return Ok(None);
        };
        let size = handle.metadata()?.len();
        if size >= PLACES {
            return Err(io::Error::from(ErrorKind::FileTooLarge));
        }
        Ok(Some(size))
    }

    /// Reads from place `at` on until `out` is full or the file ends. An absent file reads as
    /// empty.
    pub fn read(&mut self, file: JournalFile, at: u64, out: &mut [u8]) -> io::Result<usize>
        ensures count { IfOk result (λ n. n ≤ length out.old) }
    {
        match self.find(file)? {
            Some(handle) => read_at(handle, at, out),
            None => Ok(0),
        }
    }

    /// Writes all bytes from place `at` on. An absent file is made.
    pub fn write(&mut self, file: JournalFile, at: u64, bytes: &[u8]) -> io::Result<()>
        ensures fits { OnOk result (at + length bytes.now < 2 ^ 63) }
    {
        let length = bytes.len() as u64;
        if at >= PLACES || length >= PLACES - at {
            return Err(io::Error::from(ErrorKind::FileTooLarge));
        }
        match self.find(file)? {
            Some(handle) => write_at(handle, at, bytes),
            None => write_at(self.make(file)?, at, bytes),
        }
    }

    /// Makes the file's bytes and its name stable, or that it isn't there.
    pub fn sync(&mut self, file: JournalFile) -> io::Result<()> {
        if let Some(handle) = self.find(file)? {
            handle.sync_all()?;
        }
        self.sync_names()
    }

    /// Takes the file away, and makes stable that it isn't there.
    pub fn drop_file(&mut self, file: JournalFile) -> io::Result<()> {
        if self.has_opened(file) {
            self.opened = None;
        }
        if self.folder.remove(file.file_name())? {
            self.names_are_stable = false;
        }
        self.sync_names()
    }

    /// The handle of the file, or `None` where it isn't there.
    fn find(&mut self, file: JournalFile) -> io::Result<Option<&mut R::File>> {
        if !self.has_opened(file) {
            self.opened = self.open(file)?;
        }
        match &mut self.opened {
            Some(opened) => {
                self.folder.has_file();
                Ok(Some(&mut opened.handle))
            }
            None => Ok(None),
        }
    }

    fn has_opened(&self, file: JournalFile) -> bool {
        match &self.opened {
            Some(opened) => opened.file == file,
            None => false,
        }
    }

    /// Opens a file that may be written, or one that may only be read: by its mode, or since the
    /// whole file system is so.
    fn open_path(&self, path: &str) -> io::Result<R::File> {
        match OpenOptions::new()
            .read(true)
            .write(true)
            .open(&self.folder.rt, path)
        {
            Err(error) if is_read_only(&error) => File::open(&self.folder.rt, path),
            answer => answer,
        }
    }

    fn open(&self, file: JournalFile) -> io::Result<Option<Opened<R::File>>> {
        if !self.folder.is_held() {
            return Ok(None);
        }
        let path = self.folder.path_of(file.file_name())?;
        match self.open_path(path.as_str()) {
            Ok(handle) => Ok(Some(Opened { file, handle })),
            Err(error) if error.kind() == ErrorKind::NotFound => Ok(None),
            Err(error) => Err(error),
        }
    }

    /// Makes an absent file, and the directory where that is absent too.
    fn make(&mut self, file: JournalFile) -> io::Result<&mut R::File> {
        self.names_are_stable = false;
        self.folder.make()?;
        let path = self.folder.path_of(file.file_name())?;
        let handle = OpenOptions::new()
            .read(true)
            .write(true)
            .create_new(true)
            .open(&self.folder.rt, path)?;
        Ok(&mut self.opened.insert(Opened { file, handle }).handle)
    }

    /// Makes the names in the directory stable.
    ///
    /// An earlier run may have been killed between a change of names and the sync of it, so the
    /// first call syncs whatever this run did.
    fn sync_names(&mut self) -> io::Result<()> {
        if !self.names_are_stable {
            self.folder.sync_names()?;
            self.names_are_stable = true;
        }
        Ok(())
    }
}
