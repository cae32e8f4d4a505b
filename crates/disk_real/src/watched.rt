//! A file system for tests, which counts the syncs that it is asked for and can fail them, gives
//! and takes one byte a call, and can fail reads.

use crate::keep_out::KeepOut;
use std::alloc::{Allocator, Global};
use std::cell::Cell;
use std::fs::{Metadata, OpenFile, OpenOptions};
use std::io;
use std::io::{ErrorKind, Read, Seek, SeekFrom, Write};
use std::rc::Rc;
use std::rt::Files;
use std::sync::Wait;

/// A file holds fewer bytes than this.
const ROOM: usize = 8;

/// What a file system of one directory has seen, of `log-2` in it, and of one file that stands for
/// every other name. The bytes of both are the same.
#[derive(Drop)]
pub struct Seen {
    pub has_folder: Cell<bool>,
    pub has_file: Cell<bool>,
    pub has_second: Cell<bool>,
    bytes: Cell<[u8; ROOM]>,
    size: Cell<usize>,
    pub file_syncs: Cell<u8>,
    pub second_syncs: Cell<u8>,
    pub folder_syncs: Cell<u8>,
    pub parent_syncs: Cell<u8>,
    pub fails_syncs: Cell<bool>,
    /// Whether syncs of the directory alone fail.
    pub fails_folder_syncs: Cell<bool>,
    /// Whether reads, and looks at what is there, fail.
    pub fails_reads: Cell<bool>,
    /// Whether another program is in the directory.
    pub is_taken: Cell<bool>,
    /// The error with which the file that is there is refused to be written, if it may only be read.
    pub read_only: Cell<Option<ErrorKind>>,
    /// Whether a signal comes between at the next read or write.
    pub is_interrupted: Cell<bool>,
}

impl Seen {
    /// Nothing is there yet.
    pub fn nothing() -> Seen {
        Seen {
            has_folder: Cell::new(false),
            has_file: Cell::new(false),
            has_second: Cell::new(false),
            bytes: Cell::new([0; ROOM]),
            size: Cell::new(0),
            file_syncs: Cell::new(0),
            second_syncs: Cell::new(0),
            folder_syncs: Cell::new(0),
            parent_syncs: Cell::new(0),
            fails_syncs: Cell::new(false),
            fails_folder_syncs: Cell::new(false),
            fails_reads: Cell::new(false),
            is_taken: Cell::new(false),
            read_only: Cell::new(None),
            is_interrupted: Cell::new(false),
        }
    }

    /// Fails once, where a signal comes between.
    fn interrupt(&self) -> io::Result<()> {
        if self.is_interrupted.replace(false) {
            return Err(io::Error::from(ErrorKind::Interrupted));
        }
        Ok(())
    }

    /// Fails, where reads do.
    fn refuse_reading(&self) -> io::Result<()> {
        if self.fails_reads.get() {
            return Err(io::Error::from(ErrorKind::Other));
        }
        Ok(())
    }

    /// The byte at this place, if the file reaches there.
    fn byte(&self, at: usize) -> Option<u8> {
        if at >= self.size.get() {
            return None;
        }
        self.bytes.get().get(at).copied()
    }

    /// Puts a byte at this place.
    pub fn put(&self, at: usize, byte: u8) -> io::Result<()> {
        let mut bytes = self.bytes.get();
        let Some(place) = bytes.get_mut(at) else {
            return Err(io::Error::from(ErrorKind::StorageFull));
        };
        *place = byte;
        self.bytes.set(bytes);
        self.size.set(self.size.get().max(at + 1));
        Ok(())
    }

    /// Whether what was asked for by this path is there.
    fn has(&self, kind: Kind) -> &Cell<bool> {
        match kind {
            Kind::File => &self.has_file,
            Kind::Second => &self.has_second,
            Kind::Folder | Kind::Parent => &self.has_folder,
        }
    }

    /// Fails, where the file may only be read.
    fn refuse_writing(&self) -> io::Result<()> {
        match self.read_only.get() {
            Some(kind) => Err(io::Error::from(kind)),
            None => Ok(()),
        }
    }

    /// The syncs of the file, of its directory, and of the directory's parent.
    pub fn syncs(&self) -> (u8, u8, u8) {
        (
            self.file_syncs.get(),
            self.folder_syncs.get(),
            self.parent_syncs.get(),
        )
    }
}

/// The file system, as a runtime.
#[derive(Clone, Drop)]
pub struct Watched<W> {
    pub rt: W,
    pub alloc: Global,
    pub seen: Rc<Seen>,
}

impl<W> Alloc for Watched<W> {
    type A = Global;

    fn alloc(&self) -> Global {
        self.alloc
    }
}

impl<W: Wait> Wait for Watched<W> {}

/// What was opened.
#[derive(Clone, Copy, PartialEq, Eq)]
pub enum Kind {
    File,
    Second,
    Folder,
    Parent,
}

/// A file, and the place in it where the next byte is read or written; or a directory.
#[derive(Drop)]
pub struct WatchedFile {
    seen: Rc<Seen>,
    kind: Kind,
    at: u64,
}

impl KeepOut for WatchedFile {
    fn keep_out(&self) -> io::Result<()> {
        if self.seen.is_taken.get() {
            return Err(io::Error::from(ErrorKind::WouldBlock));
        }
        Ok(())
    }
}

/// The names in the directory, each ended by a NUL.
const NAMES: &[u8] = b"log-1\0table-1.2\0table-\xff\0table-1.03\0table-x.1\0table-1.1\0";

/// A listing of the directory, which is read at once.
#[derive(Drop)]
pub struct Listing {
    is_read: bool,
}

impl Read for Listing {
    fn read(&mut self, buf: &mut [u8]) -> io::Result<usize> {
        if self.is_read || buf.len() < NAMES.len() {
            return Ok(0);
        }
        self.is_read = true;
        buf[..NAMES.len()].copy_from_slice(NAMES);
        Ok(NAMES.len())
    }
}

impl Read for WatchedFile {
    fn read(&mut self, buf: &mut [u8]) -> io::Result<usize> {
        self.seen.interrupt()?;
        self.seen.refuse_reading()?;
        let Some(byte) = self.seen.byte(self.at as usize) else {
            return Ok(0);
        };
        let Some(first) = buf.first_mut() else {
            return Ok(0);
        };
        *first = byte;
        self.at = self.at.saturating_add(1);
        Ok(1)
    }
}

impl Write for WatchedFile {
    fn write(&mut self, buf: &[u8]) -> io::Result<usize> {
        self.seen.interrupt()?;
        self.seen.refuse_writing()?;
        let Some(byte) = buf.first() else {
            return Ok(0);
        };
        self.seen.put(self.at as usize, *byte)?;
        self.at = self.at.saturating_add(1);
        Ok(1)
    }

    fn flush(&mut self) -> io::Result<()> {
        Ok(())
    }
}

impl Seek for WatchedFile {
    fn seek(&mut self, to: SeekFrom) -> io::Result<u64> {
        if let SeekFrom::Start(at) = to {
            self.at = at;
        }
        Ok(self.at)
    }
}

impl OpenFile for WatchedFile {
    fn metadata(&self) -> io::Result<Metadata> {
        self.seen.refuse_reading()?;
        Ok(Metadata::of_file(self.seen.size.get() as u64))
    }

    fn set_len(&self, _size: u64) -> io::Result<()> {
        Ok(())
    }

    fn sync_all(&self) -> io::Result<()> {
        let folder_fails = self.kind == Kind::Folder && self.seen.fails_folder_syncs.get();
        if self.seen.fails_syncs.get() || folder_fails {
            return Err(io::Error::from(ErrorKind::Other));
        }
        let count = match self.kind {
            Kind::File => &self.seen.file_syncs,
            Kind::Second => &self.seen.second_syncs,
            Kind::Folder => &self.seen.folder_syncs,
            Kind::Parent => &self.seen.parent_syncs,
        };
        count.set(count.get().saturating_add(1));
        Ok(())
    }

    fn sync_data(&self) -> io::Result<()> {
        self.sync_all()
    }
}

fn is_there(there: bool) -> io::Result<()> {
    if there {
        Ok(())
    } else {
        Err(io::Error::from(ErrorKind::NotFound))
    }
}

fn unsupported<T>() -> io::Result<T> {
    Err(io::Error::from(ErrorKind::Unsupported))
}

fn kind_of(path: &str) -> Kind {
    if path.ends_with("/..") {
        Kind::Parent
    } else if path.ends_with("/.") {
        Kind::Folder
    } else if path.ends_with("/log-2") {
        Kind::Second
    } else {
        Kind::File
    }
}

impl<W> Files for Watched<W> {
    type File = WatchedFile;

    type Dir = Listing;

    fn open_file(&self, how: &OpenOptions, path: &str) -> io::Result<WatchedFile> {
        is_there(self.seen.has_folder.get())?;
        let kind = kind_of(path);
        if how.asks_create_new() {
            self.seen.has(kind).set(true);
        }
        is_there(self.seen.has(kind).get())?;
        if how.asks_write() {
            self.seen.refuse_writing()?;
        }
        Ok(WatchedFile {
            seen: self.seen.clone()?,
            kind,
            at: 0,
        })
    }

    fn create_dir(&self, _path: &str) -> io::Result<()> {
        if self.seen.has_folder.replace(true) {
            return Err(io::Error::from(ErrorKind::AlreadyExists));
        }
        Ok(())
    }

    fn remove_file(&self, path: &str) -> io::Result<()> {
        is_there(self.seen.has(kind_of(path)).replace(false))
    }

    fn open_dir(&self, _path: &str) -> io::Result<Listing> {
        Ok(Listing { is_read: false })
    }

    fn metadata(&self, path: &str) -> io::Result<Metadata> {
        self.seen.refuse_reading()?;
        is_there(self.seen.has(kind_of(path)).get())?;
        Ok(Metadata::of_file(self.seen.size.get() as u64))
    }

    fn symlink_metadata(&self, _path: &str) -> io::Result<Metadata> {
        unsupported()
    }

    fn copy(&self, _from: &str, _to: &str) -> io::Result<u64> {
        unsupported()
    }

    fn rename(&self, _from: &str, _to: &str) -> io::Result<()> {
        unsupported()
    }

    fn remove_dir(&self, _path: &str) -> io::Result<()> {
        unsupported()
    }

    fn remove_dir_all<B: Allocator>(&self, _alloc: B, _path: &str) -> io::Result<()> {
        unsupported()
    }
}
