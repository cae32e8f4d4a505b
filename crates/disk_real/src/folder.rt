//! The directory of a store.

ghost use Rattle.std.specs.Prelude.{◌≡◌, IfOk, string_bytes};

use crate::keep_out::KeepOut;
use crate::shared::Shared;
use std::alloc::AllocError;
use std::fmt::Display;
use std::fs::{File, OpenFile};
use std::io::ErrorKind;
use std::rt::Files;
use std::sync::Arc;
use std::sync::atomic::Ordering;
use std::{fs, io};

/// The directory of a store, by its name. One that wasn't there when this opening first looked reads
/// as an empty one until this opening makes it, whatever another program makes of it meanwhile.
///
/// While it is open no other program, and no other opening of it, gets in. A directory that isn't
/// there is made with its first file, and kept from then on. Its own name is stable before the
/// first file is made in it; so where a file is there, its name needs no sync.
#[derive(Drop)]
pub struct Folder<R: Files<File: KeepOut> + AllocGlobal + Clone + Drop> {
    pub rt: R,
    name: String,
    pub shared: Arc<Shared<R::File>>,
}

impl<R: Files<File: KeepOut> + AllocGlobal + Clone + Drop> Folder<R> {
    /// The directory of this name, with what its objects share.
    pub fn new(rt: R, name: String, shared: Arc<Shared<R::File>>) -> Folder<R>
        ensures { result.name ≡ name }
    {
        Folder { rt, name, shared }
    }

    /// The same directory.
    pub fn copy(&self) -> Result<Folder<R>, AllocError>
        ensures { IfOk result (λ folder. string_bytes folder.name ≡ string_bytes self.now.name) }
    {
        Ok(Folder {
            rt: self.rt.clone()?,
            name: self.name.clone()?,
            shared: Arc::try_clone(&self.shared)?,
        })
    }

    pub fn name(&self) -> &str
        ensures { result.now ≡ string_bytes self.now.name }
    {
        self.name.as_str()
    }

    /// The path of a name in the directory.
    pub fn path_of(&self, name: impl Display + Drop) -> Result<String, AllocError> {
        let folder = &self.name;
        format!(in self.rt.alloc(); "{folder}/{name}")
    }

    /// Keeps others out of the directory, if it was there when this opening first looked. The error
    /// is `WouldBlock` where another is in it.
    pub fn keep_others_out(&self) -> io::Result<()> {
        if self.is_held() || self.shared.was_absent.load(Ordering::SeqCst) {
            return Ok(());
        }
        self.lock()
    }

    /// Whether the directory is this opening's. One that isn't reads as an empty one.
    pub fn is_held(&self) -> bool {
        self.shared.hold.get().is_some()
    }

    /// Takes the lock of the directory, if it is there.
    fn lock(&self) -> io::Result<()> {
        let Some(folder) = self.open(".")? else {
            self.shared.was_absent.store(true, Ordering::SeqCst);
            return Ok(());
        };
        folder.keep_out()?;
        match self.shared.hold.try_set(folder) {
            Ok(_) => Ok(()),
            Err(_) => Err(io::Error::from(ErrorKind::WouldBlock)),
        }
    }

    /// Makes the directory where it wasn't there, keeps others out of it, and makes its own name
    /// stable.
    ///
    /// A directory that another program made since this one looked is an error.
    pub fn make(&self) -> io::Result<()> {
        if self.shared.hold.get().is_none() {
            fs::create_dir(&self.rt, self.name.as_str())?;
            self.lock()?;
        }
        if self.shared.is_named.load(Ordering::SeqCst) {
            return Ok(());
        }
        if self.shared.was_named.swap(true, Ordering::SeqCst) {
            return Err(io::Error::from(ErrorKind::Other));
        }
        self.sync("..")?;
        self.has_file();
        Ok(())
    }

    /// Keeps that the directory's own name is stable, since a file is in it.
    pub fn has_file(&self) {
        self.shared.is_named.store(true, Ordering::SeqCst);
    }

    /// Takes a file away. One that isn't there is none the less Ok. Gives whether it was there.
    pub fn remove(&self, name: impl Display + Drop) -> io::Result<bool> {
        if !self.is_held() {
            return Ok(false);
        }
        match fs::remove_file(&self.rt, self.path_of(name)?) {
            Ok(()) => Ok(true),
            Err(error) if error.kind() == ErrorKind::NotFound => Ok(false),
            Err(error) => Err(error),
        }
    }

    /// Makes the names in the directory stable. Once it has failed it always does, for each object
    /// over the directory.
    pub fn sync_names(&self) -> io::Result<()> {
        let answer = self.sync(".");
        if answer.is_err() {
            self.shared.has_lost_names.store(true, Ordering::SeqCst);
        }
        if self.shared.has_lost_names.load(Ordering::SeqCst) {
            return Err(io::Error::from(ErrorKind::Other));
        }
        answer
    }

    /// Syncs a directory by its path from this one. Where this one isn't there, there is none to
    /// sync.
    fn sync(&self, path: &str) -> io::Result<()> {
        match self.open(path)? {
            Some(folder) => folder.sync_all(),
            None => Ok(()),
        }
    }

    /// Opens a directory by its path from this one, or gives `None` where it isn't there.
    fn open(&self, path: &str) -> io::Result<Option<R::File>> {
        match File::open(&self.rt, self.path_of(path)?) {
            Ok(folder) => Ok(Some(folder)),
            Err(error) if error.kind() == ErrorKind::NotFound => Ok(None),
            Err(error) => Err(error),
        }
    }
}
