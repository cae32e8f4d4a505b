//! The system's lock on a directory.

use std::fs::File;
use std::io;

/// An open directory that others can be kept out of.
pub trait KeepOut {
    /// Keeps each other program, and each other opening, out of the directory while this handle is
    /// open.
    ///
    /// The error is `WouldBlock` where one is in it.
    fn keep_out(&self) -> io::Result<()>;
}

impl KeepOut for File {
    fn keep_out(&self) -> io::Result<()> {
        Ok(self.try_lock()?)
    }
}
