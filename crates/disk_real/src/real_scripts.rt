//! Scripts from real files.

ghost use Rattle.std.specs.Prelude.{◌≡◌, ◌≤◌, length, None, IfOk};

use crate::faults::Faults;
use crate::file_at::read_at;
use disk_model::{Failed, Scripts};
use std::fs::File;
use std::io;
use std::rt::Files;

/// A file that was opened, with the name by which it was.
#[derive(Drop)]
struct Opened<F> {
    name: String,
    handle: F,
}

/// Scripts from real files, by their paths. It tells nothing of what they hold.
///
/// It keeps the handle of the script last read, so that one script is opened once.
#[derive(Drop)]
pub struct RealScripts<R: Files + AllocGlobal + Clone + Drop> {
    rt: R,
    opened: Option<Opened<R::File>>,
    faults: Faults,
}

impl<R: Files + AllocGlobal + Clone + Drop> RealScripts<R> {
    /// Scripts of which none is open. They keep the runtime.
    pub fn new(rt: R) -> RealScripts<R>
        ensures { result.faults.count ≡ 0 }
    {
        RealScripts {
            rt,
            opened: None,
            faults: Faults::none(),
        }
    }

    fn read(&mut self, name: &str, at: u64, out: &mut [u8]) -> io::Result<usize>
        ensures count { IfOk result (λ n. n ≤ length out.old) }
        ensures faults { self.new.faults ≡ self.old.faults }
    {
        if let Some(opened) = &mut self.opened {
            if opened.name.as_str() == name {
                return read_at(&mut opened.handle, at, out);
            }
        }
        let opened = Opened {
            name: String::from_str(self.rt.alloc(), name)?,
            handle: File::open(&self.rt, name)?,
        };
        read_at(&mut self.opened.insert(opened).handle, at, out)
    }
}

impl<R: Files + AllocGlobal + Clone + Drop> Scripts for RealScripts<R> {
    ghost text = { λ _ _. None };

    ghost faults = { λ scripts. scripts.faults.count };

    fn fetch(&mut self, name: &str, at: u64, out: &mut [u8]) -> Result<usize, Failed> {
        let read = self.read(name, at, out);
        self.faults.told(read)
    }
}
