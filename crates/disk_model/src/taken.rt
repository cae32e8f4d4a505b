ghost use Rattle.std.specs.Prelude.{◌≡◌, ◌≤◌, [], Some};
ghost use Rattle.disk_model.specs.Bytes.{Takes};
ghost use Rattle.disk_model.specs.Images.{Rose, HasCause};

use crate::Failed;
use std::alloc::Global;

/// What one sink in memory took, how much more it takes, and how often it failed.
#[derive(Drop)]
pub struct Taken {
    pub bytes: Vec<u8>,
    room: Option<u64>,
    pub faults: u64,
}

impl Taken {
    pub fn new(alloc: Global, room: Option<u64>) -> Taken
        ensures bytes { result.bytes.items ≡ [] }
        ensures room { result.room ≡ room }
        ensures faults { result.faults ≡ 0 }
    {
        Taken {
            bytes: Vec::new(alloc),
            room,
            faults: 0,
        }
    }

    fn fail(&mut self) -> Failed
        ensures bytes { self.new.bytes ≡ self.old.bytes }
        ensures later { self.old.faults ≤ self.new.faults }
        ensures rose { Rose self.old.faults self.new.faults }
    {
        self.faults = self.faults.saturating_add(1);
        Failed
    }

    /// Takes the bytes for which there is room, and fails where those aren't all.
    pub fn put(&mut self, bytes: &[u8]) -> Result<(), Failed>
        ensures taken { Takes (Some self.old.bytes.items) bytes.now result
            (Some self.new.bytes.items) }
        ensures cause { HasCause self.old.faults self.new.faults result }
    {
        let count = match self.room {
            Some(room) => room.min(bytes.len() as u64) as usize,
            None => bytes.len(),
        };
        if self.bytes.extend_from_slice(&bytes[..count]).is_err() {
            return Err(self.fail());
        }
        if let Some(room) = self.room {
            self.room = Some(room.saturating_sub(count as u64));
        }
        if count < bytes.len() {
            return Err(self.fail());
        }
        Ok(())
    }
}
