ghost use Rattle.std.specs.Prelude.{◌≡◌, ◌≤◌, IfOk, IfSome, length};

use std::alloc::{AllocError, Global};

/// Numbers drawn from a seed.
#[derive(Drop)]
pub struct Draws {
    state: u64,
}

impl Draws {
    pub fn new(seed: u64) -> Draws
        ensures { result.state ≡ seed }
    {
        Draws { state: seed }
    }

    fn next(&mut self) -> u64 {
        let next = self.state.wrapping_mul(6_364_136_223_846_793_005);
        self.state = next.wrapping_add(1_442_695_040_888_963_407);
        self.state >> 33
    }

    /// What is left of a write that was not synced: nothing, the whole, a part, or other bytes.
    pub fn torn(&mut self, alloc: Global, bytes: &[u8]) -> Result<Option<Vec<u8>>, AllocError>
        ensures { IfOk result (λ left. IfSome left (λ part. length part.items ≤ length bytes.now)) }
    {
        let kind = self.next() % 4;
        if kind == 0 {
            return Ok(None);
        }
        let mut part = bytes.to_vec(alloc)?;
        if kind == 1 {
            part.truncate(self.next() as usize % (bytes.len() + 1));
        }
        if kind == 2 {
            for byte in &mut part {
                *byte = (self.next() % 256) as u8;
            }
        }
        Ok(Some(part))
    }
}
