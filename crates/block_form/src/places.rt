//! The places of the restarts of a block that is built.

ghost use Rattle.std.specs.Prelude.{◌≡◌, ◌≤◌, ◌+◌, ◌++◌, [], length};
ghost use Rattle.byteorder.specs.Endian.{big_bytes};

use std::marker::Model;

/// Room for the places of the restarts, in place: contracts see their bytes.
#[derive(Drop)]
pub struct Places {
    room: [u8; 4096],
    len: usize,
}

impl Model for Places {
    ghost use Rattle.std.specs.Prelude.{List, ℕ, ◌≤◌, take};

    ghost Value = { List ℕ };

    ghost view = { λ places. take places.len places.room };

    ghost invariant = { λ places. places.len ≤ 4096 };
}

impl Places {
    pub fn new() -> Places
        ensures { result ≡ [] }
    {
        Places {
            room: [0; 4096],
            len: 0,
        }
    }

    pub fn put(&mut self, place: u32)
        requires { length self.old + 4 ≤ 4096 }
        ensures { self.new ≡ self.old ++ big_bytes 4 place }
    {
        let end = self.len + 4;
        self.room[self.len..end].copy_from_slice(&place.to_be_bytes());
        self.len = end;
    }

    pub fn clear(&mut self)
        ensures { self.new ≡ [] }
    {
        self.len = 0;
    }

    pub fn bytes(&self) -> &[u8]
        ensures bytes { result.now ≡ self.now }
        ensures few { length self.now ≤ 4096 }
    {
        &self.room[..self.len]
    }
}
