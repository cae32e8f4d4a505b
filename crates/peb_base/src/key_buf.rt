//! Room for a key.

ghost use Rattle.std.specs.Prelude.{◌≡◌, ◌+◌, ◌++◌, ◌≤◌, [], length, take};

use std::marker::Model;

/// Room for a key of at most 1024 bytes, in place. It takes no memory.
///
/// A key that shares its beginning with the one before is put behind that
/// beginning, so that no byte is copied twice.
#[derive(Debug, Drop)]
pub struct KeyBuf {
    room: [u8; 1024],
    len: usize,
}

impl Model for KeyBuf {
    ghost use Rattle.std.specs.Prelude.{List, ℕ, ◌≤◌, take};

    ghost Value = { List ℕ };

    ghost view = { λ key. take key.len key.room };

    ghost invariant = { λ key. key.len ≤ 1024 };
}

impl KeyBuf {
    /// Holds an empty key.
    pub fn new() -> KeyBuf
        ensures { result ≡ [] }
    {
        KeyBuf {
            room: [0; 1024],
            len: 0,
        }
    }

    /// Keeps the first `keep` bytes of the key and appends `rest` to them.
    ///
    /// The key has at least `keep` bytes, and the new one at most 1024.
    pub fn put(&mut self, keep: usize, rest: &[u8])
        requires kept { keep ≤ length self.old }
        requires fits { keep + length rest.now ≤ 1024 }
        ensures { self.new ≡ take keep self.old ++ rest.now }
    {
        let end = keep + rest.len();
        self.room[keep..end].copy_from_slice(rest);
        self.len = end;
    }

    /// Lends the bytes of the key, at most 1024.
    pub fn bytes(&self) -> &[u8]
        ensures value { result.now ≡ self.now }
        ensures short { length self.now ≤ 1024 }
    {
        &self.room[..self.len]
    }
}
