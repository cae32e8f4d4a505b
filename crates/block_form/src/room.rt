//! A buffer of a block's size.

ghost use Rattle.std.specs.Prelude.{◌≡◌, ◌≤◌, ◌+◌, ◌++◌, List, take, [], length, IfOk};

use crate::parts::MOST_BYTES;
use std::alloc::{AllocError, Global};

/// A buffer of 40,960 bytes that is filled from the front.
#[derive(Drop)]
pub struct Room {
    bytes: Vec<u8>,
    len: usize,
    ghost size: { length bytes.items ≡ 40960 },
    ghost within: { len ≤ 40960 },
}

impl Room {
    ghost use Rattle.block_form.specs.Building.{put_in};

    /// Takes the buffer.
    pub fn new(alloc: Global) -> Result<Room, AllocError>
        ensures { IfOk result (λ room. put_in room ≡ []) }
    {
        let bytes = vec![in alloc; 0u8; MOST_BYTES]?;
        Ok(Room { bytes, len: 0 })
    }

    /// Puts these bytes behind those that were put.
    pub fn put(&mut self, more: &[u8])
        requires { length (put_in self.old) + length more.now ≤ 40960 }
        ensures { put_in self.new ≡ put_in self.old ++ more.now }
    {
        let end = self.len + more.len();
        self.bytes.as_mut_slice()[self.len..end].copy_from_slice(more);
        self.len = end;
    }

    /// How many bytes were put.
    pub fn len(&self) -> usize
        ensures len { result ≡ length (put_in self.now) }
        ensures field { result ≡ self.now.len }
    {
        self.len
    }

    /// Keeps the first bytes alone; the buffer stays as it is.
    pub fn cut(&mut self, len: usize)
        requires { len ≤ length (put_in self.old) }
        ensures kept { put_in self.new ≡ take len (put_in self.old) }
        ensures bytes { self.new.bytes.items ≡ self.old.bytes.items }
    {
        self.len = len;
    }

    /// The first bytes of the buffer.
    pub fn first(&self, len: usize) -> &[u8]
        requires { len ≤ 40960 }
        ensures { result.now ≡ take len self.now.bytes.items }
    {
        &self.bytes[..len]
    }
}
