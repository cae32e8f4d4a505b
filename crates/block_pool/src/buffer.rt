//! Buffers.

ghost use Rattle.std.specs.Borrow.{sem};
ghost use Rattle.std.specs.Prelude.{◌≡◌, length, IfOk, vec_len};

use peb_base::Memory;
use std::alloc::Global;
use std::marker::Model;

/// The bytes of one buffer, as many as a block has at most.
#[derive(Drop)]
pub struct Buffer {
    bytes: Vec<u8>,
}

impl Model for Buffer {
    ghost use Rattle.std.specs.Prelude.{List, ℕ, length, ◌≡◌};

    ghost Value = { List ℕ };

    ghost view = { λ buffer. buffer.bytes.items };

    ghost invariant = { λ buffer. length buffer.bytes.items ≡ 40960 };
}

impl Buffer {
    ghost use Rattle.block_pool.specs.Buffer.{LendsBytes};

    fn new(alloc: Global) -> Result<Buffer, Memory> {
        let mut bytes = Vec::new(alloc);
        bytes.resize(40_960, 0)?;
        Ok(Buffer { bytes })
    }

    pub fn bytes(&self) -> &[u8]
        ensures value { result.now ≡ self.now }
        ensures size { length self.now ≡ 40960 }
    {
        self.bytes.as_slice()
    }

    pub fn bytes_mut(&mut self) -> &mut [u8]
        ensures* writes_back { sem 𝓛 (LendsBytes self.entry result) }
        ensures value { result.now ≡ self.old }
        ensures size { length self.old ≡ 40960 }
    {
        self.bytes.as_mut_slice()
    }
}

/// So many new buffers.
pub fn new_buffers(alloc: Global, count: usize) -> Result<Vec<Buffer>, Memory>
    ensures { IfOk result (λ buffers. vec_len buffers ≡ count) }
{
    let mut buffers = Vec::new(alloc);
    for _ in 0..count {
        buffers.push(Buffer::new(alloc)?)?;
    }
    Ok(buffers)
}
