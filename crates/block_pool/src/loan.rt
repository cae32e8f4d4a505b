//! Loans.

ghost use Rattle.std.specs.Prelude.{◌≡◌, length};
ghost use Rattle.std.specs.Borrow.{sem};

use crate::buffer::Buffer;
use std::marker::Model;

/// A buffer that is out, of 40,960 bytes. It isn't `Drop`: code that loses one, in place of giving it back,
/// doesn't compile. No two loans share a buffer, since each owns its own.
pub struct Loan {
    pub(crate) buffer: Buffer,
}

impl Model for Loan {
    ghost use Rattle.std.specs.Prelude.{List, ℕ};

    ghost Value = { List ℕ };

    ghost view = { λ loan. loan.buffer };
}

impl Loan {
    ghost use Rattle.block_pool.specs.Loan.{LendsBytes};

    /// Lends the bytes, 40,960 of them.
    pub fn bytes(&self) -> &[u8]
        ensures value { result.now ≡ self.now }
        ensures size { length self.now ≡ 40960 }
    {
        self.buffer.bytes()
    }

    /// Lends the bytes, 40,960 of them, to be written. The loan then holds what was written.
    pub fn bytes_mut(&mut self) -> &mut [u8]
        ensures* writes_back { sem 𝓛 (LendsBytes self.entry result) }
        ensures value { result.now ≡ self.old }
        ensures size { length self.old ≡ 40960 }
    {
        self.buffer.bytes_mut()
    }
}
