//! Pools.

ghost use Rattle.std.specs.Prelude.{◌≡◌, ◌↔◌, ◌+◌, ◌<◌, max, IsSome, OnOk, OnErr, IfOk, OnSome, IfNone};

use crate::buffer::{Buffer, new_buffers};
use crate::loan::Loan;
use peb_base::Memory;
use std::alloc::Global;
use std::marker::Model;

/// Buffers of one owner. Each of them is in, or out as a `Loan`.
#[derive(Drop)]
pub struct Pool {
    free: Vec<Buffer>,
    out: usize,
}

impl Model for Pool {
    ghost use Rattle.std.specs.Prelude.{◌+◌, ◌≤◌, vec_len, vec_capacity};
    ghost use Rattle.block_pool.specs.Pool.{Buffers};

    ghost Value = { Buffers };

    ghost view = { λ pool. record { free = vec_len pool.free; out = pool.out } };

    // Whatever is out finds its place again, without memory.
    ghost invariant = { λ pool. vec_len pool.free + pool.out ≤ vec_capacity pool.free };
}

impl Pool {
    /// A pool of so many buffers, all of them in.
    pub fn new(alloc: Global, count: u32) -> Result<Pool, Memory>
        ensures { IfOk result (λ pool. pool ≡ record { free = count; out = 0 }) }
    {
        let free = new_buffers(alloc, count as usize)?;
        Ok(Pool { free, out: 0 })
    }

    /// Adds the buffers that are wanting, where fewer than `free` are in, so that exactly `free` are in
    /// then. Elsewhere nothing changes, and no memory is taken. `Memory` changes nothing.
    pub fn reserve(&mut self, free: u32) -> Result<(), Memory>
        ensures ok { OnOk result
            (self.new ≡ record { free = max self.old.free free; out = self.old.out }) }
        ensures err { OnErr result ((self.new ≡ self.old) × (self.old.free < free)) }
    {
        let wanted = free as usize;
        if self.free.len() >= wanted {
            return Ok(());
        }
        let wanting = wanted - self.free.len();
        let mut more = new_buffers(*self.free.allocator(), wanting)?;
        self.free.reserve(wanting + self.out)?;
        self.free.append(&mut more)?;
        Ok(())
    }

    /// Takes a buffer out. `None` comes exactly where all are out. It takes no memory.
    pub fn lend(&mut self) -> Option<Loan>
        ensures some { IsSome result ↔ (0 < self.old.free) }
        ensures lent { OnSome result
            ((self.new.free + 1 ≡ self.old.free) × (self.new.out ≡ self.old.out + 1)) }
        ensures none { IfNone result (self.new ≡ self.old) }
    {
        let Some(buffer) = self.free.pop() else {
            return None;
        };
        self.out += 1;
        Some(Loan { buffer })
    }

    /// Takes back a loan, which is this pool's. It takes no memory.
    pub fn give_back(&mut self, loan: Loan)
        requires { 0 < self.old.out }
        ensures free { self.new.free ≡ self.old.free + 1 }
        ensures out { self.new.out + 1 ≡ self.old.out }
    {
        let Loan { buffer } = loan;
        self.free.push_reserved(buffer);
        self.out -= 1;
    }
}
