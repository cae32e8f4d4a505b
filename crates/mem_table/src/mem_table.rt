//! Memtables.

ghost use Rattle.std.specs.Prelude.{◌≡◌, ◌++◌, ◌<◌, ◌≤◌, ◌+◌, ◌-◌, ◌^◌, [], ◌∷◌, All, length, min, IfOk, OnOk, OnErr};
ghost use Rattle.peb_base.specs.Batches.{numbered};
ghost use Rattle.peb_base.specs.Entries.{AreSorted, in_order, size_of};

use crate::entries::Entries;
use crate::held_entry::HeldEntry;
use crate::mem_view::MemView;
use peb_base::{Batch, Memory, Number, Op};
use std::alloc::Global;
use std::marker::Model;

/// The entries that aren't flushed yet, in entry order, as contracts see them.
#[derive(Drop)]
pub struct MemTable {
    alloc: Global,
    pub(crate) entries: Entries,
    size: u64,
}

impl Model for MemTable {
    ghost use Rattle.std.specs.Prelude.{List, ◌≡◌, ◌-◌, ◌^◌, min};
    ghost use Rattle.peb_base.specs.Entries.{size_of};
    ghost use Rattle.peb_base.specs.declared.entry.Entry.{Entry};
    ghost use Rattle.mem_table.specs.Chunked.{joined};

    ghost Value = { List Entry };

    ghost view = { λ table. joined table.entries };

    ghost invariant = { λ table. table.size ≡ min (size_of (joined table.entries)) (2 ^ 64 - 1) };
}

impl MemTable {
    /// A table without entries. It takes no memory.
    pub fn new(alloc: Global) -> MemTable
        ensures { result ≡ [] }
    {
        MemTable {
            alloc,
            entries: Entries::new(),
            size: 0,
        }
    }

    /// Inserts copies of a batch's operations, numbered from `first` on, each in its place.
    ///
    /// `first` is above the numbers of all entries, and no number of the batch passes 2^63 - 1. A view
    /// taken before shows nothing of it. For want of memory the table is as it was.
    pub fn insert(&mut self, batch: &Batch, first: Number) -> Result<(), Memory>
        requires newer { All (λ e. e.number < first) self.old }
        requires fits { first + length batch.now ≤ 2 ^ 63 }
        ensures ok { OnOk result (self.new ≡ in_order (self.old ++ numbered first batch.now)) }
        ensures err { OnErr result (self.new ≡ self.old) }
    {
        match batch.ops() {
            [op] => self.insert_one(op, first),
            ops => self.insert_all(ops, first),
        }
    }

    /// The size in bytes: the sum over the entries of the lengths of key
    /// and value and 16 more, up to 2^64 - 1.
    pub fn size(&self) -> u64
        ensures { result ≡ min (size_of self.now) (2 ^ 64 - 1) }
    {
        self.size
    }

    /// A view of the entries as they are now. It copies one handle.
    pub fn snapshot(&self) -> Result<MemView, Memory>
        ensures same { IfOk result (λ view. view ≡ self.now) }
        ensures sorted { AreSorted self.now }
    {
        let entries = self.entries.share()?;
        Ok(MemView::of(entries))
    }

    /// Inserts one operation: in place where nobody else holds what it writes.
    fn insert_one(&mut self, op: &Op, number: Number) -> Result<(), Memory>
        requires { All (λ e. e.number < number) self.old }
        ensures ok { OnOk result (self.new ≡ in_order (self.old ++ numbered number (op.now ∷ []))) }
        ensures err { OnErr result (self.new ≡ self.old) }
    {
        let entry = HeldEntry::of(self.alloc, op, number)?;
        let bytes = entry.size();
        self.entries.put(self.alloc, entry)?;
        self.size = self.size.saturating_add(bytes);
        Ok(())
    }

    /// Inserts operations under a further handle, which takes the place of the first one at the end.
    fn insert_all(&mut self, ops: &[Op], first: Number) -> Result<(), Memory>
        requires newer { All (λ e. e.number < first) self.old }
        requires fits { first + length ops.now ≤ 2 ^ 63 }
        ensures ok { OnOk result (self.new ≡ in_order (self.old ++ numbered first ops.now)) }
        ensures err { OnErr result (self.new ≡ self.old) }
    {
        let mut entries = self.entries.share()?;
        let mut size = self.size;
        for (at, op) in ops.iter().enumerate() {
            let number = Number::of_packed(first.packed() + at as u64);
            let entry = HeldEntry::of(self.alloc, op, number)?;
            size = size.saturating_add(entry.size());
            entries.put(self.alloc, entry)?;
        }
        self.entries = entries;
        self.size = size;
        Ok(())
    }
}
