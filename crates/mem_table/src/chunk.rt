//! Chunks of entries.

ghost use Rattle.std.specs.Prelude.{◌≡◌, ◌<◌, ◌≤◌, ◌-◌, [], ◌∷◌, Some, length, map, take, drop, slice_get, IfOk, OnOk, OnErr};
ghost use Rattle.std.specs.Arc.{arc_value};
ghost use Rattle.peb_base.specs.Entries.{AreSorted, IsEntry, comes_before, first_from, put_in};
ghost use Rattle.peb_base.specs.Sorting.{IsApart};
ghost use Rattle.peb_base.specs.SortedParts.{all_before};

use crate::handles::share_all;
use crate::held_entry::HeldEntry;
use peb_base::{Memory, Number, is_before};
use std::alloc::Global;
use std::marker::Model;
use std::sync::Arc;

/// One to 128 entries in order, each shared.
#[derive(Drop)]
pub struct Chunk {
    entries: Vec<Arc<HeldEntry, Global>>,
}

impl Model for Chunk {
    ghost use Rattle.std.specs.Prelude.{List, map};
    ghost use Rattle.std.specs.Arc.{arc_value};
    ghost use Rattle.peb_base.specs.declared.entry.Entry.{Entry};
    ghost use Rattle.mem_table.specs.Chunked.{IsChunk};

    ghost Value = { List Entry };

    ghost view = { λ chunk. map arc_value chunk.entries.items };

    ghost invariant = { λ chunk. IsChunk (map arc_value chunk.entries.items) };
}

impl Chunk {
    /// The most entries that a chunk has.
    pub const MOST: usize = 128;

    /// A chunk of one entry.
    pub fn of(alloc: Global, entry: Arc<HeldEntry, Global>) -> Result<Chunk, Memory>
        requires { IsEntry (arc_value entry) }
        ensures { IfOk result (λ chunk. chunk ≡ arc_value entry ∷ []) }
    {
        let mut entries = Vec::with_capacity(alloc, Chunk::MOST)?;
        entries.push(entry)?;
        Ok(Chunk { entries })
    }

    /// How many entries there are.
    pub fn len(&self) -> usize
        ensures len { result ≡ length self.now }
        ensures some { 0 < result }
        ensures few { result ≤ 128 }
        ensures sorted { AreSorted self.now }
    {
        self.entries.len()
    }

    /// Lends an entry.
    pub fn entry(&self, at: usize) -> &HeldEntry
        requires { at < length self.now }
        ensures { slice_get self.now at ≡ Some result.now }
    {
        &self.entries[at]
    }

    /// Whether every entry comes before this key and number.
    pub fn ends_before(&self, key: &[u8], number: Number) -> bool
        ensures { result ≡ all_before key.now number self.now }
    {
        let last = &self.entries[self.entries.len() - 1];
        is_before(last.key(), last.number().packed(), key, number.packed())
    }

    /// The place of the first entry at or behind this key and number, or the length
    /// where all come before. A binary search.
    pub fn place(&self, key: &[u8], number: Number) -> usize
        ensures { result ≡ first_from key.now number self.now }
    {
        let number = number.packed();
        let entries = self.entries.as_slice();
        entries.partition_point(
            |entry: &Arc<HeldEntry, Global>| -> bool
                ensures { result ≡ comes_before (arc_value entry.now).key
                    (arc_value entry.now).number key.entry.now number }
            { is_before(entry.key(), entry.number().packed(), key, number) },
        )
    }

    /// Puts an entry, which is apart from the others, in its place.
    pub fn put(&mut self, entry: Arc<HeldEntry, Global>) -> Result<(), Memory>
        requires room { length self.old < 128 }
        requires entry { IsEntry (arc_value entry) }
        requires apart { IsApart (arc_value entry) self.old }
        ensures ok { OnOk result (self.new ≡ put_in (arc_value entry) self.old) }
        ensures err { OnErr result (self.new ≡ self.old) }
    {
        let at = self.place(entry.key(), entry.number());
        self.entries.insert(at, entry)?;
        Ok(())
    }

    /// A chunk of the entries from one place up to another, which it shares.
    pub fn part(&self, alloc: Global, from: usize, to: usize) -> Result<Chunk, Memory>
        requires some { from < to }
        requires within { to ≤ length self.now }
        ensures { IfOk result (λ part. part ≡ take (to - from) (drop from self.now)) }
    {
        let entries = share_all(alloc, &self.entries[from..to], Chunk::MOST)?;
        Ok(Chunk { entries })
    }
}
