//! Blocks that are built.

ghost use Rattle.std.specs.Prelude.{◌≡◌, ◌<◌, ◌≤◌, ◌↔◌, ◌+◌, ◌++◌, ◌∷◌, [], length, true, IsTrue, IfOk};
ghost use Rattle.std.specs.Borrow.{sem};
ghost use Rattle.std.specs.Io.BufRead.{Rests};
ghost use Rattle.peb_base.specs.Entries.{AreSorted};
ghost use Rattle.peb_base.specs.EntryRefs.{entry_of};
ghost use Rattle.block_form.specs.Form.{block_bytes, IsBlock};
ghost use Rattle.block_form.specs.Walks.{places_at};

use crate::places::Places;
use crate::room::Room;
use crate::writing::put_entry;
use peb_base::{EntryRef, KeyBuf, Memory, Options};
use std::alloc::Global;
use std::marker::Model;

/// A block that is built, and after it the next; contracts see the length at which
/// a block is full, and the entries so far.
#[derive(Drop)]
pub struct BlockBuilder {
    full: u32,
    count: usize,
    room: Room,
    places: Places,
    key: KeyBuf,
}

impl Model for BlockBuilder {
    ghost use Rattle.std.specs.Prelude.{drop, []};
    ghost use Rattle.block_form.specs.Building.{Building, IsBuilding, put_in};
    ghost use Rattle.block_form.specs.Walks.{entries_from};

    ghost Value = { Building };

    ghost view = { λ b. record {
      full = b.full;
      entries =
          entries_from b.count [] (drop 1 (put_in b.room));
    } };

    ghost invariant = { λ b. IsBuilding b.full (put_in b.room) b.places b.count b.key
        (entries_from b.count [] (drop 1 (put_in b.room))) };
}

/// Keeps the place of the entry, if it is a restart.
fn put_place(places: &mut Places, place: usize, at: u32)
    requires { length places.old + 4 ≤ 4096 }
    ensures { places.new ≡ places.old ++ places_at place at }
{
    if place % 16 == 0 {
        places.put(at);
    }
}

impl BlockBuilder {
    ghost use Rattle.block_form.specs.contracts.block_builder.BlockBuilder.{the_row};

    /// Takes the buffer in which blocks of the profile are built. No later call takes memory.
    pub fn new(alloc: Global, options: &Options) -> Result<BlockBuilder, Memory>
        ensures { IfOk result
            (λ builder. builder ≡ record { full = options.now.block_bytes; entries = [] }) }
    {
        let mut room = Room::new(alloc)?;
        room.put(&[0]);
        Ok(BlockBuilder {
            full: options.block_bytes,
            count: 0,
            room,
            places: Places::new(),
            key: KeyBuf::new(),
        })
    }

    /// Whether the block has no entry.
    pub fn is_empty(&self) -> bool
        ensures { IsTrue result ↔ (length self.now.entries ≡ 0) }
    {
        self.count == 0
    }

    /// Whether the block has at least the length, in bytes, at which the profile closes a block.
    pub fn is_full(&self) -> bool
        ensures { IsTrue result ↔ (self.now.full ≤ length (block_bytes self.now.entries)) }
    {
        self.room.len() + self.places.bytes().len() + 4 >= self.full as usize
    }

    /// Appends an entry, which comes after those of the block, to a block that isn't full.
    pub fn push(&mut self, entry: EntryRef<'_>)
        requires sorted { AreSorted (self.old.entries ++ entry_of entry ∷ []) }
        requires room { length (block_bytes self.old.entries) < self.old.full }
        ensures { self.new
            ≡ record self.old { entries = self.old.entries ++ entry_of entry.entry ∷ [] } }
    {
        let at = self.room.len() as u32;
        put_place(&mut self.places, self.count, at);
        put_entry(&mut self.room, self.count, self.key.bytes(), &entry);
        self.key.put(0, entry.key);
        self.count += 1;
    }

    /// Lends the bytes of the block, at least one entry, and begins the next one.
    pub fn finish(&mut self) -> &[u8]
        requires { 0 < length self.old.entries }
        ensures* next { sem 𝓛
            (Rests the_row self.entry (λ builder. builder ≡ record self.old { entries = [] })) }
        ensures block { IsBlock self.old.entries result.now }
    {
        let count = (self.places.bytes().len() / 4) as u32;
        self.room.put(self.places.bytes());
        self.room.put(&count.to_be_bytes());
        let len = self.room.len();
        self.room.cut(1);
        self.places.clear();
        self.key.put(0, &[]);
        self.count = 0;
        self.room.first(len)
    }
}
