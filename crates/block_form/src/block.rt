//! Blocks that were read.

ghost use Rattle.std.specs.Prelude.{◌≡◌, ◌⊎◌, ◌<◌, ◌≤◌, ◌+◌, ◌%◌, [], true, List, Some, length, slice_get, IfOk, IsErr};
ghost use Rattle.peb_base.specs.declared.entry.Entry.{Entry};
ghost use Rattle.peb_base.specs.Entries.{comes_before};
ghost use Rattle.peb_base.specs.EntryRefs.{entry_of};
ghost use Rattle.block_form.specs.Ends.{TellsEnds};
ghost use Rattle.block_form.specs.Form.{IsBlock, block_restarts, places_bytes};
ghost use Rattle.block_form.specs.Spots.{offset_of, IsSpot};
ghost use Rattle.block_form.specs.Walks.{entries_from};

use crate::block_fault::BlockFault;
use crate::ends::Ends;
use crate::parts::parts_of_block;
use crate::reading::ends_of;
use crate::spot::{Spot, entry_at};
use crate::stepped::{restart_at, step};
use byteorder::{BigEndian, ByteOrder};
use peb_base::{EntryRef, KeyBuf, Number, is_before};
use std::marker::Model;

/// A block that was read; contracts see the list of its entries.
#[derive(Drop)]
pub struct Block<'a> {
    entries: &'a [u8],
    /// The places of the restarts, four bytes each.
    places: &'a [u8],
    count: usize,
    ghost small: { length entries.now ≤ 40960 },
    ghost placed: { places.now
        ≡ places_bytes (block_restarts (entries_from count [] entries.now)) },
}

impl<'a> Model for Block<'a> {
    ghost use Rattle.std.specs.Prelude.{List, []};
    ghost use Rattle.peb_base.specs.declared.entry.Entry.{Entry};
    ghost use Rattle.block_form.specs.Walks.{entries_from, HoldsEntries};

    ghost Value = { List Entry };

    ghost view = { λ block. entries_from block.count [] block.entries.now };

    ghost invariant = { λ block. HoldsEntries block.entries.now block.count
        (entries_from block.count [] block.entries.now) };
}

impl<'a> Block<'a> {
    /// Reads a block, which keeps the bytes lent and takes no memory.
    ///
    /// `Form` comes exactly where no list of entries has these bytes as its spelling.
    pub fn read(bytes: &'a [u8]) -> Result<Block<'a>, BlockFault>
        ensures block { IfOk result (λ block. IsBlock block bytes.now) }
        ensures form { IsErr result → (es : List Entry) → IsBlock es bytes.now → ⊥ }
    {
        let mut room = KeyBuf::new();
        let (block, _) = Block::read_ends(bytes, &mut room)?;
        Ok(block)
    }

    /// Reads a block, and tells in the same pass its last key, which is left in `key_out`, the
    /// last number, and the least and greatest number.
    ///
    /// `Form` comes exactly where no list of entries has these bytes as its spelling.
    pub fn read_ends(bytes: &'a [u8], key_out: &mut KeyBuf) -> Result<(Block<'a>, Ends), BlockFault>
        ensures block { IfOk result (λ read. IsBlock read.0 bytes.now) }
        ensures ends { IfOk result (λ read. TellsEnds read.0 key_out.new read.1) }
        ensures form { IsErr result → (es : List Entry) → IsBlock es bytes.now → ⊥ }
    {
        let Some(parts) = parts_of_block(bytes) else {
            return Err(BlockFault::Form);
        };
        let (entries, places) = parts;
        let Some(ends) = ends_of(entries, places, key_out) else {
            return Err(BlockFault::Form);
        };
        if ends.count == 0 {
            return Err(BlockFault::Form);
        }
        let block = Block {
            entries,
            places,
            count: ends.count,
        };
        Ok((block, ends))
    }

    /// Reads a block again that is known to be one, of so many entries, without a walk over its bytes: its
    /// length and the number of its restarts tell where its entries stand.
    pub fn again(bytes: &'a [u8], count: usize) -> Block<'a>
        requires { (es : List Entry) × IsBlock es bytes.now × (length es ≡ count) }
        ensures { IsBlock result bytes.now }
    {
        let Some(parts) = parts_of_block(bytes) else {
            unreachable!();
        };
        let (entries, places) = parts;
        Block {
            entries,
            places,
            count,
        }
    }
}

impl Block<'_> {
    ghost use Rattle.peb_base.specs.Entries.{first_from};

    /// The number of entries, at least one.
    pub fn len(&self) -> usize
        ensures count { result ≡ length self.now }
        ensures some { 0 < length self.now }
    {
        self.count
    }

    /// The place of the first entry at or after this key and number, in
    /// entry order, or the number of entries.
    pub fn find(&self, key: &[u8], number: Number) -> usize
        ensures { result ≡ first_from key.now number self.now }
    {
        let mut room = KeyBuf::new();
        let (place, _) = self.seek(key, number, &mut room);
        place
    }

    /// Goes to the first entry at or after this key and number, in entry order, or behind the
    /// last: gives its place and what is read of it, and leaves its key. It halves over the
    /// restarts, and then reads sixteen entries at most.
    pub fn seek(&self, key: &[u8], number: Number, key_out: &mut KeyBuf) -> (usize, Spot)
        ensures place { result.0 ≡ first_from key.now number self.now }
        ensures spot { result.0 < length self.now
            → IsSpot self.now result.0 key_out.new result.1 }
    {
        let above = number.packed();
        let place = self.restart_before(key, above);
        let spot = self.go_to_restart(place, key_out);
        self.scan(place, spot, key, above, key_out)
    }

    /// Goes on to the first entry at or after this key and number, or behind the last, from an entry at
    /// most sixteen places before it.
    fn scan(
        &self,
        start: usize,
        from: Spot,
        key: &[u8],
        number: u64,
        key_out: &mut KeyBuf,
    ) -> (usize, Spot)
        requires place { start < length self.now }
        requires spot { IsSpot self.now start key_out.old from }
        requires near { (start ≤ first_from key.now number self.now)
            × (first_from key.now number self.now ≤ start + 16) }
        ensures place { result.0 ≡ first_from key.now number self.now }
        ensures spot { result.0 < length self.now
            → IsSpot self.now result.0 key_out.new result.1 }
    {
        let mut place = start;
        let mut spot = from;
        'scan: while place < self.count {
            if !is_before(key_out.bytes(), spot.number, key, number) {
                return (place, spot);
            }
            spot = self.behind(place, spot, key_out);
            place += 1;
        }
        (place, spot)
    }

    /// The place of the last restart whose entry comes before this key and number, or of the first restart.
    /// The first entry at or after them stands there or at most sixteen places behind.
    fn restart_before(&self, key: &[u8], number: u64) -> usize
        ensures restart { result % 16 ≡ 0 }
        ensures inside { result < length self.now }
        ensures passed { (e : Entry) → slice_get self.now result ≡ Some e → (result ≡ 0)
            ⊎ (comes_before e.key e.number key.now number ≡ true) }
        ensures near { (result ≤ first_from key.now number self.now)
            × (first_from key.now number self.now ≤ result + 16) }
    {
        let mut low = 0;
        let mut high = (self.count - 1) / 16 + 1;
        'halve: while high - low > 1 {
            let middle = low + (high - low) / 2;
            if self.restart_is_passed(16 * middle, key, number) {
                low = middle;
            } else {
                high = middle;
            }
        }
        16 * low
    }

    /// Whether the entry at a restart comes before this key and number.
    fn restart_is_passed(&self, place: usize, key: &[u8], number: u64) -> bool
        requires restart { place % 16 ≡ 0 }
        requires place { place < length self.now }
        ensures { (e : Entry) → slice_get self.now place ≡ Some e
            → result ≡ comes_before e.key e.number key.now number }
    {
        let (here, spot) = self.restart(place, self.offset_of_restart(place));
        is_before(here, spot.number, key, number)
    }

    /// Where the entry at a restart begins, counted from the first entry.
    fn offset_of_restart(&self, place: usize) -> usize
        requires restart { place % 16 ≡ 0 }
        requires place { place < length self.now }
        ensures { result ≡ offset_of place self.now }
    {
        let start = place / 16 * 4;
        (BigEndian::read_u32(&self.places[start..]) - 1) as usize
    }

    /// The key of the entry at a restart, which begins here, and what is read of it besides.
    fn restart(&self, place: usize, at: usize) -> (&[u8], Spot)
        requires restart { place % 16 ≡ 0 }
        requires place { place < length self.now }
        requires at { at ≡ offset_of place self.now }
        ensures spot { IsSpot self.now place result.0.now result.1 }
        ensures short { length result.0.now ≤ 1024 }
    {
        let rest = &self.entries[at..];
        let (key, found) = restart_at(rest);
        let behind = self.entries.len() - found.behind.len();
        (key, Spot::new(found.number, found.change, behind))
    }

    /// Goes to the entry at a restart, and leaves its key.
    fn go_to_restart(&self, place: usize, key: &mut KeyBuf) -> Spot
        requires restart { place % 16 ≡ 0 }
        requires place { place < length self.now }
        ensures { IsSpot self.now place key.new result }
    {
        let (here, spot) = self.restart(place, self.offset_of_restart(place));
        key.put(0, here);
        spot
    }

    /// Goes from the entry at a place to the one behind it, if there is one.
    fn behind(&self, place: usize, spot: Spot, key: &mut KeyBuf) -> Spot
        requires place { place < length self.now }
        requires spot { IsSpot self.now place key.old spot }
        ensures { place + 1 < length self.now → IsSpot self.now (place + 1) key.new result }
    {
        if place == self.count - 1 {
            return spot;
        }
        self.step(place, spot, key)
    }

    /// The entry at a place below the number of entries, with its value lent
    /// and its key put together in `key_out`.
    pub fn entry_at<'k>(&'k self, place: usize, key_out: &'k mut KeyBuf) -> EntryRef<'k>
        requires { place < length self.now }
        ensures { slice_get self.now place ≡ Some (entry_of result) }
    {
        let spot = self.go(place, key_out);
        entry_at(self.entries, place, spot, key_out.bytes())
    }

    /// Goes from the entry at a place to the one behind it, of which it leaves the key. It reads that entry
    /// alone.
    pub fn step(&self, place: usize, spot: Spot, key: &mut KeyBuf) -> Spot
        requires place { place + 1 < length self.now }
        requires spot { IsSpot self.now place key.old spot }
        ensures { IsSpot self.now (place + 1) key.new result }
    {
        let rest = &self.entries[spot.behind..];
        let found = step(key, rest);
        let behind = self.entries.len() - found.behind.len();
        Spot::new(found.number, found.change, behind)
    }

    /// Goes to the entry at a place below the number of entries, and leaves its key. It begins at the
    /// restart at or before the place.
    pub fn go(&self, place: usize, key: &mut KeyBuf) -> Spot
        requires { place < length self.now }
        ensures { IsSpot self.now place key.new result }
    {
        let start = place - place % 16;
        let spot = self.go_to_restart(start, key);
        self.walk(start, spot, place, key)
    }

    /// Goes on from an entry, of which the key is handed in, to one at most fifteen places behind it, and
    /// leaves the key of that.
    fn walk(&self, start: usize, from: Spot, place: usize, key: &mut KeyBuf) -> Spot
        requires place { place < length self.now }
        requires near { (start ≤ place) × (place ≤ start + 15) }
        requires spot { IsSpot self.now start key.old from }
        ensures { IsSpot self.now place key.new result }
    {
        let mut spot = from;
        for i in start..place {
            spot = self.step(i, spot, key);
        }
        spot
    }
}
