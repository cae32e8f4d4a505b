//! Lists of chunks.

ghost use Rattle.std.specs.Prelude.{◌≡◌, ◌<◌, ◌≤◌, ◌+◌, ◌++◌, ◌-◌, ◌^◌, ◌&&◌, ◌↔◌, [], ◌∷◌, Some, length, map, min, set, get_or, find, nat_le, slice_get, option_map, IsTrue, IfOk, OnOk, OnErr};
ghost use Rattle.std.specs.Option.{ForSome, option_copied};
ghost use Rattle.std.specs.Arc.{arc_value};
ghost use Rattle.peb_base.specs.Cursors.{place_from, first_place, last_place, next_place, previous_place};
ghost use Rattle.peb_base.specs.Entries.{AreSorted, IsEntry, put_in};
ghost use Rattle.peb_base.specs.Keys.{key_eq};
ghost use Rattle.peb_base.specs.Sorting.{IsApart};
ghost use Rattle.mem_table.specs.Chunked.{joined, chunk_from, HaveEntries};
ghost use Rattle.peb_base.specs.SortedParts.{all_before};
ghost use Rattle.mem_table.specs.Spots.{IsSpot, place_of};

use crate::chunk::Chunk;
use crate::handles::share_all;
use crate::held_entry::HeldEntry;
use crate::spot::Spot;
use peb_base::{Memory, Number, is_before};
use std::alloc::Global;
use std::marker::Model;
use std::sync::Arc;

/// One chunk or more, each shared, with their entries in order.
#[derive(Drop)]
pub struct Chunks {
    list: Vec<Arc<Chunk, Global>>,
}

impl Model for Chunks {
    ghost use Rattle.std.specs.Prelude.{List, map};
    ghost use Rattle.std.specs.Arc.{arc_value};
    ghost use Rattle.peb_base.specs.declared.entry.Entry.{Entry};
    ghost use Rattle.mem_table.specs.Chunked.{IsChunked};

    ghost Value = { List (List Entry) };

    ghost view = { λ chunks. map arc_value chunks.list.items };

    ghost invariant = { λ chunks. IsChunked (map arc_value chunks.list.items) };
}

impl Chunks {
    /// One chunk of one entry.
    pub fn of(alloc: Global, entry: Arc<HeldEntry, Global>) -> Result<Chunks, Memory>
        requires { IsEntry (arc_value entry) }
        ensures { IfOk result (λ chunks. chunks ≡ (arc_value entry ∷ []) ∷ []) }
    {
        let chunk = Arc::new(alloc, Chunk::of(alloc, entry)?)?;
        let mut list = Vec::new(alloc);
        list.push(chunk)?;
        Ok(Chunks { list })
    }

    /// The same chunks in a list of its own.
    pub fn copy(&self, alloc: Global) -> Result<Chunks, Memory>
        ensures same { IfOk result (λ copy. copy ≡ self.now) }
        ensures sorted { AreSorted (joined self.now) }
    {
        let list = share_all(alloc, &self.list, self.list.len())?;
        Ok(Chunks { list })
    }

    /// Puts an entry, which is apart from the others, in its place: where the chunk that it goes into is
    /// full, it is cut in half, and else it is written in place where nobody else holds it.
    pub fn put(&mut self, alloc: Global, entry: Arc<HeldEntry, Global>) -> Result<(), Memory>
        requires entry { IsEntry (arc_value entry) }
        requires apart { IsApart (arc_value entry) (joined self.old) }
        ensures ok { OnOk result (joined self.new ≡ put_in (arc_value entry) (joined self.old)) }
        ensures err { OnErr result (joined self.new ≡ joined self.old) }
        ensures sorted { AreSorted (joined self.old) }
    {
        let index = self.index_for(&entry);
        if self.chunk(index).len() < Chunk::MOST {
            put_in_chunk(alloc, &mut self.list[index], entry)?;
            return Ok(());
        }
        let (low, high) = halves(alloc, self.chunk(index), entry)?;
        self.list.insert(index + 1, high)?;
        self.list[index] = low;
        Ok(())
    }

    /// The index of the chunk that an entry goes into.
    fn index_for(&self, entry: &HeldEntry) -> usize
        requires { IsApart entry.now (joined self.now) }
        ensures within { result < length self.now }
        ensures there { put_in entry.now (joined self.now)
            ≡ joined (set self.now result (put_in entry.now (get_or self.now result []))) }
    {
        let index = self.index_from(entry.key(), entry.number());
        index.min(self.count() - 1)
    }

    /// How many chunks there are, at least one.
    pub fn count(&self) -> usize
        ensures count { result ≡ length self.now }
        ensures some { 0 < result }
        ensures sorted { AreSorted (joined self.now) }
        ensures each { HaveEntries self.now }
    {
        self.list.len()
    }

    /// Lends a chunk.
    fn chunk(&self, index: usize) -> &Chunk
        requires { index < length self.now }
        ensures { result.now ≡ get_or self.now index [] }
    {
        &self.list[index]
    }

    /// The index of the first chunk that has an entry at or behind this key and number, or the
    /// number of chunks where none has. A binary search.
    fn index_from(&self, key: &[u8], number: Number) -> usize
        ensures { result ≡ chunk_from key.now number self.now }
    {
        let list = self.list.as_slice();
        list.partition_point(
            |chunk: &Arc<Chunk, Global>| -> bool
                ensures { result ≡ all_before key.entry.now number (arc_value chunk.now) }
            { chunk.ends_before(key, number) },
        )
    }

    /// Whether there is no entry.
    pub fn is_empty(&self) -> bool
        ensures empty { IsTrue result ↔ (joined self.now ≡ []) }
        ensures sorted { AreSorted (joined self.now) }
    {
        self.list.is_empty()
    }

    /// How many entries there are, up to 2^64 - 1.
    pub fn len(&self) -> usize
        ensures len { result ≡ min (length (joined self.now)) (2 ^ 64 - 1) }
        ensures sorted { AreSorted (joined self.now) }
    {
        let mut len: usize = 0;
        for chunk in &self.list {
            len = len.saturating_add(chunk.len());
        }
        len
    }

    /// The first entry of a key numbered at most `number`, which is its newest one.
    pub fn find(&self, key: &[u8], number: Number) -> Option<&HeldEntry>
        ensures { option_copied result
            ≡ find (λ e. key_eq e.key key.now && nat_le e.number number) (joined self.now) }
    {
        let Some(spot) = self.spot_from(key, number) else {
            return None;
        };
        let entry = self.entry(spot);
        if entry.key() == key {
            Some(entry)
        } else {
            None
        }
    }

    /// Lends the entry at a place.
    pub fn entry(&self, spot: Spot) -> &HeldEntry
        requires { IsSpot self.now spot }
        ensures { slice_get (joined self.now) (place_of self.now spot) ≡ Some result.now }
    {
        self.chunk(spot.chunk).entry(spot.at)
    }

    /// The place of the first entry at or behind this key and number, if there is one.
    pub fn spot_from(&self, key: &[u8], number: Number) -> Option<Spot>
        ensures spot { ForSome result (IsSpot self.now) }
        ensures place { option_map (place_of self.now) result
            ≡ place_from key.now number (joined self.now) }
        ensures sorted { AreSorted (joined self.now) }
    {
        let chunk = self.index_from(key, number);
        if chunk >= self.count() {
            return None;
        }
        let at = self.chunk(chunk).place(key, number);
        Some(Spot { chunk, at })
    }

    /// The place of the first entry.
    pub fn first(&self) -> Spot
        ensures spot { IsSpot self.now result }
        ensures place { Some (place_of self.now result) ≡ first_place (joined self.now) }
    {
        let _ = &self.list;
        Spot { chunk: 0, at: 0 }
    }

    /// The place of the last entry.
    pub fn last(&self) -> Spot
        ensures spot { IsSpot self.now result }
        ensures place { Some (place_of self.now result) ≡ last_place (joined self.now) }
    {
        let chunk = self.count() - 1;
        let at = self.chunk(chunk).len() - 1;
        Spot { chunk, at }
    }

    /// The place of the entry behind this place, if there is one.
    pub fn next(&self, spot: Spot) -> Option<Spot>
        requires { IsSpot self.now spot }
        ensures spot { ForSome result (IsSpot self.now) }
        ensures place { option_map (place_of self.now) result
            ≡ next_place (joined self.now) (Some (place_of self.now spot)) }
    {
        let Spot { chunk, at } = spot;
        if at < self.chunk(chunk).len() - 1 {
            return Some(Spot { chunk, at: at + 1 });
        }
        if chunk < self.count() - 1 {
            return Some(Spot {
                chunk: chunk + 1,
                at: 0,
            });
        }
        None
    }

    /// The place of the entry before this place, if there is one.
    pub fn previous(&self, spot: Spot) -> Option<Spot>
        requires { IsSpot self.now spot }
        ensures spot { ForSome result (IsSpot self.now) }
        ensures place { option_map (place_of self.now) result
            ≡ previous_place (Some (place_of self.now spot)) }
    {
        let Spot { chunk, at } = spot;
        if at > 0 {
            return Some(Spot { chunk, at: at - 1 });
        }
        if chunk == 0 {
            return None;
        }
        let chunk = chunk - 1;
        let at = self.chunk(chunk).len() - 1;
        Some(Spot { chunk, at })
    }
}

/// A further handle to chunks.
pub fn share_chunks(chunks: &Arc<Chunks, Global>) -> Result<Arc<Chunks, Global>, Memory>
    ensures same { IfOk result (λ shared. arc_value shared ≡ arc_value chunks.now) }
    ensures sorted { AreSorted (joined (arc_value chunks.now)) }
{
    let held: &Chunks = chunks;
    let _ = &held.list;
    Ok(Arc::try_clone(chunks)?)
}

/// Puts an entry into a chunk with room: in place where nobody else holds the chunk,
/// and else into a copy that takes its place.
fn put_in_chunk(
    alloc: Global,
    chunk: &mut Arc<Chunk, Global>,
    entry: Arc<HeldEntry, Global>,
) -> Result<(), Memory>
    requires room { length (arc_value chunk.old) < 128 }
    requires entry { IsEntry (arc_value entry) }
    requires apart { IsApart (arc_value entry) (arc_value chunk.old) }
    ensures ok { OnOk result
        (arc_value chunk.new ≡ put_in (arc_value entry) (arc_value chunk.old)) }
    ensures err { OnErr result (arc_value chunk.new ≡ arc_value chunk.old) }
{
    if let Some(own) = Arc::get_mut(chunk) {
        return own.put(entry);
    }
    let mut copy = chunk.part(alloc, 0, chunk.len())?;
    copy.put(entry)?;
    *chunk = Arc::new(alloc, copy)?;
    Ok(())
}

/// The halves of a full chunk and an entry, which is apart from the others.
fn halves(
    alloc: Global,
    chunk: &Chunk,
    entry: Arc<HeldEntry, Global>,
) -> Result<(Arc<Chunk, Global>, Arc<Chunk, Global>), Memory>
    requires full { 128 ≤ length chunk.now }
    requires entry { IsEntry (arc_value entry) }
    requires apart { IsApart (arc_value entry) chunk.now }
    ensures joined { IfOk result
        (λ r. arc_value r.0 ++ arc_value r.1 ≡ put_in (arc_value entry) chunk.now) }
    ensures low { IfOk result (λ r. 0 < length (arc_value r.0)) }
    ensures high { IfOk result (λ r. 0 < length (arc_value r.1)) }
{
    let middle = Chunk::MOST / 2;
    let mut low = chunk.part(alloc, 0, middle)?;
    let mut high = chunk.part(alloc, middle, chunk.len())?;
    put_in_half(&mut low, &mut high, entry)?;
    Ok((Arc::new(alloc, low)?, Arc::new(alloc, high)?))
}

/// Puts an entry, which is apart from the others, into the one of two chunks that it belongs to.
fn put_in_half(
    low: &mut Chunk,
    high: &mut Chunk,
    entry: Arc<HeldEntry, Global>,
) -> Result<(), Memory>
    requires low { length low.old < 128 }
    requires high { length high.old < 128 }
    requires some { 0 < length high.old }
    requires entry { IsEntry (arc_value entry) }
    requires sorted { AreSorted (low.old ++ high.old) }
    requires apart { IsApart (arc_value entry) (low.old ++ high.old) }
    ensures { OnOk result (low.new ++ high.new ≡ put_in (arc_value entry) (low.old ++ high.old)) }
{
    let first = high.entry(0);
    if is_before(
        entry.key(),
        entry.number().packed(),
        first.key(),
        first.number().packed(),
    ) {
        low.put(entry)
    } else {
        high.put(entry)
    }
}
