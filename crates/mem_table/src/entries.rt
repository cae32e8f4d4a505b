//! Entries that tables, views and cursors share.

ghost use Rattle.std.specs.Prelude.{◌≡◌, ◌-◌, ◌^◌, ◌&&◌, ◌↔◌, [], Some, length, find, nat_le, min, slice_get, option_map, IsTrue, IfOk, OnOk, OnErr};
ghost use Rattle.std.specs.Arc.{arc_value};
ghost use Rattle.std.specs.Option.{ForSome};
ghost use Rattle.peb_base.specs.Cursors.{place_from, first_place, last_place, next_place, previous_place};
ghost use Rattle.peb_base.specs.Entries.{AreSorted, IsEntry, put_in};
ghost use Rattle.peb_base.specs.EntryRefs.{entry_of};
ghost use Rattle.peb_base.specs.Keys.{key_eq};
ghost use Rattle.peb_base.specs.Sorting.{IsApart};
ghost use Rattle.mem_table.specs.Chunked.{joined};
ghost use Rattle.mem_table.specs.Spots.{IsSpot, place_of};

use crate::chunks::{Chunks, share_chunks};
use crate::held_entry::HeldEntry;
use crate::spot::Spot;
use peb_base::{EntryRef, Memory, Number};
use std::alloc::Global;
use std::marker::Model;
use std::sync::Arc;

/// Entries in order in chunks, by a handle that others may hold too.
#[derive(Drop)]
pub struct Entries {
    chunks: Option<Arc<Chunks, Global>>,
}

impl Model for Entries {
    ghost use Rattle.std.specs.Prelude.{List, [], option_map, unwrap_or};
    ghost use Rattle.std.specs.Arc.{arc_value};
    ghost use Rattle.peb_base.specs.declared.entry.Entry.{Entry};

    ghost Value = { List (List Entry) };

    ghost view = { λ entries. unwrap_or (option_map arc_value entries.chunks) [] };
}

impl Entries {
    /// No entries. It takes no memory.
    pub fn new() -> Entries
        ensures { result ≡ [] }
    {
        Entries { chunks: None }
    }

    /// A further handle.
    pub fn share(&self) -> Result<Entries, Memory>
        ensures same { IfOk result (λ shared. shared ≡ self.now) }
        ensures sorted { AreSorted (joined self.now) }
    {
        let Some(chunks) = &self.chunks else {
            return Ok(Entries { chunks: None });
        };
        let shared = share_chunks(chunks)?;
        Ok(Entries {
            chunks: Some(shared),
        })
    }

    /// Whether there is none.
    pub fn is_empty(&self) -> bool
        ensures empty { IsTrue result ↔ (joined self.now ≡ []) }
        ensures sorted { AreSorted (joined self.now) }
    {
        match &self.chunks {
            Some(chunks) => chunks.is_empty(),
            None => true,
        }
    }

    /// How many there are, up to 2^64 - 1.
    pub fn len(&self) -> usize
        ensures len { result ≡ min (length (joined self.now)) (2 ^ 64 - 1) }
        ensures sorted { AreSorted (joined self.now) }
    {
        match &self.chunks {
            Some(chunks) => chunks.len(),
            None => 0,
        }
    }

    /// How many chunks there are.
    #[cfg(test)]
    pub fn count(&self) -> usize
        ensures { result ≡ length self.now }
    {
        match &self.chunks {
            Some(chunks) => chunks.count(),
            None => 0,
        }
    }

    /// Whether somebody else holds them too.
    #[cfg(test)]
    pub fn is_shared(&mut self) -> bool
        ensures { self.new ≡ self.old }
    {
        let Some(chunks) = &mut self.chunks else {
            return false;
        };
        if let Some(_own) = Arc::get_mut(chunks) {
            return false;
        }
        true
    }

    /// Puts an entry, which is apart from the others, in its place, and
    /// shows the further handles nothing of it.
    pub fn put(&mut self, alloc: Global, entry: Arc<HeldEntry, Global>) -> Result<(), Memory>
        requires entry { IsEntry (arc_value entry) }
        requires apart { IsApart (arc_value entry) (joined self.old) }
        ensures ok { OnOk result (joined self.new ≡ put_in (arc_value entry) (joined self.old)) }
        ensures err { OnErr result (joined self.new ≡ joined self.old) }
        ensures sorted { AreSorted (joined self.old) }
    {
        match &mut self.chunks {
            Some(chunks) => put_in_chunks(alloc, chunks, entry),
            None => {
                let chunks = Chunks::of(alloc, entry)?;
                self.chunks = Some(Arc::new(alloc, chunks)?);
                Ok(())
            }
        }
    }

    /// The first entry of a key numbered at most `number`, which is its newest one.
    pub fn find(&self, key: &[u8], number: Number) -> Option<EntryRef<'_>>
        ensures { option_map entry_of result
            ≡ find (λ e. key_eq e.key key.now && nat_le e.number number) (joined self.now) }
    {
        let Some(chunks) = &self.chunks else {
            return None;
        };
        match chunks.find(key, number) {
            Some(entry) => Some(entry.lend()),
            None => None,
        }
    }

    /// The place of the first entry at or behind this key and number, if there is one.
    pub fn spot_from(&self, key: &[u8], number: Number) -> Option<Spot>
        ensures spot { ForSome result (IsSpot self.now) }
        ensures place { option_map (place_of self.now) result
            ≡ place_from key.now number (joined self.now) }
    {
        match &self.chunks {
            Some(chunks) => chunks.spot_from(key, number),
            None => None,
        }
    }

    /// The place of the first entry, if there is one.
    pub fn first(&self) -> Option<Spot>
        ensures spot { ForSome result (IsSpot self.now) }
        ensures place { option_map (place_of self.now) result ≡ first_place (joined self.now) }
    {
        match &self.chunks {
            Some(chunks) => Some(chunks.first()),
            None => None,
        }
    }

    /// The place of the last entry, if there is one.
    pub fn last(&self) -> Option<Spot>
        ensures spot { ForSome result (IsSpot self.now) }
        ensures place { option_map (place_of self.now) result ≡ last_place (joined self.now) }
    {
        match &self.chunks {
            Some(chunks) => Some(chunks.last()),
            None => None,
        }
    }

    /// The place of the entry behind this place, if there is one.
    pub fn next(&self, spot: Spot) -> Option<Spot>
        requires { IsSpot self.now spot }
        ensures spot { ForSome result (IsSpot self.now) }
        ensures place { option_map (place_of self.now) result
            ≡ next_place (joined self.now) (Some (place_of self.now spot)) }
    {
        match &self.chunks {
            Some(chunks) => chunks.next(spot),
            None => None,
        }
    }

    /// The place of the entry before this place, if there is one.
    pub fn previous(&self, spot: Spot) -> Option<Spot>
        requires { IsSpot self.now spot }
        ensures spot { ForSome result (IsSpot self.now) }
        ensures place { option_map (place_of self.now) result
            ≡ previous_place (Some (place_of self.now spot)) }
    {
        match &self.chunks {
            Some(chunks) => chunks.previous(spot),
            None => None,
        }
    }

    /// Lends the entry at a place.
    pub fn entry(&self, spot: Spot) -> Option<EntryRef<'_>>
        requires { IsSpot self.now spot }
        ensures { option_map entry_of result
            ≡ slice_get (joined self.now) (place_of self.now spot) }
    {
        let Some(chunks) = &self.chunks else {
            return None;
        };
        Some(chunks.entry(spot).lend())
    }
}

/// Puts an entry into chunks: in place where nobody else holds them, and
/// else into a copy that takes their place.
fn put_in_chunks(
    alloc: Global,
    chunks: &mut Arc<Chunks, Global>,
    entry: Arc<HeldEntry, Global>,
) -> Result<(), Memory>
    requires entry { IsEntry (arc_value entry) }
    requires apart { IsApart (arc_value entry) (joined (arc_value chunks.old)) }
    ensures ok { OnOk result
        (joined (arc_value chunks.new) ≡ put_in (arc_value entry) (joined (arc_value chunks.old))) }
    ensures err { OnErr result (joined (arc_value chunks.new) ≡ joined (arc_value chunks.old)) }
    ensures sorted { AreSorted (joined (arc_value chunks.old)) }
{
    if let Some(own) = Arc::get_mut(chunks) {
        return own.put(alloc, entry);
    }
    let mut copy = chunks.copy(alloc)?;
    copy.put(alloc, entry)?;
    *chunks = Arc::new(alloc, copy)?;
    Ok(())
}
