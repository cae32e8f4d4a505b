//! What is read of an entry in a block besides its key.

ghost use Rattle.std.specs.Prelude.{◌≡◌, ◌<◌, List, Some, slice_get};
ghost use Rattle.peb_base.specs.declared.entry.Entry.{Entry};
ghost use Rattle.peb_base.specs.EntryRefs.{entry_of, change_of};
ghost use Rattle.block_form.specs.Form.{IsBlock};
ghost use Rattle.block_form.specs.Spots.{IsSpot, BeginsWithAll, EndsWith, value_length};
ghost use Rattle.peb_base.specs.declared.change.Change.{Change};

use peb_base::{ChangeRef, EntryRef};

/// What is read of an entry in a block besides its key: what lies behind it, its number, and where its
/// value stands.
#[derive(Clone, Copy, Debug, PartialEq, Eq)]
pub struct Spot {
    /// Where the entry behind it begins, counted from the first entry. A value ends there.
    pub behind: usize,
    pub number: u64,
    /// How many bytes the value has; None for a deletion.
    pub value: Option<usize>,
}

impl Spot {
    /// What is read of an entry of this number and change, behind which this place lies.
    pub fn new(number: u64, change: ChangeRef<'_>, behind: usize) -> Spot
        ensures { result ≡ record {
          behind = behind;
          number = number;
          value = value_length (change_of change.entry);
        } }
    {
        let value = match change {
            ChangeRef::Put(value) => Some(value.len()),
            ChangeRef::Delete => None,
        };
        Spot {
            behind,
            number,
            value,
        }
    }

    /// The entry at a place of the block with these bytes, of which this is the key. It reads no byte.
    pub fn entry<'k>(self, place: usize, block: &'k [u8], key: &'k [u8]) -> EntryRef<'k>
        requires { (es : List Entry) × IsBlock es block.now × IsSpot es place key.now self }
        ensures { (es : List Entry) → IsBlock es block.now → IsSpot es place key.now self
            → slice_get es place ≡ Some (entry_of result) }
    {
        entry_at(&block[1..], place, self, key)
    }
}

/// The change at a spot among the bytes of entries.
fn change_at(entries: &[u8], spot: Spot) -> ChangeRef<'_>
    requires { (change : Change) × EndsWith change spot entries.now }
    ensures { (change : Change) → EndsWith change spot entries.now → change_of result ≡ change }
{
    match spot.value {
        Some(len) => ChangeRef::Put(&entries[spot.behind - len..spot.behind]),
        None => ChangeRef::Delete,
    }
}

/// The entry at a place among entries of which these are the bytes at the front; this is its key.
pub fn entry_at<'k>(entries: &'k [u8], place: usize, spot: Spot, key: &'k [u8]) -> EntryRef<'k>
    requires { (es : List Entry) × BeginsWithAll es entries.now × IsSpot es place key.now spot }
    ensures { (es : List Entry) → BeginsWithAll es entries.now → IsSpot es place key.now spot
        → slice_get es place ≡ Some (entry_of result) }
{
    EntryRef {
        key,
        number: spot.number,
        change: change_at(entries, spot),
    }
}
