//! Views of a memtable.

ghost use Rattle.std.specs.Prelude.{◌≡◌, ◌&&◌, ◌↔◌, ◌-◌, ◌^◌, [], None, length, min, find, nat_le, option_map, IsTrue, IfOk};
ghost use Rattle.peb_base.specs.Entries.{AreSorted};
ghost use Rattle.peb_base.specs.EntryRefs.{entry_of};
ghost use Rattle.peb_base.specs.Keys.{key_eq};

use crate::entries::Entries;
use crate::mem_cursor::MemCursor;
use peb_base::{EntryRef, Memory, Number};
use std::marker::Model;

/// The entries of a memtable at a moment, in entry order, as contracts see them. They never change: what is
/// inserted into the table afterwards isn't among them.
#[derive(Drop)]
pub struct MemView {
    entries: Entries,
}

impl Model for MemView {
    ghost use Rattle.std.specs.Prelude.{List};
    ghost use Rattle.peb_base.specs.declared.entry.Entry.{Entry};
    ghost use Rattle.mem_table.specs.Chunked.{joined};

    ghost Value = { List Entry };

    ghost view = { λ v. joined v.entries };
}

impl MemView {
    ghost use Rattle.mem_table.specs.Chunked.{joined};
    ghost use Rattle.mem_table.specs.Seen.{StandsIn};

    /// A view of these entries.
    pub(crate) fn of(entries: Entries) -> MemView
        ensures { result ≡ joined entries }
    {
        MemView { entries }
    }

    /// Whether there is no entry.
    pub fn is_empty(&self) -> bool
        ensures empty { IsTrue result ↔ (self.now ≡ []) }
        ensures sorted { AreSorted self.now }
    {
        self.entries.is_empty()
    }

    /// How many entries there are, up to 2^64 - 1, in a time that grows with the number of chunks.
    pub fn len(&self) -> usize
        ensures len { result ≡ min (length self.now) (2 ^ 64 - 1) }
        ensures sorted { AreSorted self.now }
    {
        self.entries.len()
    }

    /// A further view of the same entries. It copies one handle.
    pub fn copy(&self) -> Result<MemView, Memory>
        ensures same { IfOk result (λ copy. copy ≡ self.now) }
        ensures sorted { AreSorted self.now }
    {
        let entries = self.entries.share()?;
        Ok(MemView { entries })
    }

    /// The newest entry of a key numbered at most `number`: None exactly where
    /// there is no such entry. A binary search.
    pub fn find(&self, key: &[u8], number: Number) -> Option<EntryRef<'_>>
        ensures { option_map entry_of result
            ≡ find (λ e. key_eq e.key key.now && nat_le e.number number) self.now }
    {
        self.entries.find(key, number)
    }

    /// A cursor over the entries, at no place. It holds the entries for
    /// itself, and no call of it takes memory.
    pub fn cursor(&self) -> Result<MemCursor, Memory>
        ensures stands { IfOk result (λ cursor. StandsIn cursor self.now None) }
        ensures sorted { AreSorted self.now }
    {
        let entries = self.entries.share()?;
        Ok(MemCursor::of(entries))
    }
}
