//! Tallies.

ghost use Rattle.std.specs.Prelude.{◌≡◌, ◌⊎◌, ◌<◌, ◌≤◌, ◌+◌, ◌^◌, ◌++◌, ◌∷◌, [], min, true, false, List};
ghost use Rattle.peb_base.specs.Entries.{IsEntry};
ghost use Rattle.peb_base.specs.EntryRefs.{entry_of};
ghost use Rattle.peb_base.specs.declared.entry.Entry.{Entry};
ghost use Rattle.guard_commit.specs.Reading.{IsPassedBy};
ghost use Rattle.guard_commit.specs.Tallying.{Tallies, IsCounted};

use peb_base::{EntryRef, TableRow};

/// What a row counts of entries: how many they are, the lengths of their keys and values together, and
/// their least and greatest number; 0 of no entry.
#[derive(Clone, Copy, Debug)]
pub struct Tally {
    entries: u64,
    raw: u64,
    first: u64,
    last: u64,
}

impl Tally {
    /// The tally of no entry.
    pub fn new() -> Tally
        ensures { Tallies result [] }
    {
        Tally {
            entries: 0,
            raw: 0,
            first: 0,
            last: 0,
        }
    }

    /// Adds an entry, and tells whether the row tells of as many.
    pub fn add(&mut self, entry: &EntryRef<'_>, row: &TableRow) -> bool
        requires { IsEntry (entry_of entry.now) }
        ensures added { result ≡ true → (es : List Entry) → Tallies self.old es
            → Tallies self.new (es ++ entry_of entry.now ∷ []) }
        ensures passed { result ≡ false → (es : List Entry) → Tallies self.old es
            → IsPassedBy row.now (es ++ entry_of entry.now ∷ []) }
    {
        let length = (entry.key.len() + entry.change.len()) as u64;
        if !self.has_room(row.entries, row.raw, length) {
            return false;
        }
        self.first = first_of(self, entry.number);
        self.entries += 1;
        self.raw += length;
        self.last = self.last.max(entry.number);
        true
    }

    /// Whether so many entries with so long keys and values are at least an entry of this length more.
    fn has_room(&self, entries: u64, raw: u64, length: u64) -> bool
        ensures entries { result ≡ true → self.now.entries + 1 < 2 ^ 64 }
        ensures raw { result ≡ true → self.now.raw + length < 2 ^ 64 }
        ensures passed { result ≡ false → (entries ≤ self.now.entries)
            ⊎ (raw < self.now.raw + length) }
    {
        self.entries < entries && self.raw <= raw && length <= raw - self.raw
    }

    /// Whether the row counts the same.
    pub fn is_of(&self, row: &TableRow) -> bool
        ensures same { result ≡ true → (es : List Entry) → Tallies self.now es
            → IsCounted row.now es }
        ensures other { result ≡ false → (es : List Entry) → Tallies self.now es
            → IsCounted row.now es → ⊥ }
    {
        self.entries == row.entries
            && self.raw == row.raw
            && self.first == row.first.packed()
            && self.last == row.last.packed()
    }
}

/// The least number with one entry more.
fn first_of(tally: &Tally, number: u64) -> u64
    ensures none { tally.now.entries ≡ 0 → result ≡ number }
    ensures some { 0 < tally.now.entries → result ≡ min tally.now.first number }
{
    if tally.entries == 0 {
        return number;
    }
    tally.first.min(number)
}
