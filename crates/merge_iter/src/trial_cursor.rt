//! A cursor over entries in memory, for tests.

ghost use Rattle.std.specs.Prelude.{◌≡◌, ◌≤◌, Some, false, OnOk, OnErr, length, option_map};
ghost use Rattle.peb_base.specs.Cursors.{CountsFaults, refusal};
ghost use Rattle.peb_base.specs.Entries.{comes_before};
ghost use Rattle.peb_base.specs.EntryRefs.{entry_of};
ghost use Rattle.peb_base.specs.declared.entry.Entry.{Entry};
ghost use Rattle.merge_iter.specs.Trials.{fits, shown_at, is_lower, reaches};

use peb_base::{Change, ChangeRef, Cursor, Entry, EntryRef, Number, ReadFault, is_before};

/// A cursor over entries in memory. An entry that comes before the one before it ends a walk on.
#[derive(Drop)]
pub struct TrialCursor {
    entries: Vec<Entry>,
    /// The number of entries at no place.
    place: usize,
    /// How many moves are made before the next one refuses.
    moves: u64,
    /// What that one refuses with.
    refuses: Option<ReadFault>,
    failed: u64,
    refused: Option<ReadFault>,
    ghost inside: { place ≤ length entries.items },
}

/// Lends an entry.
fn lent(entry: &Entry) -> EntryRef<'_>
    ensures { entry_of result ≡ entry.now }
{
    match &entry.change {
        Change::Put(value) => EntryRef::new(
            entry.key.bytes(),
            entry.number,
            ChangeRef::Put(value.bytes()),
        ),
        Change::Delete => EntryRef::new(entry.key.bytes(), entry.number, ChangeRef::Delete),
    }
}

/// Whether an entry is within its limits.
fn is_entry(entry: &EntryRef<'_>) -> bool
    ensures { result ≡ fits (entry_of entry.now) }
{
    0 < entry.key.len()
        && entry.key.len() <= 1024
        && entry.number < 9_223_372_036_854_775_808
        && entry.change.len() <= 32768
}

impl TrialCursor {
    /// At no place, and never refusing.
    pub fn new(entries: Vec<Entry>) -> TrialCursor {
        let place = entries.len();
        TrialCursor {
            entries,
            place,
            moves: 0,
            refuses: None,
            failed: 0,
            refused: None,
        }
    }

    /// Refuses the move after so many.
    pub fn refuse_after(&mut self, moves: u64, fault: ReadFault) {
        self.moves = moves;
        self.refuses = Some(fault);
    }

    fn entry_at(&self, place: usize) -> Option<EntryRef<'_>>
        ensures { option_map entry_of result ≡ shown_at self.now.entries.items place }
    {
        let Some(entry) = self.entries.get(place) else {
            return None;
        };
        let entry = lent(entry);
        if !is_entry(&entry) {
            return None;
        }
        Some(entry)
    }

    fn lower(&self, place: usize, other: usize) -> bool
        ensures { result ≡ is_lower (shown_at self.now.entries.items place)
            (shown_at self.now.entries.items other) }
    {
        let Some(a) = self.entry_at(place) else {
            return false;
        };
        let Some(b) = self.entry_at(other) else {
            return false;
        };
        is_before(a.key, a.number, b.key, b.number)
    }

    fn has_reached(&self, place: usize, key: &[u8], number: u64) -> bool
        ensures { result ≡ reaches key.now number (shown_at self.now.entries.items place) }
    {
        let Some(entry) = self.entry_at(place) else {
            return false;
        };
        !is_before(entry.key, entry.number, key, number)
    }

    /// The place of the first entry that doesn't come before a key and number.
    fn find(&self, key: &[u8], number: u64) -> usize
        ensures inside { result ≤ length self.now.entries.items }
        ensures behind { (e : Entry) → shown_at self.now.entries.items result ≡ Some e
            → comes_before e.key e.number key.now number ≡ false }
    {
        for place in 0..self.entries.len() {
            if self.has_reached(place, key, number) {
                return place;
            }
        }
        self.entries.len()
    }

    /// Counts a move, which may refuse.
    fn begin(&mut self) -> Result<(), ReadFault>
        ensures ok { OnOk result (self.new.place ≡ self.old.place) }
        ensures nothing { OnErr result (self.new.place ≡ length self.old.entries.items) }
        ensures refused { self.new.refused ≡ refusal result }
        ensures counts { CountsFaults self.old.failed self.new.failed result }
        ensures entries { self.new.entries ≡ self.old.entries }
    {
        self.refused = None;
        if self.moves > 0 {
            self.moves -= 1;
            return Ok(());
        }
        let Some(fault) = self.refuses else {
            return Ok(());
        };
        self.refuses = None;
        self.place = self.entries.len();
        self.failed = self.failed.saturating_add(1);
        self.refused = Some(fault);
        Err(fault)
    }
}

impl Cursor for TrialCursor {
    ghost use Rattle.std.specs.Prelude.{◌≡◌, ℕ, suc, List, Some, length, slice_get};
    ghost use Rattle.std.proofs.Common.{◌∙◌};
    ghost use Rattle.peb_base.specs.Cursors.{ComesBeforeNone};
    ghost use Rattle.peb_base.specs.declared.entry.Entry.{Entry};
    ghost use Rattle.merge_iter.specs.Trials.{shown_at, steps_on, steps_back, checked_fits, bounded_steps};

    ghost stands = { λ c es place. ⊥ };

    ghost shows = { λ c. shown_at c.entries.items c.place };

    ghost walks = { λ c es. (e : Entry) → shown_at c.entries.items c.place ≡ Some e → ComesBeforeNone e es };

    ghost ahead = { λ c. steps_on (length c.entries.items) c.place };

    ghost back = { λ c. steps_back (length c.entries.items) c.place };

    ghost size = { λ c. suc (length c.entries.items) };

    ghost keeps = { λ a b. length b.entries.items ≡ length a.entries.items };

    ghost damaged = { λ c table at. Unit {0} };

    ghost faults = { λ c. c.failed };

    ghost refused = { λ c. c.refused };

    ghost among = { λ c es place never. absurd never };

    ghost within = { λ c e there. checked_fits (slice_get c.entries.items c.place) e there };

    ghost ascends = { λ c es e walks there. walks e there };

    ghost bounded = { λ c. bounded_steps c.place (length c.entries.items) c.inside };

    ghost kept = { λ c i. length c.entries.items };

    ghost kept_on = { λ a b c x y. y ∙ x };

    ghost kept_damage = { λ a b number at x. ((λ h. h), (λ h. h)) };

    ghost kept_size = { λ a b x i. suc (x i) };

    fn seek(&mut self, key: &[u8], number: Number) -> Result<(), ReadFault> {
        self.begin()?;
        self.place = self.find(key, number.packed());
        Ok(())
    }

    fn first(&mut self) -> Result<(), ReadFault> {
        self.begin()?;
        self.place = 0;
        Ok(())
    }

    fn last(&mut self) -> Result<(), ReadFault> {
        self.begin()?;
        self.place = self.entries.len().saturating_sub(1);
        Ok(())
    }

    fn next(&mut self) -> Result<(), ReadFault> {
        if self.at().is_none() {
            self.refused = None;
            return Ok(());
        }
        self.begin()?;
        let next = self.place + 1;
        if self.lower(next, self.place) {
            self.place = self.entries.len();
            return Ok(());
        }
        self.place = next;
        Ok(())
    }

    fn prev(&mut self) -> Result<(), ReadFault> {
        if self.at().is_none() {
            self.refused = None;
            return Ok(());
        }
        self.begin()?;
        if self.place == 0 || self.lower(self.place, self.place - 1) {
            self.place = self.entries.len();
            return Ok(());
        }
        self.place -= 1;
        Ok(())
    }

    fn at(&self) -> Option<EntryRef<'_>> {
        self.entry_at(self.place)
    }

    fn fault(&self) -> Option<ReadFault> {
        self.refused
    }
}
