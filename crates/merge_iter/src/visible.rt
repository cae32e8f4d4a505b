//! What a number sees of a cursor's entries.

ghost use Rattle.std.specs.Prelude.{◌≡◌, ◌<◌, ◌≤◌, ◌++◌, ◌∷◌, [], ℕ, false, true, not, List, Option, Some, None, Err, IfSome, IsOk, OnOk, OnErr, length, option_map, take};
ghost use Rattle.peb_base.specs.Cursors.{entry_at, place_in, place_from, first_place, last_place, next_place, previous_place, LeadsTo, CountsFaults, IfDamage, refusal};
ghost use Rattle.peb_base.specs.EntryRefs.{entry_of};
ghost use Rattle.peb_base.specs.declared.entry.Entry.{Entry};
ghost use Rattle.peb_base.specs.declared.read_fault.ReadFault.{ReadFault};
ghost use Rattle.merge_iter.specs.Seeing.{visible, Sees, put_at_most, puts, is_passed, is_hidden, key_after, key_of, IsAhead, IsBack, is_found, looks_back, seen};

use crate::moving::go_on;
use peb_base::{ChangeRef, Cursor, EntryRef, KeyBuf, Number, ReadFault};

/// What a number sees of a cursor's entries: of each key the newest entry at or below the number, unless
/// that is a deletion.
///
/// A call that answers a `ReadFault` leaves it at no place. No call takes memory.
#[derive(Drop)]
pub struct Visible<C: Cursor> {
    inner: C,
    number: Number,
    /// The key of the last entry at or below the number that a walk on passed; empty before the first.
    key: KeyBuf,
}

/// Whether the entry gives its key a value.
fn is_put(entry: &EntryRef<'_>) -> bool
    ensures { result ≡ puts (entry_of entry.now).change }
{
    match entry.change {
        ChangeRef::Put(_) => true,
        ChangeRef::Delete => false,
    }
}

/// Whether the entry is newer than a number, or of a key.
fn passes(entry: &EntryRef<'_>, number: u64, key: &[u8]) -> bool
    ensures { result ≡ is_passed number key.now (entry_of entry.now) }
{
    number < entry.number || entry.key == key
}

impl<C: Cursor> Visible<C> {
    ghost use Rattle.merge_iter.specs.VisibleViews.{inner_of, number_of_view, seen_by, SeesIn, HasPassed, HasShown};

    /// Sees a cursor's entries at a number, at no place. The cursor stands at no place.
    pub fn new(inner: C, number: Number) -> Visible<C>
        requires nothing { C.shows inner ≡ None }
        ensures sees { (es : List Entry) (at : Option ℕ) → C.stands inner es at
            → SeesIn C.Cursor result es None }
        ensures inner { inner_of result ≡ inner }
        ensures number { number_of_view result ≡ number }
        ensures nothing { seen_by C.Cursor result ≡ None }
    {
        Visible {
            inner,
            number,
            key: KeyBuf::new(),
        }
    }

    /// Sees a cursor's entries at a number again, over a cursor that stands where a seek of a key and the
    /// number leaves it. It answers, and goes, as `new` and then `seek` of the key would: where the
    /// cursor's seek refused, it answers just that and moves nothing.
    pub fn resume(inner: C, key: &[u8], number: Number) -> (Visible<C>, Result<(), ReadFault>)
        // what it gives
        ensures goes { (es : List Entry) → C.refused inner ≡ None
            → C.stands inner es (place_from key.now number es)
            → LeadsTo (SeesIn C.Cursor result.0 es)
            (place_from key.now number (visible number es)) result.1 }
        ensures told { (e : ReadFault) → C.refused inner ≡ Some e
            → (result.1 ≡ Err e) × (inner_of result.0 ≡ inner) }
        ensures sees { C.refused inner ≡ None
            → seen_by C.Cursor result.0 ≡ C.shows (inner_of result.0) }
        // what it leaves
        ensures nothing { C.refused inner ≡ None
            → OnErr result.1 (seen_by C.Cursor result.0 ≡ None) }
        ensures refused { C.refused (inner_of result.0) ≡ refusal result.1 }
        // when it fails
        ensures counts { C.refused inner ≡ None
            → CountsFaults (C.faults inner) (C.faults (inner_of result.0)) result.1 }
        ensures damage { C.refused inner ≡ None
            → IfDamage result.1 (C.damaged (inner_of result.0)) }
        // what stays
        ensures number { number_of_view result.0 ≡ number }
        ensures keeps { C.keeps inner (inner_of result.0) }
    {
        let mut view = Visible {
            inner,
            number,
            key: KeyBuf::new(),
        };
        let answer = view.go_in();
        (view, answer)
    }

    /// Gives the cursor back, wherever it stands.
    pub fn close(self) -> C
        ensures { result ≡ inner_of self }
    {
        let Visible {
            inner,
            number: _,
            key: _,
        } = self;
        inner
    }

    /// Lends the cursor's entry, where it is a put at or below the number.
    fn lent(&self) -> Option<EntryRef<'_>>
        ensures lent { option_map entry_of result ≡ seen_by C.Cursor self.now }
        ensures put { IfSome result
            (λ e. (puts (entry_of e).change ≡ true)
            × ((entry_of e).number ≤ number_of_view self.now)) }
    {
        let Some(entry) = self.inner.at() else {
            return None;
        };
        if self.number.packed() < entry.number || !is_put(&entry) {
            return None;
        }
        Some(entry)
    }

    /// Lends the entry at its place, a put at or below the number; None at no place.
    pub fn at(&self) -> Option<EntryRef<'_>>
        ensures place { (es : List Entry) (place : Option ℕ) → SeesIn C.Cursor self.now es place
            → option_map entry_of result ≡ entry_at (visible (number_of_view self.now) es) place }
        ensures lent { option_map entry_of result ≡ seen_by C.Cursor self.now }
        ensures put { IfSome result
            (λ e. (puts (entry_of e).change ≡ true)
            × ((entry_of e).number ≤ number_of_view self.now)) }
    {
        self.lent()
    }

    /// Whether a walk on doesn't stop at the cursor's entry.
    fn hides(&self) -> bool
        ensures { result ≡ is_hidden self.now.number self.now.key (C.shows self.now.inner) }
    {
        let Some(entry) = self.inner.at() else {
            return false;
        };
        passes(&entry, self.number.packed(), self.key.bytes()) || !is_put(&entry)
    }

    /// Keeps the key of the cursor's entry.
    fn keep_key(&mut self)
        ensures { self.new
            ≡ record self.old { key = key_of self.old.key (C.shows self.old.inner) } }
    {
        let Some(entry) = self.inner.at() else {
            return;
        };
        self.key.put(0, entry.key);
    }

    /// Keeps the key of the cursor's entry, unless the entry is newer than the number.
    fn keep_passed(&mut self)
        ensures { self.new
            ≡ record self.old {
              key =
                  key_after self.old.number self.old.key (C.shows self.old.inner);
            } }
    {
        let Some(entry) = self.inner.at() else {
            return;
        };
        if passes(&entry, self.number.packed(), self.key.bytes()) {
            return;
        }
        self.key.put(0, entry.key);
    }

    /// Goes on to the first entry at which a walk on stops, which may be the one where it stands.
    fn settle(&mut self) -> Result<(), ReadFault>
        requires { C.refused self.old.inner ≡ None }
        // what it gives
        ensures goes { (es : List Entry) (at : Option ℕ) (p : ℕ) → C.stands self.old.inner es at
            → IsAhead self.old.number self.old.key es at p
            → LeadsTo (SeesIn C.Cursor self.new es)
            (place_in (visible self.old.number es) p) result }
        ensures shown { (given : List Entry) → HasPassed C.Cursor self.old given
            → OnOk result (HasShown C.Cursor self.new given) }
        ensures fewer { C.ahead self.new.inner ≤ C.ahead self.old.inner }
        ensures stays { C.shows self.old.inner ≡ None → IsOk result × (self.new ≡ self.old) }
        ensures sees { put_at_most self.new.number (C.shows self.new.inner)
            ≡ C.shows self.new.inner }
        // what it leaves
        ensures nothing { OnErr result (C.shows self.new.inner ≡ None) }
        ensures refused { C.refused self.new.inner ≡ refusal result }
        // when it fails
        ensures counts { CountsFaults (C.faults self.old.inner) (C.faults self.new.inner) result }
        ensures damage { IfDamage result (C.damaged self.new.inner) }
        // what stays
        ensures number { self.new.number ≡ self.old.number }
        ensures keeps { C.keeps self.old.inner self.new.inner }
    {
        while self.hides() {
            self.keep_passed();
            self.inner.next()?;
        }
        Ok(())
    }

    /// Refuses as its cursor did, or goes on to the first entry at which a walk on stops.
    fn go_in(&mut self) -> Result<(), ReadFault>
        // what it gives
        ensures goes { (es : List Entry) (at : Option ℕ) (p : ℕ) → C.refused self.old.inner ≡ None
            → C.stands self.old.inner es at
            → IsAhead self.old.number self.old.key es at p
            → LeadsTo (SeesIn C.Cursor self.new es)
            (place_in (visible self.old.number es) p) result }
        ensures told { (e : ReadFault) → C.refused self.old.inner ≡ Some e
            → (result ≡ Err e) × (self.new ≡ self.old) }
        ensures sees { C.refused self.old.inner ≡ None
            → put_at_most self.new.number (C.shows self.new.inner) ≡ C.shows self.new.inner }
        // what it leaves
        ensures nothing { C.refused self.old.inner ≡ None
            → OnErr result (C.shows self.new.inner ≡ None) }
        ensures refused { C.refused self.new.inner ≡ refusal result }
        // when it fails
        ensures counts { C.refused self.old.inner ≡ None
            → CountsFaults (C.faults self.old.inner) (C.faults self.new.inner) result }
        ensures damage { C.refused self.old.inner ≡ None
            → IfDamage result (C.damaged self.new.inner) }
        // what stays
        ensures number { self.new.number ≡ self.old.number }
        ensures keeps { C.keeps self.old.inner self.new.inner }
    {
        if let Some(fault) = self.inner.fault() {
            return Err(fault);
        }
        self.settle()
    }

    /// Goes to the first visible entry whose key doesn't come before this one, or to no place where all
    /// come before.
    pub fn seek(&mut self, key: &[u8]) -> Result<(), ReadFault>
        // what it gives
        ensures goes { (es : List Entry) (place : Option ℕ) → SeesIn C.Cursor self.old es place
            → LeadsTo (SeesIn C.Cursor self.new es)
            (place_from key.now (number_of_view self.old)
            (visible (number_of_view self.old) es)) result }
        ensures sees { seen_by C.Cursor self.new ≡ C.shows (inner_of self.new) }
        // what it leaves
        ensures nothing { OnErr result (seen_by C.Cursor self.new ≡ None) }
        ensures refused { C.refused (inner_of self.new) ≡ refusal result }
        // when it fails
        ensures counts { CountsFaults (C.faults (inner_of self.old))
            (C.faults (inner_of self.new)) result }
        ensures damage { IfDamage result (C.damaged (inner_of self.new)) }
        // what stays
        ensures number { number_of_view self.new ≡ number_of_view self.old }
        ensures keeps { C.keeps (inner_of self.old) (inner_of self.new) }
    {
        self.key.put(0, &[]);
        self.inner.seek(key, self.number)?;
        self.settle()
    }

    /// Goes to the first visible entry, or to no place where there is none.
    pub fn first(&mut self) -> Result<(), ReadFault>
        // what it gives
        ensures goes { (es : List Entry) (place : Option ℕ) → SeesIn C.Cursor self.old es place
            → LeadsTo (SeesIn C.Cursor self.new es)
            (first_place (visible (number_of_view self.old) es)) result }
        ensures shown { OnOk result (HasShown C.Cursor self.new []) }
        ensures sees { seen_by C.Cursor self.new ≡ C.shows (inner_of self.new) }
        // what it leaves
        ensures nothing { OnErr result (seen_by C.Cursor self.new ≡ None) }
        ensures refused { C.refused (inner_of self.new) ≡ refusal result }
        // when it fails
        ensures counts { CountsFaults (C.faults (inner_of self.old))
            (C.faults (inner_of self.new)) result }
        ensures damage { IfDamage result (C.damaged (inner_of self.new)) }
        // what stays
        ensures number { number_of_view self.new ≡ number_of_view self.old }
        ensures keeps { C.keeps (inner_of self.old) (inner_of self.new) }
    {
        self.key.put(0, &[]);
        self.inner.first()?;
        self.settle()
    }

    /// Goes one visible entry on, or to no place behind the last. At no place it stays there.
    pub fn next(&mut self) -> Result<(), ReadFault>
        // what it gives
        ensures goes { (es : List Entry) (place : Option ℕ) → SeesIn C.Cursor self.old es place
            → LeadsTo (SeesIn C.Cursor self.new es)
            (next_place (visible (number_of_view self.old) es) place) result }
        ensures shown { (given : List Entry) (e : Entry)
            → seen_by C.Cursor self.old ≡ Some e → HasShown C.Cursor self.old given
            → OnOk result (HasShown C.Cursor self.new (given ++ e ∷ [])) }
        ensures fewer { (e : Entry) → seen_by C.Cursor self.old ≡ Some e
            → C.ahead (inner_of self.new) < C.ahead (inner_of self.old) }
        ensures stays { C.shows (inner_of self.old) ≡ None
            → IsOk result × (C.shows (inner_of self.new) ≡ None) }
        ensures sees { seen_by C.Cursor self.new ≡ C.shows (inner_of self.new) }
        // what it leaves
        ensures nothing { OnErr result (seen_by C.Cursor self.new ≡ None) }
        ensures refused { C.refused (inner_of self.new) ≡ refusal result }
        // when it fails
        ensures counts { CountsFaults (C.faults (inner_of self.old))
            (C.faults (inner_of self.new)) result }
        ensures damage { IfDamage result (C.damaged (inner_of self.new)) }
        // what stays
        ensures number { number_of_view self.new ≡ number_of_view self.old }
        ensures keeps { C.keeps (inner_of self.old) (inner_of self.new) }
    {
        self.keep_key();
        self.inner.next()?;
        self.settle()
    }

    /// Whether a walk back goes on over the cursor's entry.
    fn goes_back(&self, found: bool) -> bool
        ensures { result ≡ looks_back self.now.number self.now.key found (C.shows self.now.inner) }
    {
        let Some(entry) = self.inner.at() else {
            return false;
        };
        if !found {
            return true;
        }
        entry.number <= self.number.packed() && entry.key == self.key.bytes()
    }

    /// Whether the cursor's entry is a put at or below the number.
    fn finds(&self) -> bool
        ensures { result ≡ is_found self.now.number (C.shows self.now.inner) }
    {
        let Some(entry) = self.inner.at() else {
            return false;
        };
        entry.number <= self.number.packed() && is_put(&entry)
    }

    /// Turns to the put that a walk back has found, one entry behind where it stands.
    fn turn(&mut self, found: bool) -> Result<(), ReadFault>
        requires { C.refused self.old.inner ≡ None }
        // what it gives
        ensures goes { (es : List Entry) (r : ℕ) (left : List Entry)
            → C.stands self.old.inner es (previous_place (Some r))
            → IsBack self.old.number self.old.key es r left found
            → looks_back self.old.number self.old.key found (C.shows self.old.inner) ≡ false
            → LeadsTo (SeesIn C.Cursor self.new es) (previous_place (Some (length left))) result }
        ensures stays { found ≡ false → IsOk result × (self.new ≡ self.old) }
        ensures sees { looks_back self.old.number self.old.key found (C.shows self.old.inner) ≡ false
            → put_at_most self.new.number (C.shows self.new.inner) ≡ C.shows self.new.inner }
        // what it leaves
        ensures nothing { OnErr result (C.shows self.new.inner ≡ None) }
        ensures refused { C.refused self.new.inner ≡ refusal result }
        // when it fails
        ensures counts { CountsFaults (C.faults self.old.inner) (C.faults self.new.inner) result }
        ensures damage { IfDamage result (C.damaged self.new.inner) }
        // what stays
        ensures number { self.new.number ≡ self.old.number }
        ensures keeps { C.keeps self.old.inner self.new.inner }
    {
        if !found {
            return Ok(());
        }
        self.key.put(0, &[]);
        go_on(&mut self.inner)?;
        self.settle()
    }

    /// Goes back to the last visible entry at or before where it stands, or to no place.
    fn settle_back(&mut self) -> Result<(), ReadFault>
        requires { C.refused self.old.inner ≡ None }
        // what it gives
        ensures goes { (es : List Entry) (r : ℕ)
            → C.stands self.old.inner es (previous_place (Some r))
            → LeadsTo (SeesIn C.Cursor self.new es)
            (previous_place (Some (length (seen self.old.number [] (take r es))))) result }
        ensures stays { C.shows self.old.inner ≡ None → IsOk result × (self.new ≡ self.old) }
        ensures sees { put_at_most self.new.number (C.shows self.new.inner)
            ≡ C.shows self.new.inner }
        // what it leaves
        ensures nothing { OnErr result (C.shows self.new.inner ≡ None) }
        ensures refused { C.refused self.new.inner ≡ refusal result }
        // when it fails
        ensures counts { CountsFaults (C.faults self.old.inner) (C.faults self.new.inner) result }
        ensures damage { IfDamage result (C.damaged self.new.inner) }
        // what stays
        ensures number { self.new.number ≡ self.old.number }
        ensures keeps { C.keeps self.old.inner self.new.inner }
    {
        let mut found = false;
        while self.goes_back(found) {
            found = self.finds();
            self.keep_key();
            self.inner.prev()?;
        }
        self.turn(found)
    }

    /// Goes to the last visible entry, or to no place where there is none.
    pub fn last(&mut self) -> Result<(), ReadFault>
        // what it gives
        ensures goes { (es : List Entry) (place : Option ℕ) → SeesIn C.Cursor self.old es place
            → LeadsTo (SeesIn C.Cursor self.new es)
            (last_place (visible (number_of_view self.old) es)) result }
        ensures sees { seen_by C.Cursor self.new ≡ C.shows (inner_of self.new) }
        // what it leaves
        ensures nothing { OnErr result (seen_by C.Cursor self.new ≡ None) }
        ensures refused { C.refused (inner_of self.new) ≡ refusal result }
        // when it fails
        ensures counts { CountsFaults (C.faults (inner_of self.old))
            (C.faults (inner_of self.new)) result }
        ensures damage { IfDamage result (C.damaged (inner_of self.new)) }
        // what stays
        ensures number { number_of_view self.new ≡ number_of_view self.old }
        ensures keeps { C.keeps (inner_of self.old) (inner_of self.new) }
    {
        self.inner.last()?;
        self.settle_back()
    }

    /// Goes one visible entry back, or to no place before the first. At no place it stays there.
    pub fn prev(&mut self) -> Result<(), ReadFault>
        // what it gives
        ensures goes { (es : List Entry) (place : Option ℕ) → SeesIn C.Cursor self.old es place
            → LeadsTo (SeesIn C.Cursor self.new es) (previous_place place) result }
        ensures stays { C.shows (inner_of self.old) ≡ None
            → IsOk result × (C.shows (inner_of self.new) ≡ None) }
        ensures sees { seen_by C.Cursor self.new ≡ C.shows (inner_of self.new) }
        // what it leaves
        ensures nothing { OnErr result (seen_by C.Cursor self.new ≡ None) }
        ensures refused { C.refused (inner_of self.new) ≡ refusal result }
        // when it fails
        ensures counts { CountsFaults (C.faults (inner_of self.old))
            (C.faults (inner_of self.new)) result }
        ensures damage { IfDamage result (C.damaged (inner_of self.new)) }
        // what stays
        ensures number { number_of_view self.new ≡ number_of_view self.old }
        ensures keeps { C.keeps (inner_of self.old) (inner_of self.new) }
    {
        self.inner.prev()?;
        self.settle_back()
    }
}
