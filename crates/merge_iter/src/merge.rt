//! Cursors merged into one.

ghost use Rattle.std.specs.Prelude.{◌≡◌, ◌↔◌, ◌<◌, ◌≤◌, ◌++◌, ◌∷◌, [], ℕ, false, true, List, Option, Some, None, IfSome, IsOk, OnOk, OnErr, if◌then◌else◌, not, length, map, option_map};
ghost use Rattle.peb_base.specs.Cursors.{place_from, first_place, last_place, next_place, previous_place, LeadsTo, CountsFaults, IfDamage, ComesBeforeNone, refusal};
ghost use Rattle.peb_base.specs.Entries.{comes_before, entry_lt};
ghost use Rattle.peb_base.specs.EntryRefs.{entry_of};
ghost use Rattle.peb_base.specs.declared.entry.Entry.{Entry};
ghost use Rattle.peb_base.specs.declared.read_fault.ReadFault.{ReadFault};
ghost use Rattle.merge_iter.specs.Heads.{gives_way, IsChosen, comes_behind};
ghost use Rattle.merge_iter.specs.Moves.{AllWent, Moved, Of};
ghost use Rattle.merge_iter.specs.Told as told;
ghost use Rattle.merge_iter.specs.Told.{NoneRefused, OneRefused, Told, HasChosen};
ghost use Rattle.merge_iter.specs.declared.step.Step.TheVariants as steps;

use crate::choosing::chosen;
use crate::moving::{first_refusal, moved_input, seek_all, send};
use crate::step::Step;
use peb_base::{Cursor, EntryRef, KeyBuf, Number, ReadFault, is_before};

/// Several cursors as one, which walks over the entries of all of them in order, in either direction.
///
/// Going on, each input stands at its first entry that doesn't come before the current one; going back,
/// at its last that doesn't come behind it. A turn moves each input once. Where inputs have an entry of
/// one key and number, each gives its own, in the order of the inputs. No call takes memory.
#[derive(Drop)]
pub struct Merge<C: Cursor> {
    inputs: Vec<C>,
    /// The place of the input whose entry is shown.
    current: Option<usize>,
    /// Whether the others stand in front of that entry, and not behind it.
    is_back: bool,
    refused: Option<ReadFault>,
    ghost chosen: { (k : ℕ) → gives_way is_back (map C.shows inputs.items) current k ≡ true },
}

impl<C: Cursor> Merge<C> {
    ghost use Rattle.merge_iter.specs.Landed.{Landed};
    ghost use Rattle.merge_iter.specs.Parts.{AreParts};
    ghost use Rattle.merge_iter.specs.Standing.{StandEach};
    ghost use Rattle.merge_iter.specs.Walking.{Gave, WentThrough};
    ghost use Rattle.merge_iter.specs.Views.{merged_of, heads_of, shown_by, StandsIn, WalksIn, back_of, faults_of, Keeps, DamageIn};

    /// Takes cursors in, wherever they stand, and stands at no place.
    pub fn new(inputs: Vec<C>) -> Merge<C>
        ensures stands { (es : List Entry) (part : ℕ → List Entry) (at : ℕ → Option ℕ)
            → AreParts es (length inputs.items) part
            → StandEach C.stands inputs.items part at
            → StandsIn C.Cursor (merged_of result) es None }
        ensures inputs { (merged_of result).inputs ≡ inputs.items }
        ensures nothing { shown_by C.Cursor (merged_of result) ≡ None }
        ensures refused { (merged_of result).refused ≡ None }
    {
        Merge {
            inputs,
            current: None,
            is_back: false,
            refused: None,
        }
    }

    /// Takes cursors in that stand where a seek of a key and number leaves them, and stands where its
    /// own seek of them would leave it. Where that refused on some of them, it has refused as the first
    /// of these did, and stands at no place. It moves none of them.
    pub fn at_places(inputs: Vec<C>) -> Merge<C>
        // what it gives
        ensures stands { (es : List Entry) (part : ℕ → List Entry) (key : List ℕ) (number : ℕ)
            → (merged_of result).refused ≡ None
            → AreParts es (length inputs.items) part
            → StandEach C.stands inputs.items part (λ k. place_from key number (part k))
            → StandsIn C.Cursor (merged_of result) es (place_from key number es) }
        ensures chosen { (merged_of result).refused ≡ None
            → IsChosen false (heads_of C.Cursor inputs.items) (merged_of result).current }
        // what it leaves
        ensures refused { (merged_of result).refused ≡ told.first_refusal C.Cursor inputs.items }
        ensures quiet { NoneRefused C.Cursor inputs.items → (merged_of result).refused ≡ None }
        ensures nothing { (e : ReadFault) → (merged_of result).refused ≡ Some e
            → shown_by C.Cursor (merged_of result) ≡ None }
        // what stays
        ensures inputs { (merged_of result).inputs ≡ inputs.items }
        ensures direction { (merged_of result).is_back ≡ false }
    {
        if let Some(fault) = first_refusal(&inputs) {
            return Merge {
                inputs,
                current: None,
                is_back: false,
                refused: Some(fault),
            };
        }
        let current = chosen(&inputs, false);
        Merge {
            inputs,
            current,
            is_back: false,
            refused: None,
        }
    }

    /// The place of the input whose entry `at` lends; None exactly at no place.
    pub fn source(&self) -> Option<usize>
        ensures current { result ≡ (merged_of self.now).current }
        ensures exact { (result ≡ None) ↔ (shown_by C.Cursor (merged_of self.now) ≡ None) }
        ensures inside { IfSome result (λ place. place < length (merged_of self.now).inputs) }
    {
        self.current
    }

    /// Gives the inputs back, in their order, wherever they stand. Where the merge only went on since its
    /// first entry, each can have gone over just what it gave.
    pub fn close(self) -> Vec<C>
        ensures inputs { result.items ≡ (merged_of self).inputs }
        ensures gave { (given : List (ℕ × Entry)) → WentThrough C.Cursor (merged_of self) given
            → Gave C.Cursor result.items given }
    {
        let Merge {
            inputs,
            current: _,
            is_back: _,
            refused: _,
        } = self;
        inputs
    }

    /// Takes the answer of moves of the inputs in, and after Ok the first of them in a direction as current.
    fn settle(&mut self, moved: Result<(), ReadFault>, is_back: bool) -> Result<(), ReadFault>
        requires { self.old.current ≡ None }
        ensures answer { result ≡ moved }
        ensures inputs { self.new.inputs ≡ self.old.inputs }
        ensures chosen { OnOk result
            (IsChosen is_back (map C.shows self.new.inputs.items) self.new.current) }
        ensures direction { OnOk result (self.new.is_back ≡ is_back) }
        ensures nothing { OnErr result (self.new.current ≡ None) }
        ensures refused { self.new.refused ≡ refusal result }
    {
        self.refused = moved.err();
        moved?;
        self.is_back = is_back;
        self.current = chosen(&self.inputs, is_back);
        Ok(())
    }

    /// Makes a step with one input, or with each, and takes the first of them in a direction as current.
    fn go(&mut self, only: Option<usize>, step: Step, is_back: bool) -> Result<(), ReadFault>
        requires { IfSome only (λ place. place < length self.old.inputs.items) }
        // what it gives
        ensures landed { Landed C.Cursor (Of (Moved C.Cursor step) only) is_back
            (merged_of self.old)
            (merged_of self.new) result }
        ensures chosen { OnOk result (HasChosen C.Cursor is_back (merged_of self.new)) }
        // what it leaves
        ensures nothing { OnErr result (shown_by C.Cursor (merged_of self.new) ≡ None) }
        ensures refused { self.new.refused ≡ refusal result }
        ensures told { Told C.Cursor only (merged_of self.old).inputs (merged_of self.new).inputs
            result }
        // when it fails
        ensures counts { CountsFaults (faults_of C.Cursor (merged_of self.old))
            (faults_of C.Cursor (merged_of self.new)) result }
        ensures damage { IfDamage result (DamageIn C.Cursor (merged_of self.new)) }
        // what stays
        ensures keeps { Keeps C.Cursor (merged_of self.old) (merged_of self.new) }
    {
        self.current = None;
        let moved = send(&mut self.inputs, only, step);
        self.settle(moved, is_back)
    }

    /// Goes one entry back, as the inputs do. Over devices that tell no bytes the inputs may then show
    /// an entry behind the current one where they turned.
    fn step_back(&mut self) -> Result<(), ReadFault>
        // what it gives
        ensures goes { (es : List Entry) (place : Option ℕ)
            → StandsIn C.Cursor (merged_of self.old) es place
            → LeadsTo (StandsIn C.Cursor (merged_of self.new) es) (previous_place place) result }
        ensures falls { (e f : Entry) → self.old.is_back ≡ true
            → shown_by C.Cursor (merged_of self.old) ≡ Some e
            → shown_by C.Cursor (merged_of self.new) ≡ Some f
            → entry_lt e f ≡ false }
        ensures fewer { (e : Entry) → shown_by C.Cursor (merged_of self.old) ≡ Some e
            → back_of C.Cursor (merged_of self.new) < back_of C.Cursor (merged_of self.old) }
        ensures stays { shown_by C.Cursor (merged_of self.old) ≡ None
            → IsOk result × (shown_by C.Cursor (merged_of self.new) ≡ None) }
        ensures chosen { (e : Entry) → shown_by C.Cursor (merged_of self.old) ≡ Some e
            → OnOk result (HasChosen C.Cursor true (merged_of self.new)) }
        // what it leaves
        ensures nothing { OnErr result (shown_by C.Cursor (merged_of self.new) ≡ None) }
        ensures refused { self.new.refused ≡ refusal result }
        ensures told { (e : Entry) → shown_by C.Cursor (merged_of self.old) ≡ Some e
            → Told C.Cursor (if not self.old.is_back then None else self.old.current)
            (merged_of self.old).inputs (merged_of self.new).inputs result }
        // when it fails
        ensures counts { CountsFaults (faults_of C.Cursor (merged_of self.old))
            (faults_of C.Cursor (merged_of self.new)) result }
        ensures damage { IfDamage result (DamageIn C.Cursor (merged_of self.new)) }
        // what stays
        ensures still { shown_by C.Cursor (merged_of self.old) ≡ None
            → (merged_of self.new).inputs ≡ (merged_of self.old).inputs }
        ensures keeps { Keeps C.Cursor (merged_of self.old) (merged_of self.new) }
    {
        let Some(place) = self.current else {
            self.refused = None;
            return Ok(());
        };
        let only = moved_input(place, !self.is_back);
        self.go(only, Step::Previous, true)
    }

    /// Whether it shows an entry that comes behind a key and number.
    fn is_behind(&self, key: &[u8], number: u64) -> bool
        ensures { result ≡ comes_behind key.now number (shown_by C.Cursor (merged_of self.now)) }
    {
        let Some(entry) = self.at() else {
            return false;
        };
        is_before(key, number, entry.key, entry.number)
    }

    /// Goes back while it shows an entry that comes behind a key and number.
    fn fall_to(&mut self, key: &[u8], number: u64) -> Result<(), ReadFault>
        requires { self.old.refused ≡ None }
        // what it gives
        ensures falls { comes_behind key.now number (shown_by C.Cursor (merged_of self.new))
            ≡ false }
        ensures fewer { back_of C.Cursor (merged_of self.new)
            ≤ back_of C.Cursor (merged_of self.old) }
        ensures chosen { HasChosen C.Cursor true (merged_of self.old)
            → OnOk result (HasChosen C.Cursor true (merged_of self.new)) }
        // what it leaves
        ensures nothing { OnErr result (shown_by C.Cursor (merged_of self.new) ≡ None) }
        ensures refused { self.new.refused ≡ refusal result }
        ensures told { NoneRefused C.Cursor (merged_of self.old).inputs
            → Told C.Cursor None (merged_of self.old).inputs (merged_of self.new).inputs result }
        // when it fails
        ensures counts { CountsFaults (faults_of C.Cursor (merged_of self.old))
            (faults_of C.Cursor (merged_of self.new)) result }
        ensures damage { IfDamage result (DamageIn C.Cursor (merged_of self.new)) }
        // what stays
        ensures stays { comes_behind key.now number (shown_by C.Cursor (merged_of self.old)) ≡ false
            → IsOk result × (merged_of self.new ≡ merged_of self.old) }
        ensures keeps { Keeps C.Cursor (merged_of self.old) (merged_of self.new) }
    {
        while self.is_behind(key, number) {
            self.step_back()?;
        }
        Ok(())
    }
}

impl<C: Cursor> Cursor for Merge<C> {
    ghost use Rattle.merge_iter.specs.Walking.{IsCurrent, WentThrough};
    ghost use Rattle.merge_iter.specs.Laws.{stands_among, shows_within, walk_ascends, steps_bounded, keeps_self, keeps_on, damage_stays, size_stays};
    ghost use Rattle.merge_iter.specs.Views.{merged_of, shown_by, StandsIn, WalksIn, ahead_of, back_of, size_of, faults_of, Keeps, DamageIn};

    ghost stands = { λ m es place. StandsIn C.Cursor (merged_of m) es place };

    ghost shows = { λ m. shown_by C.Cursor (merged_of m) };

    ghost walks = { λ m es. WalksIn C.Cursor (merged_of m) es };

    ghost ahead = { λ m. ahead_of C.Cursor (merged_of m) };

    ghost back = { λ m. back_of C.Cursor (merged_of m) };

    ghost size = { λ m. size_of C.Cursor (merged_of m) };

    ghost keeps = { λ a b. Keeps C.Cursor (merged_of a) (merged_of b) };

    ghost damaged = { λ m number at. DamageIn C.Cursor (merged_of m) number at };

    ghost faults = { λ m. faults_of C.Cursor (merged_of m) };

    ghost refused = { λ m. (merged_of m).refused };

    ghost among = { λ m es place stands. stands_among C.Cursor.own C.among
        (merged_of m) es place m.chosen stands };

    ghost within = { λ m e there. shows_within C.Cursor.own C.within (merged_of m) e there };

    ghost ascends = { λ m es e walks there. walk_ascends C.Cursor.own
        (merged_of m) es e walks there };

    ghost bounded = { λ m. steps_bounded C.Cursor.own C.bounded (merged_of m) };

    ghost kept = { λ m. keeps_self C.Cursor.own C.kept (merged_of m) };

    ghost kept_on = { λ a b c x y. keeps_on C.Cursor.own C.kept_on (merged_of a) (merged_of b)
        (merged_of c) x y };

    ghost kept_damage = { λ a b number at x. damage_stays C.Cursor.own C.kept_damage (merged_of a)
        (merged_of b) number at x };

    ghost kept_size = { λ a b x. size_stays C.Cursor.own C.kept_size (merged_of a)
        (merged_of b) x };

    /// Goes to the first entry of all at or behind a key and number, or to no place where all come before.
    fn seek(&mut self, key: &[u8], number: Number) -> Result<(), ReadFault>
        // what it gives
        ensures goes { (es : List Entry) (place : Option ℕ)
            → StandsIn C.Cursor (merged_of self.old) es place
            → LeadsTo (StandsIn C.Cursor (merged_of self.new) es) (place_from key.now number es) result }
        ensures behind { (e : Entry) → shown_by C.Cursor (merged_of self.new) ≡ Some e
            → comes_before e.key e.number key.now number ≡ false }
        ensures chosen { OnOk result (HasChosen C.Cursor false (merged_of self.new)) }
        // what it leaves
        ensures nothing { OnErr result (shown_by C.Cursor (merged_of self.new) ≡ None) }
        ensures refused { (merged_of self.new).refused ≡ refusal result }
        ensures told { Told C.Cursor None (merged_of self.old).inputs (merged_of self.new).inputs
            result }
        // when it fails
        ensures counts { CountsFaults (faults_of C.Cursor (merged_of self.old))
            (faults_of C.Cursor (merged_of self.new)) result }
        ensures damage { IfDamage result (DamageIn C.Cursor (merged_of self.new)) }
        // what stays
        ensures keeps { Keeps C.Cursor (merged_of self.old) (merged_of self.new) }
    {
        self.current = None;
        let moved = seek_all(&mut self.inputs, key, number);
        self.settle(moved, false)
    }

    /// Goes to the first entry of all, or to no place where there is none.
    fn first(&mut self) -> Result<(), ReadFault>
        // what it gives
        ensures goes { (es : List Entry) (place : Option ℕ)
            → StandsIn C.Cursor (merged_of self.old) es place
            → LeadsTo (StandsIn C.Cursor (merged_of self.new) es) (first_place es) result }
        ensures gives { OnOk result (WentThrough C.Cursor (merged_of self.new) []) }
        ensures walks { OnOk result (WalksIn C.Cursor (merged_of self.new) []) }
        ensures chosen { OnOk result (HasChosen C.Cursor false (merged_of self.new)) }
        // what it leaves
        ensures nothing { OnErr result (shown_by C.Cursor (merged_of self.new) ≡ None) }
        ensures refused { (merged_of self.new).refused ≡ refusal result }
        ensures told { Told C.Cursor None (merged_of self.old).inputs (merged_of self.new).inputs
            result }
        // when it fails
        ensures counts { CountsFaults (faults_of C.Cursor (merged_of self.old))
            (faults_of C.Cursor (merged_of self.new)) result }
        ensures damage { IfDamage result (DamageIn C.Cursor (merged_of self.new)) }
        // what stays
        ensures keeps { Keeps C.Cursor (merged_of self.old) (merged_of self.new) }
    {
        self.go(None, Step::First, false)
    }

    /// Goes to the last entry of all, or to no place where there is none.
    fn last(&mut self) -> Result<(), ReadFault>
        // what it gives
        ensures goes { (es : List Entry) (place : Option ℕ)
            → StandsIn C.Cursor (merged_of self.old) es place
            → LeadsTo (StandsIn C.Cursor (merged_of self.new) es) (last_place es) result }
        ensures chosen { OnOk result (HasChosen C.Cursor true (merged_of self.new)) }
        // what it leaves
        ensures nothing { OnErr result (shown_by C.Cursor (merged_of self.new) ≡ None) }
        ensures refused { (merged_of self.new).refused ≡ refusal result }
        ensures told { Told C.Cursor None (merged_of self.old).inputs (merged_of self.new).inputs
            result }
        // when it fails
        ensures counts { CountsFaults (faults_of C.Cursor (merged_of self.old))
            (faults_of C.Cursor (merged_of self.new)) result }
        ensures damage { IfDamage result (DamageIn C.Cursor (merged_of self.new)) }
        // what stays
        ensures keeps { Keeps C.Cursor (merged_of self.old) (merged_of self.new) }
    {
        self.go(None, Step::Last, true)
    }

    /// Goes one entry on, or to no place behind the last. At no place it answers Ok and stays there. What
    /// it gave before is gone on by the entry that it showed, with the place of its input.
    fn next(&mut self) -> Result<(), ReadFault>
        // what it gives
        ensures goes { (es : List Entry) (place : Option ℕ)
            → StandsIn C.Cursor (merged_of self.old) es place
            → LeadsTo (StandsIn C.Cursor (merged_of self.new) es) (next_place es place) result }
        ensures gives { OnOk result ((given : List (ℕ × Entry)) (t : ℕ × Entry)
            → IsCurrent C.Cursor (merged_of self.old) t
            → WentThrough C.Cursor (merged_of self.old) given
            → WentThrough C.Cursor (merged_of self.new) (given ++ t ∷ [])) }
        ensures walks { OnOk result ((es : List Entry) (e : Entry)
            → shown_by C.Cursor (merged_of self.old) ≡ Some e
            → WalksIn C.Cursor (merged_of self.old) es
            → WalksIn C.Cursor (merged_of self.new) (es ++ e ∷ [])) }
        ensures fewer { (e : Entry) → shown_by C.Cursor (merged_of self.old) ≡ Some e
            → ahead_of C.Cursor (merged_of self.new) < ahead_of C.Cursor (merged_of self.old) }
        ensures stays { shown_by C.Cursor (merged_of self.old) ≡ None
            → IsOk result × (shown_by C.Cursor (merged_of self.new) ≡ None) }
        ensures chosen { (e : Entry) → shown_by C.Cursor (merged_of self.old) ≡ Some e
            → OnOk result (HasChosen C.Cursor false (merged_of self.new)) }
        // what it leaves
        ensures nothing { OnErr result (shown_by C.Cursor (merged_of self.new) ≡ None) }
        ensures refused { (merged_of self.new).refused ≡ refusal result }
        ensures told { (e : Entry) → shown_by C.Cursor (merged_of self.old) ≡ Some e
            → Told C.Cursor (if (merged_of self.old).is_back then None else (merged_of self.old).current)
            (merged_of self.old).inputs (merged_of self.new).inputs result }
        // when it fails
        ensures counts { CountsFaults (faults_of C.Cursor (merged_of self.old))
            (faults_of C.Cursor (merged_of self.new)) result }
        ensures damage { IfDamage result (DamageIn C.Cursor (merged_of self.new)) }
        // what stays
        ensures still { shown_by C.Cursor (merged_of self.old) ≡ None
            → (merged_of self.new).inputs ≡ (merged_of self.old).inputs }
        ensures keeps { Keeps C.Cursor (merged_of self.old) (merged_of self.new) }
    {
        let Some(place) = self.current else {
            self.refused = None;
            return Ok(());
        };
        let only = moved_input(place, self.is_back);
        self.go(only, Step::Next, false)
    }

    /// Goes one entry back, or to no place before the first. At no place it answers Ok and stays there.
    /// What it shows then doesn't come behind what it showed, over any device.
    fn prev(&mut self) -> Result<(), ReadFault>
        // what it gives
        ensures goes { (es : List Entry) (place : Option ℕ)
            → StandsIn C.Cursor (merged_of self.old) es place
            → LeadsTo (StandsIn C.Cursor (merged_of self.new) es) (previous_place place) result }
        ensures falls { (e f : Entry) → shown_by C.Cursor (merged_of self.old) ≡ Some e
            → shown_by C.Cursor (merged_of self.new) ≡ Some f
            → entry_lt e f ≡ false }
        ensures fewer { (e : Entry) → shown_by C.Cursor (merged_of self.old) ≡ Some e
            → back_of C.Cursor (merged_of self.new) < back_of C.Cursor (merged_of self.old) }
        ensures stays { shown_by C.Cursor (merged_of self.old) ≡ None
            → IsOk result × (shown_by C.Cursor (merged_of self.new) ≡ None) }
        ensures chosen { (e : Entry) → shown_by C.Cursor (merged_of self.old) ≡ Some e
            → OnOk result (HasChosen C.Cursor true (merged_of self.new)) }
        // what it leaves
        ensures nothing { OnErr result (shown_by C.Cursor (merged_of self.new) ≡ None) }
        ensures refused { (merged_of self.new).refused ≡ refusal result }
        ensures told { (e : Entry) → shown_by C.Cursor (merged_of self.old) ≡ Some e
            → Told C.Cursor (if not (merged_of self.old).is_back then None else (merged_of self.old).current)
            (merged_of self.old).inputs (merged_of self.new).inputs result }
        // when it fails
        ensures counts { CountsFaults (faults_of C.Cursor (merged_of self.old))
            (faults_of C.Cursor (merged_of self.new)) result }
        ensures damage { IfDamage result (DamageIn C.Cursor (merged_of self.new)) }
        // what stays
        ensures still { shown_by C.Cursor (merged_of self.old) ≡ None
            → (merged_of self.new).inputs ≡ (merged_of self.old).inputs }
        ensures keeps { Keeps C.Cursor (merged_of self.old) (merged_of self.new) }
    {
        if self.is_back {
            return self.step_back();
        }
        let mut key = KeyBuf::new();
        let Some(entry) = self.at() else {
            self.refused = None;
            return Ok(());
        };
        key.put(0, entry.key);
        let number = entry.number;
        self.step_back()?;
        self.fall_to(key.bytes(), number)
    }

    fn at(&self) -> Option<EntryRef<'_>> {
        let Some(place) = self.current else {
            return None;
        };
        self.inputs[place].at()
    }

    fn fault(&self) -> Option<ReadFault> {
        self.refused
    }
}
