//! Cursors over sorted entries.

ghost use Rattle.std.specs.Prelude.{◌≡◌, ◌↔◌, ◌≤◌, ◌<◌, ◌++◌, ◌∷◌, [], ℕ, false, List, Option, Some, None, IsOk, OnOk, OnErr, option_map};
ghost use Rattle.peb_base.specs.EntryRefs.{entry_of};
ghost use Rattle.peb_base.specs.Entries.{IsEntry, comes_before, entry_lt};
ghost use Rattle.peb_base.specs.Cursors.{place_from, first_place, last_place, next_place, previous_place, StandsAmong, LeadsTo, CountsFaults, IfDamage, ComesBeforeNone, refusal};
ghost use Rattle.peb_base.specs.declared.entry.Entry.{Entry};
ghost use Rattle.peb_base.specs.declared.read_fault.ReadFault.{ReadFault};

use crate::entry_ref::EntryRef;
use crate::number::Number;
use crate::read_fault::ReadFault;

/// A place among sorted entries, or no place.
///
/// A call that moves the cursor and answers Ok goes exactly where it should. One that answers a
/// `ReadFault` leaves the cursor at no place, where it stays until the next `seek`, `first` or `last`.
/// `Fault` comes only where the device's count of faults rose, `Damaged` only where damage stands, and
/// never over bytes that are those of sorted entries.
pub trait Cursor {
    /// Which entries it walks over, and where among them it stands. Over a device that doesn't tell its
    /// bytes, and over bytes that are no entries', it stands nowhere that can be named.
    ghost stands: { Self → List Entry → Option ℕ → Type 0 };

    /// The entry at which it stands, over any device and any bytes; none at no place.
    ghost shows: { Self → Option Entry };

    /// Which entries it can have gone over since it went to its first one, over any device and any bytes.
    ghost walks: { Self → List Entry → Type 0 };

    /// How many steps on there are at most.
    ghost ahead: { Self → ℕ };

    /// How many steps back there are at most.
    ghost back: { Self → ℕ };

    /// How many steps there are at most from one end to the other.
    ghost size: { Self → ℕ };

    /// What stays the same from one cursor to a later one, whatever moves were made between.
    ghost keeps: { Self → Self → Type 0 };

    /// Damage stands in the table of this number at this place.
    ghost damaged: { Self → ℕ → ℕ → Type 0 };

    /// How often its device has failed, a count that stays at 2^64 - 1 once it is there.
    ghost faults: { Self → ℕ };

    /// What the last call that moves it refused with.
    ghost refused: { Self → Option ReadFault };

    /// Goes to the first entry at or behind this key and number, or to no place where all come before. What
    /// it shows then doesn't come before them, over any device.
    fn seek(&mut self, key: &[u8], number: Number) -> Result<(), ReadFault>
        // what it gives
        ensures goes { (es : List Entry) (place : Option ℕ) → stands self.old es place
            → LeadsTo (stands self.new es) (place_from key.now number es) result }
        ensures behind { (e : Entry) → shows self.new ≡ Some e
            → comes_before e.key e.number key.now number ≡ false }
        // what it leaves
        ensures nothing { OnErr result (shows self.new ≡ None) }
        ensures refused { refused self.new ≡ refusal result }
        // when it fails
        ensures counts { CountsFaults (faults self.old) (faults self.new) result }
        ensures damage { IfDamage result (damaged self.new) }
        // what stays
        ensures keeps { keeps self.old self.new };

    /// Goes to the first entry, or to no place where there is none.
    fn first(&mut self) -> Result<(), ReadFault>
        // what it gives
        ensures goes { (es : List Entry) (place : Option ℕ) → stands self.old es place
            → LeadsTo (stands self.new es) (first_place es) result }
        ensures walks { OnOk result (walks self.new []) }
        // what it leaves
        ensures nothing { OnErr result (shows self.new ≡ None) }
        ensures refused { refused self.new ≡ refusal result }
        // when it fails
        ensures counts { CountsFaults (faults self.old) (faults self.new) result }
        ensures damage { IfDamage result (damaged self.new) }
        // what stays
        ensures keeps { keeps self.old self.new };

    /// Goes to the last entry, or to no place where there is none.
    fn last(&mut self) -> Result<(), ReadFault>
        // what it gives
        ensures goes { (es : List Entry) (place : Option ℕ) → stands self.old es place
            → LeadsTo (stands self.new es) (last_place es) result }
        // what it leaves
        ensures nothing { OnErr result (shows self.new ≡ None) }
        ensures refused { refused self.new ≡ refusal result }
        // when it fails
        ensures counts { CountsFaults (faults self.old) (faults self.new) result }
        ensures damage { IfDamage result (damaged self.new) }
        // what stays
        ensures keeps { keeps self.old self.new };

    /// Goes one entry on, or to no place behind the last. At no place it answers Ok and stays there.
    fn next(&mut self) -> Result<(), ReadFault>
        // what it gives
        ensures goes { (es : List Entry) (place : Option ℕ) → stands self.old es place
            → LeadsTo (stands self.new es) (next_place es place) result }
        ensures walks { OnOk result ((es : List Entry) (e : Entry) → shows self.old ≡ Some e
            → walks self.old es
            → walks self.new (es ++ e ∷ [])) }
        ensures fewer { (e : Entry) → shows self.old ≡ Some e → ahead self.new < ahead self.old }
        ensures stays { shows self.old ≡ None → IsOk result × (shows self.new ≡ None) }
        // what it leaves
        ensures nothing { OnErr result (shows self.new ≡ None) }
        ensures refused { refused self.new ≡ refusal result }
        // when it fails
        ensures counts { CountsFaults (faults self.old) (faults self.new) result }
        ensures damage { IfDamage result (damaged self.new) }
        // what stays
        ensures keeps { keeps self.old self.new };

    /// Goes one entry back, or to no place before the first. At no place it answers Ok and stays there.
    /// What it shows then doesn't come behind what it showed, over any device.
    fn prev(&mut self) -> Result<(), ReadFault>
        // what it gives
        ensures goes { (es : List Entry) (place : Option ℕ) → stands self.old es place
            → LeadsTo (stands self.new es) (previous_place place) result }
        ensures falls { (e f : Entry) → shows self.old ≡ Some e → shows self.new ≡ Some f
            → entry_lt e f ≡ false }
        ensures fewer { (e : Entry) → shows self.old ≡ Some e → back self.new < back self.old }
        ensures stays { shows self.old ≡ None → IsOk result × (shows self.new ≡ None) }
        // what it leaves
        ensures nothing { OnErr result (shows self.new ≡ None) }
        ensures refused { refused self.new ≡ refusal result }
        // when it fails
        ensures counts { CountsFaults (faults self.old) (faults self.new) result }
        ensures damage { IfDamage result (damaged self.new) }
        // what stays
        ensures keeps { keeps self.old self.new };

    /// Lends the entry at its place; None exactly at no place.
    fn at(&self) -> Option<EntryRef<'_>>
        ensures { option_map entry_of result ≡ shows self.now };

    /// What the last call that moves the cursor refused with; None where
    /// that call answered Ok or none was made.
    fn fault(&self) -> Option<ReadFault>
        ensures { result ≡ refused self.now };

    /// Where it stands, its entries are sorted, its place is one of theirs or
    /// none, and it shows the entry there.
    ghost among: { (cursor : Self) (es : List Entry) (place : Option ℕ) → stands cursor es place
        → StandsAmong es place (shows cursor) };

    /// What it shows is within the limits of entries.
    ghost within: { (cursor : Self) (e : Entry) → shows cursor ≡ Some e → IsEntry e };

    /// What it shows comes before none of the entries that it went over.
    ghost ascends: { (cursor : Self) (es : List Entry) (e : Entry) → walks cursor es → shows cursor ≡ Some e
        → ComesBeforeNone e es };

    /// In either direction there are no more steps than from end to end.
    ghost bounded: { (cursor : Self) → (ahead cursor ≤ size cursor) × (back cursor ≤ size cursor) };

    /// A cursor keeps what it keeps.
    ghost kept: { (cursor : Self) → keeps cursor cursor };

    /// What stays the same over two spans of moves stays so over both.
    ghost kept_on: { (a b c : Self) → keeps a b → keeps b c → keeps a c };

    /// Damage stands where it stood, whatever moves were made.
    ghost kept_damage: { (a b : Self) (number at : ℕ) → keeps a b
        → damaged a number at ↔ damaged b number at };

    /// No move changes the number of steps from end to end.
    ghost kept_size: { (a b : Self) → keeps a b → size b ≡ size a };
}
