//! Cursors over sorted tables.

ghost use Rattle.std.specs.Prelude.{◌≡◌, ◌↔◌, ◌<◌, ◌≤◌, ◌+◌, ◌-◌, ℕ, List, [], Option, None, Some};
ghost use Rattle.std.specs.Prelude.{IsTrue, IsNone, IsOk, IfSome, OnOk, OnErr, Err, false};
ghost use Rattle.std.specs.Prelude.{length, slice_get};
ghost use Rattle.std.specs.Arc.{arc_value};
ghost use Rattle.peb_base.specs.Cursors.{next_place, previous_place, last_place, place_from};
ghost use Rattle.peb_base.specs.Cursors.{LeadsTo, IfDamage};
ghost use Rattle.peb_base.specs.Entries.{AreSorted, comes_before, first_from};
ghost use Rattle.peb_base.specs.declared.entry.Entry.{Entry};
ghost use Rattle.peb_base.specs.declared.read_fault.ReadFault.TheVariants as faults;
ghost use Rattle.block_form.specs.Form.{IsBlock};
ghost use Rattle.table_file.specs.Form.{blocks_of};
ghost use Rattle.table_file.specs.Items.{index_for};
ghost use Rattle.disk_model.specs.Ports.{ReadsAtMost};
ghost use Rattle.table_file.specs.Tables.{Holds};
ghost use Rattle.table_cursor.specs.Agreeing.{ShowsOf, IsDamageAt};
ghost use Rattle.table_cursor.specs.Page.{Reading};
ghost use Rattle.table_cursor.specs.Spots.{spot, first_spot, last_spot, next_spot, previous_spot};
ghost use Rattle.table_cursor.specs.Spots.{found_spot, spot_after};
ghost use Rattle.table_cursor.specs.Standing.{OnPage};
ghost use Rattle.table_cursor.specs.Steps.{target, Fits, TurnsTo};
ghost use Rattle.peb_base.specs.SortedParts.{AscendFrom-prop};

use crate::page::Page;
use crate::step::Step;
use block_form::one_block;
use block_pool::Loan;
use disk_model::Port;
use peb_base::{Cursor, EntryRef, Number, ReadFault};
use std::alloc::Global;
use std::sync::Arc;
use table_file::{Table, law_blocks};

/// A place among the entries of a sorted table, or none. It reads through a port of its own, into
/// a loan.
pub struct TableCursor<P: Port> {
    table: Arc<Table<P::File>, Global>,
    port: P,
    page: Page,
    /// The index of the block on the page.
    index: usize,
    refused: Option<ReadFault>,
    ghost shown: { 0 < length page.entries
        → ShowsOf P.File.TableHandle (arc_value table) index page },
    ghost sorted: { AreSorted page.entries } by { AscendFrom-prop [] 0 page.entries },
}

impl<P: Port> TableCursor<P> {
    ghost use Rattle.table_cursor.specs.Views.{table_of, port_of, page_of, index_of, refused_of};
    ghost use Rattle.table_cursor.specs.Views.{shown_by, spot_of, StandsIn, Turns};

    /// A cursor over the entries of a table, at no place. It makes no read
    /// yet, and no call of it takes memory.
    pub fn open(table: Arc<Table<P::File>, Global>, port: P, loan: Loan) -> TableCursor<P>
        ensures stands { (es : List Entry) → IsTrue P.File.tells
            → Holds P.File.TableHandle (arc_value table) es → StandsIn result es None }
        ensures table { table_of result ≡ arc_value table }
        ensures port { port_of result ≡ port }
        ensures nowhere { (spot_of result ≡ None) × (shown_by result ≡ None) }
        ensures refused { refused_of result ≡ None }
    {
        law_blocks();
        TableCursor {
            table,
            port,
            page: Page::new(loan),
            index: 0,
            refused: None,
        }
    }

    /// The place in the file, in bytes, of the block that has the entry at which the
    /// cursor stands; None exactly at no place.
    pub fn place(&self) -> Option<u64>
        ensures none { IsNone result ↔ (spot_of self.now ≡ None) }
        ensures block { IfSome result (λ at. (at ≡ (page_of self.now).at)
            × ShowsOf P.File.TableHandle (table_of self.now) (index_of self.now)
            (page_of self.now)) }
    {
        if self.page.is_empty() {
            return None;
        }
        Some(self.page.at())
    }

    /// Gives the table, the port and the loan back.
    pub fn close(self) -> (Arc<Table<P::File>, Global>, P, Loan)
        ensures table { arc_value result.0 ≡ table_of self }
        ensures port { result.1 ≡ port_of self }
    {
        let TableCursor {
            table,
            port,
            page,
            index: _,
            refused: _,
        } = self;
        (table, port, page.into_loan())
    }

    /// How many blocks the table has, at least one.
    pub fn blocks(&self) -> usize
        ensures count { result ≡ length (table_of self.now).items }
        ensures some { 0 < length (table_of self.now).items }
    {
        self.table.blocks()
    }

    /// One entry on.
    fn next_step(&self) -> Step
        ensures fits { Fits result self.now.page }
        ensures turns { TurnsTo result (self.now.index + 1) }
        ensures stays { length self.now.page.entries ≡ 0 → result ≡ Step.Nowhere }
        ensures leads { (es : List Entry)
            → (holds : Holds P.File.TableHandle (arc_value self.now.table) es) → (place : Option ℕ)
            → OnPage self.now.page self.now.index (blocks_of holds.full es) es place
            → target result self.now.index (blocks_of holds.full es) ≡ next_place es place }
        ensures lands { (now : Reading)
            → spot_after result (arc_value self.now.table).items self.now.index now
            ≡ next_spot (arc_value self.now.table).items self.now.index self.now.page }
        ensures within { self.now.page.place + 1 < length self.now.page.entries
            → result ≡ Step.Within (self.now.page.place + 1) }
        ensures ends { length (arc_value self.now.table).items ≤ self.now.index + 1
            → length self.now.page.entries ≤ self.now.page.place + 1 → result ≡ Step.Nowhere }
    {
        if self.page.is_empty() {
            return Step::Nowhere;
        }
        let last = self.page.len() - 1;
        if self.page.place() < last {
            return Step::Within(self.page.place() + 1);
        }
        let last = self.table.blocks() - 1;
        if self.index < last {
            return Step::First(self.index + 1);
        }
        Step::Nowhere
    }

    /// One entry back.
    fn previous_step(&self) -> Step
        ensures fits { Fits result self.now.page }
        ensures turns { TurnsTo result (self.now.index - 1) }
        ensures stays { length self.now.page.entries ≡ 0 → result ≡ Step.Nowhere }
        ensures leads { (es : List Entry)
            → (holds : Holds P.File.TableHandle (arc_value self.now.table) es) → (place : Option ℕ)
            → OnPage self.now.page self.now.index (blocks_of holds.full es) es place
            → target result self.now.index (blocks_of holds.full es) ≡ previous_place place }
        ensures lands { (now : Reading)
            → spot_after result (arc_value self.now.table).items self.now.index now
            ≡ previous_spot (arc_value self.now.table).items self.now.index self.now.page now }
        ensures within { 0 < self.now.page.place → 0 < length self.now.page.entries
            → result ≡ Step.Within (self.now.page.place - 1) }
        ensures begins { self.now.index ≡ 0 → self.now.page.place ≡ 0 → result ≡ Step.Nowhere }
    {
        if self.page.is_empty() {
            return Step::Nowhere;
        }
        let place = self.page.place();
        if place > 0 {
            return Step::Within(place - 1);
        }
        if self.index == 0 {
            return Step::Nowhere;
        }
        Step::Last(self.index - 1)
    }

    /// To the last entry.
    fn last_step(&self) -> Step
        ensures fits { Fits result self.now.page }
        ensures last { result ≡ Step.Last (length (arc_value self.now.table).items - 1) }
        ensures turns { TurnsTo result (length (arc_value self.now.table).items - 1) }
        ensures leads { (es : List Entry)
            → (holds : Holds P.File.TableHandle (arc_value self.now.table) es)
            → target result self.now.index (blocks_of holds.full es) ≡ last_place es }
        ensures lands { (now : Reading)
            → spot_after result (arc_value self.now.table).items self.now.index now
            ≡ last_spot (arc_value self.now.table).items
            (length (arc_value self.now.table).items - 1) now }
    {
        law_blocks();
        Step::Last(self.table.blocks() - 1)
    }

    /// Has the block at an index on the page, at its first entry. It makes no read where that block is
    /// there already.
    fn turn_to(&mut self, index: usize) -> Result<(), ReadFault>
        requires { index < length (arc_value self.old.table).items }
        ensures shows { OnOk result
            (ShowsOf P.File.TableHandle (arc_value self.old.table) index self.new.page) }
        ensures form { OnOk result (IsBlock self.new.page.entries self.new.page.bytes) }
        ensures first { OnOk result (self.new.page.place ≡ 0) }
        ensures index { self.new.index ≡ index }
        ensures unread { index ≡ self.old.index → 0 < length self.old.page.entries
            → IsOk result × (self.new.port ≡ self.old.port) }
        ensures damage { IfDamage result
            (IsDamageAt P.File.TableHandle (arc_value self.old.table) index) }
        ensures turns { Turns self.old self.new result }
    {
        if index == self.index && !self.page.is_empty() {
            self.page.go(0);
            return Ok(());
        }
        self.index = index;
        self.page.turn(&self.table, &mut self.port, index)
    }

    /// Shows the first entry of the block at an index, or nothing where there is none.
    fn show(&mut self, index: usize) -> Result<(), ReadFault>
        ensures leads { (es : List Entry)
            → (holds : Holds P.File.TableHandle (arc_value self.old.table) es)
            → IsTrue P.File.tells
            → LeadsTo (OnPage self.new.page self.new.index (blocks_of holds.full es) es)
            (target (Step.First index) self.old.index (blocks_of holds.full es)) result }
        ensures index { self.new.index ≡ index }
        ensures lands { OnOk result
            (spot self.new.index self.new.page
            ≡ first_spot (arc_value self.old.table).items index) }
        ensures unread { index ≡ self.old.index → 0 < length self.old.page.entries
            → IsOk result × (self.new.port ≡ self.old.port) }
        ensures beyond { length (arc_value self.old.table).items ≤ index
            → IsOk result × (self.new.port ≡ self.old.port) }
        ensures damage { IfDamage result
            (IsDamageAt P.File.TableHandle (arc_value self.old.table) index) }
        ensures turns { Turns self.old self.new result }
    {
        law_blocks();
        one_block();
        if index >= self.table.blocks() {
            self.index = index;
            self.page.clear();
            return Ok(());
        }
        self.turn_to(index)
    }

    /// Shows the last entry of the block at an index, or nothing where there is none.
    fn show_last(&mut self, index: usize) -> Result<(), ReadFault>
        ensures leads { (es : List Entry)
            → (holds : Holds P.File.TableHandle (arc_value self.old.table) es)
            → IsTrue P.File.tells
            → LeadsTo (OnPage self.new.page self.new.index (blocks_of holds.full es) es)
            (target (Step.Last index) self.old.index (blocks_of holds.full es)) result }
        ensures lands { OnOk result
            (spot self.new.index self.new.page
            ≡ last_spot (arc_value self.old.table).items index self.new.page) }
        ensures unread { index ≡ self.old.index → 0 < length self.old.page.entries
            → IsOk result × (self.new.port ≡ self.old.port) }
        ensures damage { IfDamage result
            (IsDamageAt P.File.TableHandle (arc_value self.old.table) index) }
        ensures turns { Turns self.old self.new result }
    {
        match self.show(index) {
            Ok(()) => {}
            Err(fault) => return Err(fault),
        }
        if !self.page.is_empty() {
            self.page.go(self.page.len() - 1);
        }
        Ok(())
    }

    /// Makes a step.
    fn go(&mut self, step: Step) -> Result<(), ReadFault>
        requires { Fits step self.old.page }
        ensures stays { step ≡ Step.Nowhere → IsOk result × (self.new.page.entries ≡ [])
            × (self.new.port ≡ self.old.port) }
        ensures lands { OnOk result
            (spot self.new.index self.new.page
            ≡ spot_after step (arc_value self.old.table).items self.old.index self.new.page) }
        ensures within { (place : ℕ) → step ≡ Step.Within place →
            IsOk result × (self.new.page ≡ record self.old.page { place = place })
            × (self.new.index ≡ self.old.index) × (self.new.port ≡ self.old.port) }
        ensures leads { (es : List Entry)
            → (holds : Holds P.File.TableHandle (arc_value self.old.table) es) → (place : Option ℕ)
            → OnPage self.old.page self.old.index (blocks_of holds.full es) es place
            → IsTrue P.File.tells
            → LeadsTo (OnPage self.new.page self.new.index (blocks_of holds.full es) es)
            (target step self.old.index (blocks_of holds.full es)) result }
        ensures unread { (index : ℕ) → step ≡ Step.Last index → index ≡ self.old.index
            → 0 < length self.old.page.entries
            → IsOk result × (self.new.port ≡ self.old.port) }
        ensures damage { (index : ℕ) → TurnsTo step index →
            IfDamage result (IsDamageAt P.File.TableHandle (arc_value self.old.table) index) }
        ensures turns { Turns self.old self.new result }
    {
        match step {
            Step::Nowhere => {
                self.page.clear();
                Ok(())
            }
            Step::Within(place) => {
                self.page.go(place);
                Ok(())
            }
            Step::First(index) => self.show(index),
            Step::Last(index) => self.show_last(index),
        }
    }

    /// Goes to the first entry at or behind this key and number, or to no place where all come
    /// before.
    fn go_to(&mut self, key: &[u8], number: Number) -> Result<(), ReadFault>
        ensures leads { (es : List Entry)
            → (holds : Holds P.File.TableHandle (arc_value self.old.table) es)
            → IsTrue P.File.tells
            → LeadsTo (OnPage self.new.page self.new.index (blocks_of holds.full es) es)
            (place_from key.now number es) result }
        ensures behind { (e : Entry) → slice_get self.new.page.entries self.new.page.place ≡ Some e
            → comes_before e.key e.number key.now number ≡ false }
        ensures lands { OnOk result
            (spot self.new.index self.new.page
            ≡ found_spot (arc_value self.old.table).items key.now number self.new.page) }
        ensures unread { index_for key.now number (arc_value self.old.table).items ≡ self.old.index
            → 0 < length self.old.page.entries → IsOk result × (self.new.port ≡ self.old.port) }
        ensures beyond { length (arc_value self.old.table).items
            ≤ index_for key.now number (arc_value self.old.table).items
            → IsOk result × (self.new.port ≡ self.old.port) }
        ensures damage { IfDamage result (IsDamageAt P.File.TableHandle (arc_value self.old.table)
            (index_for key.now number (arc_value self.old.table).items)) }
        ensures turns { Turns self.old self.new result }
    {
        law_blocks();
        let index = self.table.block_index(key, number);
        match self.show(index) {
            Ok(()) => {}
            Err(fault) => return Err(fault),
        }
        if self.page.is_empty() {
            return Ok(());
        }
        self.page.seek(key, number);
        Ok(())
    }
}

impl<P: Port> Cursor for TableCursor<P> {
    ghost use Rattle.std.specs.Prelude.{◌≡◌, ◌<◌, ◌≤◌, ◌+◌, ◌-◌, ◌++◌, ◌∷◌, [], ℕ, List, Option};
    ghost use Rattle.std.specs.Prelude.{Some, None, IsOk, IfSome, OnOk, OnErr, Err, true, false};
    ghost use Rattle.std.specs.Prelude.{length, option_map};
    ghost use Rattle.std.specs.Arc.{arc_value};
    ghost use Rattle.peb_base.specs.Cursors.{place_from, first_place, last_place, next_place};
    ghost use Rattle.peb_base.specs.Cursors.{previous_place, LeadsTo, CountsFaults, IfDamage};
    ghost use Rattle.peb_base.specs.Cursors.{refusal};
    ghost use Rattle.peb_base.specs.SortedParts.{entry_within};
    ghost use Rattle.peb_base.specs.EntryRefs.{entry_of};
    ghost use Rattle.peb_base.specs.Entries.{comes_before, entry_lt};
    ghost use Rattle.peb_base.specs.declared.entry.Entry.{Entry};
    ghost use Rattle.peb_base.specs.declared.read_fault.ReadFault.TheVariants as faults;
    ghost use Rattle.disk_model.specs.Ports.{ReadsAtMost};
    ghost use Rattle.table_file.specs.Items.{index_for};
    ghost use Rattle.table_cursor.specs.Spots.{first_spot, last_spot, next_spot, previous_spot};
    ghost use Rattle.table_cursor.specs.Spots.{found_spot};
    ghost use Rattle.table_cursor.specs.StandingLaws.{stands_among};
    ghost use Rattle.table_cursor.specs.Views.{table_of, port_of, page_of, index_of, refused_of};
    ghost use Rattle.table_cursor.specs.Views.{blocks_in, shown_by, spot_of, ahead_of, back_of};
    ghost use Rattle.table_cursor.specs.Views.{size_of, StandsIn, WalksIn, DamageIn, DamageAt};
    ghost use Rattle.table_cursor.specs.Views.{IsOfTable, Keeps, Moves, keeps_self, keeps_on};
    ghost use Rattle.table_cursor.specs.Views.{keeps_damage};
    ghost use Rattle.table_cursor.specs.Walking.{most_steps};
    ghost use Rattle.table_cursor.specs.WalkLaws.{walk_ascends, steps_bounded};

    ghost stands = { λ cursor es place. StandsIn cursor es place };

    ghost shows = { λ cursor. shown_by cursor };

    ghost walks = { λ cursor es. WalksIn cursor es };

    ghost ahead = { λ cursor. ahead_of cursor };

    ghost back = { λ cursor. back_of cursor };

    ghost size = { λ cursor. size_of cursor };

    ghost keeps = { λ a b. Keeps a b };

    ghost damaged = { λ cursor table at. DamageIn cursor table at };

    ghost faults = { λ cursor. P.faults (port_of cursor) };

    ghost refused = { λ cursor. refused_of cursor };

    ghost among = { λ cursor es place stands. stands_among P.File.TableHandle (table_of cursor)
        (page_of cursor) (index_of cursor) es place stands (λ some. (cursor.shown some).inside) };

    ghost within = { λ cursor e there. entry_within [] 0 (page_of cursor).entries
        (page_of cursor).place e cursor.sorted there };

    ghost ascends = { λ cursor es e walks there. walk_ascends P.File.TableHandle (table_of cursor)
        (index_of cursor) (page_of cursor) es e cursor.shown cursor.sorted walks there };

    ghost bounded = { λ cursor. steps_bounded P.File.TableHandle (table_of cursor) (index_of cursor)
        (page_of cursor) cursor.shown };

    ghost kept = { λ cursor. keeps_self cursor };

    ghost kept_on = { λ a b c x y. keeps_on a b c x y };

    ghost kept_damage = { λ a b number at x. keeps_damage a b number at x };

    ghost kept_size = { λ a b x i. most_steps (length (arc_value (x.table i)).items) };

    /// Goes to the first entry at or behind this key and number, or to no place where
    /// all come before, with one read at most, and with none in the block at which it stands, nor
    /// where the index says that there is no such entry.
    ///
    /// `Damaged` comes only where no bytes of a block that agrees with the table's index
    /// and row stand at the place that it tells.
    fn seek(&mut self, key: &[u8], number: Number) -> Result<(), ReadFault>
        // what it gives
        ensures goes { (es : List Entry) (place : Option ℕ)
            → StandsIn self.old es place
            → LeadsTo (StandsIn self.new es) (place_from key.now number es) result }
        ensures behind { (e : Entry) → shown_by self.new ≡ Some e
            → comes_before e.key e.number key.now number ≡ false }
        ensures lands { OnOk result
            (spot_of self.new
            ≡ found_spot (table_of self.old).items key.now number (page_of self.new)) }
        // what it leaves
        ensures unread { index_for key.now number (table_of self.old).items ≡ index_of self.old
            → 0 < length (page_of self.old).entries
            → IsOk result × (port_of self.new ≡ port_of self.old) }
        ensures beyond { blocks_in self.old ≤ index_for key.now number (table_of self.old).items
            → IsOk result × (port_of self.new ≡ port_of self.old) }
        ensures moves { Moves self.old self.new
            (index_for key.now number (table_of self.old).items) result }
    {
        let moved = self.go_to(key, number);
        self.refused = moved.err();
        moved
    }

    fn first(&mut self) -> Result<(), ReadFault>
        // what it gives
        ensures goes { (es : List Entry) (place : Option ℕ)
            → StandsIn self.old es place
            → LeadsTo (StandsIn self.new es) (first_place es) result }
        ensures lands { OnOk result (spot_of self.new ≡ first_spot (table_of self.old).items 0) }
        ensures walks { OnOk result (WalksIn self.new []) }
        // what it leaves
        ensures unread { index_of self.old ≡ 0 → 0 < length (page_of self.old).entries
            → IsOk result × (port_of self.new ≡ port_of self.old) }
        ensures moves { Moves self.old self.new 0 result }
    {
        let moved = self.show(0);
        self.refused = moved.err();
        moved
    }

    fn last(&mut self) -> Result<(), ReadFault>
        // what it gives
        ensures goes { (es : List Entry) (place : Option ℕ)
            → StandsIn self.old es place
            → LeadsTo (StandsIn self.new es) (last_place es) result }
        ensures lands { OnOk result
            (spot_of self.new
            ≡ last_spot (table_of self.old).items (blocks_in self.old - 1) (page_of self.new)) }
        // what it leaves
        ensures unread { index_of self.old + 1 ≡ blocks_in self.old
            → 0 < length (page_of self.old).entries
            → IsOk result × (port_of self.new ≡ port_of self.old) }
        ensures moves { Moves self.old self.new (blocks_in self.old - 1) result }
    {
        let step = self.last_step();
        let moved = self.go(step);
        self.refused = moved.err();
        moved
    }

    /// Goes one entry on, or to no place behind the last. It makes a read only from the last entry of
    /// a block that isn't the table's last.
    fn next(&mut self) -> Result<(), ReadFault>
        // what it gives
        ensures goes { (es : List Entry) (place : Option ℕ)
            → StandsIn self.old es place
            → LeadsTo (StandsIn self.new es) (next_place es place) result }
        ensures lands { OnOk result
            (spot_of self.new
            ≡ next_spot (table_of self.old).items (index_of self.old) (page_of self.old)) }
        ensures within { (page_of self.old).place + 1 < length (page_of self.old).entries
            → IsOk result × ((port_of self.new) ≡ (port_of self.old))
            × ((page_of self.new)
            ≡ record (page_of self.old) { place = (page_of self.old).place + 1 }) }
        ensures walks { OnOk result ((es : List Entry) (e : Entry) → shown_by self.old ≡ Some e
            → WalksIn self.old es
            → WalksIn self.new (es ++ e ∷ [])) }
        ensures behind { (e f : Entry) → shown_by self.old ≡ Some e → shown_by self.new ≡ Some f
            → entry_lt e f ≡ true }
        ensures fewer { (e : Entry) → shown_by self.old ≡ Some e
            → ahead_of self.new < ahead_of self.old }
        ensures stays { shown_by self.old ≡ None
            → IsOk result × (shown_by self.new ≡ None) }
        // what it leaves
        ensures unread { shown_by self.old ≡ None → port_of self.new ≡ port_of self.old }
        ensures ends { blocks_in self.old ≤ index_of self.old + 1
            → length (page_of self.old).entries ≤ (page_of self.old).place + 1
            → IsOk result × (shown_by self.new ≡ None)
            × (port_of self.new ≡ port_of self.old) }
        ensures moves { Moves self.old self.new (index_of self.old + 1) result }
    {
        let step = self.next_step();
        let moved = self.go(step);
        self.refused = moved.err();
        moved
    }

    /// Goes one entry back, or to no place before the first. It makes a read only from the first entry
    /// of a block that isn't the table's first.
    fn prev(&mut self) -> Result<(), ReadFault>
        // what it gives
        ensures goes { (es : List Entry) (place : Option ℕ)
            → StandsIn self.old es place
            → LeadsTo (StandsIn self.new es) (previous_place place) result }
        ensures lands { OnOk result
            (spot_of self.new
            ≡ previous_spot (table_of self.old).items (index_of self.old) (page_of self.old)
            (page_of self.new)) }
        ensures within { 0 < (page_of self.old).place → 0 < length (page_of self.old).entries
            → IsOk result × ((port_of self.new) ≡ (port_of self.old))
            × ((page_of self.new)
            ≡ record (page_of self.old) { place = (page_of self.old).place - 1 }) }
        ensures falls { (e f : Entry) → shown_by self.old ≡ Some e → shown_by self.new ≡ Some f
            → entry_lt e f ≡ false }
        ensures before { (e f : Entry) → shown_by self.old ≡ Some e → shown_by self.new ≡ Some f
            → entry_lt f e ≡ true }
        ensures fewer { (e : Entry) → shown_by self.old ≡ Some e
            → back_of self.new < back_of self.old }
        ensures stays { shown_by self.old ≡ None
            → IsOk result × (shown_by self.new ≡ None) }
        // what it leaves
        ensures unread { shown_by self.old ≡ None → port_of self.new ≡ port_of self.old }
        ensures begins { index_of self.old ≡ 0 → (page_of self.old).place ≡ 0
            → IsOk result × (shown_by self.new ≡ None)
            × (port_of self.new ≡ port_of self.old) }
        ensures moves { Moves self.old self.new (index_of self.old - 1) result }
    {
        let step = self.previous_step();
        let moved = self.go(step);
        self.refused = moved.err();
        moved
    }

    /// Lends the entry at its place; None exactly at no place. The entry is one of a block that agrees
    /// with the table's index and row, and whose bytes stand in the table's file.
    fn at(&self) -> Option<EntryRef<'_>>
        ensures lent { option_map entry_of result ≡ shown_by self.now }
        ensures agrees { IfSome result (λ entry. IsOfTable self.now (entry_of entry)) }
    {
        if self.page.is_empty() {
            return None;
        }
        Some(self.page.entry())
    }

    fn fault(&self) -> Option<ReadFault> {
        self.refused
    }
}
