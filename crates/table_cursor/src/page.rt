//! The block that a loan holds.

ghost use Rattle.std.specs.Prelude.{◌≡◌, ◌≤◌, List, ◌<◌, ◌+◌, ◌↔◌, [], IsTrue, OnOk, OnErr, Some, Err, length, take, drop, slice_get};
ghost use Rattle.peb_base.specs.EntryRefs.{entry_of};
ghost use Rattle.peb_base.specs.Entries.{first_from};
ghost use Rattle.peb_base.specs.declared.entry.Entry.{Entry};
ghost use Rattle.block_form.specs.Form.{IsBlock};
ghost use Rattle.block_form.specs.Walks.{entries_in};
ghost use Rattle.peb_base.specs.Cursors.{IfDamage};
ghost use Rattle.disk_model.specs.Ports.{ReadsAtMost};
ghost use Rattle.peb_base.specs.declared.read_fault.ReadFault.TheVariants as faults;
ghost use Rattle.table_cursor.specs.Agreeing.{IsDamageAt};

use crate::fetching::fetch;
use block_form::{Block, Spot, block_reads, one_block};
use block_pool::Loan;
use disk_model::Port;
use peb_base::{ChangeRef, EntryRef, KeyBuf, Number, ReadFault};
use std::marker::Model;
use table_file::Table;

/// A loan with the block that was read into it, and a place among the block's
/// entries; contracts see what is read there.
pub struct Page {
    loan: Loan,
    at: u64,
    len: usize,
    count: usize,
    place: usize,
    /// What was read of the entry at the place besides its key.
    here: Spot,
    key: KeyBuf,
}

impl Model for Page {
    ghost use Rattle.std.specs.Prelude.{take};
    ghost use Rattle.block_form.specs.Walks.{entries_in};
    ghost use Rattle.table_cursor.specs.Page.{Reading, reading, IsPage};

    ghost Value = { Reading };

    ghost view = { λ page. reading page.at page.len page.count page.place page.loan };

    ghost invariant = { λ page. IsPage page.len page.count page.place page.here page.loan page.key
        (entries_in page.count (take page.len page.loan)) };
}

/// The block that the first bytes of a loan are.
fn block_in(loan: &Loan, len: usize, count: usize) -> Block<'_>
    requires fits { len ≤ 40960 }
    requires block { (es : List Entry) × IsBlock es (take len loan.now) × (length es ≡ count) }
    ensures block { (es : List Entry) → IsBlock es (take len loan.now) → result ≡ es }
    ensures reads { result ≡ entries_in count (take len loan.now) }
{
    one_block();
    block_reads();
    Block::again(&loan.bytes()[..len], count)
}

impl Page {
    ghost use Rattle.table_cursor.specs.Agreeing.{ShowsOf};

    /// A page on which nothing is read.
    pub fn new(loan: Loan) -> Page
        ensures { result.entries ≡ [] }
    {
        Page {
            loan,
            at: 0,
            len: 0,
            count: 0,
            place: 0,
            here: Spot::new(0, ChangeRef::Delete, 0),
            key: KeyBuf::new(),
        }
    }

    /// Gives the loan back.
    pub fn into_loan(self) -> Loan {
        let Page {
            loan,
            at: _,
            len: _,
            count: _,
            place: _,
            here: _,
            key: _,
        } = self;
        loan
    }

    /// Whether no block is read.
    pub fn is_empty(&self) -> bool
        ensures { IsTrue result ↔ (length self.now.entries ≡ 0) }
    {
        self.count == 0
    }

    /// The place in the file at which the block begins.
    pub fn at(&self) -> u64
        ensures { result ≡ self.now.at }
    {
        self.at
    }

    /// The number of entries.
    pub fn len(&self) -> usize
        ensures { result ≡ length self.now.entries }
    {
        self.count
    }

    /// The place among the entries.
    pub fn place(&self) -> usize
        ensures { result ≡ self.now.place }
    {
        self.place
    }

    /// Reads the block at an index of a table, and goes to its first entry. An error leaves no block.
    ///
    /// `Fault` comes only where the port failed, `Damaged` only where no bytes of a
    /// block that agrees with the table stand there.
    pub fn turn<P: Port>(
        &mut self,
        table: &Table<P::File>,
        port: &mut P,
        index: usize,
    ) -> Result<(), ReadFault>
        requires { index < length table.now.items }
        // what it leaves
        ensures shows { OnOk result (ShowsOf P.File.TableHandle table.now index self.new) }
        ensures form { OnOk result (IsBlock self.new.entries self.new.bytes) }
        ensures first { OnOk result (self.new.place ≡ 0) }
        ensures empty { OnErr result (self.new.entries ≡ []) }
        // when it fails
        ensures damaged { IfDamage result (IsDamageAt P.File.TableHandle table.now index) }
        ensures port { ReadsAtMost P.Port 1 port.old port.new (result ≡ Err faults.Fault) }
        ensures sure { P.steady port.old → result ≡ Err faults.Fault → ⊥ }
    {
        self.count = 0;
        let count = match fetch(table, port, index, &mut self.loan, &mut self.key) {
            Ok(count) => count,
            Err(fault) => return Err(fault),
        };
        let (at, len, _, _) = table.item(index);
        self.here = block_in(&self.loan, len as usize, count).go(0, &mut self.key);
        self.at = at;
        self.len = len as usize;
        self.count = count;
        self.place = 0;
        Ok(())
    }

    /// Forgets the block.
    pub fn clear(&mut self)
        ensures { self.new.entries ≡ [] }
    {
        self.count = 0;
    }

    /// Goes to another place; to the next one by reading the entry there alone.
    pub fn go(&mut self, place: usize)
        requires { place < length self.old.entries }
        ensures { self.new ≡ record self.old { place = place } }
    {
        if place == self.place + 1 {
            self.step();
            return;
        }
        self.jump(place);
    }

    /// Goes one entry on.
    fn step(&mut self)
        requires { self.old.place + 1 < length self.old.entries }
        ensures { self.new ≡ record self.old { place = self.old.place + 1 } }
    {
        let block = block_in(&self.loan, self.len, self.count);
        self.here = block.step(self.place, self.here, &mut self.key);
        self.place += 1;
    }

    /// Goes to a place that isn't the next one, from the restart at or before it.
    fn jump(&mut self, place: usize)
        requires inside { place < length self.old.entries }
        requires far { place ≡ self.old.place + 1 → ⊥ }
        ensures { self.new ≡ record self.old { place = place } }
    {
        self.here = block_in(&self.loan, self.len, self.count).go(place, &mut self.key);
        self.place = place;
    }

    /// Goes to the first entry at or behind this key and number, which the block has.
    pub fn seek(&mut self, key: &[u8], number: Number)
        requires { first_from key.now number self.old.entries < length self.old.entries }
        ensures { self.new
            ≡ record self.old { place = first_from key.now number self.old.entries } }
    {
        let block = block_in(&self.loan, self.len, self.count);
        let (place, here) = block.seek(key, number, &mut self.key);
        self.place = place;
        self.here = here;
    }

    /// The entry at the place. It reads no byte of the block.
    pub fn entry(&self) -> EntryRef<'_>
        requires { 0 < length self.now.entries }
        ensures there { slice_get self.now.entries self.now.place ≡ Some (entry_of result) }
        ensures form { IsBlock self.now.entries self.now.bytes }
    {
        let block = &self.loan.bytes()[..self.len];
        self.here.entry(self.place, block, self.key.bytes())
    }
}
