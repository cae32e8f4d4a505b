//! The index of a table that is written.

ghost use Rattle.std.specs.Prelude.{◌≡◌, ◌<◌, ◌≤◌, ◌+◌, ◌*◌, ◌^◌, ◌++◌, ◌∷◌, [], IsTrue, List, length, OnOk};
ghost use Rattle.peb_base.specs.Answers.{Refuses};
ghost use Rattle.peb_base.specs.Tables.{last_key};
ghost use Rattle.peb_base.specs.declared.entry.Entry.{Entry};
ghost use Rattle.block_form.specs.Form.{block_bytes};
ghost use Rattle.table_file.specs.Form.{last_number};
ghost use Rattle.table_file.specs.Items.{are_short};
ghost use Rattle.table_file.specs.Limits.{index_fault};
ghost use Rattle.table_file.specs.declared.put_fault.PutFault.TheVariants.{Memory};

use crate::index_item::IndexItem;
use crate::put_fault::PutFault;
use peb_base::{Key, LimitKind, Number};
use std::alloc::Global;
use std::mem;

/// The most bytes that an index has.
const MOST_BYTES: u64 = 2_147_483_648;

/// The items of the closed blocks, where the next block begins, and the length of the index in bytes.
#[derive(Drop)]
pub struct Index {
    items: Vec<IndexItem>,
    end: u64,
    bytes: u64,
    ghost few: { 22 * length items.items ≤ bytes },
    ghost short: { bytes ≤ 2 ^ 31 },
    ghost each: { IsTrue (are_short items.items) },
    ghost within: { end ≤ 40960 * length items.items },
}

impl Index {
    ghost use Rattle.table_file.specs.Indexes.{Indexes};

    /// The index of no block.
    pub fn new(alloc: Global) -> Index
        ensures { Indexes result [] }
    {
        Index {
            items: Vec::new(alloc),
            end: 0,
            bytes: 4,
        }
    }

    /// Adds a block of this length, of which this is the last entry's key and number.
    pub fn add(
        &mut self,
        alloc: Global,
        len: usize,
        key: &[u8],
        number: Number,
    ) -> Result<(), PutFault>
        requires some { 0 < length key.now }
        requires short { length key.now ≤ 1024 }
        requires len { len ≤ 40960 }
        ensures added { OnOk result
            ((blocks : List (List Entry)) (es : List Entry) → Indexes self.old blocks
            → len ≡ length (block_bytes es) → key.now ≡ last_key es → number ≡ last_number es
            → Indexes self.new (blocks ++ es ∷ [])) }
        ensures refused { Refuses Memory
            (index_fault (self.old.bytes + 22 + length key.now)) result }
    {
        let bytes = self.bytes + 22 + key.len() as u64;
        if bytes > MOST_BYTES {
            return Err(PutFault::Limit(LimitKind::Index, MOST_BYTES));
        }
        let key = Key::new(alloc, key).map_err(|_| PutFault::Memory)?;
        self.items.push(IndexItem {
            place: self.end,
            len: len as u32,
            key,
            number,
        })?;
        self.bytes = bytes;
        self.end += len as u64;
        Ok(())
    }

    /// The items, in the order of their blocks.
    pub fn items(&self) -> &[IndexItem]
        ensures items { result.now ≡ self.now.items.items }
        ensures few { 22 * length self.now.items.items ≤ 2 ^ 31 }
    {
        self.items.as_slice()
    }

    /// Where the next block begins.
    pub fn end(&self) -> u64
        ensures end { result ≡ self.now.end }
        ensures small { self.now.end < 2 ^ 43 }
    {
        self.end
    }

    /// Gives the items up, and begins the index of another table.
    pub fn take(&mut self, alloc: Global) -> Vec<IndexItem>
        ensures items { result.items ≡ self.old.items.items }
        ensures short { IsTrue (are_short self.old.items.items) }
        ensures next { Indexes self.new [] }
    {
        self.end = 0;
        self.bytes = 4;
        mem::replace(&mut self.items, Vec::new(alloc))
    }
}
