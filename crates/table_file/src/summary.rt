//! What a row tells of the entries so far.

ghost use Rattle.std.specs.Prelude.{◌≡◌, ◌<◌, ◌≤◌, ◌^◌, ◌++◌, ◌∷◌, [], List, length, IfOk, IfErr};
ghost use Rattle.peb_base.specs.Entries.{AreSorted};
ghost use Rattle.peb_base.specs.EntryRefs.{entry_of};
ghost use Rattle.peb_base.specs.Tables.{IsRowOf};
ghost use Rattle.table_file.specs.declared.put_fault.PutFault.TheVariants.{Memory};
ghost use Rattle.peb_base.specs.declared.entry.Entry.{Entry};

use crate::put_fault::PutFault;
use peb_base::{EntryRef, Key, KeyBuf, Number, TableRow};
use std::alloc::Global;

/// What a row tells of the entries so far, and the number of the last of them.
#[derive(Drop)]
pub struct Summary {
    entries: u64,
    raw: u64,
    first: u64,
    last: u64,
    smallest: KeyBuf,
    largest: KeyBuf,
    latest: u64,
}

/// Keeps the key, if it is that of the first entry.
fn put_first(smallest: &mut KeyBuf, entries: u64, key: &[u8])
    requires { length key.now ≤ 1024 }
    ensures first { entries ≡ 0 → smallest.new ≡ key.now }
    ensures later { 0 < entries → smallest.new ≡ smallest.old }
{
    if entries == 0 {
        smallest.put(0, key);
    }
}

impl Summary {
    ghost use Rattle.table_file.specs.Sums.{Sums};

    /// What a row tells of no entry.
    pub fn new() -> Summary
        ensures { Sums result [] }
    {
        Summary {
            entries: 0,
            raw: 0,
            first: u64::MAX,
            last: 0,
            smallest: KeyBuf::new(),
            largest: KeyBuf::new(),
            latest: 0,
        }
    }

    /// Adds an entry, which comes after the others.
    pub fn add(&mut self, entry: &EntryRef<'_>)
        requires { (es : List Entry) × Sums self.old es × AreSorted (es ++ entry_of entry.now ∷ [])
            × (length es < 2 ^ 31) }
        ensures { (es : List Entry) → Sums self.old es → AreSorted (es ++ entry_of entry.now ∷ [])
            → Sums self.new (es ++ entry_of entry.now ∷ []) }
    {
        put_first(&mut self.smallest, self.entries, entry.key);
        self.entries += 1;
        self.raw += (entry.key.len() + entry.change.len()) as u64;
        self.first = self.first.min(entry.number);
        self.last = self.last.max(entry.number);
        self.largest.put(0, entry.key);
        self.latest = entry.number;
    }

    /// The key of the last entry.
    pub fn largest(&self) -> &[u8]
        ensures { result.now ≡ self.now.largest }
    {
        self.largest.bytes()
    }

    /// The number of the last entry.
    pub fn latest(&self) -> Number
        requires { self.now.latest < 2 ^ 63 }
        ensures { result ≡ self.now.latest }
    {
        Number::of_packed(self.latest)
    }

    /// The row of the entries, of which there is one at least.
    pub fn row(
        &self,
        alloc: Global,
        number: u64,
        level: u8,
        bytes: u64,
    ) -> Result<TableRow, PutFault>
        requires { (es : List Entry) × Sums self.now es × AreSorted es × (0 < length es) }
        ensures row { IfOk result
            (λ row. (es : List Entry) → Sums self.now es → AreSorted es → 0 < length es
            → IsRowOf row es) }
        ensures number { IfOk result (λ row. row.number ≡ number) }
        ensures level { IfOk result (λ row. row.level ≡ level) }
        ensures tier { IfOk result (λ row. row.tier ≡ 0) }
        ensures bytes { IfOk result (λ row. row.bytes ≡ bytes) }
        ensures memory { IfErr result (λ fault. fault ≡ Memory) }
    {
        let smallest = Key::new(alloc, self.smallest.bytes()).map_err(|_| PutFault::Memory)?;
        let largest = Key::new(alloc, self.largest.bytes()).map_err(|_| PutFault::Memory)?;
        Ok(TableRow {
            number,
            level,
            tier: 0,
            smallest,
            largest,
            entries: self.entries,
            raw: self.raw,
            first: Number::of_packed(self.first),
            last: Number::of_packed(self.last),
            bytes,
        })
    }
}
