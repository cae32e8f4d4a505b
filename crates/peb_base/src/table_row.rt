//! Rows of tables.

ghost use Rattle.std.specs.Prelude.{◌≡◌, IfOk};

use crate::key::Key;
use crate::memory::Memory;
use crate::number::Number;
use std::alloc::Global;

/// What is kept of a sorted table beside its file.
#[derive(Debug, Drop)]
pub struct TableRow {
    /// The table's number, session * 2^40 + count, which names its file.
    pub number: u64,
    pub level: u8,
    /// The tier of its level; 0 where levels have one.
    pub tier: u8,
    pub smallest: Key,
    pub largest: Key,
    /// How many entries the table has.
    pub entries: u64,
    /// The sum of the lengths of its keys and values, in bytes.
    pub raw: u64,
    /// The least number of an entry.
    pub first: Number,
    /// The greatest number of an entry.
    pub last: Number,
    /// The length of the file, in bytes.
    pub bytes: u64,
}

impl TableRow {
    /// A copy of the row.
    pub fn copy(&self, alloc: Global) -> Result<TableRow, Memory>
        ensures { IfOk result (λ copy. copy ≡ self.now) }
    {
        Ok(TableRow {
            number: self.number,
            level: self.level,
            tier: self.tier,
            smallest: self.smallest.copy(alloc)?,
            largest: self.largest.copy(alloc)?,
            entries: self.entries,
            raw: self.raw,
            first: self.first,
            last: self.last,
            bytes: self.bytes,
        })
    }
}
