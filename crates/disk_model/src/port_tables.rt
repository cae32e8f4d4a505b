ghost use Rattle.std.specs.Prelude.{◌≡◌, ◌||◌, [], ℕ, IfOk, OnOk, is_some};
ghost use Rattle.disk_model.specs.Tables.{is_among, Lists};
ghost use Rattle.disk_model.specs.TableLists.{table_in};
ghost use Rattle.disk_model.specs.Shelf.{files_in};

use crate::MemTableFile;
use crate::numbers::ascending;
use std::alloc::{AllocError, Global};

/// The table files that a port in memory reads: the sealed ones, of which the first of a number
/// counts, and the numbers of those that aren't sealed.
#[derive(Drop)]
pub struct PortTables {
    pub sealed: Vec<MemTableFile>,
    pub unsealed: Vec<u64>,
}

/// The numbers of these tables.
fn numbers_of(alloc: Global, tables: &[MemTableFile]) -> Result<Vec<u64>, AllocError>
    ensures { IfOk result (λ numbers. (n : ℕ) →
        is_among numbers.items n ≡ is_some (table_in tables.now n)) }
{
    match tables {
        [] => Ok(Vec::new(alloc)),
        [table, rest @ ..] => {
            let mut numbers = numbers_of(alloc, rest)?;
            numbers.push(table.number)?;
            Ok(numbers)
        }
    }
}

impl PortTables {
    /// No table file is there.
    pub fn none(alloc: Global) -> PortTables
        ensures sealed { result.sealed.items ≡ [] }
        ensures unsealed { result.unsealed.items ≡ [] }
    {
        PortTables {
            sealed: Vec::new(alloc),
            unsealed: Vec::new(alloc),
        }
    }

    /// The numbers of all these table files, ascending.
    pub fn numbers(&self, alloc: Global) -> Result<Vec<u64>, AllocError>
        ensures { IfOk result (λ numbers. Lists (files_in self.now) numbers.items) }
    {
        let mut numbers = numbers_of(alloc, &self.sealed)?;
        numbers.extend_from_slice(&self.unsealed)?;
        ascending(numbers)
    }
}
