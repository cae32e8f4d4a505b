//! What an edit names of a job and its tables.

ghost use Rattle.std.specs.Prelude.{◌≡◌, IfOk, map};
ghost use Rattle.std.specs.Arc.{arc_value};
ghost use Rattle.disk_model.specs.Tables.{capped};
ghost use Rattle.guard_commit.specs.Cutting.{rows_of, bytes_in};

use disk_model::TableHandle;
use peb_base::{Key, Memory, TableRow};
use std::alloc::Global;
use std::sync::Arc;
use table_file::Table;

/// Copies of keys.
pub fn copy_keys(alloc: Global, keys: &[Key]) -> Result<Vec<Key>, Memory>
    ensures { IfOk result (λ copies. copies.items ≡ keys.now) }
{
    let mut copies = Vec::new(alloc);
    for key in keys {
        copies.push(key.copy(alloc)?)?;
    }
    Ok(copies)
}

/// Copies of the rows of tables.
pub fn copy_rows<F: TableHandle>(
    alloc: Global,
    tables: &[Arc<Table<F>, Global>],
) -> Result<Vec<TableRow>, Memory>
    ensures { IfOk result (λ copies. copies.items ≡ rows_of (map arc_value tables.now)) }
{
    let mut copies = Vec::new(alloc);
    for table in tables {
        copies.push(table.row().copy(alloc)?)?;
    }
    Ok(copies)
}

/// The lengths of tables together, in bytes, and at most the greatest number that there is.
pub fn length_of<F: TableHandle>(tables: &[Arc<Table<F>, Global>]) -> u64
    ensures { result ≡ capped (bytes_in (rows_of (map arc_value tables.now))) }
{
    match tables {
        [] => 0,
        [table, rest @ ..] => table.row().bytes.saturating_add(length_of(rest)),
    }
}
