//! Copies of lists of keys, rows and chosen keys.

ghost use Rattle.std.specs.Prelude.{◌≡◌, ◌++◌, IfOk, OnOk, OnErr};

use crate::chosen::Chosen;
use peb_base::{Key, Memory, TableRow};
use std::alloc::Global;

/// A copy of a chosen key.
pub fn copy_chosen(alloc: Global, chosen: &Chosen) -> Result<Chosen, Memory>
    ensures { IfOk result (λ copy. copy ≡ chosen.now) }
{
    Ok(Chosen {
        key: chosen.key.copy(alloc)?,
        level: chosen.level,
    })
}

/// Copies of keys.
pub fn copy_keys(alloc: Global, keys: &[Key]) -> Result<Vec<Key>, Memory>
    ensures { IfOk result (λ copies. copies.items ≡ keys.now) }
{
    let mut copies = Vec::new(alloc);
    for key in keys {
        copies.push(key.copy(alloc)?)?;
    }
    Ok(copies)
}

/// Copies of rows.
pub fn copy_rows(alloc: Global, rows: &[TableRow]) -> Result<Vec<TableRow>, Memory>
    ensures { IfOk result (λ copies. copies.items ≡ rows.now) }
{
    let mut copies = Vec::new(alloc);
    for row in rows {
        copies.push(row.copy(alloc)?)?;
    }
    Ok(copies)
}

/// Copies of chosen keys.
pub fn copy_all_chosen(alloc: Global, chosen: &[Chosen]) -> Result<Vec<Chosen>, Memory>
    ensures { IfOk result (λ copies. copies.items ≡ chosen.now) }
{
    let mut copies = Vec::new(alloc);
    for one in chosen {
        copies.push(copy_chosen(alloc, one)?)?;
    }
    Ok(copies)
}
