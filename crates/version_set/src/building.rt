//! Levels of given guards and tables.

ghost use Rattle.std.specs.Prelude.{◌≡◌, ◌++◌, [], ◌∷◌, List, map, IfOk, OnOk};
ghost use Rattle.std.specs.List.{AllByRecursion, AllZip};
ghost use Rattle.peb_base.specs.Guards.{Ascend};
ghost use Rattle.peb_base.specs.Keys.{Bytes};
ghost use Rattle.peb_base.specs.declared.table_row.TableRow.{TableRow};
ghost use Rattle.version_set.specs.Contents.{EachLive, ContentsStay};
ghost use Rattle.version_set.specs.Shapes.{IsOfLevel, HasTables, HasPlace};

use crate::changing::{append_one, cut_all};
use guard_level::Level;
use peb_base::{Key, List, Memory, TableLike};
use std::alloc::Global;

/// A level with copies of these guard keys, which ascend strictly, and without tables.
fn level_of<T: TableLike + Drop>(alloc: Global, keys: &[Key]) -> Result<Level<T>, Memory>
    requires { Ascend [] keys.now }
    ensures { IfOk result (λ level. IsOfLevel T.HasRow.the_row level keys.now []) }
{
    let mut level = Level::new(alloc);
    cut_all(alloc, &mut level, keys)?;
    Ok(level)
}

/// Levels with copies of these guard keys, which ascend strictly in each, and without tables.
pub fn levels_of<T: TableLike + Drop>(
    alloc: Global,
    guards: &[List<Key>],
) -> Result<Vec<Level<T>>, Memory>
    requires { AllByRecursion (Ascend []) guards.now }
    ensures { IfOk result (λ levels. AllZip
        (λ level keys. IsOfLevel T.HasRow.the_row level keys []) levels.items guards.now) }
{
    let mut levels = Vec::new(alloc);
    for keys in guards {
        levels.push(level_of(alloc, keys.items())?)?;
    }
    Ok(levels)
}

/// Puts a further handle to a table behind those of level 0, or of the guard of its level in which
/// it lies.
fn place<T: TableLike + Drop>(
    top: &mut Vec<T>,
    levels: &mut Vec<Level<T>>,
    table: &T,
) -> Result<(), Memory>
    requires { HasPlace (map (λ level. level.keys) levels.old.items) (T.HasRow.the_row table.now) }
    ensures keys { OnOk result (map (λ level. level.keys) levels.new.items ≡ map
        (λ level. level.keys) levels.old.items) }
    ensures stands { OnOk result ((guards : List (List Bytes)) (live : List TableRow)
        → HasTables T.HasRow.the_row (record { top = top.old.items; levels = levels.old.items })
        guards live
        → HasTables T.HasRow.the_row (record { top = top.new.items; levels = levels.new.items })
        guards (live ++ T.HasRow.the_row table.now ∷ [])) }
    ensures contents { OnOk result (ContentsStay T.HasRow.the_row T.HasRow.holds
        (λ P. EachLive P (record { top = top.old.items; levels = levels.old.items })
        × P table.now)
        (λ P. EachLive P (record { top = top.new.items; levels = levels.new.items }))) }
{
    let level = table.row().level;
    if level == 0 {
        let handle = table.share()?;
        top.push(handle)?;
        return Ok(());
    }
    append_one(&mut levels[level as usize - 1], table)
}

/// Puts further handles to tables in their places, in their order.
pub fn place_all<T: TableLike + Drop>(
    top: &mut Vec<T>,
    levels: &mut Vec<Level<T>>,
    tables: &[T],
) -> Result<(), Memory>
    requires { AllByRecursion (λ t. HasPlace (map (λ level. level.keys) levels.old.items)
        (T.HasRow.the_row t)) tables.now }
    ensures stands { OnOk result ((guards : List (List Bytes)) (live : List TableRow)
        → HasTables T.HasRow.the_row (record { top = top.old.items; levels = levels.old.items })
        guards live
        → HasTables T.HasRow.the_row (record { top = top.new.items; levels = levels.new.items })
        guards (live ++ map T.HasRow.the_row tables.now)) }
    ensures contents { OnOk result (ContentsStay T.HasRow.the_row T.HasRow.holds
        (λ P. EachLive P (record { top = top.old.items; levels = levels.old.items })
        × AllByRecursion P tables.now)
        (λ P. EachLive P (record { top = top.new.items; levels = levels.new.items }))) }
{
    for table in tables {
        place(top, levels, table)?;
    }
    Ok(())
}
