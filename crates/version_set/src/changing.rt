//! Versions in which one level is changed.

ghost use Rattle.std.specs.Prelude.{◌≡◌, ◌≢◌, ◌≤◌, ◌++◌, [], ◌∷◌, List, length, map, IfOk, OnOk, IfSome, IfNone};
ghost use Rattle.std.specs.List.{AllByRecursion};
ghost use Rattle.peb_base.specs.Keys.{Bytes};
ghost use Rattle.peb_base.specs.declared.table_row.TableRow.{TableRow};
ghost use Rattle.flsm_model.specs.Ranges.{with_key, with_keys};
ghost use Rattle.guard_level.specs.TableLists.{IsAbsent, TakesOut};
ghost use Rattle.version_set.specs.Shapes.{HasRows};
ghost use Rattle.version_set.specs.Contents.{EachLive, ContentsStay};
ghost use Rattle.version_set.specs.Changes.{EachTable, AreInputs, IsTaken, IsWhole, LiesInOne, Change, change_of, Changes, IsMade};

use guard_level::Level;
use peb_base::{HasRow, Key, Memory, TableLike};
use std::alloc::Global;
use version::Version;

/// Takes the tables of these numbers out of a level, in their order.
fn take_all<T: TableLike + Drop>(
    alloc: Global,
    level: &mut Level<T>,
    numbers: &[u64],
) -> Result<Vec<T>, Memory>
    ensures keys { OnOk result (level.new.keys ≡ level.old.keys) }
    ensures taken { IfOk result (λ gone. (rows : List TableRow)
        → HasRows T.HasRow.the_row level.old rows → AreInputs numbers.now rows
        → IsTaken T.HasRow.the_row (HasRows T.HasRow.the_row level.new)
        gone.items numbers.now rows) }
    ensures contents { IfOk result (λ gone. ContentsStay T.HasRow.the_row T.HasRow.holds
        (λ P. EachTable P level.old) (λ P. EachTable P level.new × AllByRecursion P gone.items)) }
{
    let mut gone = Vec::new(alloc);
    for number in numbers {
        if let Some(table) = level.take(*number) {
            gone.push(table)?;
        }
    }
    Ok(gone)
}

/// Makes a key a guard, which splits no table of the level.
fn cut_one<T: TableLike + Drop>(level: &mut Level<T>, key: Key) -> Result<(), Memory>
    requires { EachTable (λ t. IsWhole key (T.HasRow.the_row t)) level.old }
    ensures keys { OnOk result (level.new.keys ≡ with_key key level.old.keys) }
    ensures rows { OnOk result ((rows : List TableRow) → HasRows T.HasRow.the_row level.old rows
        → HasRows T.HasRow.the_row level.new rows) }
    ensures whole { OnOk result ((other : Bytes)
        → EachTable (λ t. IsWhole other (T.HasRow.the_row t)) level.old
        → EachTable (λ t. IsWhole other (T.HasRow.the_row t)) level.new) }
    ensures contents { OnOk result (ContentsStay T.HasRow.the_row T.HasRow.holds
        (λ P. EachTable P level.old) (λ P. EachTable P level.new)) }
{
    let _guards = level.keys();
    level.cut(key)
}

/// Makes keys guards, none of which splits a table of the level.
pub fn cut_all<T: TableLike + Drop>(
    alloc: Global,
    level: &mut Level<T>,
    keys: &[Key],
) -> Result<(), Memory>
    requires { AllByRecursion (λ key. EachTable (λ t. IsWhole key (T.HasRow.the_row t)) level.old)
        keys.now }
    ensures keys { OnOk result (level.new.keys ≡ with_keys keys.now level.old.keys) }
    ensures rows { OnOk result ((rows : List TableRow) → HasRows T.HasRow.the_row level.old rows
        → HasRows T.HasRow.the_row level.new rows) }
    ensures contents { OnOk result (ContentsStay T.HasRow.the_row T.HasRow.holds
        (λ P. EachTable P level.old) (λ P. EachTable P level.new)) }
{
    let mut left = keys.len();
    while left > 0 {
        left -= 1;
        cut_one(level, keys[left].copy(alloc)?)?;
    }
    Ok(())
}

/// Appends a further handle to a table, which lies in one guard.
pub fn append_one<T: TableLike + Drop>(level: &mut Level<T>, table: &T) -> Result<(), Memory>
    requires { LiesInOne level.old.keys (T.HasRow.the_row table.now) }
    ensures keys { OnOk result (level.new.keys ≡ level.old.keys) }
    ensures rows { OnOk result ((rows : List TableRow) → HasRows T.HasRow.the_row level.old rows
        → HasRows T.HasRow.the_row level.new (rows ++ T.HasRow.the_row table.now ∷ [])) }
    ensures contents { OnOk result (ContentsStay T.HasRow.the_row T.HasRow.holds
        (λ P. EachTable P level.old × P table.now) (λ P. EachTable P level.new)) }
{
    let _guards = level.keys();
    let shared = table.share()?;
    match level.append(shared) {
        Ok(()) => Ok(()),
        Err(_) => Err(Memory),
    }
}

/// Appends further handles to tables, each of which lies in one guard.
fn append_all<T: TableLike + Drop>(level: &mut Level<T>, tables: &[T]) -> Result<(), Memory>
    requires { AllByRecursion (λ t. LiesInOne level.old.keys (T.HasRow.the_row t)) tables.now }
    ensures keys { OnOk result (level.new.keys ≡ level.old.keys) }
    ensures rows { OnOk result ((rows : List TableRow) → HasRows T.HasRow.the_row level.old rows
        → HasRows T.HasRow.the_row level.new (rows ++ map T.HasRow.the_row tables.now)) }
    ensures contents { OnOk result (ContentsStay T.HasRow.the_row T.HasRow.holds
        (λ P. EachTable P level.old × AllByRecursion P tables.now) (λ P. EachTable P level.new)) }
{
    for table in tables {
        append_one(level, table)?;
    }
    Ok(())
}

/// The version with a change of a level from 1 on, and the tables that go.
fn change_level<T: TableLike + Drop>(
    alloc: Global,
    version: &Version<T>,
    level: u8,
    keys: &[Key],
    inputs: &[u64],
    tables: &[T],
) -> Result<(Version<T>, Vec<T>), Memory>
    requires below { level ≢ 0 }
    requires may { (guards : List (List Bytes)) × (live : List TableRow)
        × Changes T.HasRow.the_row version.now guards live
        (change_of T.HasRow.the_row level keys.now inputs.now tables.now) }
    ensures made { IfOk result (λ made. (guards : List (List Bytes)) (live : List TableRow)
        → Changes T.HasRow.the_row version.now guards live
        (change_of T.HasRow.the_row level keys.now inputs.now tables.now)
        → IsMade T.HasRow.the_row (made.0, made.1.items) guards live
        (change_of T.HasRow.the_row level keys.now inputs.now tables.now)) }
    ensures contents { IfOk result (λ made. ContentsStay T.HasRow.the_row T.HasRow.holds
        (λ P. EachLive P version.now × AllByRecursion P tables.now)
        (λ P. EachLive P made.0 × AllByRecursion P made.1.items)) }
{
    let old = version.level(level);
    let _guards = old.keys();
    let mut next = old.copy()?;
    let gone = take_all(alloc, &mut next, inputs)?;
    cut_all(alloc, &mut next, keys)?;
    append_all(&mut next, tables)?;
    let made = version.with_level(level, next)?;
    Ok((made, gone))
}

/// Puts further handles to tables behind others.
fn share_onto<T: TableLike + Drop>(shared: &mut Vec<T>, tables: &[T]) -> Result<(), Memory>
    ensures rows { OnOk result (map T.HasRow.the_row shared.new.items
        ≡ map T.HasRow.the_row shared.old.items ++ map T.HasRow.the_row tables.now) }
    ensures contents { OnOk result (ContentsStay T.HasRow.the_row T.HasRow.holds
        (λ P. AllByRecursion P shared.old.items × AllByRecursion P tables.now)
        (λ P. AllByRecursion P shared.new.items)) }
{
    for table in tables {
        let handle = table.share()?;
        shared.push(handle)?;
    }
    Ok(())
}

/// Takes the first table of this number out.
fn take_table<T: HasRow + Drop>(tables: &mut Vec<T>, number: u64) -> Option<T>
    ensures taken { IfSome result (λ table. TakesOut T.the_row number tables.old.items table
        tables.new.items) }
    ensures none { IfNone result (IsAbsent T.the_row number tables.old.items) }
    ensures same { IfNone result (tables.new.items ≡ tables.old.items) }
{
    for at in 0..tables.len() {
        if tables[at].row().number == number {
            return Some(tables.remove(at));
        }
    }
    None
}

/// Takes the tables of these numbers out, in their order.
fn take_from_top<T: TableLike + Drop>(
    alloc: Global,
    tables: &mut Vec<T>,
    numbers: &[u64],
) -> Result<Vec<T>, Memory>
    ensures taken { IfOk result (λ gone. (rows : List TableRow)
        → map T.HasRow.the_row tables.old.items ≡ rows → AreInputs numbers.now rows
        → IsTaken T.HasRow.the_row (λ left. map T.HasRow.the_row tables.new.items ≡ left)
        gone.items numbers.now rows) }
    ensures contents { IfOk result (λ gone. ContentsStay T.HasRow.the_row T.HasRow.holds
        (λ P. AllByRecursion P tables.old.items)
        (λ P. AllByRecursion P tables.new.items × AllByRecursion P gone.items)) }
{
    let mut gone = Vec::new(alloc);
    for number in numbers {
        if let Some(table) = take_table(tables, *number) {
            gone.push(table)?;
        }
    }
    Ok(gone)
}

/// The version with a change of level 0, which has no guards, and the tables that go.
fn change_top<T: TableLike + Drop>(
    alloc: Global,
    version: &Version<T>,
    inputs: &[u64],
    tables: &[T],
) -> Result<(Version<T>, Vec<T>), Memory>
    ensures made { IfOk result (λ made. (guards : List (List Bytes)) (live : List TableRow)
        (c : Change) → Changes T.HasRow.the_row version.now guards live c
        → c.level ≡ 0 → c.inputs ≡ inputs.now → c.outputs ≡ map T.HasRow.the_row tables.now
        → IsMade T.HasRow.the_row (made.0, made.1.items) guards live c) }
    ensures contents { IfOk result (λ made. ContentsStay T.HasRow.the_row T.HasRow.holds
        (λ P. EachLive P version.now × AllByRecursion P tables.now)
        (λ P. EachLive P made.0 × AllByRecursion P made.1.items)) }
{
    let mut top = Vec::new(alloc);
    share_onto(&mut top, version.top())?;
    let gone = take_from_top(alloc, &mut top, inputs)?;
    share_onto(&mut top, tables)?;
    let made = version.with_top(top)?;
    Ok((made, gone))
}

/// The version with a change of one level, and the tables that go: the inputs are taken away, the
/// keys become guards, and further handles to the tables are appended.
pub fn change<T: TableLike + Drop>(
    alloc: Global,
    version: &Version<T>,
    level: u8,
    keys: &[Key],
    inputs: &[u64],
    tables: &[T],
) -> Result<(Version<T>, Vec<T>), Memory>
    requires { (guards : List (List Bytes)) × (live : List TableRow)
        × Changes T.HasRow.the_row version.now guards live
        (change_of T.HasRow.the_row level keys.now inputs.now tables.now) }
    ensures made { IfOk result (λ made. (guards : List (List Bytes)) (live : List TableRow)
        → Changes T.HasRow.the_row version.now guards live
        (change_of T.HasRow.the_row level keys.now inputs.now tables.now)
        → IsMade T.HasRow.the_row (made.0, made.1.items) guards live
        (change_of T.HasRow.the_row level keys.now inputs.now tables.now)) }
    ensures contents { IfOk result (λ made. ContentsStay T.HasRow.the_row T.HasRow.holds
        (λ P. EachLive P version.now × AllByRecursion P tables.now)
        (λ P. EachLive P made.0 × AllByRecursion P made.1.items)) }
{
    if level == 0 {
        return change_top(alloc, version, inputs, tables);
    }
    change_level(alloc, version, level, keys, inputs, tables)
}
