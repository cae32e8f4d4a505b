//! The version that an edit makes.

ghost use Rattle.std.specs.Prelude.{◌≡◌, ℕ, List, map, IfOk};
ghost use Rattle.std.specs.List.{AllByRecursion};
ghost use Rattle.std.specs.Arc.{arc_value};
ghost use Rattle.flsm_model.specs.Shape.{Shape};
ghost use Rattle.version_set.specs.Changes.{CanStage, IsStagedFor};
ghost use Rattle.version_set.specs.Contents.{EachLive, ContentsStay};

use crate::changing::change;
use flsm_model::Edit;
use peb_base::{Key, Memory, TableLike};
use std::alloc::Global;
use std::sync::Arc;
use version::Version;

/// The version after a Move, which changes its level and the next one, and the tables that go.
fn moved<T: TableLike + Drop>(
    alloc: Global,
    version: &Version<T>,
    level: u8,
    inputs: &[u64],
    tables: &[T],
) -> Result<(Version<T>, Vec<T>), Memory>
    requires { (s : Shape) × (floor : ℕ) × CanStage T.HasRow.the_row version.now s
        (Edit.Move level floor inputs.now (map T.HasRow.the_row tables.now)) tables.now }
    ensures made { IfOk result (λ made. (s : Shape) (floor : ℕ)
        → CanStage T.HasRow.the_row version.now s
        (Edit.Move level floor inputs.now (map T.HasRow.the_row tables.now)) tables.now
        → IsStagedFor T.HasRow.the_row made.0 made.1.items s
        (Edit.Move level floor inputs.now (map T.HasRow.the_row tables.now))) }
    ensures contents { IfOk result (λ made. ContentsStay T.HasRow.the_row T.HasRow.holds
        (λ P. EachLive P version.now × AllByRecursion P tables.now)
        (λ P. EachLive P made.0 × AllByRecursion P made.1.items)) }
{
    let no_keys: Vec<Key> = Vec::new(alloc);
    let no_inputs: Vec<u64> = Vec::new(alloc);
    let no_tables: Vec<T> = Vec::new(alloc);
    let last = version.last_level();
    let (next, gone) = change(alloc, version, level, &no_keys, inputs, &no_tables)?;
    let (made, _nothing) = change(alloc, &next, level + 1, &no_keys, &no_inputs, tables)?;
    Ok((made, gone))
}

/// The version after an edit, and the tables that go.
fn made<T: TableLike + Drop>(
    alloc: Global,
    version: &Version<T>,
    edit: &Edit,
    tables: &[T],
) -> Result<(Version<T>, Vec<T>), Memory>
    requires { (s : Shape) × CanStage T.HasRow.the_row version.now s edit.now tables.now }
    ensures made { IfOk result (λ made. (s : Shape)
        → CanStage T.HasRow.the_row version.now s edit.now tables.now
        → IsStagedFor T.HasRow.the_row made.0 made.1.items s edit.now) }
    ensures contents { IfOk result (λ made. ContentsStay T.HasRow.the_row T.HasRow.holds
        (λ P. EachLive P version.now × AllByRecursion P tables.now)
        (λ P. EachLive P made.0 × AllByRecursion P made.1.items)) }
{
    let no_keys: Vec<Key> = Vec::new(alloc);
    let no_inputs: Vec<u64> = Vec::new(alloc);
    match edit {
        Edit::Open { .. } => Ok((version.copy()?, Vec::new(alloc))),
        Edit::Flush { .. } => change(alloc, version, 0, &no_keys, &no_inputs, tables),
        Edit::Move { level, inputs, .. } => moved(alloc, version, *level, inputs.items(), tables),
        Edit::Cut {
            level,
            keys,
            inputs,
            ..
        } => change(alloc, version, *level, keys.items(), inputs.items(), tables),
        Edit::Merge { inputs, .. } => change(
            alloc,
            version,
            version.last_level(),
            &no_keys,
            inputs.items(),
            tables,
        ),
    }
}

/// A handle to the version after an edit, and the tables that go.
pub fn next_version<T: TableLike + Drop>(
    alloc: Global,
    version: &Version<T>,
    edit: &Edit,
    tables: &[T],
) -> Result<(Arc<Version<T>, Global>, Vec<T>), Memory>
    requires { (s : Shape) × CanStage T.HasRow.the_row version.now s edit.now tables.now }
    ensures made { IfOk result (λ next. (s : Shape)
        → CanStage T.HasRow.the_row version.now s edit.now tables.now
        → IsStagedFor T.HasRow.the_row (arc_value next.0) next.1.items s edit.now) }
    ensures contents { IfOk result (λ next. ContentsStay T.HasRow.the_row T.HasRow.holds
        (λ P. EachLive P version.now × AllByRecursion P tables.now)
        (λ P. EachLive P (arc_value next.0) × AllByRecursion P next.1.items)) }
{
    let (version, gone) = made(alloc, version, edit, tables)?;
    let next = Arc::new(alloc, version)?;
    Ok((next, gone))
}
