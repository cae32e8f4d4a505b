//! The levels of a version, with level 0 among them.

ghost use Rattle.std.specs.Prelude.{◌≡◌, ◌≤◌, [], suc, length};
ghost use Rattle.peb_base.specs.Guards as guards;
ghost use Rattle.peb_base.specs.Guards.{Ascend};
ghost use Rattle.peb_base.specs.Profiles.{column};
ghost use Rattle.flsm_model.specs.Picking.{room_at};
ghost use Rattle.job_picker.specs.Seen.{keys_at, tables_at};

use peb_base::{Key, Options, TableLike};
use version::Version;

/// How many tables level 0, or a guard of a deeper level, may hold.
pub fn room_of(options: &Options, level: u8) -> usize
    ensures { result ≡ room_at (column options.now.profile) level }
{
    if level == 0 {
        return options.zero_tables;
    }
    options.guard_tables
}

/// Lends the guard keys of a level up to the last. Level 0 has none.
pub fn keys_of<T: TableLike + Drop>(version: &Version<T>, level: u8) -> &[Key]
    requires { level ≤ length version.now.levels }
    ensures keys { result.now ≡ keys_at version.now level }
    ensures ascend { Ascend [] (keys_at version.now level) }
{
    if level == 0 {
        return &[];
    }
    version.level(level).keys()
}

/// Lends the tables of a guard, the sentinel being the first. Level 0 has one guard.
pub fn tables_of<T: TableLike + Drop>(version: &Version<T>, level: u8, guard: usize) -> &[T]
    requires level { level ≤ length version.now.levels }
    requires guard { guard ≤ length (keys_at version.now level) }
    ensures { result.now ≡ tables_at version.now level guard }
{
    if level == 0 {
        return version.top();
    }
    version.level(level).tables_of(guard)
}

/// How many guards a level has, the sentinel among them.
pub fn count_of<T: TableLike + Drop>(version: &Version<T>, level: u8) -> usize
    requires { level ≤ length version.now.levels }
    ensures count { result ≡ suc (length (keys_at version.now level)) }
    ensures ascend { Ascend [] (keys_at version.now level) }
{
    keys_of(version, level).len() + 1
}

/// The guard of a level that a key belongs to, 0 for the sentinel.
pub fn guard_of<T: TableLike + Drop>(version: &Version<T>, level: u8, key: &[u8]) -> usize
    requires { level ≤ length version.now.levels }
    ensures guard { result ≡ guards.guard_of key.now (keys_at version.now level) }
    ensures within { result ≤ length (keys_at version.now level) }
{
    if level == 0 {
        return 0;
    }
    version.level(level).guard_of(key)
}
