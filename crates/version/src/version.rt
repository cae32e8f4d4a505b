//! Versions.

ghost use Rattle.std.specs.Prelude.{◌≡◌, ◌≤◌, ◌<◌, ◌-◌, length, map, set, vec_len, IfOk};
ghost use Rattle.std.specs.Arc.{arc_value};
ghost use Rattle.version.specs.Levels.{level_at, looked_at};
ghost use Rattle.version.specs.Looks.{MissesNone};

use guard_level::Level;
use peb_base::{List, Memory, TableLike};
use std::alloc::Global;
use std::marker::Model;
use std::sync::Arc;

/// The live tables of a moment: those of level 0, and the guards of each deeper level with theirs.
///
/// It never changes. Versions that are made of one another share the levels in which they don't
/// differ.
#[derive(Drop)]
pub struct Version<T: TableLike> {
    alloc: Global,
    top: Arc<List<T>, Global>,
    levels: Vec<Arc<Level<T>, Global>>,
}

impl<T: TableLike> Model for Version<T> {
    ghost use Rattle.std.specs.Prelude.{map, length, ◌<◌};
    ghost use Rattle.std.specs.Arc.{arc_value};
    ghost use Rattle.version.specs.Levels.{Levels};

    ghost Value = { Levels T };

    ghost view = { λ version. record {
      top = arc_value version.top;
      levels = map arc_value version.levels.items;
    } };

    ghost invariant = { λ version. length version.levels.items < 256 };
}

impl<T: TableLike + Drop> Version<T> {
    /// The version of these tables of level 0 and these levels from 1 on, of which there are at
    /// most 255.
    pub fn of_parts(alloc: Global, top: Vec<T>, levels: Vec<Level<T>>) -> Result<Version<T>, Memory>
        requires { vec_len levels < 256 }
        ensures { IfOk result (λ version. version ≡ record {
          top = top.items;
          levels =
              levels.items;
        }) }
    {
        let top = Arc::new(alloc, List::of(top))?;
        let levels = share_levels(alloc, levels)?;
        Ok(Version { alloc, top, levels })
    }

    /// The deepest level, 0 where there is no level below the first.
    pub fn last_level(&self) -> u8
        ensures { result ≡ length self.now.levels }
    {
        self.levels.len() as u8
    }

    /// Lends the tables of level 0.
    pub fn top(&self) -> &[T]
        ensures { result.now ≡ self.now.top }
    {
        self.top.items()
    }

    /// Lends a level from 1 to the last.
    pub fn level(&self, level: u8) -> &Level<T>
        requires below { 1 ≤ level }
        requires within { level ≤ length self.now.levels }
        ensures { result.now ≡ level_at self.now (level - 1) }
    {
        &self.levels[level as usize - 1]
    }

    /// Lends the tables of a level in which a key may lie: all of level 0, else those of the key's
    /// guard. The level is at most the last. None whose keys reach over the key is left out.
    pub fn looks(&self, level: u8, key: &[u8]) -> &[T]
        requires { level ≤ length self.now.levels }
        ensures tables { result.now ≡ looked_at self.now level key.now }
        ensures none_missed { MissesNone T.HasRow.the_row self.now level key.now result.now }
    {
        if level == 0 {
            return self.top();
        }
        let level = self.level(level);
        let _keys = level.keys();
        level.tables_of(level.guard_of(key))
    }

    /// A version with the same tables. It copies a handle for each level.
    pub fn copy(&self) -> Result<Version<T>, Memory>
        ensures { IfOk result (λ copy. copy ≡ self.now) }
    {
        let top = Arc::try_clone(&self.top)?;
        let levels = copy_levels(self.alloc, &self.levels)?;
        Ok(Version {
            alloc: self.alloc,
            top,
            levels,
        })
    }

    /// A version with other tables of level 0. All deeper levels are shared.
    pub fn with_top(&self, top: Vec<T>) -> Result<Version<T>, Memory>
        ensures { IfOk result (λ version. version ≡ record self.now { top = top.items }) }
    {
        let top = Arc::new(self.alloc, List::of(top))?;
        let levels = copy_levels(self.alloc, &self.levels)?;
        Ok(Version {
            alloc: self.alloc,
            top,
            levels,
        })
    }

    /// A version with another level in place of one from 1 to the last. All others are shared.
    pub fn with_level(&self, level: u8, tables: Level<T>) -> Result<Version<T>, Memory>
        requires below { 1 ≤ level }
        requires within { level ≤ length self.now.levels }
        ensures { IfOk result (λ version. version
            ≡ record self.now { levels = set self.now.levels (level - 1) tables }) }
    {
        let top = Arc::try_clone(&self.top)?;
        let mut levels = copy_levels(self.alloc, &self.levels)?;
        levels[level as usize - 1] = Arc::new(self.alloc, tables)?;
        Ok(Version {
            alloc: self.alloc,
            top,
            levels,
        })
    }
}

/// Handles to the levels.
fn share_levels<T: TableLike + Drop>(
    alloc: Global,
    levels: Vec<Level<T>>,
) -> Result<Vec<Arc<Level<T>, Global>>, Memory>
    ensures { IfOk result (λ shared. map arc_value shared.items ≡ levels.items) }
{
    let mut shared = Vec::with_capacity(alloc, levels.len())?;
    for level in levels {
        shared.push(Arc::new(alloc, level)?)?;
    }
    Ok(shared)
}

/// Further handles to the levels.
fn copy_levels<T: TableLike + Drop>(
    alloc: Global,
    levels: &[Arc<Level<T>, Global>],
) -> Result<Vec<Arc<Level<T>, Global>>, Memory>
    ensures { IfOk result (λ copies. map arc_value copies.items ≡ map arc_value levels.now) }
{
    let mut copies = Vec::with_capacity(alloc, levels.len())?;
    for level in levels {
        copies.push(Arc::try_clone(level)?)?;
    }
    Ok(copies)
}
