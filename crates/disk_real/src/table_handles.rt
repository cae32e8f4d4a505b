//! How many handles of each table there are.

ghost use Rattle.std.specs.Prelude.{◌≡◌, None, Some, OnOk, OnErr};
ghost use Rattle.std.specs.BTreeMap.{IsEmpty, IsUnchanged, Updates};
ghost use Rattle.std.specs.Ordering.{nat_cmp};
ghost use Rattle.disk_real.specs.Handles.{handles_at, one_more, retired_at, one_fewer, goes};

use std::alloc::{AllocError, Global};
use std::collections::BTreeMap;

/// How many handles of one table there are, and whether it is retired.
#[derive(Clone, Copy)]
pub struct Handles {
    pub count: u64,
    pub is_retired: bool,
}

/// The tables of which there are handles, by their numbers. All handles of a number share whether
/// it is retired.
#[derive(Drop)]
pub struct TableHandles {
    tables: BTreeMap<u64, Handles>,
}

impl TableHandles {
    /// There is no handle.
    pub fn none(alloc: Global) -> TableHandles
        ensures { IsEmpty result.tables }
    {
        TableHandles {
            tables: BTreeMap::new(alloc),
        }
    }

    fn at(&self, number: u64) -> Handles
        ensures { result ≡ handles_at self.now.tables number }
    {
        match self.tables.get(&number) {
            Some(handles) => *handles,
            None => Handles {
                count: 0,
                is_retired: false,
            },
        }
    }

    /// Counts one handle more of the table of this number. An `Err` changes nothing.
    pub fn add(&mut self, number: u64) -> Result<(), AllocError>
        ensures more { OnOk result (Updates nat_cmp self.old.tables self.new.tables number
            (Some (one_more (handles_at self.old.tables number)))) }
        ensures err { OnErr result (IsUnchanged self.old.tables self.new.tables) }
    {
        let earlier = self.at(number);
        self.tables.insert(
            number,
            Handles {
                count: earlier.count.saturating_add(1),
                is_retired: earlier.is_retired,
            },
        )?;
        Ok(())
    }

    /// Keeps that the table of this number is retired. An `Err`, which comes only where there is no
    /// handle of it, changes nothing.
    pub fn retire(&mut self, number: u64) -> Result<(), AllocError>
        ensures retired { OnOk result (Updates nat_cmp self.old.tables self.new.tables number
            (Some (retired_at (handles_at self.old.tables number)))) }
        ensures err { OnErr result (IsUnchanged self.old.tables self.new.tables) }
    {
        let count = self.at(number).count;
        self.tables.insert(
            number,
            Handles {
                count,
                is_retired: true,
            },
        )?;
        Ok(())
    }

    /// Counts one handle less of the table of this number. Says whether the table's file goes now:
    /// it is retired, and this was its last handle.
    pub fn let_go(&mut self, number: u64) -> bool
        ensures goes { result ≡ goes (handles_at self.old.tables number) }
        ensures fewer { Updates nat_cmp self.old.tables self.new.tables number
            (one_fewer (handles_at self.old.tables number)) }
    {
        let earlier = self.at(number);
        if earlier.count <= 1 {
            self.tables.remove(&number);
            return earlier.is_retired;
        }
        if let Some(handles) = self.tables.get_mut(&number) {
            handles.count = earlier.count - 1;
        }
        false
    }
}
