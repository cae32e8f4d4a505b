//! Which tables are begun and not sealed.

ghost use Rattle.std.specs.Prelude.{◌≡◌, None, Some, OnOk, OnErr, is_some};
ghost use Rattle.std.specs.BTreeMap.{IsEmpty, IsUnchanged, Updates, get};
ghost use Rattle.std.specs.Ordering.{nat_cmp};

use std::alloc::{AllocError, Global};
use std::collections::BTreeMap;

/// The numbers of the tables that the makers of one directory have begun and not sealed.
#[derive(Drop)]
pub struct BegunTables {
    numbers: BTreeMap<u64, ()>,
}

impl BegunTables {
    /// None is begun.
    pub fn none(alloc: Global) -> BegunTables
        ensures { IsEmpty result.numbers }
    {
        BegunTables {
            numbers: BTreeMap::new(alloc),
        }
    }

    /// Keeps that the table of this number is begun. An `Err` changes nothing.
    pub fn begin(&mut self, number: u64) -> Result<(), AllocError>
        ensures begun { OnOk result (Updates nat_cmp self.old.numbers self.new.numbers number
            (Some tt)) }
        ensures err { OnErr result (IsUnchanged self.old.numbers self.new.numbers) }
    {
        self.numbers.insert(number, ())?;
        Ok(())
    }

    /// Keeps that the table of this number is begun no longer.
    pub fn end(&mut self, number: u64)
        ensures { Updates nat_cmp self.old.numbers self.new.numbers number None }
    {
        self.numbers.remove(&number);
    }

    /// Whether the table of this number is begun and not sealed.
    pub fn has(&self, number: u64) -> bool
        ensures { result ≡ is_some (get nat_cmp self.now.numbers number) }
    {
        self.numbers.contains_key(&number)
    }
}
