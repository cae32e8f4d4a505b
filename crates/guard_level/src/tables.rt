//! The tables of one guard.

ghost use Rattle.std.specs.Prelude.{◌≡◌, ◌≤◌, ◌+◌, ◌++◌, ◌∷◌, [], List, length, IfOk, OnOk, OnErr, IfErr, IfSome, IfNone, vec_len, vec_capacity};
ghost use Rattle.guard_level.specs.TableLists.{below, above, IsAbsent, TakesOut, AreShared};

use peb_base::{HasRow, Memory, TableLike, is_below};
use std::alloc::Global;
use std::marker::Model;

/// The tables of one guard, in the order in which they were appended.
#[derive(Drop)]
pub struct Tables<T> {
    alloc: Global,
    items: Vec<T>,
}

impl<T> Model for Tables<T> {
    ghost use Rattle.std.specs.Prelude.{List};
    ghost use Rattle.std.specs.Coded.{coded_list};

    ghost Value = { List T };

    ghost coded = { coded_list T.code };

    ghost view = { λ tables. tables.items.items };
}

impl<T: TableLike + Drop> Tables<T> {
    /// No tables. It takes no memory.
    pub fn new(alloc: Global) -> Tables<T>
        ensures { result ≡ [] }
    {
        Tables {
            alloc,
            items: Vec::new(alloc),
        }
    }

    /// Lends the tables.
    pub fn items(&self) -> &[T]
        ensures { result.now ≡ self.now }
    {
        self.items.as_slice()
    }

    /// Appends a table, or gives it back for want of memory.
    pub fn push(&mut self, table: T) -> Result<(), T>
        ensures ok { OnOk result (self.new ≡ self.old ++ table ∷ []) }
        ensures err { OnErr result (self.new ≡ self.old) }
        ensures back { IfErr result (λ back. back ≡ table) }
    {
        self.items.push(table).map_err(|failed| failed.value)
    }

    /// Takes the first table of this number out.
    pub fn take(&mut self, number: u64) -> Option<T>
        ensures taken { IfSome result
            (λ table. TakesOut T.HasRow.the_row number self.old table self.new) }
        ensures none { IfNone result
            (IsAbsent T.HasRow.the_row number self.old × (self.new ≡ self.old)) }
    {
        for at in 0..self.items.len() {
            if self.items[at].row().number == number {
                return Some(self.items.remove(at));
            }
        }
        None
    }

    /// Room for so many tables as there are.
    pub fn room(&self) -> Result<Vec<T>, Memory>
        ensures none { IfOk result (λ room. vec_len room ≡ 0) }
        ensures room { IfOk result (λ room. length self.now ≤ vec_capacity room) }
    {
        Ok(Vec::with_capacity(self.alloc, self.items.len())?)
    }

    /// Keeps the tables that begin below the key, and gives those that begin at or above it, for all of which
    /// there is room.
    pub fn split(&mut self, key: &[u8], mut room: Vec<T>) -> Tables<T>
        requires none { vec_len room ≡ 0 }
        requires room { length self.old ≤ vec_capacity room }
        ensures kept { self.new ≡ below T.HasRow.the_row key.now self.old }
        ensures given { result ≡ above T.HasRow.the_row key.now self.old }
    {
        move_above(&mut self.items, key, &mut room);
        Tables {
            alloc: self.alloc,
            items: room,
        }
    }

    /// Further handles to all tables.
    pub fn share(&self) -> Result<Tables<T>, Memory>
        ensures { IfOk result
            (λ shared. AreShared T.HasRow.the_row T.HasRow.holds self.now shared) }
    {
        let mut items = Vec::with_capacity(self.alloc, self.items.len())?;
        for table in &self.items {
            items.push(table.share()?)?;
        }
        Ok(Tables {
            alloc: self.alloc,
            items,
        })
    }
}

/// Moves the tables that begin at or above the key behind those given, for which there is room.
fn move_above<T: HasRow + Drop>(tables: &mut Vec<T>, key: &[u8], given: &mut Vec<T>)
    requires none { vec_len given.old ≡ 0 }
    requires room { vec_len tables.old ≤ vec_capacity given.old }
    ensures kept { tables.new.items ≡ below T.the_row key.now tables.old.items }
    ensures given { given.new.items ≡ above T.the_row key.now tables.old.items }
{
    let mut at = 0;
    while at < tables.len() {
        if is_below(tables[at].row().smallest.bytes(), key) {
            at += 1;
        } else {
            let Ok(()) = given.push(tables.remove(at)) else {
                unreachable!();
            };
        }
    }
}
