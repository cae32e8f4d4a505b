//! One level.

ghost use Rattle.std.specs.Prelude.{◌≡◌, ◌≤◌, ℕ, suc, [], ◌∷◌, length, set, get_or, vec_len, vec_capacity, IfOk, OnOk, OnErr, IfErr, IfSome, IfNone};
ghost use Rattle.std.specs.List.{AllByRecursion, AllZip};
ghost use Rattle.guard_level.specs.TableLists.{below, above, IsAbsent, TakesFrom, AreShared};
ghost use Rattle.peb_base.specs.Guards.{Ascend, guard_of, is_guard, LiesIn};
ghost use Rattle.guard_level.specs.Guards.{tables_of, with_table, cut_at, IsUncut, Takes, IsCopy};

use crate::keys::Keys;
use crate::tables::Tables;
use peb_base::{Key, Memory, TableLike, is_below};
use std::alloc::Global;
use std::marker::Model;

/// The guards of one level by ascending key, each with its tables (PebblesDB, section 3.1).
///
/// The sentinel, guard 0, holds the keys below the first guard key. A guard holds the keys from its own
/// up to the next guard's. Each table lies in one guard.
#[derive(Drop)]
pub struct Level<T: TableLike> {
    alloc: Global,
    keys: Keys,
    sentinel: Tables<T>,
    guards: Vec<Tables<T>>,
}

impl<T: TableLike> Model for Level<T> {
    ghost use Rattle.std.specs.Prelude.{◌∷◌};
    ghost use Rattle.guard_level.specs.Guards.{Guards, IsLevel};

    ghost Value = { Guards T };

    ghost view = { λ level. record {
      keys = level.keys;
      tables =
          level.sentinel ∷ level.guards.items;
    } };

    ghost invariant = { λ level. IsLevel T.HasRow.the_row
        (record { keys = level.keys; tables = level.sentinel ∷ level.guards.items }) };
}

impl<T: TableLike + Drop> Level<T> {
    /// A level whose one guard is the sentinel, without tables. It takes no memory.
    pub fn new(alloc: Global) -> Level<T>
        ensures keys { result.keys ≡ [] }
        ensures tables { (guard : ℕ) → tables_of result guard ≡ [] }
    {
        Level {
            alloc,
            keys: Keys::new(),
            sentinel: Tables::new(alloc),
            guards: Vec::new(alloc),
        }
    }

    /// Lends the guard keys, which ascend strictly. Each table lies in its guard.
    pub fn keys(&self) -> &[Key]
        ensures keys { result.now ≡ self.now.keys }
        ensures each { length self.now.tables ≡ suc (length self.now.keys) }
        ensures ascend { Ascend [] self.now.keys }
        ensures inside { (guard : ℕ) → AllByRecursion
            (λ table. LiesIn self.now.keys guard (T.HasRow.the_row table))
            (tables_of self.now guard) }
    {
        self.keys.items()
    }

    /// The guard that a key belongs to, from 0 for the sentinel to the number of guard keys.
    pub fn guard_of(&self, key: &[u8]) -> usize
        ensures guard { result ≡ guard_of key.now self.now.keys }
        ensures within { result ≤ length self.now.keys }
    {
        find_guard(self.keys.items(), key)
    }

    /// Lends the tables of a guard in the order in which they were appended. The
    /// guard is at most the number of guard keys.
    pub fn tables_of(&self, guard: usize) -> &[T]
        requires { guard ≤ length self.now.keys }
        ensures tables { result.now ≡ tables_of self.now guard }
        ensures inside { AllByRecursion
            (λ table. LiesIn self.now.keys guard (T.HasRow.the_row table)) result.now }
    {
        if guard == 0 {
            return self.sentinel.items();
        }
        self.guards[guard - 1].items()
    }

    /// Appends a table, which lies in one guard, behind the tables of that guard.
    ///
    /// For want of memory it comes back, and nothing changes.
    pub fn append(&mut self, table: T) -> Result<(), T>
        requires { LiesIn self.old.keys (guard_of (T.HasRow.the_row table).smallest self.old.keys)
            (T.HasRow.the_row table) }
        ensures ok { OnOk result (self.new ≡ with_table T.HasRow.the_row table self.old) }
        ensures err { OnErr result (self.new ≡ self.old) }
        ensures back { IfErr result (λ back. back ≡ table) }
    {
        let guard = find_guard(self.keys.items(), table.row().smallest.bytes());
        if guard == 0 {
            return self.sentinel.push(table);
        }
        self.guards[guard - 1].push(table)
    }

    /// Takes a table of this number out of its guard. None comes exactly where no table
    /// has the number, and then nothing changes.
    pub fn take(&mut self, number: u64) -> Option<T>
        ensures taken { IfSome result
            (λ table. Takes T.HasRow.the_row number self.old table self.new) }
        ensures none { IfNone result (self.new ≡ self.old) }
        ensures absent { IfNone result
            (AllByRecursion (IsAbsent T.HasRow.the_row number) self.old.tables) }
    {
        match self.sentinel.take(number) {
            Some(table) => Some(table),
            None => take_from(&mut self.guards, number),
        }
    }

    /// Makes a key a guard: it takes the tables from its own key on from the guard
    /// that it lies in, none of which it cuts.
    ///
    /// A key that is a guard changes nothing. For want of memory nothing changes.
    pub fn cut(&mut self, key: Key) -> Result<(), Memory>
        requires { IsUncut T.HasRow.the_row key (tables_of self.old (guard_of key self.old.keys)) }
        ensures ok { OnOk result (self.new ≡ cut_at T.HasRow.the_row key self.old) }
        ensures err { OnErr result (self.new ≡ self.old) }
    {
        let guard = find_guard(self.keys.items(), key.bytes());
        if is_key(self.keys.items(), guard, key.bytes()) {
            return Ok(());
        }
        let room = room_in(&self.sentinel, &self.guards, guard)?;
        self.guards.reserve(1)?;
        self.keys.insert(self.alloc, guard, key)?;
        let key = &self.keys.items()[guard];
        let given = split_guard(
            &mut self.sentinel,
            &mut self.guards,
            guard,
            key.bytes(),
            room,
        );
        self.guards.insert(guard, given)?;
        Ok(())
    }

    /// A level with the same guard keys, in which each table is shared: the keys are shared
    /// too, until one of the levels is cut.
    pub fn copy(&self) -> Result<Level<T>, Memory>
        ensures { IfOk result (λ copy. IsCopy T.HasRow.the_row T.HasRow.holds self.now copy) }
    {
        let sentinel = self.sentinel.share()?;
        let keys = self.keys.share()?;
        let guards = share_all(self.alloc, &self.guards)?;
        Ok(Level {
            alloc: self.alloc,
            keys,
            sentinel,
            guards,
        })
    }
}

/// Takes the first table of this number out.
fn take_from<T: TableLike + Drop>(guards: &mut Vec<Tables<T>>, number: u64) -> Option<T>
    ensures taken { IfSome result
        (λ table. TakesFrom T.HasRow.the_row number guards.old.items table guards.new.items) }
    ensures none { IfNone result (guards.new.items ≡ guards.old.items) }
    ensures absent { IfNone result
        (AllByRecursion (IsAbsent T.HasRow.the_row number) guards.old.items) }
{
    for guard in 0..guards.len() {
        if let Some(table) = guards[guard].take(number) {
            return Some(table);
        }
    }
    None
}

/// Whether the key, whose guard this is, is one of these, which ascend.
fn is_key(keys: &[Key], guard: usize, key: &[u8]) -> bool
    requires ascend { Ascend [] keys.now }
    requires guard { guard ≡ guard_of key.now keys.now }
    requires within { guard ≤ length keys.now }
    ensures { result ≡ is_guard key.now keys.now }
{
    guard > 0 && key == keys[guard - 1].bytes()
}

/// Room for the tables of a guard.
fn room_in<T: TableLike + Drop>(
    sentinel: &Tables<T>,
    guards: &[Tables<T>],
    guard: usize,
) -> Result<Vec<T>, Memory>
    requires { guard ≤ length guards.now }
    ensures none { IfOk result (λ room. vec_len room ≡ 0) }
    ensures room { IfOk result
        (λ room. length (get_or (sentinel.now ∷ guards.now) guard []) ≤ vec_capacity room) }
{
    if guard == 0 {
        return sentinel.room();
    }
    guards[guard - 1].room()
}

/// Splits the tables of a guard at a key.
fn split_guard<T: TableLike + Drop>(
    sentinel: &mut Tables<T>,
    guards: &mut Vec<Tables<T>>,
    guard: usize,
    key: &[u8],
    room: Vec<T>,
) -> Tables<T>
    requires guard { guard ≤ vec_len guards.old }
    requires none { vec_len room ≡ 0 }
    requires room { length (get_or (sentinel.old ∷ guards.old.items) guard []) ≤ vec_capacity room }
    ensures kept { sentinel.new ∷ guards.new.items
        ≡ set (sentinel.old ∷ guards.old.items) guard (below T.HasRow.the_row key.now (get_or (sentinel.old ∷ guards.old.items) guard [])) }
    ensures given { result
        ≡ above T.HasRow.the_row key.now (get_or (sentinel.old ∷ guards.old.items) guard []) }
    ensures len { vec_len guards.new ≡ vec_len guards.old }
    ensures room { vec_capacity guards.new ≡ vec_capacity guards.old }
{
    if guard == 0 {
        return sentinel.split(key, room);
    }
    guards[guard - 1].split(key, room)
}

/// Further handles to the tables of each guard.
fn share_all<T: TableLike + Drop>(
    alloc: Global,
    guards: &[Tables<T>],
) -> Result<Vec<Tables<T>>, Memory>
    ensures { IfOk result
        (λ shared. AllZip (AreShared T.HasRow.the_row T.HasRow.holds) guards.now shared.items) }
{
    let mut shared = Vec::with_capacity(alloc, guards.len())?;
    for tables in guards {
        shared.push(tables.share()?)?;
    }
    Ok(shared)
}

/// How many of the keys, which ascend, aren't above this one.
fn find_guard(keys: &[Key], key: &[u8]) -> usize
    requires { Ascend [] keys.now }
    ensures guard { result ≡ guard_of key.now keys.now }
    ensures within { result ≤ length keys.now }
{
    let mut low = 0;
    let mut high = keys.len();
    while low < high {
        let middle = low + (high - low) / 2;
        if is_below(key, keys[middle].bytes()) {
            high = middle;
        } else {
            low = middle + 1;
        }
    }
    low
}
