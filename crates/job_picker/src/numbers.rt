//! The numbers of tables, ascending.

ghost use Rattle.std.specs.Prelude.{◌≡◌, ◌≤◌, length, map, filter, IfOk, OnOk};
ghost use Rattle.std.specs.List.{insert, list_any};
ghost use Rattle.flsm_model.specs.Compaction as compaction;
ghost use Rattle.flsm_model.specs.Picking as picking;

use flsm_model::straddles;
use peb_base::{HasRow, Key, Memory, TableRow};
use std::alloc::Global;

/// The place of a number among ascending ones: in front of the first that isn't below it.
fn place_of(numbers: &[u64], number: u64) -> usize
    ensures within { result ≤ length numbers.now }
    ensures place { picking.with_number number numbers.now ≡ insert numbers.now result number }
{
    for (place, other) in numbers.iter().enumerate() {
        if number <= *other {
            return place;
        }
    }
    numbers.len()
}

/// Puts a number in its place among ascending ones.
fn add_number(numbers: &mut Vec<u64>, number: u64) -> Result<(), Memory>
    ensures { OnOk result (numbers.new.items ≡ picking.with_number number numbers.old.items) }
{
    let place = place_of(numbers, number);
    numbers.insert(place, number)?;
    Ok(())
}

/// The numbers of the tables, ascending.
#[tactic(auto, using(std::proofs::lemmas::List::at_drop_more))]
pub fn numbers_of<T: HasRow>(alloc: Global, tables: &[T]) -> Result<Vec<u64>, Memory>
    ensures { IfOk result
        (λ numbers. numbers.items ≡ picking.numbers_of (map T.the_row tables.now)) }
{
    let mut numbers = Vec::new(alloc);
    let mut left = tables.len();
    while left > 0 {
        left -= 1;
        add_number(&mut numbers, tables[left].row().number)?;
    }
    Ok(numbers)
}

/// Whether one of the keys splits the table of the row.
fn is_split(row: &TableRow, keys: &[Key]) -> bool
    ensures { result ≡ list_any (compaction.straddles row.now) keys.now }
{
    keys.iter().any(|key| straddles(row, key.bytes()))
}

/// The numbers of the tables that one of the keys splits, ascending.
pub fn numbers_split<T: HasRow>(
    alloc: Global,
    tables: &[T],
    keys: &[Key],
) -> Result<Vec<u64>, Memory>
    ensures { IfOk result (λ numbers. numbers.items ≡ picking.numbers_of
        (filter (λ r. list_any (compaction.straddles r) keys.now) (map T.the_row tables.now))) }
{
    let mut numbers = Vec::new(alloc);
    let mut left = tables.len();
    while left > 0 {
        left -= 1;
        let row = tables[left].row();
        if is_split(row, keys) {
            add_number(&mut numbers, row.number)?;
        }
    }
    Ok(numbers)
}
