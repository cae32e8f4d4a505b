//! Tests of lists of numbers and keys.

ghost use Rattle.std.specs.Prelude.{◌≡◌, ◌<◌, map, nat_lt, drop};
ghost use Rattle.std.specs.List.{list_all, zip};
ghost use Rattle.flsm_model.specs.Shape as shapes;
ghost use Rattle.flsm_model.specs.Fits as fits;
ghost use Rattle.flsm_model.specs.Ranges as ranges;

use crate::chosen::Chosen;
use peb_base::{Key, TableRow, is_below};

/// Whether the number is one of these.
pub fn has_number(number: u64, numbers: &[u64]) -> bool
    ensures { result ≡ shapes.has_number number numbers.now }
{
    numbers.iter().any(|n| number == *n)
}

/// Whether the numbers ascend, and none stands twice.
pub fn numbers_ascend(numbers: &[u64]) -> bool
    ensures { result ≡ fits.numbers_ascend numbers.now }
{
    numbers
        .iter()
        .zip(numbers.iter().skip(1))
        .all(|(a, b)| *a < *b)
}

/// Whether the key is one of these.
pub fn has_key(key: &[u8], keys: &[Key]) -> bool
    ensures { result ≡ ranges.has_key key.now keys.now }
{
    keys.iter().any(|k| key == k.bytes())
}

/// Whether the keys ascend, and none stands twice.
pub fn keys_ascend(keys: &[Key]) -> bool
    ensures { result ≡ ranges.keys_ascend keys.now }
{
    keys.iter()
        .zip(keys.iter().skip(1))
        .all(|(a, b)| is_below(a.bytes(), b.bytes()))
}

/// Whether the rows ascend by their smallest keys.
pub fn rows_ascend(rows: &[TableRow]) -> bool
    ensures { result ≡ fits.rows_ascend rows.now }
{
    rows.iter()
        .zip(rows.iter().skip(1))
        .all(|(a, b)| is_below(a.smallest.bytes(), b.smallest.bytes()))
}

/// Whether the key was chosen.
pub fn is_chosen(chosen: &[Chosen], key: &[u8]) -> bool
    ensures { result ≡ fits.is_chosen chosen.now key.now }
{
    chosen.iter().any(|c| key == c.key.bytes())
}

/// Whether the key was chosen with the level or with a shallower one.
pub fn is_candidate(chosen: &[Chosen], level: u8, key: &[u8]) -> bool
    ensures { result ≡ fits.is_candidate chosen.now level key.now }
{
    chosen
        .iter()
        .any(|c| c.level <= level && key == c.key.bytes())
}

/// Whether one of the rows has the number.
pub fn is_live(rows: &[TableRow], number: u64) -> bool
    ensures { result ≡ shapes.is_numbered rows.now number }
{
    rows.iter().any(|row| row.number == number)
}
