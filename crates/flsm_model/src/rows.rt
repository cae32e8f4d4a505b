//! Tests of rows.

ghost use Rattle.std.specs.Prelude.{◌≡◌, ◌==◌, map};
ghost use Rattle.std.specs.Option.{option_copied};
ghost use Rattle.std.specs.List.{list_all, list_any};
ghost use Rattle.peb_base.specs.Keys.{key_lt};
ghost use Rattle.flsm_model.specs.Ranges as ranges;
ghost use Rattle.flsm_model.specs.Compaction as compaction;
ghost use Rattle.flsm_model.specs.Shape as shapes;
ghost use Rattle.peb_base.specs.Tables as tables;
ghost use Rattle.flsm_model.specs.Fits as fits;

use crate::chosen::Chosen;
use crate::range::Range;
use crate::searches::{has_number, is_live};
use peb_base::{Key, TableRow, is_below};

/// Whether there is an element.
pub fn is_some_list<X>(items: &[X]) -> bool
    ensures { result ≡ fits.is_some_list items.now }
{
    match items {
        [] => false,
        _ => true,
    }
}

/// Whether the row is in its form.
pub fn is_row(row: &TableRow) -> bool
    ensures { result ≡ tables.is_row 0 row.now }
{
    !is_below(row.largest.bytes(), row.smallest.bytes())
        && row.first <= row.last
        && row.entries > 0
        && row.tier == 0
}

/// Whether the session gives the number.
pub fn is_of_session(session: u64, number: u64) -> bool
    ensures { result ≡ fits.is_of_session session number }
{
    number >> 40 == session && number % (1 << 40) > 0
}

/// Whether the key splits the table of the row.
pub fn straddles(row: &TableRow, key: &[u8]) -> bool
    ensures { result ≡ compaction.straddles row.now key.now }
{
    is_below(row.smallest.bytes(), key) && !is_below(row.largest.bytes(), key)
}

/// Whether one of the keys splits the table of the row.
pub fn is_split(row: &TableRow, keys: &[Key]) -> bool
    ensures { result ≡ list_any (compaction.straddles row.now) keys.now }
{
    keys.iter().any(|key| straddles(row, key.bytes()))
}

/// Whether the row is a table of the range of the level that one of the keys splits.
pub fn is_straddled(level: u8, range: &Range, keys: &[Key], row: &TableRow) -> bool
    ensures { result
        ≡ fits.is_straddled level (range.now.lo.now, option_copied range.now.hi) keys.now row.now }
{
    row.level == level && range.has_row(row) && is_split(row, keys)
}

/// Whether the chosen keys ascend.
pub fn chosen_ascend(chosen: &[Chosen]) -> bool
    ensures { result ≡ list_all (λ p. key_lt p.0.key p.1.key) (ranges.neighbours chosen.now) }
{
    chosen
        .iter()
        .zip(chosen.iter().skip(1))
        .all(|(a, b)| is_below(a.key.bytes(), b.key.bytes()))
}

/// Whether no two of the rows have one number.
pub fn numbers_differ(rows: &[TableRow]) -> bool
    ensures { result ≡ fits.numbers_differ (map (λ row. row.number) rows.now) }
{
    for (i, row) in rows.iter().enumerate() {
        if is_live(&rows[i + 1..], row.number) {
            return false;
        }
    }
    true
}

/// Whether each row lies in one guard.
pub fn each_lies_in_a_guard(guards: &[Key], rows: &[TableRow]) -> bool
    ensures { result ≡ list_all (λ row. fits.lies_in (fits.range_of_row guards.now row) row) rows.now }
{
    rows.iter()
        .all(|row| Range::of(guards, row.smallest.bytes()).has_row(row))
}

/// Whether the row begins past the guard in which the other one begins.
pub fn begins_past(guards: &[Key], other: &TableRow, row: &TableRow) -> bool
    ensures { result ≡ fits.begins_past guards.now other.now row.now }
{
    !Range::of(guards, other.smallest.bytes()).ends_behind(row.smallest.bytes())
}

/// Whether each row begins past the guard of the row before it.
pub fn each_begins_past(guards: &[Key], rows: &[TableRow]) -> bool
    ensures { result ≡ list_all (λ p. fits.begins_past guards.now p.0 p.1) (ranges.neighbours rows.now) }
{
    rows.iter()
        .zip(rows.iter().skip(1))
        .all(|(a, b)| begins_past(guards, a, b))
}

/// Whether each row lies in a guard of its own.
pub fn lie_apart(guards: &[Key], rows: &[TableRow]) -> bool
    ensures { result ≡ fits.lie_apart guards.now rows.now }
{
    each_lies_in_a_guard(guards, rows) && each_begins_past(guards, rows)
}

/// The smallest key of the first row that has one of these numbers, or the empty string.
#[tactic(auto, using(std::proofs::lemmas::List::at_drop_more))]
pub fn first_smallest<'a>(rows: &'a [TableRow], numbers: &[u64]) -> &'a [u8]
    ensures { result.now ≡ fits.first_smallest (shapes.rows_numbered numbers.now rows.now) }
{
    for row in rows {
        if has_number(row.number, numbers) {
            return row.smallest.bytes();
        }
    }
    &[]
}

/// Whether the rows are at the level.
pub fn are_at(level: usize, rows: &[TableRow]) -> bool
    ensures { result ≡ list_all (λ row. row.level == level) rows.now }
{
    rows.iter().all(|row| row.level as usize == level)
}

/// Whether the rows lie in the range.
pub fn lie_in(range: &Range, rows: &[TableRow]) -> bool
    ensures { result ≡ list_all (fits.lies_in (range.now.lo.now, option_copied range.now.hi)) rows.now }
{
    rows.iter().all(|row| range.has_row(row))
}

/// The first of the keys, or the empty string.
pub fn first_of(keys: &[Key]) -> &[u8]
    ensures { result.now ≡ ranges.first_of keys.now }
{
    match keys {
        [] => &[],
        [first, ..] => first.bytes(),
    }
}

/// Whether each row is at the level, lies in the range, and in one of the guards.
pub fn are_cut_at(level: u8, range: &Range, guards: &[Key], rows: &[TableRow]) -> bool
    ensures { result
        ≡ list_all (fits.is_cut_output level (range.now.lo.now, option_copied range.now.hi)
        guards.now) rows.now }
{
    rows.iter().all(|row| row.level == level
        && range.has_row(row)
        && Range::of(guards, row.smallest.bytes()).has_row(row))
}
