//! Tables, views and cursors over entries in any order.

ghost use Rattle.std.specs.Prelude.{◌+◌, ◌<◌, ◌≤◌, ◌^◌, All, OnOk, length};
ghost use Rattle.peb_base.specs.Numbers.{number_of};

use crate::{MemCursor, MemTable, MemView};
use peb_base::{Batch, ChangeRef, Cursor, EntryRef, Memory, Number, ReadFault};
use std::alloc::Global;
use std::collections::BTreeMap;
use std::test::Fail;

/// Inserts a batch that numbers count on from `count` in session 1.
fn insert(table: &mut MemTable, batch: &Batch, count: u64) -> Result<(), Memory>
    requires newer { All (λ e. e.number < number_of 1 count) table.old }
    requires fits { count + length batch.now < 2 ^ 40 }
    ensures { OnOk result (All (λ e. e.number < number_of 1 (count + length batch.now)) table.new) }
{
    table.insert(batch, Number::new(1, count))?;
    Ok(())
}

/// Inserts a put of a key, as eight bytes, under a count of session 1.
fn put(table: &mut MemTable, alloc: Global, key: u64, count: u64) -> Result<(), Memory>
    requires newer { All (λ e. e.number < number_of 1 count) table.old }
    requires fits { count < 2 ^ 32 }
    ensures { OnOk result (All (λ e. e.number < number_of 1 (count + 1)) table.new) }
{
    let mut batch = Batch::new(alloc);
    batch.put(&key.to_be_bytes(), b"value").map_err(|_| Memory)?;
    insert(table, &batch, count)
}

/// The key of eight bytes and the count of an entry.
fn pair_of(entry: &EntryRef<'_>) -> (u64, u64) {
    let mut key: u64 = 0;
    for byte in entry.key {
        key = key.wrapping_mul(256).wrapping_add(u64::from(*byte));
    }
    (key, entry.number().count())
}

/// The entries of a view, from the first one on.
fn walked(alloc: Global, view: &MemView) -> Result<Vec<(u64, u64)>, Memory> {
    let mut pairs = Vec::new(alloc);
    let mut cursor = view.cursor()?;
    cursor.first().map_err(|_| Memory)?;
    for _ in 0..30_000 {
        let Some(entry) = cursor.at() else {
            break;
        };
        pairs.push(pair_of(&entry))?;
        cursor.next().map_err(|_| Memory)?;
    }
    Ok(pairs)
}

/// The same from the last one back.
fn walked_back(alloc: Global, view: &MemView) -> Result<Vec<(u64, u64)>, Memory> {
    let mut pairs = Vec::new(alloc);
    let mut cursor = view.cursor()?;
    cursor.last().map_err(|_| Memory)?;
    for _ in 0..30_000 {
        let Some(entry) = cursor.at() else {
            break;
        };
        pairs.push(pair_of(&entry))?;
        cursor.prev().map_err(|_| Memory)?;
    }
    pairs.reverse();
    Ok(pairs)
}

/// The key that is inserted at a place of a random order.
fn scattered(at: u64) -> u64
    requires { at < 2 ^ 32 }
{
    // 20,011 is a prime.
    at * 7919 % 20_011
}

/// A table of so many keys in random order.
fn table_of(alloc: Global, len: u64) -> Result<MemTable, Memory>
    requires { len < 2 ^ 32 }
{
    let mut table = MemTable::new(alloc);
    for at in 0..len {
        put(&mut table, alloc, scattered(at), at)?;
    }
    Ok(table)
}

/// Views of a table that gets 20,000 keys in random order, one at each thousand.
fn views_of(alloc: Global) -> Result<Vec<MemView>, Memory> {
    let mut table = MemTable::new(alloc);
    let mut views = Vec::new(alloc);
    for at in 0..20_000u64 {
        if at % 1000 == 0 {
            views.push(table.snapshot()?)?;
        }
        put(&mut table, alloc, scattered(at), at)?;
    }
    Ok(views)
}

/// The same keys in a map of the toolchain.
fn map_of(alloc: Global, len: u64) -> Result<BTreeMap<u64, u64>, Memory>
    requires { len < 2 ^ 32 }
{
    let mut map = BTreeMap::new(alloc);
    for at in 0..len {
        map.insert(scattered(at), at)?;
    }
    Ok(map)
}

/// The pairs of a map in its order.
fn pairs_of(alloc: Global, map: &BTreeMap<u64, u64>) -> Result<Vec<(u64, u64)>, Memory> {
    let mut pairs = Vec::new(alloc);
    for (key, value) in map {
        pairs.push((*key, *value))?;
    }
    Ok(pairs)
}

/// Whether a view shows what a map has of so many keys, from either end.
fn is_as_a_map(alloc: Global, view: &MemView, len: u64) -> Result<bool, Memory>
    requires { len < 2 ^ 32 }
{
    let wanted = pairs_of(alloc, &map_of(alloc, len)?)?;
    Ok(walked(alloc, view)? == wanted && walked_back(alloc, view)? == wanted)
}

#[test]
fn entries_in_random_order_are_those_of_an_ordered_map(rt: HostRuntime) -> Result<(), Fail> {
    let alloc = rt.alloc();
    let table = table_of(alloc, 20_000)?;
    let size = table.size();
    let view = table.snapshot()?;
    let len = view.len();
    let same = is_as_a_map(alloc, &view, 20_000)?;
    assert_eq!(rt; len, 20_000);
    assert_eq!(rt; size, 20_000 * (8 + 5 + 16));
    assert!(rt; same);
    Ok(())
}

/// How many of the views show what a map has of a thousand keys for each before it.
fn unchanged(alloc: Global, views: &[MemView]) -> Result<u64, Memory>
    requires { length views.now < 1000 }
{
    let mut unchanged: u64 = 0;
    for (at, view) in views.iter().enumerate() {
        if is_as_a_map(alloc, view, at as u64 * 1000)? {
            unchanged = unchanged.saturating_add(1);
        }
    }
    Ok(unchanged)
}

#[test]
fn views_show_nothing_of_later_inserts(rt: HostRuntime) -> Result<(), Fail> {
    let views = views_of(rt.alloc())?;
    assert_eq!(rt; views.len(), 20);
    let unchanged = unchanged(rt.alloc(), &views)?;
    assert_eq!(rt; unchanged, 20);
    Ok(())
}

/// A number for what a view shows of a key at a count of session 1: ten times the count of the entry, and
/// the digit that is its value or 0 for a deletion; 0 where it shows none.
fn shown(view: &MemView, key: &[u8], count: u64) -> u64
    requires { count < 2 ^ 32 }
{
    match view.find(key, Number::new(1, count)) {
        Some(entry) => digits(&entry),
        None => 0,
    }
}

fn digits(entry: &EntryRef<'_>) -> u64 {
    let digit = match entry.change {
        ChangeRef::Put(value) => value.first().copied().unwrap_or(b'0').saturating_sub(b'0'),
        ChangeRef::Delete => 0,
    };
    entry.number().count() * 10 + u64::from(digit)
}

/// A table with one batch, a view of it, and a second batch: a copy of the view, a view of all, and
/// the size of all.
fn two_batches(alloc: Global) -> Result<(MemView, MemView, u64), Memory> {
    let mut first = Batch::new(alloc);
    first.put(b"a", b"1").map_err(|_| Memory)?;
    let mut second = Batch::new(alloc);
    second.put(b"b", b"2").map_err(|_| Memory)?;
    second.delete(b"a").map_err(|_| Memory)?;
    second.put(b"a", b"3").map_err(|_| Memory)?;
    let mut table = MemTable::new(alloc);
    insert(&mut table, &first, 1)?;
    let before = table.snapshot()?;
    insert(&mut table, &second, 2)?;
    Ok((before.copy()?, table.snapshot()?, table.size()))
}

#[test]
fn a_find_gives_the_newest_entry_up_to_its_number(rt: HostRuntime) -> Result<(), Fail> {
    let (before, view, size) = two_batches(rt.alloc())?;
    let newest = [
        shown(&view, b"a", 9),
        shown(&view, b"b", 9),
        shown(&view, b"c", 9),
    ];
    let older = [
        shown(&view, b"a", 3),
        shown(&view, b"a", 2),
        shown(&view, b"a", 0),
        shown(&view, b"b", 1),
    ];
    let unchanged = [shown(&before, b"a", 9), shown(&before, b"b", 9)];
    assert_eq!(rt; size, 18 + 18 + 17 + 18);
    assert_eq!(rt; newest, [43, 22, 0]);
    assert_eq!(rt; older, [30, 11, 0, 0]);
    assert_eq!(rt; unchanged, [11, 0]);
    Ok(())
}

/// The number for the entry at which a cursor stands, or 0.
fn at(cursor: &MemCursor) -> u64 {
    match cursor.at() {
        Some(entry) => digits(&entry),
        None => 0,
    }
}

/// Where a cursor stands at first and after each of seven moves.
fn moved(cursor: &mut MemCursor) -> Result<[u64; 8], ReadFault> {
    let opened = at(cursor);
    cursor.seek(b"a", Number::new(1, 2))?;
    let found = at(cursor);
    cursor.prev()?;
    let newer = at(cursor);
    cursor.first()?;
    let first = at(cursor);
    cursor.prev()?;
    let before = at(cursor);
    cursor.next()?;
    let nowhere = at(cursor);
    cursor.last()?;
    let last = at(cursor);
    cursor.seek(b"b", Number::new(1, 1))?;
    Ok([
        opened,
        found,
        newer,
        first,
        before,
        nowhere,
        last,
        at(cursor),
    ])
}

#[test]
fn a_cursor_goes_both_ways_and_stays_nowhere(rt: HostRuntime) -> Result<(), Fail> {
    let (_before, view, _size) = two_batches(rt.alloc())?;
    let mut cursor = view.cursor()?;
    let places = moved(&mut cursor)?;
    assert_eq!(rt; places, [0, 11, 30, 43, 0, 0, 22, 0]);
    Ok(())
}

/// How many chunks hold so many entries that were inserted in their order.
fn chunks_of(alloc: Global, len: u64) -> Result<usize, Memory>
    requires { len < 2 ^ 32 }
{
    let mut table = MemTable::new(alloc);
    for count in 0..len {
        put(&mut table, alloc, count, count)?;
    }
    Ok(table.entries.count())
}

// The 129th entry lies behind the 64 of the upper half, which has 128 with the 192nd.
#[test]
fn a_chunk_is_cut_in_half_at_its_129th_entry(rt: HostRuntime) -> Result<(), Fail> {
    let alloc = rt.alloc();
    let chunks = [
        chunks_of(alloc, 128)?,
        chunks_of(alloc, 129)?,
        chunks_of(alloc, 192)?,
        chunks_of(alloc, 193)?,
    ];
    assert_eq!(rt; chunks, [1, 2, 2, 3]);
    Ok(())
}

/// Whether the entries of a table are held by others too: while a view is held, after that view, a copy
/// of it and its cursor are let go, and after an insert under a view that is let go.
fn shared_by_views(alloc: Global) -> Result<(bool, bool, bool), Memory> {
    let mut table = MemTable::new(alloc);
    put(&mut table, alloc, 1, 1)?;
    let view = table.snapshot()?;
    let held = table.entries.is_shared();
    let copy = view.copy()?;
    let mut cursor = copy.cursor()?;
    cursor.first().map_err(|_| Memory)?;
    drop(cursor);
    drop(copy);
    drop(view);
    let after = table.entries.is_shared();
    let view = table.snapshot()?;
    put(&mut table, alloc, 2, 2)?;
    drop(view);
    Ok((held, after, table.entries.is_shared()))
}

#[test]
fn no_handle_outlives_the_views(rt: HostRuntime) -> Result<(), Fail> {
    let (held, after, at_last) = shared_by_views(rt.alloc())?;
    assert!(rt; held);
    assert!(rt; !after);
    assert!(rt; !at_last);
    Ok(())
}

/// Whether a table shows the same as a view, and has so many entries of 29 bytes.
fn shows_as(alloc: Global, table: &MemTable, view: &MemView, len: u64) -> Result<bool, Memory>
    requires { len < 2 ^ 32 }
{
    let now = table.snapshot()?;
    Ok(walked(alloc, view)? == walked(alloc, &now)? && table.size() == len * 29)
}

/// Inserts until an insert fails, with a view taken before each: whether the table is then as it was.
fn is_as_it_was(alloc: Global) -> Result<bool, Memory> {
    let mut table = MemTable::new(alloc);
    for count in 0..400u64 {
        let before = table.snapshot()?;
        if put(&mut table, alloc, scattered(count), count).is_err() {
            return shows_as(alloc, &table, &before, count);
        }
    }
    Ok(table.size() == 400 * 29)
}

// Where one allocation fails, by `rt try --test --fail-alloc`, it fails in one of the two attempts.
#[test]
fn an_insert_that_fails_leaves_the_table_as_it_was(rt: HostRuntime) -> Result<(), Fail> {
    let kept = match is_as_it_was(rt.alloc()) {
        Ok(kept) => kept,
        Err(Memory) => is_as_it_was(rt.alloc())?,
    };
    assert!(rt; kept);
    Ok(())
}
