//! Versions, and what differs between them.

use crate::{Version, View};
use guard_level::Level;
use mem_table::MemTable;
use peb_base::{HasRow, Key, Number, TableRow, is_below};
use std::alloc::Global;
use std::process::Abort;
use std::sync::Arc;
use std::test::Fail;

/// A table that is its row alone.
#[derive(Drop)]
struct Bare {
    row: TableRow,
}

impl HasRow for Bare {
    ghost the_row = { λ table. table.row };

    ghost holds = { λ table es. ⊥ };

    fn row(&self) -> &TableRow {
        &self.row
    }

    ghost agrees = { λ table es h. absurd h };
}

/// A handle to a table.
type Handle = Arc<Bare, Global>;

/// A table of this number from one key to another.
fn table(
    alloc: Global,
    number: u64,
    level: u8,
    smallest: &[u8],
    largest: &[u8],
) -> Result<Handle, Fail> {
    let row = TableRow {
        number,
        level,
        tier: 0,
        smallest: Key::new(alloc, smallest)?,
        largest: Key::new(alloc, largest)?,
        entries: 2,
        raw: 4,
        first: Number::new(1, 1),
        last: Number::new(1, 2),
        bytes: 130,
    };
    Ok(Arc::new(alloc, Bare { row })?)
}

/// A level with the guard `o` and a table on each side of it.
fn level(rt: &impl Abort, alloc: Global) -> Result<Level<Handle>, Fail> {
    let mut level = Level::new(alloc);
    level.cut(Key::new(alloc, b"o")?)?;
    append(rt, &mut level, table(alloc, 3, 1, b"a", b"n")?)?;
    append(rt, &mut level, table(alloc, 4, 1, b"o", b"z")?)?;
    Ok(level)
}

/// Appends a table, having seen that it lies in one guard.
fn append(rt: &impl Abort, level: &mut Level<Handle>, table: Handle) -> Result<(), Fail> {
    let row = table.row();
    let guard = level.guard_of(row.smallest.bytes());
    let last = level.guard_of(row.largest.bytes());
    assert!(rt; guard == last);
    assert!(rt; !is_below(row.largest.bytes(), row.smallest.bytes()));
    level.append(table).map_err(|_| "no memory")?;
    Ok(())
}

/// A version with one table of level 0, and the level with the guard `o` below it.
fn version(rt: &impl Abort, alloc: Global) -> Result<Version<Handle>, Fail> {
    let top = vec![in alloc; table(alloc, 1, 0, b"a", b"z")?]?;
    let levels = vec![in alloc; level(rt, alloc)?]?;
    Ok(Version::of_parts(alloc, top, levels)?)
}

/// The number of the only table in which the key may lie at this level, or 0.
fn only(rt: &impl Abort, version: &Version<Handle>, level: u8, key: &[u8]) -> u64 {
    assert!(rt; level <= version.last_level());
    match version.looks(level, key) {
        [table] => table.row().number,
        _ => 0,
    }
}

#[test]
fn tables_in_which_a_key_may_lie(rt: HostRuntime) -> Result<(), Fail> {
    let version = version(&rt, rt.alloc())?;
    assert_eq!(rt; version.last_level(), 1);
    assert_eq!(rt;
        (only(&rt, &version, 0, b"b"), only(&rt, &version, 1, b"b")),
        (1, 3)
    );
    assert_eq!(rt;
        (only(&rt, &version, 1, b"n~"), only(&rt, &version, 1, b"o")),
        (3, 4)
    );
    Ok(())
}

#[test]
fn a_view_shows_the_same_after_edits(rt: HostRuntime) -> Result<(), Fail> {
    let alloc = rt.alloc();
    let view = View {
        number: Number::new(1, 2),
        mem: MemTable::new(alloc).snapshot()?,
        frozen: None,
        version: Arc::new(alloc, version(&rt, alloc)?)?,
    };
    let next = view.version.with_top(Vec::new(alloc))?;
    assert_eq!(rt;
        (only(&rt, &next, 0, b"b"), only(&rt, &next, 1, b"b")),
        (0, 3)
    );
    assert!(rt; next.last_level() == 1);
    let last = next.copy()?.with_level(1, Level::new(alloc))?;
    assert_eq!(rt;
        (only(&rt, &last, 1, b"b"), only(&rt, &next, 1, b"b")),
        (0, 3)
    );
    assert_eq!(rt;
        (
            only(&rt, &view.version, 0, b"b"),
            only(&rt, &view.version, 1, b"o")
        ),
        (1, 4)
    );
    Ok(())
}
