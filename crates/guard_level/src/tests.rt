//! Guards that are cut, filled and copied.

ghost use Rattle.std.specs.Prelude.{◌≡◌, ◌&&◌, not};
ghost use Rattle.std.specs.Arc.{arc_value};
ghost use Rattle.peb_base.specs.Keys.{key_lt};

use crate::Level;
use peb_base::{HasRow, Key, Number, TableRow, is_below};
use std::alloc::Global;
use std::process::Abort;
use std::sync::Arc;
use std::test::Fail;

/// A table that is its row alone.
#[derive(Drop)]
struct Bare {
    row: TableRow,
}

impl HasRow for Bare {
    ghost use Rattle.std.specs.Prelude.{◌≡◌};

    ghost the_row = { λ table. table.row };

    ghost holds = { λ table es. ⊥ };

    fn row(&self) -> &TableRow {
        &self.row
    }

    ghost agrees = { λ table es h. absurd h };
}

/// A table of this number from one key to another.
fn table(
    alloc: Global,
    number: u64,
    smallest: &[u8],
    largest: &[u8],
) -> Result<Arc<Bare, Global>, Fail> {
    let row = TableRow {
        number,
        level: 1,
        tier: 0,
        smallest: Key::new(alloc, smallest)?,
        largest: Key::new(alloc, largest)?,
        entries: 2,
        raw: 4,
        first: Number::new(1, 1),
        last: Number::new(1, 2),
        bytes: 130,
    };
    Ok(Arc::new(alloc, Bare { row })?)
}

/// Appends a table, having seen that it lies in one guard.
fn append(
    rt: &impl Abort,
    level: &mut Level<Arc<Bare, Global>>,
    table: Arc<Bare, Global>,
) -> Result<(), Fail> {
    let row = table.row();
    let guard = level.guard_of(row.smallest.bytes());
    let last = level.guard_of(row.largest.bytes());
    assert!(rt; guard == last);
    assert!(rt; !is_below(row.largest.bytes(), row.smallest.bytes()));
    level.append(table).map_err(|_| "no memory")?;
    Ok(())
}

/// Whether a table has the key and one below it.
fn is_cut(table: &Arc<Bare, Global>, key: &[u8]) -> bool
    ensures { result ≡
        (key_lt (arc_value table.now).row.smallest key.now
        && not (key_lt (arc_value table.now).row.largest key.now)) }
{
    let row = table.row();
    is_below(row.smallest.bytes(), key) && !is_below(row.largest.bytes(), key)
}

/// Makes a key a guard, having seen that no table is cut by it.
fn cut(rt: &impl Abort, level: &mut Level<Arc<Bare, Global>>, key: Key) -> Result<(), Fail> {
    for table in level.tables_of(level.guard_of(key.bytes())) {
        assert!(rt; !is_cut(table, key.bytes()));
    }
    level.cut(key)?;
    Ok(())
}

#[test]
fn a_cut_at_the_first_key_of_a_table(rt: HostRuntime) -> Result<(), Fail> {
    let alloc = rt.alloc();
    let mut level = Level::new(alloc);
    append(&rt, &mut level, table(alloc, 1, b"o", b"z")?)?;
    assert_eq!(rt; level.keys().len(), 0);
    cut(&rt, &mut level, Key::new(alloc, b"o")?)?;
    assert_eq!(rt; level.keys().len(), 1);
    assert_eq!(rt; (level.guard_of(b"n"), level.guard_of(b"o")), (0, 1));
    assert_eq!(rt;
        (level.tables_of(0).len(), level.tables_of(1).len()),
        (0, 1)
    );
    Ok(())
}

#[test]
fn tables_in_their_guards(rt: HostRuntime) -> Result<(), Fail> {
    let alloc = rt.alloc();
    let mut level = Level::new(alloc);
    append(&rt, &mut level, table(alloc, 1, b"a", b"f")?)?;
    append(&rt, &mut level, table(alloc, 2, b"r", b"t")?)?;
    append(&rt, &mut level, table(alloc, 3, b"b", b"c")?)?;
    cut(&rt, &mut level, Key::new(alloc, b"q")?)?;
    cut(&rt, &mut level, Key::new(alloc, b"g")?)?;
    cut(&rt, &mut level, Key::new(alloc, b"g")?)?;
    assert_eq!(rt; level.keys().len(), 2);
    assert_eq!(rt; level.keys()[0].bytes(), b"g".as_slice());
    append(&rt, &mut level, table(alloc, 4, b"g", b"p")?)?;
    let copy = level.copy()?;
    assert_eq!(rt; copy.keys().len(), 2);
    assert_eq!(rt; copy.tables_of(0).len(), 2);
    assert_eq!(rt; copy.tables_of(0)[1].row().number, 3);
    assert_eq!(rt; copy.tables_of(1).len(), 1);
    assert_eq!(rt; copy.tables_of(1)[0].row().number, 4);
    assert_eq!(rt; copy.tables_of(2).len(), 1);
    assert_eq!(rt; level.take(2).ok_or("no table")?.row().number, 2);
    assert!(rt; matches!(level.take(2), None));
    assert_eq!(rt; level.tables_of(2).len(), 0);
    Ok(())
}

/// How many guard keys a level has after a cut of its copy, and how many the copy.
fn keys_after_a_cut_of_a_copy(rt: &impl Abort, alloc: Global) -> Result<(usize, usize), Fail> {
    let mut level = Level::new(alloc);
    cut(rt, &mut level, Key::new(alloc, b"g")?)?;
    let mut copy = level.copy()?;
    cut(rt, &mut copy, Key::new(alloc, b"m")?)?;
    Ok((level.keys().len(), copy.keys().len()))
}

#[test]
fn a_level_shows_no_cut_of_its_copy(rt: HostRuntime) -> Result<(), Fail> {
    let keys = keys_after_a_cut_of_a_copy(&rt, rt.alloc())?;
    assert_eq!(rt; keys, (1, 2));
    Ok(())
}
