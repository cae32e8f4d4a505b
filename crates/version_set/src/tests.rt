//! Version sets beside the plain program of a record's shape, and held numbers.

ghost use Rattle.std.specs.Prelude.{◌≡◌, ◌<◌, [], map, IfOk, IsTrue, OnOk};
ghost use Rattle.std.specs.Arc.{arc_value};
ghost use Rattle.std.specs.List.{AllByRecursion};
ghost use Rattle.peb_base.specs.Guards.{Ascend, guard_of};
ghost use Rattle.peb_base.specs.Profiles.{column};
ghost use Rattle.flsm_model.specs.Fields.{fields_of};
ghost use Rattle.flsm_model.specs.Fits.{IsShapeOf};
ghost use Rattle.flsm_model.specs.Shape.{Record, outputs_of};
ghost use Rattle.version_set.specs.Shapes.{HasPlace, IsVersionOf};
ghost use Rattle.version_set.specs.declared.tests.Bare.{Bare};

use crate::VersionSet;
use flsm_model::{Chosen, Edit, Shape, law_shape};
use peb_base::{HasRow, Key, List, Number, Options, Profile, TableRow, is_below};
use std::alloc::Global;
use std::process::Abort;
use std::slice;
use std::sync::Arc;
use std::test::Fail;
use version::Version;

/// A table that is its row alone.
#[derive(Drop)]
struct Bare {
    row: TableRow,
}

impl HasRow for Bare {
    ghost the_row = { λ table. table.row };

    ghost holds = { λ table es. ⊥ };

    fn row(&self) -> &TableRow {
        &self.row
    }

    ghost agrees = { λ table es h. absurd h };
}

/// A handle to a table.
type Handle = Arc<Bare, Global>;

/// The count of the first table's number in session 1.
const FIRST: u64 = 1_099_511_627_777;

/// The row of a table of this number at a level, from one key to another.
fn row(
    alloc: Global,
    count: u64,
    level: u8,
    smallest: &[u8],
    largest: &[u8],
) -> Result<TableRow, Fail>
    requires { count < 1000 }
{
    Ok(TableRow {
        number: FIRST + count,
        level,
        tier: 0,
        smallest: Key::new(alloc, smallest)?,
        largest: Key::new(alloc, largest)?,
        entries: 2,
        raw: 4,
        first: Number::new(1, 1),
        last: Number::new(1, 2),
        bytes: 130,
    })
}

/// The rows of the tables that an edit adds.
fn outputs(edit: &Edit) -> &[TableRow]
    ensures { result.now ≡ outputs_of edit.now }
{
    match edit {
        Edit::Open { .. } => &[],
        Edit::Flush { row, .. } => slice::from_ref(row),
        Edit::Move { outputs, .. } => outputs.items(),
        Edit::Cut { outputs, .. } => outputs.items(),
        Edit::Merge { outputs, .. } => outputs.items(),
    }
}

/// Tables of these rows.
fn tables(alloc: Global, rows: &[TableRow]) -> Result<Vec<Handle>, Fail>
    ensures { IfOk result (λ tables. map (λ t. (arc_value {X = Bare} t).row) tables.items ≡ rows.now) }
{
    let mut tables = Vec::new(alloc);
    for row in rows {
        let row = row.copy(alloc)?;
        tables.push(Arc::new(alloc, Bare { row })?)?;
    }
    Ok(tables)
}

/// Makes an edit of shape and set alike, having seen that it fits, and gives the tables that go.
fn make(
    rt: &impl Abort,
    alloc: Global,
    shape: &mut Shape,
    set: &mut VersionSet<Handle>,
    edit: &Edit,
) -> Result<Vec<Handle>, Fail>
    requires legal { (r : Record) × IsShapeOf (column shape.old.options.profile)
        (fields_of shape.old) r }
    requires stands { IsVersionOf (λ t. (arc_value {X = Bare} t).row) set.old.current (fields_of shape.old) }
    ensures legal { OnOk result ((r : Record) × IsShapeOf (column shape.new.options.profile)
        (fields_of shape.new) r) }
    ensures stands { OnOk result (IsVersionOf (λ t. (arc_value {X = Bare} t).row) set.new.current
        (fields_of shape.new)) }
{
    // The shape of a legal record is sound.
    law_shape();
    let added = tables(alloc, outputs(edit))?;
    let fits = shape.add(edit)?;
    assert!(rt; fits);
    match set.apply(edit, added) {
        Ok(gone) => Ok(gone),
        Err(_) => Err("no memory")?,
    }
}

/// Keys of one byte each.
fn keys(alloc: Global, bytes: &[u8]) -> Result<List<Key>, Fail> {
    let mut keys = Vec::new(alloc);
    for byte in bytes {
        keys.push(Key::new(alloc, slice::from_ref(byte))?)?;
    }
    Ok(List::of(keys))
}

/// The edit that flushes a table of these keys, of which `c`, `g` and `o` are the first candidates
/// of their levels.
fn flush(alloc: Global, smallest: &[u8], largest: &[u8]) -> Result<Edit, Fail> {
    let mut chosen = Vec::new(alloc);
    for (key, level) in [(b'c', 3u8), (b'g', 2), (b'o', 1)] {
        chosen.push(Chosen {
            key: Key::new(alloc, slice::from_ref(&key))?,
            level,
        })?;
    }
    Ok(Edit::Flush {
        row: row(alloc, 0, 0, smallest, largest)?,
        from: Number::new(0, 0),
        to: Number::new(1, 2),
        log: 2,
        chosen: List::of(chosen),
    })
}

/// The Move of a table from a level, which gives these tables.
fn move_of(alloc: Global, level: u8, count: u64, outputs: Vec<TableRow>) -> Result<Edit, Fail>
    requires { count < 1000 }
{
    Ok(Edit::Move {
        level,
        floor: Number::new(1, 2),
        inputs: List::of(vec![in alloc; FIRST + count]?),
        outputs: List::of(outputs),
    })
}

/// The Cut of a level at keys of one byte each, which splits no table.
fn cut_of(alloc: Global, level: u8, bytes: &[u8]) -> Result<Edit, Fail> {
    Ok(Edit::Cut {
        level,
        keys: keys(alloc, bytes)?,
        inputs: List::of(Vec::new(alloc)),
        outputs: List::of(Vec::new(alloc)),
    })
}

/// The count of the only table in which the key may lie at this level, or 1000.
fn only(rt: &impl Abort, version: &Version<Handle>, level: u8, key: &[u8]) -> u64 {
    assert!(rt; level <= version.last_level());
    match version.looks(level, key) {
        [table] => table.row().number.saturating_sub(FIRST),
        _ => 1000,
    }
}

/// How many guard keys the level has.
fn guards(rt: &impl Abort, version: &Version<Handle>, level: u8) -> usize {
    assert!(rt; 1 <= level && level <= version.last_level());
    version.level(level).keys().len()
}

/// How many of the tables are led to by another handle too.
fn held_elsewhere(tables: &mut [Handle]) -> usize {
    let mut held = 0usize;
    for table in tables {
        if Arc::get_mut(table).is_none() {
            held = held.saturating_add(1);
        }
    }
    held
}

#[test]
fn a_table_that_went_is_held_by_earlier_versions_alone(rt: HostRuntime) -> Result<(), Fail> {
    let alloc = rt.alloc();
    let options = Options::of(Profile::Small);
    let mut shape = Shape::new(alloc, &options)?;
    let mut set = VersionSet::new(alloc, &options)?;
    let open = Edit::Open { session: 1, log: 1 };
    make(&rt, alloc, &mut shape, &mut set, &open)?;
    make(&rt, alloc, &mut shape, &mut set, &flush(alloc, b"o", b"z")?)?;
    let earlier = set.current()?;
    let first = move_of(alloc, 0, 0, vec![in alloc; row(alloc, 1, 1, b"o", b"z")?]?)?;
    let mut gone = make(&rt, alloc, &mut shape, &mut set, &first)?;
    assert_eq!(rt; (gone.len(), held_elsewhere(&mut gone)), (1, 1));
    drop(earlier);
    assert_eq!(rt; held_elsewhere(&mut gone), 0);
    let second = move_of(alloc, 1, 1, vec![in alloc; row(alloc, 2, 2, b"o", b"z")?]?)?;
    let mut gone = make(&rt, alloc, &mut shape, &mut set, &second)?;
    assert_eq!(rt; (gone.len(), held_elsewhere(&mut gone)), (1, 0));
    Ok(())
}

#[test]
fn a_cut_without_inputs_moves_the_table_to_its_guard(rt: HostRuntime) -> Result<(), Fail> {
    let alloc = rt.alloc();
    let options = Options::of(Profile::Small);
    let mut shape = Shape::new(alloc, &options)?;
    let mut set = VersionSet::new(alloc, &options)?;
    let open = Edit::Open { session: 1, log: 1 };
    make(&rt, alloc, &mut shape, &mut set, &open)?;
    make(&rt, alloc, &mut shape, &mut set, &flush(alloc, b"o", b"z")?)?;
    let pieces = vec![in alloc; row(alloc, 1, 1, b"o", b"z")?]?;
    make(
        &rt,
        alloc,
        &mut shape,
        &mut set,
        &move_of(alloc, 0, 0, pieces)?,
    )?;
    make(&rt, alloc, &mut shape, &mut set, &cut_of(alloc, 3, b"o")?)?;
    make(&rt, alloc, &mut shape, &mut set, &cut_of(alloc, 2, b"o")?)?;
    let before = set.current()?;
    let gone = make(&rt, alloc, &mut shape, &mut set, &cut_of(alloc, 1, b"o")?)?;
    assert_eq!(rt; gone.len(), 0);
    assert_eq!(rt;
        (
            only(&rt, set.version(), 1, b"a"),
            only(&rt, set.version(), 1, b"o")
        ),
        (1000, 1)
    );
    assert_eq!(rt;
        (only(&rt, &before, 1, b"a"), guards(&rt, &before, 1)),
        (1, 0)
    );
    Ok(())
}

#[test]
fn guards_and_tables_after_each_kind_of_edit(rt: HostRuntime) -> Result<(), Fail> {
    let alloc = rt.alloc();
    let options = Options::of(Profile::Small);
    let mut shape = Shape::new(alloc, &options)?;
    let mut set = VersionSet::new(alloc, &options)?;
    let open = Edit::Open { session: 1, log: 1 };
    make(&rt, alloc, &mut shape, &mut set, &open)?;
    make(&rt, alloc, &mut shape, &mut set, &flush(alloc, b"a", b"z")?)?;
    assert_eq!(rt; only(&rt, set.version(), 0, b"k"), 0);
    make(&rt, alloc, &mut shape, &mut set, &cut_of(alloc, 3, b"cgo")?)?;
    make(&rt, alloc, &mut shape, &mut set, &cut_of(alloc, 2, b"go")?)?;
    make(&rt, alloc, &mut shape, &mut set, &cut_of(alloc, 1, b"o")?)?;
    assert_eq!(rt;
        (guards(&rt, set.version(), 1), guards(&rt, set.version(), 3)),
        (1, 3)
    );
    let pieces = vec![in alloc;
        row(alloc, 1, 1, b"a", b"n")?,
        row(alloc, 2, 1, b"o", b"z")?,
    ]?;
    let gone = make(
        &rt,
        alloc,
        &mut shape,
        &mut set,
        &move_of(alloc, 0, 0, pieces)?,
    )?;
    assert_eq!(rt; (gone.len(), only(&rt, set.version(), 0, b"k")), (1, 1000));
    assert_eq!(rt;
        (
            only(&rt, set.version(), 1, b"k"),
            only(&rt, set.version(), 1, b"p")
        ),
        (1, 2)
    );
    let pieces = vec![in alloc; row(alloc, 3, 2, b"o", b"z")?]?;
    make(
        &rt,
        alloc,
        &mut shape,
        &mut set,
        &move_of(alloc, 1, 2, pieces)?,
    )?;
    assert_eq!(rt;
        (
            only(&rt, set.version(), 1, b"p"),
            only(&rt, set.version(), 2, b"p")
        ),
        (1000, 3)
    );
    let pieces = vec![in alloc; row(alloc, 4, 3, b"o", b"z")?]?;
    make(
        &rt,
        alloc,
        &mut shape,
        &mut set,
        &move_of(alloc, 2, 3, pieces)?,
    )?;
    let merge = Edit::Merge {
        floor: Number::new(1, 2),
        whole: true,
        inputs: List::of(vec![in alloc; FIRST + 4]?),
        outputs: List::of(vec![in alloc; row(alloc, 5, 3, b"o", b"y")?]?),
    };
    let gone = make(&rt, alloc, &mut shape, &mut set, &merge)?;
    assert_eq!(rt;
        (
            gone.len(),
            only(&rt, set.version(), 3, b"p"),
            only(&rt, set.version(), 3, b"g")
        ),
        (1, 5, 1000)
    );
    Ok(())
}

#[test]
fn a_cut_puts_pieces_in_place_of_the_table_that_its_key_splits(
    rt: HostRuntime,
) -> Result<(), Fail> {
    let alloc = rt.alloc();
    let options = Options::of(Profile::Small);
    let mut shape = Shape::new(alloc, &options)?;
    let mut set = VersionSet::new(alloc, &options)?;
    let open = Edit::Open { session: 1, log: 1 };
    make(&rt, alloc, &mut shape, &mut set, &open)?;
    make(&rt, alloc, &mut shape, &mut set, &flush(alloc, b"a", b"z")?)?;
    let whole = move_of(alloc, 0, 0, vec![in alloc; row(alloc, 1, 1, b"a", b"z")?]?)?;
    make(&rt, alloc, &mut shape, &mut set, &whole)?;
    make(&rt, alloc, &mut shape, &mut set, &cut_of(alloc, 3, b"o")?)?;
    make(&rt, alloc, &mut shape, &mut set, &cut_of(alloc, 2, b"o")?)?;
    let cut = Edit::Cut {
        level: 1,
        keys: keys(alloc, b"o")?,
        inputs: List::of(vec![in alloc; FIRST + 1]?),
        outputs: List::of(vec![in alloc;
            row(alloc, 2, 1, b"a", b"n")?,
            row(alloc, 3, 1, b"o", b"z")?,
        ]?),
    };
    let gone = make(&rt, alloc, &mut shape, &mut set, &cut)?;
    assert_eq!(rt; gone.len(), 1);
    assert_eq!(rt; gone[0].row().number, FIRST + 1);
    assert_eq!(rt;
        (
            only(&rt, set.version(), 1, b"k"),
            only(&rt, set.version(), 1, b"p")
        ),
        (2, 3)
    );
    Ok(())
}

/// Stages an edit, having seen that it fits, and takes its tables back; then stages it with others and
/// swaps it in: how many tables came back, those of level 0 in between, and how many went.
fn stage_twice(
    rt: &impl Abort,
    alloc: Global,
    shape: &mut Shape,
    set: &mut VersionSet<Handle>,
    edit: &Edit,
) -> Result<(usize, usize, usize), Fail>
    requires legal { (r : Record) × IsShapeOf (column shape.old.options.profile)
        (fields_of shape.old) r }
    requires stands { IsVersionOf (λ t. (arc_value {X = Bare} t).row) set.old.current (fields_of shape.old) }
{
    // The shape of a legal record is sound.
    law_shape();
    let added = tables(alloc, outputs(edit))?;
    let others = tables(alloc, outputs(edit))?;
    let fits = shape.add(edit)?;
    assert!(rt; fits);
    let staged = match set.stage(edit, added) {
        Ok(staged) => staged,
        Err(_) => Err("no memory")?,
    };
    let given = staged.back().len();
    let between = set.version().top().len();
    let staged = match set.stage(edit, others) {
        Ok(staged) => staged,
        Err(_) => Err("no memory")?,
    };
    let gone = set.swap(staged);
    Ok((given, between, gone.len()))
}

#[test]
fn a_staged_move_changes_nothing_until_it_is_swapped_in(rt: HostRuntime) -> Result<(), Fail> {
    let alloc = rt.alloc();
    let options = Options::of(Profile::Small);
    let mut shape = Shape::new(alloc, &options)?;
    let mut set = VersionSet::new(alloc, &options)?;
    let open = Edit::Open { session: 1, log: 1 };
    make(&rt, alloc, &mut shape, &mut set, &open)?;
    make(&rt, alloc, &mut shape, &mut set, &flush(alloc, b"a", b"z")?)?;
    let whole = move_of(alloc, 0, 0, vec![in alloc; row(alloc, 1, 1, b"a", b"z")?]?)?;
    let counts = stage_twice(&rt, alloc, &mut shape, &mut set, &whole)?;
    assert_eq!(rt; counts, (1, 1, 1));
    assert_eq!(rt;
        (
            only(&rt, set.version(), 0, b"k"),
            only(&rt, set.version(), 1, b"k")
        ),
        (1000, 1)
    );
    Ok(())
}

/// Whether the keys ascend strictly, all above the first one.
fn ascends(low: &[u8], keys: &[Key]) -> bool
    ensures { IsTrue result → Ascend low.now keys.now }
{
    match keys {
        [] => true,
        [key, rest @ ..] => is_below(low, key.bytes()) && ascends(key.bytes(), rest),
    }
}

/// Whether the guard keys of each level ascend strictly.
fn all_ascend(guards: &[List<Key>]) -> bool
    ensures { IsTrue result → AllByRecursion (Ascend []) guards.now }
{
    match guards {
        [] => true,
        [keys, rest @ ..] => ascends(&[], keys.items()) && all_ascend(rest),
    }
}

/// Whether the row's ends belong to one of the guards.
fn ends_meet(keys: &[Key], row: &TableRow) -> bool
    ensures { IsTrue result
        → guard_of row.now.smallest keys.now ≡ guard_of row.now.largest keys.now }
{
    match keys {
        [] => true,
        [key, rest @ ..] => {
            let begins = is_below(row.smallest.bytes(), key.bytes());
            let ends = is_below(row.largest.bytes(), key.bytes());
            begins == ends && (begins || ends_meet(rest, row))
        }
    }
}

/// Whether a table with the row has its place.
fn has_place(guards: &[List<Key>], row: &TableRow) -> bool
    ensures { IsTrue result → HasPlace guards.now row.now }
{
    let level = row.level as usize;
    if level == 0 {
        return true;
    }
    if level > guards.len() || is_below(row.largest.bytes(), row.smallest.bytes()) {
        return false;
    }
    ends_meet(guards[level - 1].items(), row)
}

/// Whether each table has its place.
fn have_places(guards: &[List<Key>], tables: &[Handle]) -> bool
    ensures { IsTrue result
        → AllByRecursion (λ t. HasPlace guards.now (arc_value {X = Bare} t).row) tables.now }
{
    match tables {
        [] => true,
        [table, rest @ ..] => has_place(guards, table.row()) && have_places(guards, rest),
    }
}

/// The set of the guards `o`, `g` and `o`, and `c`, `g` and `o`, two tables of level 0, one on each side of
/// the guard of level 1, and one of the guard `c` of level 3.
fn set_of_parts(rt: &impl Abort, alloc: Global) -> Result<VersionSet<Handle>, Fail> {
    let guards = vec![in alloc;
        keys(alloc, b"o")?,
        keys(alloc, b"go")?,
        keys(alloc, b"cgo")?,
    ]?;
    let rows = vec![in alloc;
        row(alloc, 1, 1, b"o", b"z")?,
        row(alloc, 2, 0, b"b", b"y")?,
        row(alloc, 3, 3, b"c", b"f")?,
        row(alloc, 4, 1, b"a", b"n")?,
        row(alloc, 5, 0, b"a", b"z")?,
    ]?;
    let tables = tables(alloc, &rows)?;
    assert!(rt; guards.len() < 256);
    assert!(rt; all_ascend(&guards));
    assert!(rt; have_places(&guards, &tables));
    Ok(VersionSet::of_parts(alloc, &guards, &tables)?)
}

#[test]
fn a_set_of_parts_has_its_tables_in_their_places(rt: HostRuntime) -> Result<(), Fail> {
    let set = set_of_parts(&rt, rt.alloc())?;
    let version = set.version();
    assert_eq!(rt; version.last_level(), 3);
    assert_eq!(rt;
        (
            guards(&rt, version, 1),
            guards(&rt, version, 2),
            guards(&rt, version, 3)
        ),
        (1, 2, 3)
    );
    assert_eq!(rt; version.top().len(), 2);
    assert_eq!(rt;
        (version.top()[0].row().number, version.top()[1].row().number),
        (FIRST + 2, FIRST + 5)
    );
    assert_eq!(rt;
        (only(&rt, version, 1, b"n"), only(&rt, version, 1, b"o")),
        (4, 1)
    );
    assert_eq!(rt;
        (
            only(&rt, version, 2, b"k"),
            only(&rt, version, 3, b"b"),
            only(&rt, version, 3, b"d")
        ),
        (1000, 1000, 3)
    );
    assert!(rt; set.held().is_none());
    Ok(())
}

#[test]
fn numbers_are_held_until_they_are_released(rt: HostRuntime) -> Result<(), Fail> {
    let alloc = rt.alloc();
    let mut set: VersionSet<Handle> = VersionSet::new(alloc, &Options::of(Profile::Small))?;
    let last = Number::new(1, 9);
    assert!(rt; set.held().is_none());
    assert_eq!(rt; set.floor(last).count(), 9);
    set.hold(16, Number::new(1, 3));
    set.hold(2, Number::new(1, 5));
    set.hold(2, Number::new(1, 4));
    assert_eq!(rt; set.floor(last).count(), 3);
    assert_eq!(rt;
        set.held().map(|pair| (pair.0, pair.1.count())),
        Some((2, 4))
    );
    set.release(2, Number::new(1, 4));
    set.release(16, Number::new(1, 3));
    assert_eq!(rt; set.floor(last).count(), 5);
    assert_eq!(rt;
        set.held().map(|pair| (pair.0, pair.1.count())),
        Some((2, 5))
    );
    Ok(())
}

/// Holds numbers for a client until it can't hold another, and tells how many these are.
fn numbers_held(set: &mut VersionSet<Handle>, client: u32) -> u64 {
    for count in 0..100 {
        if !set.can_hold(client) {
            return count;
        }
        set.hold(client, Number::new(1, count + 1));
    }
    100
}

#[test]
fn each_client_holds_up_to_sixty_four_numbers(rt: HostRuntime) -> Result<(), Fail> {
    let alloc = rt.alloc();
    let mut set: VersionSet<Handle> = VersionSet::new(alloc, &Options::of(Profile::Small))?;
    assert_eq!(rt;
        (numbers_held(&mut set, 16), numbers_held(&mut set, 0)),
        (64, 64)
    );
    assert_eq!(rt; numbers_held(&mut set, 17), 0);
    set.release(16, Number::new(1, 65));
    assert_eq!(rt; (set.can_hold(16), set.can_hold(0)), (false, false));
    set.release(16, Number::new(1, 1));
    assert_eq!(rt; (set.can_hold(16), set.can_hold(0)), (true, false));
    assert_eq!(rt; set.floor(Number::new(1, 9)).count(), 1);
    set.release(0, Number::new(1, 1));
    assert_eq!(rt; set.floor(Number::new(1, 9)).count(), 2);
    Ok(())
}
