//! Cursors over tables in memory.

ghost use Rattle.std.specs.Prelude.{◌≡◌, ◌<◌, ◌++◌, ◌∷◌, [], List, true, IsTrue, IfOk, length};
ghost use Rattle.peb_base.specs.EntryRefs.{entry_of};
ghost use Rattle.peb_base.specs.Entries.{IsEntry, AreSorted, comes_before};
ghost use Rattle.peb_base.specs.declared.entry.Entry.{Entry};
ghost use Rattle.table_file.specs.Writing.{HasPushed};

use crate::TableCursor;
use block_pool::Pool;
use disk_model::{Devices, FailPlan, Maker, MemDevices, Plans, Port};
use peb_base::{
    ChangeRef, Cursor, EntryRef, Key, Number, Options, Profile, ReadFault, TableRow, Value,
    is_before,
};
use std::alloc::Global;
use std::sync::Arc;
use std::test::Fail;
use table_file::{PutFault, Table, TableWriter};

/// The number 1.1, of a table and of an entry.
pub const ONE: u64 = 1_099_511_627_777;

/// Table 1.1 with the put of `1` to `a`, numbered 1.1.
pub const TABLE: [u8; 111] = [
    0, 0, 0, 0, 1, 0, 0, 1, 0, 0, 0, 0, 1, 1, 0, 0, 0, 1, b'a', b'1', 0, 0, 0, 1, 0, 0, 0, 1, 0, 0,
    0, 1, 0, 0, 0, 0, 0, 0, 0, 0, 0, 0, 0, 28, 0, 1, b'a', 0, 0, 1, 0, 0, 0, 0, 1, 0, 0, 0, 0, 0,
    0, 248, 1, 0, 0, 1, 0, 0, 0, 0, 1, 0, 0, 0, 0, 0, 0, 0, 28, 0, 0, 0, 27, 0, 0, 0, 0, 0, 0, 0,
    55, 0, 0, 0, 8, 0, 0, 0, 0, 0, 0, 0, 1, b'F', b'L', b'S', b'M', b'T', b'A', b'B', b'1',
];

/// The first byte of the key at which the cursor stands, and the place of its block.
fn stands<P: Port>(cursor: &TableCursor<P>) -> Option<(u8, u64)> {
    let at = cursor.at()?;
    let key = at.key.first()?;
    Some((*key, cursor.place()?))
}

/// Pushes a put where it comes after this key and number, and tells whether it did.
fn push_behind<M: Maker>(
    writer: &mut TableWriter,
    maker: &mut M,
    before: (&[u8], u64),
    entry: EntryRef<'_>,
) -> Result<bool, PutFault>
    requires pushed { (es : List Entry)
        × HasPushed M.File.tells (M.begun maker.old) (M.written maker.old) writer.old es
        × ((e : Entry) → IsEntry e → comes_before before.0.now before.1 e.key e.number ≡ true →
        AreSorted (es ++ e ∷ [])) }
    requires entry { IsEntry (entry_of entry) }
    ensures { IfOk result (λ is_pushed. IsTrue is_pushed → (es : List Entry)
        × HasPushed M.File.tells (M.begun maker.new) (M.written maker.new) writer.new es
        × (0 < length es) × ((e : Entry) → IsEntry e →
        comes_before entry.entry.key.now entry.entry.number e.key e.number ≡ true →
        AreSorted (es ++ e ∷ []))) }
{
    if !is_before(before.0, before.1, entry.key, entry.number) {
        return Ok(false);
    }
    writer.push(maker, entry)?;
    Ok(true)
}

/// Writes the table 1.1 of puts of one value to keys and numbers that ascend in entry order, or None.
fn write<M: Maker>(
    alloc: Global,
    profile: Profile,
    maker: &mut M,
    entries: &[(Key, Number)],
    value: &Value,
) -> Result<Option<Table<M::File>>, PutFault> {
    let options = Options::of(profile);
    let mut writer = TableWriter::new(alloc, &options).map_err(|_| PutFault::Memory)?;
    writer.start(maker, ONE, 2)?;
    let mut before: &[u8] = &[];
    let mut above = 0;
    for (key, number) in entries {
        let entry = EntryRef::new(key.bytes(), *number, ChangeRef::Put(value.bytes()));
        if !push_behind(&mut writer, maker, (before, above), entry)? {
            return Ok(None);
        }
        before = key.bytes();
        above = number.packed();
    }
    if entries.is_empty() {
        return Ok(None);
    }
    Ok(Some(writer.finish(maker)?))
}

fn tour<P: Port>(
    alloc: Global,
    cursor: &mut TableCursor<P>,
) -> Result<Vec<Option<(u8, u64)>>, Fail> {
    let mut trail = Vec::new(alloc);
    cursor.seek(b"b", Number::new(0, 0))?;
    trail.push(stands(cursor))?;
    cursor.next()?;
    trail.push(stands(cursor))?;
    cursor.last()?;
    trail.push(stands(cursor))?;
    cursor.prev()?;
    trail.push(stands(cursor))?;
    cursor.prev()?;
    trail.push(stands(cursor))?;
    cursor.first()?;
    trail.push(stands(cursor))?;
    cursor.next()?;
    trail.push(stands(cursor))?;
    cursor.seek(b"a", Number::new(1, 1))?;
    trail.push(stands(cursor))?;
    cursor.seek(b"q", Number::new(0, 0))?;
    trail.push(stands(cursor))?;
    Ok(trail)
}

/// Keys and numbers of session 1.
fn named(alloc: Global, entries: &[(&[u8], u64)]) -> Result<Vec<(Key, Number)>, Fail> {
    let mut named = Vec::new(alloc);
    for (key, count) in entries {
        named.push((Key::new(alloc, key)?, Number::new(1, *count % 1000)))?;
    }
    Ok(named)
}

/// The length of the table of these puts of one byte.
fn written(alloc: Global, entries: &[(&[u8], u64)]) -> Result<Option<u64>, Fail> {
    let entries = named(alloc, entries)?;
    let value = Value::new(alloc, b"1")?;
    let mut devices = MemDevices::new(alloc, Plans::empty(alloc))?;
    let mut maker = devices.maker()?;
    let made = write(alloc, Profile::Small, &mut maker, &entries, &value);
    devices.back_maker(maker);
    let len = devices.table_bytes(ONE).map(|bytes| bytes.len() as u64);
    Ok(made?.and_then(|table| len.filter(|len| *len == table.row().bytes)))
}

#[test]
fn tables_of_few_entries_are_as_long_as_reckoned(rt: HostRuntime) -> Result<(), Fail> {
    let alloc = rt.alloc();
    assert_eq!(rt; written(alloc, &[(b"a", 1)])?, Some(111));
    assert_eq!(rt; written(alloc, &[(b"a", 1), (b"b", 2)])?, Some(130));
    assert_eq!(rt;
        written(alloc, &[(b"a", 1), (b"b", 2), (b"c", 3)])?,
        Some(149)
    );
    assert_eq!(rt; written(alloc, &[(b"a", 2), (b"a", 1)])?, Some(129));
    assert_eq!(rt;
        written(alloc, &[(b"a", 2), (b"a", 1), (b"b", 3), (b"c", 4)])?,
        Some(167)
    );
    assert_eq!(rt; written(alloc, &[(b"b", 1), (b"a", 2)])?, None);
    Ok(())
}

#[test]
fn a_cursor_walks_two_blocks_with_a_read_for_each_seek(rt: HostRuntime) -> Result<(), Fail> {
    let alloc = rt.alloc();
    let mut plans = Plans::empty(alloc);
    // Six moves of the tour come to another block; a seventh read fails.
    plans.port.from = Some(7);
    let mut devices = MemDevices::new(alloc, plans)?;
    let entries = named(alloc, &[(b"a", 1), (b"p", 2)])?;
    // A put of 240 bytes fills a block.
    let value = Value::new(alloc, &[b'v'; 240])?;
    let mut maker = devices.maker()?;
    let made = write(alloc, Profile::Small, &mut maker, &entries, &value);
    devices.back_maker(maker);
    let table = Arc::new(alloc, made?.ok_or("no table")?)?;
    let mut pool = Pool::new(alloc, 1)?;
    let port = devices.port()?;
    let Some(loan) = pool.lend() else {
        devices.back_port(port);
        return Err(Fail::from("no loan"));
    };
    let mut cursor = TableCursor::open(table, port, loan);
    let trail = tour(alloc, &mut cursor);
    let (table, port, loan) = cursor.close();
    devices.back_port(port);
    pool.give_back(loan);
    assert_eq!(rt; table.row().entries, 2);
    let (a, p) = (Some((b'a', 0)), Some((b'p', 267)));
    assert_eq!(rt;
        trail?.as_slice(),
        [p, None, p, a, None, a, p, a, None].as_slice()
    );
    Ok(())
}

pub fn shared<P: Port>(
    alloc: Global,
    port: &mut P,
    row: TableRow,
) -> Result<Arc<Table<P::File>, Global>, Fail> {
    Ok(Arc::new(alloc, Table::open(alloc, port, row)?)?)
}

/// Opens a table by the row of the table of one put, whose largest key is this, and walks it twice.
fn walked(
    alloc: Global,
    plans: Plans,
    bytes: &[u8],
    largest: &[u8],
) -> Result<[Result<Option<(u8, u64)>, ReadFault>; 3], Fail> {
    let row = TableRow {
        number: ONE,
        level: 2,
        tier: 0,
        smallest: Key::new(alloc, b"a")?,
        largest: Key::new(alloc, largest)?,
        entries: 1,
        raw: 2,
        first: Number::new(1, 1),
        last: Number::new(1, 1),
        bytes: 111,
    };
    let devices = MemDevices::new(alloc, plans)?;
    let mut devices = devices.with_table(ONE, bytes)?;
    let mut pool = Pool::new(alloc, 1)?;
    let mut port = devices.port()?;
    let table = match shared(alloc, &mut port, row) {
        Ok(table) => table,
        Err(fail) => {
            devices.back_port(port);
            return Err(fail);
        }
    };
    let Some(loan) = pool.lend() else {
        devices.back_port(port);
        return Err(Fail::from("no loan"));
    };
    let mut cursor = TableCursor::open(table, port, loan);
    let first = cursor.first().map(|_| stands(&cursor));
    let next = cursor.next().map(|_| stands(&cursor));
    let again = cursor
        .seek(b"a", Number::new(1, 1))
        .map(|_| stands(&cursor));
    let (_, port, loan) = cursor.close();
    devices.back_port(port);
    pool.give_back(loan);
    Ok([first, next, again])
}

#[test]
fn a_block_that_disagrees_is_damaged(rt: HostRuntime) -> Result<(), Fail> {
    let alloc = rt.alloc();
    let damaged = Err(ReadFault::Damaged { table: ONE, at: 0 });
    let a = Ok(Some((b'a', 0)));
    let whole = walked(alloc, Plans::empty(alloc), &TABLE, b"a")?;
    assert_eq!(rt; whole, [a, Ok(None), a]);
    // The kind byte, a key that isn't the index item's, a number that isn't its number, the restart's place.
    for (at, value) in [(0, 1), (18, b'b'), (12, 2), (23, 2)] {
        let mut bytes = TABLE;
        *bytes.get_mut(at).ok_or("past the end")? = value;
        let told = walked(alloc, Plans::empty(alloc), &bytes, b"a")?;
        assert_eq!(rt; told, [damaged, Ok(None), damaged], "byte {at}");
    }
    let told = walked(alloc, Plans::empty(alloc), &TABLE, b"b")?;
    assert_eq!(rt; told, [damaged, Ok(None), damaged]);
    Ok(())
}

#[test]
fn a_fault_leaves_no_place_until_the_next_seek(rt: HostRuntime) -> Result<(), Fail> {
    let alloc = rt.alloc();
    let mut plans = Plans::empty(alloc);
    // Opening finds the table and reads its footer, its index and its filter.
    plans.port = FailPlan {
        calls: vec![in alloc; 5]?,
        from: None,
    };
    let told = walked(alloc, plans, &TABLE, b"a")?;
    assert_eq!(rt;
        told,
        [Err(ReadFault::Fault), Ok(None), Ok(Some((b'a', 0)))]
    );
    Ok(())
}

/// How many steps there are from the first entry to the last and back, each key behind the one before.
fn counted<P: Port>(cursor: &mut TableCursor<P>, most: u32) -> Result<(u32, u32), ReadFault> {
    let (mut on, mut back) = (0u32, 0u32);
    cursor.first()?;
    for step in 0..most {
        if cursor
            .at()
            .is_some_and(|entry| entry.key == step.to_be_bytes().as_slice())
        {
            on = on.saturating_add(1);
        }
        cursor.next()?;
    }
    if cursor.at().is_some() {
        on = 0;
    }
    cursor.last()?;
    for step in (0..most).rev() {
        if cursor
            .at()
            .is_some_and(|entry| entry.key == step.to_be_bytes().as_slice())
        {
            back = back.saturating_add(1);
        }
        cursor.prev()?;
    }
    Ok((on, back))
}

#[test]
fn a_table_of_twenty_thousand_entries_is_walked_both_ways(rt: HostRuntime) -> Result<(), Fail> {
    let alloc = rt.alloc();
    let most: u32 = 20_000;
    let mut entries = Vec::new(alloc);
    for key in 0..most {
        entries.push((Key::new(alloc, &key.to_be_bytes())?, Number::new(1, 1)))?;
    }
    let value = Value::new(alloc, &[b'v'; 1000])?;
    let mut devices = MemDevices::new(alloc, Plans::empty(alloc))?;
    let mut maker = devices.maker()?;
    let made = write(alloc, Profile::Normal, &mut maker, &entries, &value);
    devices.back_maker(maker);
    let table = Arc::new(alloc, made?.ok_or("no table")?)?;
    let mut pool = Pool::new(alloc, 1)?;
    let port = devices.port()?;
    let Some(loan) = pool.lend() else {
        devices.back_port(port);
        return Err(Fail::from("no loan"));
    };
    let mut cursor = TableCursor::open(table, port, loan);
    let told = counted(&mut cursor, most);
    let (_, port, loan) = cursor.close();
    devices.back_port(port);
    pool.give_back(loan);
    assert_eq!(rt; told?, (most, most));
    Ok(())
}

/// How many of so many numbers that fall to 1 the cursor shows on the way on, on the way back, and at
/// a seek of each.
fn found<P: Port>(cursor: &mut TableCursor<P>, most: u32) -> Result<[u32; 3], ReadFault> {
    let mut found = [0u32; 3];
    cursor.first()?;
    for above in (1..most.saturating_add(1)).rev() {
        if shows(cursor, above) {
            found[0] = found[0].saturating_add(1);
        }
        cursor.next()?;
    }
    if cursor.at().is_some() {
        found[0] = 0;
    }
    cursor.last()?;
    for above in 1..most.saturating_add(1) {
        if shows(cursor, above) {
            found[1] = found[1].saturating_add(1);
        }
        cursor.prev()?;
    }
    if cursor.at().is_some() {
        found[1] = 0;
    }
    for above in 1..most.saturating_add(1) {
        cursor.seek(b"k", numbered(above))?;
        if shows(cursor, above) {
            found[2] = found[2].saturating_add(1);
        }
    }
    Ok(found)
}

fn numbered(count: u32) -> Number {
    Number::new(1, (count % 1000) as u64)
}

fn shows<P: Port>(cursor: &TableCursor<P>, count: u32) -> bool {
    cursor
        .at()
        .is_some_and(|entry| entry.number() == numbered(count))
}

/// The number of blocks of a table of one key of one byte whose numbers fall to 1, with values of one
/// byte, and what is found there.
fn fallen(alloc: Global, profile: Profile, most: u32) -> Result<(usize, [u32; 3]), Fail> {
    let mut entries = Vec::new(alloc);
    for count in (1..most.saturating_add(1)).rev() {
        entries.push((Key::new(alloc, b"k")?, numbered(count)))?;
    }
    let value = Value::new(alloc, b"v")?;
    let mut devices = MemDevices::new(alloc, Plans::empty(alloc))?;
    let mut maker = devices.maker()?;
    let made = write(alloc, profile, &mut maker, &entries, &value);
    devices.back_maker(maker);
    let table = Arc::new(alloc, made?.ok_or("no table")?)?;
    let mut pool = Pool::new(alloc, 1)?;
    let port = devices.port()?;
    let Some(loan) = pool.lend() else {
        devices.back_port(port);
        return Err(Fail::from("no loan"));
    };
    let blocks = table.blocks();
    let mut cursor = TableCursor::open(table, port, loan);
    let told = found(&mut cursor, most);
    let (_, port, loan) = cursor.close();
    devices.back_port(port);
    pool.give_back(loan);
    Ok((blocks, told?))
}

#[test]
fn blocks_of_1_to_224_entries_are_walked_and_sought(rt: HostRuntime) -> Result<(), Fail> {
    let alloc = rt.alloc();
    for (profile, most, blocks) in [
        (Profile::Normal, 1, 1),
        (Profile::Normal, 16, 1),
        (Profile::Normal, 17, 1),
        (Profile::Normal, 224, 1),
        (Profile::Normal, 225, 2),
        (Profile::Normal, 449, 3),
        (Profile::Small, 14, 1),
        (Profile::Small, 15, 2),
    ] {
        let told = fallen(alloc, profile, most)?;
        assert_eq!(rt; told, (blocks, [most; 3]), "{most} entries");
    }
    Ok(())
}
