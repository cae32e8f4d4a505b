//! Tables against bytes from outside.

use crate::{PutFault, Table, TableFault, TableWriter};
use block_form::Block;
use disk_model::{Devices, Maker, MemDevices, Plans};
use peb_base::{ChangeRef, EntryRef, Key, Number, Options, Profile, TableRow};
use std::alloc::Global;
use std::test::Fail;

/// The number 1.1, of a table and of an entry.
const ONE: u64 = 1_099_511_627_777;

/// Table 1.1 with the put of `1` to `a`, numbered 1.1. The filter's bytes were reckoned apart.
const TABLE: [u8; 111] = [
    0, 0, 0, 0, 1, 0, 0, 1, 0, 0, 0, 0, 1, 1, 0, 0, 0, 1, b'a', b'1', 0, 0, 0, 1, 0, 0, 0, 1, 0, 0,
    0, 1, 0, 0, 0, 0, 0, 0, 0, 0, 0, 0, 0, 28, 0, 1, b'a', 0, 0, 1, 0, 0, 0, 0, 1, 0, 0, 0, 0, 0,
    0, 248, 1, 0, 0, 1, 0, 0, 0, 0, 1, 0, 0, 0, 0, 0, 0, 0, 28, 0, 0, 0, 27, 0, 0, 0, 0, 0, 0, 0,
    55, 0, 0, 0, 8, 0, 0, 0, 0, 0, 0, 0, 1, b'F', b'L', b'S', b'M', b'T', b'A', b'B', b'1',
];

/// Writes the table 1.1 of the put of `1` to `a`, numbered 1.1.
fn write_one<M: Maker>(alloc: Global, maker: &mut M) -> Result<Table<M::File>, PutFault> {
    let options = Options::of(Profile::Small);
    let mut writer = TableWriter::new(alloc, &options).map_err(|_| PutFault::Memory)?;
    writer.start(maker, ONE, 2)?;
    let entry = EntryRef {
        key: b"a",
        number: ONE,
        change: ChangeRef::Put(b"1"),
    };
    writer.push(maker, entry)?;
    writer.finish(maker)
}

/// Writes the table 1.1 of a put to `a` and of one to `p`.
fn write_two<M: Maker>(alloc: Global, maker: &mut M) -> Result<Table<M::File>, PutFault> {
    let options = Options::of(Profile::Small);
    let mut writer = TableWriter::new(alloc, &options).map_err(|_| PutFault::Memory)?;
    writer.start(maker, ONE, 2)?;
    let first = EntryRef {
        key: b"a",
        number: ONE,
        change: ChangeRef::Put(&[b'v'; 240]),
    };
    writer.push(maker, first)?;
    let second = EntryRef {
        key: b"p",
        number: ONE + 1,
        change: ChangeRef::Put(b"1"),
    };
    writer.push(maker, second)?;
    writer.finish(maker)
}

/// What its row tells of a table: its length, its entries, their raw length, its level, its first number.
type RowTold = (u64, u64, u64, u8, Number);

/// The bytes of the table of one put, what its row tells, whether its smallest key is `a`, and whether
/// it may hold `a` and `b`.
fn written_one(alloc: Global) -> Result<(Vec<u8>, RowTold, [bool; 3]), Fail> {
    let mut devices = MemDevices::new(alloc, Plans::empty(alloc))?;
    let mut maker = devices.maker()?;
    let made = write_one(alloc, &mut maker);
    devices.back_maker(maker);
    let table = made?;
    let bytes = Vec::from_slice(alloc, devices.table_bytes(ONE).ok_or("no table")?)?;
    let row = table.row();
    let told = (row.bytes, row.entries, row.raw, row.level, row.first);
    let is_a = row.smallest.bytes() == b"a".as_slice();
    Ok((
        bytes,
        told,
        [is_a, table.may_hold(b"a"), table.may_hold(b"b")],
    ))
}

/// What is told of the table of two puts: its bytes, how many blocks it has, the indexes of no key, of `a`
/// at its number and below, of `p` above its number and at it, and the blocks of `b` and `q`.
type TwoTold = (Vec<u8>, usize, [usize; 5], [Option<(u64, u32)>; 2]);

fn written_two(alloc: Global) -> Result<TwoTold, Fail> {
    let mut devices = MemDevices::new(alloc, Plans::empty(alloc))?;
    let mut maker = devices.maker()?;
    let made = write_two(alloc, &mut maker);
    devices.back_maker(maker);
    let table = made?;
    let bytes = Vec::from_slice(alloc, devices.table_bytes(ONE).ok_or("no table")?)?;
    let indexes = [
        table.block_index(b"", Number::new(0, 0)),
        table.block_index(b"a", Number::new(1, 1)),
        table.block_index(b"a", Number::new(1, 0)),
        table.block_index(b"p", Number::new(1, 2)),
        table.block_index(b"p", Number::new(1, 1)),
    ];
    let places = [
        table.block_of(b"b", Number::new(0, 0)),
        table.block_of(b"q", Number::new(0, 0)),
    ];
    Ok((bytes, table.blocks(), indexes, places))
}

#[test]
fn a_table_of_one_put_has_these_bytes(rt: HostRuntime) -> Result<(), Fail> {
    let (bytes, row, holds) = written_one(rt.alloc())?;
    assert_eq!(rt; bytes.as_slice(), TABLE.as_slice());
    assert_eq!(rt; row, (111, 1, 2, 2, Number::new(1, 1)));
    assert_eq!(rt; holds, [true, true, false]);
    Ok(())
}

#[test]
fn a_full_block_is_closed_and_found(rt: HostRuntime) -> Result<(), Fail> {
    let (bytes, blocks, indexes, places) = written_two(rt.alloc())?;
    assert_eq!(rt; bytes.len(), 401);
    assert_eq!(rt; blocks, 2);
    assert_eq!(rt; indexes, [0, 0, 1, 1, 2]);
    assert_eq!(rt; places, [Some((267, 28)), None]);
    assert_eq!(rt; Block::read(&bytes[267..295])?.len(), 1);
    Ok(())
}

/// What opening tells of a file.
#[derive(Clone, Copy, Debug, PartialEq, Eq)]
enum Told {
    Opened(usize),
    Damaged(u64),
    Failed,
}

/// Opens bytes by the row of the table of one put.
fn opened(alloc: Global, bytes: &[u8]) -> Result<Told, Fail> {
    let row = TableRow {
        number: ONE,
        level: 2,
        tier: 0,
        smallest: Key::new(alloc, b"a")?,
        largest: Key::new(alloc, b"a")?,
        entries: 1,
        raw: 2,
        first: Number::new(1, 1),
        last: Number::new(1, 1),
        bytes: 111,
    };
    let devices = MemDevices::new(alloc, Plans::empty(alloc))?;
    let mut devices = devices.with_table(ONE, bytes)?;
    let mut port = devices.port()?;
    let told = match Table::open(alloc, &mut port, row) {
        Ok(table) => Told::Opened(table.blocks()),
        Err(TableFault::Damaged { at, .. }) => Told::Damaged(at),
        Err(_) => Told::Failed,
    };
    devices.back_port(port);
    Ok(told)
}

#[test]
fn a_table_is_opened_where_footer_index_and_filter_agree(rt: HostRuntime) -> Result<(), Fail> {
    let alloc = rt.alloc();
    assert_eq!(rt; opened(alloc, &TABLE)?, Told::Opened(1));
    assert_eq!(rt; opened(alloc, &TABLE[..110])?, Told::Damaged(110));
    // Behind place 63 the footer ends early; before, the file ends before its footer's place.
    assert_eq!(rt; opened(alloc, &TABLE[..64])?, Told::Damaged(64));
    assert_eq!(rt; opened(alloc, &TABLE[..40])?, Told::Damaged(40));
    assert_eq!(rt; opened(alloc, &TABLE[..0])?, Told::Damaged(0));
    assert_eq!(rt; opened(alloc, &TABLE[..63])?, Told::Damaged(63));
    // A block and the filter's bits, the count of items, a place, a length, a key's length, a number;
    // then the footer's parts.
    for (at, value, want) in [
        (13, 2, Told::Opened(1)),
        (60, 1, Told::Opened(1)),
        (31, 2, Told::Damaged(28)),
        (39, 1, Told::Damaged(28)),
        (43, 27, Told::Damaged(28)),
        (45, 2, Told::Damaged(28)),
        (47, 128, Told::Damaged(28)),
        (70, 2, Told::Damaged(63)),
        (78, 27, Told::Damaged(63)),
        (82, 26, Told::Damaged(63)),
        (90, 54, Told::Damaged(63)),
        (94, 9, Told::Damaged(63)),
        (102, 2, Told::Damaged(63)),
        (110, b'2', Told::Damaged(63)),
    ] {
        let mut bytes = TABLE;
        *bytes.get_mut(at).ok_or("past the end")? = value;
        assert_eq!(rt; opened(alloc, &bytes)?, want, "byte {at}");
    }
    let mut longer = Vec::from_slice(alloc, &TABLE)?;
    longer.push(0)?;
    assert_eq!(rt; opened(alloc, &longer)?, Told::Damaged(111));
    Ok(())
}
