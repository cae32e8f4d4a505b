//! Pieces against values from outside.

ghost use Rattle.std.specs.Prelude.{◌<◌, ◌^◌, length};

use crate::{PieceWriter, PutFault, Table};
use disk_model::{Devices, Maker, MemDevices, Plans};
use peb_base::{ChangeRef, EntryRef, Key, Options, Profile};
use std::alloc::Global;
use std::sync::Arc;
use std::test::Fail;

/// The number 1.1, of a table and of an entry.
const ONE: u64 = 1_099_511_627_777;

/// Cuts `a` and `p`, and then `b` and `q`, at `g`, into tables of level 1 that are numbered from 1.1 on.
fn cut_two<M: Maker>(
    alloc: Global,
    maker: &mut M,
    keys: &[Key],
) -> Result<Vec<Arc<Table<M::File>, Global>>, PutFault>
    requires { length keys.now < 2 ^ 32 }
{
    let options = Options::of(Profile::Small);
    let mut writer = match PieceWriter::new(alloc, &options, 1) {
        Ok(writer) => writer,
        Err(_) => return Err(PutFault::Memory),
    };
    writer.begin(maker, ONE)?;
    let a = EntryRef {
        key: b"a",
        number: ONE,
        change: ChangeRef::Put(b"1"),
    };
    writer.push(maker, keys, a)?;
    let p = EntryRef {
        key: b"p",
        number: ONE,
        change: ChangeRef::Put(b"1"),
    };
    writer.push(maker, keys, p)?;
    writer.begin(maker, ONE + 2)?;
    let b = EntryRef {
        key: b"b",
        number: ONE,
        change: ChangeRef::Put(b"1"),
    };
    writer.push(maker, keys, b)?;
    let q = EntryRef {
        key: b"q",
        number: ONE,
        change: ChangeRef::Put(b"1"),
    };
    writer.push(maker, keys, q)?;
    writer.finish(maker)
}

/// The number and the smallest key of each of these tables, and the lengths of their files.
type PiecesTold = (Vec<(u64, u8)>, [usize; 4]);

/// What is told of the tables that are cut at `g`.
fn pieces_at_g(alloc: Global) -> Result<PiecesTold, Fail> {
    let mut devices = MemDevices::new(alloc, Plans::empty(alloc))?;
    let mut maker = devices.maker()?;
    let keys = [Key::new(alloc, b"g")?];
    let made = cut_two(alloc, &mut maker, &keys);
    devices.back_maker(maker);
    let mut told = Vec::new(alloc);
    for table in &made? {
        let row = table.row();
        let first = row.smallest.bytes().first().copied();
        told.push((row.number, first.unwrap_or(0)))?;
    }
    let mut lens = [0; 4];
    for (at, len) in lens.iter_mut().enumerate() {
        let bytes = devices.table_bytes(ONE + at as u64).unwrap_or(&[]);
        *len = bytes.len();
    }
    Ok((told, lens))
}

#[test]
fn two_tables_that_are_cut_at_a_key_give_four(rt: HostRuntime) -> Result<(), Fail> {
    let (told, lens) = pieces_at_g(rt.alloc())?;
    let want = [
        (ONE, b'a'),
        (ONE + 1, b'p'),
        (ONE + 2, b'b'),
        (ONE + 3, b'q'),
    ];
    assert_eq!(rt; told.as_slice(), want.as_slice());
    assert_eq!(rt; lens, [111; 4]);
    Ok(())
}
