//! Look-ups without a cursor, over tables in memory.

use crate::tests::{ONE, TABLE, shared};
use crate::{look_in, look_up};
use block_form::Block;
use block_pool::Pool;
use disk_model::{Devices, MemDevices, Plans};
use peb_base::{ChangeRef, EntryRef, Key, KeyBuf, Number, ReadFault, TableRow};
use std::alloc::Global;
use std::test::Fail;

/// The row of the table of one put.
fn row_of_one(alloc: Global) -> Result<TableRow, Fail> {
    Ok(TableRow {
        number: ONE,
        level: 2,
        tier: 0,
        smallest: Key::new(alloc, b"a")?,
        largest: Key::new(alloc, b"a")?,
        entries: 1,
        raw: 2,
        first: Number::new(1, 1),
        last: Number::new(1, 1),
        bytes: 111,
    })
}

/// The number and the first byte of the value of what was found.
fn told(entry: EntryRef<'_>) -> (u64, Option<u8>) {
    match entry.change {
        ChangeRef::Put(value) => (entry.number, value.first().copied()),
        ChangeRef::Delete => (entry.number, None),
    }
}

/// Looks a key up in a file that is to be the table of one put.
fn looked(
    alloc: Global,
    bytes: &[u8],
    key: &[u8],
    number: Number,
) -> Result<Result<Option<(u64, Option<u8>)>, ReadFault>, Fail> {
    let devices = MemDevices::new(alloc, Plans::empty(alloc))?;
    let mut devices = devices.with_table(ONE, bytes)?;
    let row = row_of_one(alloc)?;
    let mut pool = Pool::new(alloc, 1)?;
    let mut port = devices.port()?;
    let table = match shared(alloc, &mut port, row) {
        Ok(table) => table,
        Err(fail) => {
            devices.back_port(port);
            return Err(fail);
        }
    };
    let Some(mut loan) = pool.lend() else {
        devices.back_port(port);
        return Err(Fail::from("no loan"));
    };
    let mut room = KeyBuf::new();
    let found = match look_up(&table, &mut port, &mut loan, key, number, &mut room) {
        Ok(found) => Ok(found.map(told)),
        Err(fault) => Err(fault),
    };
    devices.back_port(port);
    pool.give_back(loan);
    Ok(found)
}

#[test]
fn an_entry_is_looked_up_by_reference(rt: HostRuntime) -> Result<(), Fail> {
    let alloc = rt.alloc();
    let one = Ok(Some((ONE, Some(b'1'))));
    assert_eq!(rt; looked(alloc, &TABLE, b"a", Number::new(1, 1))?, one);
    assert_eq!(rt; looked(alloc, &TABLE, b"a", Number::new(2, 0))?, one);
    assert_eq!(rt; looked(alloc, &TABLE, b"a", Number::new(1, 0))?, Ok(None));
    assert_eq!(rt; looked(alloc, &TABLE, b"", Number::new(2, 0))?, Ok(None));
    assert_eq!(rt; looked(alloc, &TABLE, b"b", Number::new(2, 0))?, Ok(None));
    let mut bytes = TABLE;
    bytes[18] = b'b';
    let damaged = Err(ReadFault::Damaged { table: ONE, at: 0 });
    assert_eq!(rt; looked(alloc, &bytes, b"a", Number::new(1, 1))?, damaged);
    Ok(())
}

#[test]
fn an_entry_is_looked_up_in_a_block_at_hand(rt: HostRuntime) -> Result<(), Fail> {
    let bytes = &TABLE[..28];
    let count = Block::read(bytes)?.len();
    assert_eq!(rt; count, 1);
    let mut room = KeyBuf::new();
    let found = look_in(bytes, count, b"a", Number::new(1, 2), &mut room).map(told);
    assert_eq!(rt; found, Some((ONE, Some(b'1'))));
    let older = look_in(bytes, count, b"a", Number::new(1, 0), &mut room).map(told);
    assert_eq!(rt; older, None);
    let other = look_in(bytes, count, b"b", Number::new(1, 2), &mut room).map(told);
    assert_eq!(rt; other, None);
    Ok(())
}
