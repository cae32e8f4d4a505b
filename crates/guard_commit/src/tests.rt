//! Cuts against values from outside.

ghost use Rattle.std.specs.Prelude.{◌≡◌, ◌<◌, ◌^◌, [], IfOk, map};
ghost use Rattle.std.specs.Arc.{arc_value};
ghost use Rattle.guard_commit.specs.Cutting.{rows_of};

use crate::run_cut;
use block_pool::Pool;
use compactor::run_flush;
use disk_model::{Devices, Maker, MemDevices, Plans, Port, TableHandle};
use flsm_model::{Job, JobKind, ShortCause};
use mem_table::{MemTable, MemView};
use peb_base::{Batch, Key, List, Memory, Number, Options, Profile};
use std::alloc::Global;
use std::sync::Arc;
use std::test::Fail;
use table_file::{Finished, Short, Table};

/// The number 1.1, of a table and of an entry.
const ONE: u64 = 1_099_511_627_777;

/// The first number of the job, behind those of its tables.
const FIRST: u64 = 1_099_511_627_787;

/// Puts of `1` to two keys.
fn batch_of(alloc: Global, keys: [&[u8]; 2]) -> Result<Batch, Memory> {
    let mut batch = Batch::new(alloc);
    for key in keys {
        batch.put(key, b"1").map_err(|_| Memory)?;
    }
    Ok(batch)
}

/// A view of a memtable with puts of `1` to two keys, numbered from 1.1 on.
fn view_of(alloc: Global, keys: [&[u8]; 2]) -> Result<MemView, Memory> {
    let batch = batch_of(alloc, keys)?;
    if batch.ops().len() > Batch::MOST_OPS {
        return Err(Memory);
    }
    let mut table = MemTable::new(alloc);
    table.insert(&batch, Number::new(1, 1))?;
    table.snapshot()
}

/// A job without inputs and keys.
fn job_of(alloc: Global, kind: JobKind, numbers: u64) -> Job
    ensures kind { result.kind ≡ kind }
    ensures inputs { result.inputs ≡ [] }
    ensures keys { result.keys ≡ [] }
    ensures numbers { result.numbers ≡ numbers }
{
    Job {
        kind,
        level: 1,
        lo: List::of(Vec::new(alloc)),
        hi: None,
        inputs: List::of(Vec::new(alloc)),
        keys: List::of(Vec::new(alloc)),
        numbers,
        floor: Number::new(1, 1),
        whole: false,
    }
}

/// The table of this number with puts of `1` to two keys.
fn flushed<M: Maker>(
    alloc: Global,
    maker: &mut M,
    number: u64,
    keys: [&[u8]; 2],
) -> Result<Vec<Arc<Table<M::File>, Global>>, Short> {
    let none = Short {
        cause: ShortCause::Memory,
        bytes: 0,
    };
    let Ok(view) = view_of(alloc, keys) else {
        return Err(none);
    };
    if view.is_empty() {
        return Err(none);
    }
    let job = job_of(alloc, JobKind::Flush, number);
    let finished = run_flush(alloc, &job, &view, maker, &Options::of(Profile::Small))?;
    Ok(finished.tables)
}

/// Tables 1.1 with `a` and `p`, and 1.2 with `b` and `q`.
fn two_tables<M: Maker>(
    alloc: Global,
    maker: &mut M,
) -> Result<Vec<Arc<Table<M::File>, Global>>, Short> {
    let mut tables = flushed(alloc, maker, ONE, [b"a", b"p"])?;
    for table in flushed(alloc, maker, ONE + 1, [b"b", b"q"])? {
        if tables.push(table).is_err() {
            return Err(Short {
                cause: ShortCause::Memory,
                bytes: 0,
            });
        }
    }
    Ok(tables)
}

/// The numbers of tables.
fn numbers_of<F: TableHandle>(
    alloc: Global,
    tables: &[Arc<Table<F>, Global>],
) -> Result<Vec<u64>, Memory>
    ensures { IfOk result (λ numbers. numbers.items
        ≡ map (λ row. row.number) (rows_of (map arc_value tables.now))) }
{
    let mut numbers = Vec::new(alloc);
    for table in tables {
        numbers.push(table.row().number)?;
    }
    Ok(numbers)
}

/// Cuts two tables of level 1, at most, at `g`.
fn cut_at_g<P: Port, M: Maker<File = P::File>>(
    alloc: Global,
    tables: &[Arc<Table<P::File>, Global>],
    port: &mut P,
    pool: &mut Pool,
    maker: &mut M,
) -> Result<Finished<P::File>, Short> {
    let none = Short {
        cause: ShortCause::Memory,
        bytes: 0,
    };
    if tables.len() > 2 {
        return Err(none);
    }
    let Ok(inputs) = numbers_of(alloc, tables) else {
        return Err(none);
    };
    let Ok(g) = Key::new(alloc, b"g") else {
        return Err(none);
    };
    let Ok(keys) = Vec::from_array(alloc, [g]) else {
        return Err(none);
    };
    let job = Job {
        inputs: List::of(inputs),
        keys: List::of(keys),
        ..job_of(alloc, JobKind::Cut, FIRST)
    };
    let options = Options::of(Profile::Small);
    run_cut(alloc, &job, tables, port, pool, maker, &options)
}

/// What is told of a Cut: the number and the smallest key of each new table, and the bytes; or the
/// cause of its end, and the bytes.
type CutTold = Result<(Vec<(u64, u8)>, u64), Short>;

/// What is told of what a Cut has made.
fn told_of<F: TableHandle>(
    alloc: Global,
    made: &Result<Finished<F>, Short>,
) -> Result<CutTold, Memory> {
    let finished = match made {
        Ok(finished) => finished,
        Err(short) => return Ok(Err(*short)),
    };
    let mut rows = Vec::new(alloc);
    for table in &finished.tables {
        let row = table.row();
        let first = row.smallest.bytes().first().copied();
        rows.push((row.number, first.unwrap_or(0)))?;
    }
    Ok(Ok((rows, finished.bytes)))
}

/// What is told of a Cut of the two tables at `g`, where the read and the write of these numbers fail;
/// 0 for none.
fn cut_failing(alloc: Global, read: u64, write: u64) -> Result<CutTold, Fail>
    requires { write < 2 ^ 32 }
{
    let mut plans = Plans::empty(alloc);
    plans.port.calls.push(read)?;
    if write > 0 {
        // Twelve calls write the two tables.
        plans.maker.calls.push(12 + write)?;
    }
    let mut devices = MemDevices::new(alloc, plans)?;
    let mut maker = devices.maker()?;
    let tables = two_tables(alloc, &mut maker);
    devices.back_maker(maker);
    let Ok(tables) = tables else {
        return Err("no tables".into());
    };
    let mut pool = Pool::new(alloc, 0)?;
    let mut port = devices.port()?;
    let mut maker = match devices.maker() {
        Ok(maker) => maker,
        Err(fault) => {
            devices.back_port(port);
            return Err(fault.into());
        }
    };
    let made = cut_at_g(alloc, &tables, &mut port, &mut pool, &mut maker);
    devices.back_port(port);
    devices.back_maker(maker);
    Ok(told_of(alloc, &made)?)
}

/// The bytes of a Cut that ends by a fault.
fn bytes_at(alloc: Global, read: u64, write: u64) -> Result<Option<u64>, Fail>
    requires { write < 2 ^ 32 }
{
    let Err(short) = cut_failing(alloc, read, write)? else {
        return Ok(None);
    };
    if short.cause != ShortCause::Fault {
        return Err("another cause".into());
    }
    Ok(Some(short.bytes))
}

#[test]
fn two_tables_are_cut_into_four(rt: HostRuntime) -> Result<(), Fail> {
    let Ok((rows, bytes)) = cut_failing(rt.alloc(), 0, 0)? else {
        return Err("cut short".into());
    };
    let want = [
        (FIRST, b'a'),
        (FIRST + 1, b'p'),
        (FIRST + 2, b'b'),
        (FIRST + 3, b'q'),
    ];
    assert_eq!(rt; rows.as_slice(), want.as_slice());
    assert_eq!(rt; bytes, 444);
    Ok(())
}

#[test]
fn a_cut_whose_writes_fail_reports_what_was_taken(rt: HostRuntime) -> Result<(), Fail> {
    let alloc = rt.alloc();
    for table in 0..4 {
        // Begin, the block, the index, the filter, the footer, seal.
        for (call, taken) in [(1, 0), (2, 0), (3, 28), (4, 55), (5, 63), (6, 111)] {
            let bytes = bytes_at(alloc, 0, 6 * table + call)?;
            assert_eq!(rt;
                bytes,
                Some(111 * table + taken),
                "table {table}, call {call}"
            );
        }
    }
    assert_eq!(rt; bytes_at(alloc, 0, 25)?, None);
    Ok(())
}

#[test]
fn a_cut_whose_reads_fail_reports_what_was_taken(rt: HostRuntime) -> Result<(), Fail> {
    let alloc = rt.alloc();
    // Each table has one block.
    assert_eq!(rt; bytes_at(alloc, 1, 0)?, Some(0));
    assert_eq!(rt; bytes_at(alloc, 2, 0)?, Some(222));
    assert_eq!(rt; bytes_at(alloc, 3, 0)?, None);
    Ok(())
}
