//! Flushes against values from outside.

ghost use Rattle.std.specs.Prelude.{◌≡◌};
ghost use Rattle.flsm_model.specs.declared.job_kind.JobKind.TheVariants as kinds;

use crate::run_flush;
use disk_model::{Devices, Maker, MemDevices, MemTableFile, Plans};
use flsm_model::{Edit, Job, JobKind, ShortCause};
use mem_table::{MemTable, MemView};
use peb_base::{Batch, List, Memory, Number, Options, Profile};
use std::alloc::Global;
use std::test::Fail;
use table_file::{Finished, Short};

/// The number 1.1, of a table and of an entry.
const ONE: u64 = 1_099_511_627_777;

/// Table 1.1 with the put of `1` to `a`, numbered 1.1. The filter's bytes were reckoned apart.
const TABLE: [u8; 111] = [
    0, 0, 0, 0, 1, 0, 0, 1, 0, 0, 0, 0, 1, 1, 0, 0, 0, 1, b'a', b'1', 0, 0, 0, 1, 0, 0, 0, 1, 0, 0,
    0, 1, 0, 0, 0, 0, 0, 0, 0, 0, 0, 0, 0, 28, 0, 1, b'a', 0, 0, 1, 0, 0, 0, 0, 1, 0, 0, 0, 0, 0,
    0, 248, 1, 0, 0, 1, 0, 0, 0, 0, 1, 0, 0, 0, 0, 0, 0, 0, 28, 0, 0, 0, 27, 0, 0, 0, 0, 0, 0, 0,
    55, 0, 0, 0, 8, 0, 0, 0, 0, 0, 0, 0, 1, b'F', b'L', b'S', b'M', b'T', b'A', b'B', b'1',
];

/// A view of a memtable with this batch, whose numbers are 1.1 and on.
fn view_of(alloc: Global, batch: &Batch) -> Result<MemView, Memory> {
    let mut table = MemTable::new(alloc);
    if batch.ops().len() > Batch::MOST_OPS {
        return Err(Memory);
    }
    table.insert(batch, Number::new(1, 1))?;
    table.snapshot()
}

/// A flush into table 1.1.
fn flush(alloc: Global) -> Job
    ensures { result.kind ≡ kinds.Flush }
{
    Job {
        kind: JobKind::Flush,
        level: 0,
        lo: List::of(Vec::new(alloc)),
        hi: None,
        inputs: List::of(Vec::new(alloc)),
        keys: List::of(Vec::new(alloc)),
        numbers: ONE,
        floor: Number::new(1, 1),
        whole: false,
    }
}

/// Flushes a view, if it has an entry.
fn flushed<M: Maker>(
    alloc: Global,
    view: &MemView,
    maker: &mut M,
) -> Result<Finished<M::File>, Short> {
    if view.is_empty() {
        return Err(Short {
            cause: ShortCause::Memory,
            bytes: 0,
        });
    }
    let options = Options::of(Profile::Small);
    run_flush(alloc, &flush(alloc), view, maker, &options)
}

/// What an edit tells: the row's number, level, tier, entries and length; the first number, the
/// last and the log; and the first byte and the level of each chosen key.
type EditTold = ([u64; 5], [u64; 3], Vec<(u8, u8)>);

fn told_by(alloc: Global, edit: &Edit) -> Result<EditTold, Fail> {
    let Edit::Flush {
        row,
        from,
        to,
        log,
        chosen,
    } = edit
    else {
        return Err("no flush".into());
    };
    let mut keys = Vec::new(alloc);
    for one in chosen.items() {
        keys.push((one.key.bytes()[0], one.level))?;
    }
    let place = [u64::from(row.level), u64::from(row.tier)];
    let row = [row.number, place[0], place[1], row.entries, row.bytes];
    Ok((row, [from.packed(), to.packed(), *log], keys))
}

/// What a flush of a batch gives where the maker's call of this number fails, if it makes so many;
/// and the bytes that table 1.1 has then.
fn flushed_failing(
    alloc: Global,
    batch: &Batch,
    call: u64,
) -> Result<(Result<Finished<MemTableFile>, Short>, Vec<u8>), Fail> {
    let view = view_of(alloc, batch)?;
    let mut plans = Plans::empty(alloc);
    plans.maker.calls.push(call)?;
    let mut devices = MemDevices::new(alloc, plans)?;
    let mut maker = devices.maker()?;
    let made = flushed(alloc, &view, &mut maker);
    devices.back_maker(maker);
    let bytes = devices.table_bytes(ONE).unwrap_or(&[]).to_vec(alloc)?;
    Ok((made, bytes))
}

/// The batch that puts `1` to `a`.
fn one_put(alloc: Global) -> Result<Batch, Fail> {
    let mut batch = Batch::new(alloc);
    batch.put(b"a", b"1")?;
    Ok(batch)
}

/// What the edit of a flush of this batch tells, the reported bytes, and the table's.
fn flush_told(alloc: Global, batch: &Batch) -> Result<(EditTold, u64, Vec<u8>), Fail> {
    let (made, bytes) = flushed_failing(alloc, batch, 0)?;
    let Ok(finished) = made else {
        return Err("no flush".into());
    };
    Ok((told_by(alloc, &finished.edit)?, finished.bytes, bytes))
}

#[test]
fn a_flush_of_one_put_gives_this_table(rt: HostRuntime) -> Result<(), Fail> {
    let alloc = rt.alloc();
    let (told, taken, bytes) = flush_told(alloc, &one_put(alloc)?)?;
    assert_eq!(rt; bytes.as_slice(), TABLE.as_slice());
    assert_eq!(rt; taken, 111);
    assert_eq!(rt; told.0, [ONE, 0, 0, 1, 111]);
    assert_eq!(rt; told.1, [0, 0, 0]);
    assert!(rt; told.2.is_empty());
    Ok(())
}

#[test]
fn keys_of_puts_are_chosen_whatever_came_after(rt: HostRuntime) -> Result<(), Fail> {
    let alloc = rt.alloc();
    let mut batch = Batch::new(alloc);
    batch.put(b"o", b"1")?;
    batch.delete(b"o")?;
    batch.put(b"g", b"1")?;
    batch.put(b"a", b"1")?;
    batch.put(b"g", b"2")?;
    batch.delete(b"c")?;
    let (told, _taken, _bytes) = flush_told(alloc, &batch)?;
    assert_eq!(rt; told.0[3], 6);
    assert_eq!(rt; told.2.as_slice(), [(b'g', 2), (b'o', 1)].as_slice());
    Ok(())
}

/// How many bytes a flush reports that ends by a fault, and how many its table has then.
fn short_at(alloc: Global, call: u64) -> Result<(u64, usize), Fail> {
    let (made, bytes) = flushed_failing(alloc, &one_put(alloc)?, call)?;
    let Err(short) = made else {
        return Err("no fault".into());
    };
    if short.cause != ShortCause::Fault {
        return Err("another cause".into());
    }
    Ok((short.bytes, bytes.len()))
}

#[test]
fn a_flush_that_fails_reports_what_was_taken(rt: HostRuntime) -> Result<(), Fail> {
    let alloc = rt.alloc();
    // Begin, the block, the index, the filter, the footer, seal.
    for (call, taken) in [(1, 0), (2, 0), (3, 28), (4, 55), (5, 63), (6, 111)] {
        assert_eq!(rt; short_at(alloc, call)?, (taken, 0), "call {call}");
    }
    let (made, bytes) = flushed_failing(alloc, &one_put(alloc)?, 7)?;
    assert!(rt; made.is_ok());
    assert_eq!(rt; bytes.len(), 111);
    Ok(())
}
