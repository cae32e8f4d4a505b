//! Lengths at their limits, printed names, hashes and levels of keys, lent entries and shared tables.

use crate::{
    Batch, BatchFault, Change, ChangeRef, EntryRef, FileName, HasRow, HashKind, Key, KeyBuf,
    KeyFault, LimitKind, List, Memory, Number, Op, Options, Profile, TableLike, TableRow, Value,
    ValueFault, bits, level_of, mixed,
};
use std::sync::Arc;
use std::test::Fail;

#[test]
fn keys_have_1_to_1024_bytes(rt: HostRuntime) -> Result<(), Fail> {
    let alloc = rt.alloc();
    let long = vec![in alloc; 107; 1025]?;
    assert_eq!(rt; Key::new(alloc, b"a")?.bytes(), b"a".as_slice());
    assert_eq!(rt; Key::new(alloc, &long[..1024])?.into_bytes().len(), 1024);
    assert!(rt; matches!(Key::new(alloc, b""), Err(KeyFault::Length(0))));
    assert!(rt; matches!(Key::new(alloc, &long), Err(KeyFault::Length(1025))));
    Ok(())
}

#[test]
fn values_have_at_most_32768_bytes(rt: HostRuntime) -> Result<(), Fail> {
    let alloc = rt.alloc();
    let long = vec![in alloc; 118; 32769]?;
    assert_eq!(rt; Value::new(alloc, b"")?.bytes().len(), 0);
    assert_eq!(rt;
        Value::new(alloc, &long[..32768])?.into_bytes().len(),
        32768
    );
    assert!(rt; matches!(Value::new(alloc, &long), Err(ValueFault::Length(32769))));
    Ok(())
}

#[test]
fn a_batch_takes_1000_operations(rt: HostRuntime) -> Result<(), Fail> {
    let alloc = rt.alloc();
    let mut batch = Batch::new(alloc);
    for _ in 0..999 {
        batch.delete(b"a")?;
    }
    assert!(rt; matches!(batch.put(b"", b"1"), Err(BatchFault::KeyLength(0))));
    assert!(rt; matches!(batch.delete(b""), Err(BatchFault::KeyLength(0))));
    batch.put(b"b", b"2")?;
    assert!(rt; matches!(batch.put(b"", b"1"), Err(BatchFault::TooManyOps)));
    assert_eq!(rt; batch.ops().len(), 1000);
    let op = Op {
        key: Key::new(alloc, b"c")?,
        change: Change::Delete,
    };
    assert!(rt; matches!(batch.push(op), Err(BatchFault::TooManyOps)));
    let ops = List::of(batch.into_ops());
    let last = ops.items().last().ok_or("no operation")?;
    assert_eq!(rt; last.key.bytes(), b"b".as_slice());
    assert!(rt; matches!(&last.change, Change::Put(_)));
    assert_eq!(rt; ops.into_vec().len(), 1000);
    Ok(())
}

#[test]
fn a_number_is_a_session_and_a_count(rt: HostRuntime) -> Result<(), Fail> {
    let alloc = rt.alloc();
    let number = Number::new(3, 1);
    assert_eq!(rt; number.packed(), 3_298_534_883_329);
    assert_eq!(rt; number, Number::of_packed(3_298_534_883_329));
    assert_eq!(rt; number.session(), 3);
    assert_eq!(rt; number.count(), 1);
    assert!(rt; Number::new(2, 1_099_511_627_775) < number);
    assert_eq!(rt; number.to_string(alloc)?.as_str(), "3.1");
    assert_eq!(rt; Number::of_packed(0).to_string(alloc)?.as_str(), "0.0");
    Ok(())
}

#[test]
fn names_as_they_are_printed(rt: HostRuntime) -> Result<(), Fail> {
    let alloc = rt.alloc();
    let files = [
        (FileName::ManifestA, "manifest-a"),
        (FileName::ManifestB, "manifest-b"),
        (FileName::Log(12), "log-12"),
        (FileName::Table(1_099_511_627_777), "table-1.1"),
    ];
    for (file, text) in files {
        assert_eq!(rt; file.to_string(alloc)?.as_str(), text);
    }
    assert_eq!(rt;
        LimitKind::Snapshots.to_string(alloc)?.as_str(),
        "snapshots"
    );
    assert_eq!(rt; Profile::Small.to_string(alloc)?.as_str(), "small");
    assert_eq!(rt; Memory.to_string(alloc)?.as_str(), "out of memory");
    Ok(())
}

#[test]
fn the_two_columns_of_options(rt: HostRuntime) -> Result<(), Fail> {
    let normal = Options::of(Profile::Normal);
    assert_eq!(rt;
        (normal.last_level, normal.top_bits, normal.decrement),
        (5, 16, 2)
    );
    assert_eq!(rt; (normal.guard_tables, normal.zero_tables), (4, 4));
    assert_eq!(rt; (normal.mem_limit, normal.block_bytes), (4_194_304, 4096));
    assert_eq!(rt; normal.hash, HashKind::Mixed);
    let small = Options::of(Profile::Small);
    assert_eq!(rt;
        (small.last_level, small.top_bits, small.decrement),
        (3, 4, 1)
    );
    assert_eq!(rt; (small.guard_tables, small.zero_tables), (2, 2));
    assert_eq!(rt; (small.mem_limit, small.block_bytes), (1024, 256));
    assert_eq!(rt; small.hash, HashKind::LastByte);
    Ok(())
}

// The hashes were computed from the definition of FNV-1a and SplitMix64's finalizer by another program.
#[test]
fn hashes_of_keys(rt: HostRuntime) -> Result<(), Fail> {
    assert_eq!(rt; mixed(b"a"), 0x02c0_bdbf_4814_20f8);
    assert_eq!(rt; mixed(b"k4774"), 0xce0a_13c9_a708_beab);
    assert_eq!(rt; bits(HashKind::Mixed, b"k3617"), 14);
    let counts = [(b"o", 4), (b"g", 3), (b"c", 2), (b"a", 1), (b"b", 0)];
    for (key, count) in counts {
        assert_eq!(rt; bits(HashKind::LastByte, key), count);
    }
    Ok(())
}

#[test]
fn levels_of_keys(rt: HostRuntime) -> Result<(), Fail> {
    let small = Options::of(Profile::Small);
    let levels = [
        (b"o", Some(1)),
        (b"g", Some(2)),
        (b"c", Some(3)),
        (b"a", None),
        (b"b", None),
    ];
    for (key, level) in levels {
        assert_eq!(rt; level_of(&small, key), level);
    }
    assert_eq!(rt; level_of(&Options::of(Profile::Normal), b"k3617"), Some(2));
    Ok(())
}

#[test]
fn a_key_behind_the_beginning_of_another(rt: HostRuntime) -> Result<(), Fail> {
    let mut key = KeyBuf::new();
    assert_eq!(rt; key.bytes(), b"".as_slice());
    key.put(0, b"apple");
    assert_eq!(rt; key.bytes(), b"apple".as_slice());
    assert!(rt; key.bytes().len() == 5);
    key.put(3, b"ly");
    assert_eq!(rt; key.bytes(), b"apply".as_slice());
    Ok(())
}

#[test]
fn a_lent_entry_tells_its_number(rt: HostRuntime) -> Result<(), Fail> {
    let entry = EntryRef::new(b"a", Number::new(1, 2), ChangeRef::Put(b"1"));
    assert_eq!(rt; entry.number(), Number::new(1, 2));
    assert_eq!(rt; entry.key, b"a".as_slice());
    assert!(rt; matches!(entry.change, ChangeRef::Put(value) if value.len() == 1));
    Ok(())
}

/// A table that is its row alone.
#[derive(Drop)]
struct Bare {
    row: TableRow,
}

impl HasRow for Bare {
    ghost use Rattle.std.specs.Prelude.{◌≡◌};

    ghost the_row = { λ table. table.row };

    ghost holds = { λ table es. ⊥ };

    fn row(&self) -> &TableRow {
        &self.row
    }

    ghost agrees = { λ table es h. absurd h };
}

#[test]
fn a_shared_table_has_its_row(rt: HostRuntime) -> Result<(), Fail> {
    let alloc = rt.alloc();
    let row = TableRow {
        number: 1_099_511_627_777,
        level: 0,
        tier: 0,
        smallest: Key::new(alloc, b"a")?,
        largest: Key::new(alloc, b"p")?,
        entries: 2,
        raw: 4,
        first: Number::new(1, 1),
        last: Number::new(1, 2),
        bytes: 130,
    };
    let table = Arc::new(alloc, Bare { row })?;
    let shared = table.share()?;
    assert_eq!(rt; shared.row().largest.bytes(), b"p".as_slice());
    assert_eq!(rt; shared.row().number, 1_099_511_627_777);
    Ok(())
}
