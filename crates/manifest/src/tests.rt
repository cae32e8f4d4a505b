//! Edits and the manifest against bytes from outside.

use crate::{AppendFault, EditFault, Manifest, read_edit, write_edit};
use disk_model::{Devices, FailPlan, JournalFile, MemDevices, Pick, Plans};
use flsm_model::Edit;
use peb_base::{Number, Profile};
use record_log::LogFault;
use std::alloc::Global;
use std::test::Fail;

/// The manifest of a store in the small profile that was opened once.
const MANIFEST: [u8; 51] = [
    1, b'F', b'L', b'S', b'M', b'M', 1, 1, 0, 0, 0, 0, 0, 0, 0, 1, 0, 0, 0, 0, 0, 0, 0, 0, 1, 0, 0,
    0, 21, 0, 0, 0, 17, 1, 0, 0, 0, 0, 0, 0, 0, 1, 0, 0, 0, 0, 0, 0, 0, 1, 0,
];

/// The row of the table 1.1 of `a` = `1` at 1.1: number, level, tier, keys, entries, bytes of keys
/// and values, first and last number, length.
const ROW: [u8; 56] = [
    0, 0, 1, 0, 0, 0, 0, 1, 0, 0, 0, 1, b'a', 0, 1, b'a', 0, 0, 0, 0, 0, 0, 0, 1, 0, 0, 0, 0, 0, 0,
    0, 2, 0, 0, 1, 0, 0, 0, 0, 1, 0, 0, 1, 0, 0, 0, 0, 1, 0, 0, 0, 0, 0, 0, 0, 111,
];

/// The opening of session 1, whose log is 1.
const OPEN: [u8; 17] = [1, 0, 0, 0, 0, 0, 0, 0, 1, 0, 0, 0, 0, 0, 0, 0, 1];

/// Behind the row of a flush: from 0, to 1.1, log 2, and `a` chosen for level 3.
const FLUSHED: [u8; 32] = [
    0, 0, 0, 0, 0, 0, 0, 0, 0, 0, 1, 0, 0, 0, 0, 1, 0, 0, 0, 0, 0, 0, 0, 2, 0, 0, 0, 1, 0, 1, b'a',
    3,
];

/// Before the row of a move from level 0: floor 1.2, input 1.1, one output.
const MOVED: [u8; 26] = [
    3, 0, 0, 0, 1, 0, 0, 0, 0, 2, 0, 0, 0, 1, 0, 0, 1, 0, 0, 0, 0, 1, 0, 0, 0, 1,
];

/// A cut of level 1 by `b`: input 1.1, no output.
const CUT: [u8; 25] = [
    4, 1, 0, 0, 0, 1, 0, 1, b'b', 0, 0, 0, 1, 0, 0, 1, 0, 0, 0, 0, 1, 0, 0, 0, 0,
];

/// A whole merge with the floor 1.2: no input, no output.
const MERGE: [u8; 18] = [5, 0, 0, 1, 0, 0, 0, 0, 2, 1, 0, 0, 0, 0, 0, 0, 0, 0];

/// Whether the bytes spell no edit, or one whose spelling they are.
fn is_one_spelling(alloc: Global, bytes: &[u8]) -> Result<bool, Fail> {
    Ok(match read_edit(alloc, bytes) {
        Ok(edit) => write_edit(alloc, &edit)?.as_slice() == bytes,
        Err(fault) => fault == EditFault::Form,
    })
}

fn is_refused(alloc: Global, bytes: &[u8]) -> bool {
    match read_edit(alloc, bytes) {
        Ok(_) => false,
        Err(fault) => fault == EditFault::Form,
    }
}

/// Whether the bytes are read and written again, cut off after none of theirs are read, and changed
/// in one of theirs are refused or another edit.
fn is_exact(alloc: Global, bytes: &[u8]) -> Result<bool, Fail> {
    let edit = read_edit(alloc, bytes)?;
    let mut exact = write_edit(alloc, &edit)?.as_slice() == bytes;
    for len in 0..bytes.len() {
        exact = exact && is_refused(alloc, &bytes[..len]);
    }
    for at in 0..bytes.len() {
        let mut changed = bytes.to_vec(alloc)?;
        for value in [0, 1, 2, 128, 255] {
            changed[at] = value;
            exact = exact && is_one_spelling(alloc, &changed)?;
        }
    }
    Ok(exact)
}

#[test]
fn each_kind_of_edit_has_one_spelling(rt: HostRuntime) -> Result<(), Fail> {
    let alloc = rt.alloc();
    let mut flush = vec![in alloc; 2]?;
    flush.extend_from_slice(&ROW)?;
    flush.extend_from_slice(&FLUSHED)?;
    let mut moved = MOVED.to_vec(alloc)?;
    moved.extend_from_slice(&ROW)?;
    assert!(rt; is_exact(alloc, &OPEN)?, "open");
    assert!(rt; is_exact(alloc, &flush)?, "flush");
    assert!(rt; is_exact(alloc, &moved)?, "move");
    assert!(rt; is_exact(alloc, &CUT)?, "cut");
    assert!(rt; is_exact(alloc, &MERGE)?, "merge");
    Ok(())
}

#[test]
fn a_flush_is_read_field_by_field(rt: HostRuntime) -> Result<(), Fail> {
    let alloc = rt.alloc();
    let mut bytes = vec![in alloc; 2]?;
    bytes.extend_from_slice(&ROW)?;
    bytes.extend_from_slice(&FLUSHED)?;
    let Edit::Flush {
        row,
        from,
        to,
        log,
        chosen,
    } = read_edit(alloc, &bytes)?
    else {
        return Err("no flush".into());
    };
    assert_eq!(rt; row.number, 1_099_511_627_777);
    assert_eq!(rt; row.largest.bytes(), b"a".as_slice());
    assert_eq!(rt; (row.entries, row.raw, row.bytes), (1, 2, 111));
    assert_eq!(rt; (from, to, log), (Number::new(0, 0), Number::new(1, 1), 2));
    assert_eq!(rt; chosen.items().len(), 1);
    assert_eq!(rt; chosen.items()[0].level, 3);
    Ok(())
}

#[test]
fn a_field_out_of_its_bounds_is_refused(rt: HostRuntime) -> Result<(), Fail> {
    let alloc = rt.alloc();
    // The kind, the floor, the flag, and the counts of both lists.
    for (at, value) in [(0, 0), (0, 6), (1, 128), (9, 2), (13, 1), (17, 1)] {
        let mut bytes = MERGE;
        bytes[at] = value;
        assert!(rt; is_refused(alloc, &bytes), "byte {at} is {value}");
    }
    let mut long = OPEN.to_vec(alloc)?;
    long.push(0)?;
    assert!(rt; is_refused(alloc, &long));
    Ok(())
}

/// What replaying a file tells.
#[derive(Clone, Copy, Debug, PartialEq, Eq)]
enum Told {
    Absent,
    Edits(usize),
    Damaged(u64),
    Failed,
}

fn outcome(alloc: Global, devices: &mut MemDevices) -> Result<Told, Fail> {
    let mut journal = devices.journal()?;
    let told = match Manifest::replay(alloc, &mut journal) {
        Ok(Some(replayed)) => Told::Edits(replayed.edits.items().len()),
        Ok(None) => Told::Absent,
        Err(LogFault::Damaged { at }) => Told::Damaged(at),
        Err(_) => Told::Failed,
    };
    devices.back(journal);
    Ok(told)
}

fn replayed(alloc: Global, bytes: &[u8]) -> Result<Told, Fail> {
    let devices = MemDevices::new(alloc, Plans::empty(alloc))?;
    let mut devices = devices.with_file(JournalFile::ManifestA, bytes)?;
    outcome(alloc, &mut devices)
}

/// The same of the manifest with another byte at this place.
fn replayed_with(alloc: Global, at: usize, value: u8) -> Result<Told, Fail> {
    let mut bytes = MANIFEST;
    if at < bytes.len() {
        bytes[at] = value;
    }
    replayed(alloc, &bytes)
}

fn opening() -> Edit {
    Edit::Open { session: 1, log: 1 }
}

#[test]
fn the_manifest_of_one_opening_has_these_bytes(rt: HostRuntime) -> Result<(), Fail> {
    let alloc = rt.alloc();
    let mut devices = MemDevices::new(alloc, Plans::empty(alloc))?;
    let mut journal = devices.journal()?;
    let mut manifest = Manifest::create(alloc, &mut journal, Profile::Small)?;
    manifest.append(&mut journal, &opening())?;
    devices.back(journal);
    let bytes = devices
        .bytes_of(JournalFile::ManifestA)
        .ok_or("no manifest")?;
    assert_eq!(rt; bytes, MANIFEST.as_slice());
    Ok(())
}

#[test]
fn a_manifest_that_was_read_takes_further_edits(rt: HostRuntime) -> Result<(), Fail> {
    let alloc = rt.alloc();
    let devices = MemDevices::new(alloc, Plans::empty(alloc))?;
    let mut devices = devices.with_file(JournalFile::ManifestA, &MANIFEST)?;
    let mut journal = devices.journal()?;
    let found = Manifest::replay(alloc, &mut journal)?;
    let mut found = found.ok_or("no manifest")?;
    assert_eq!(rt; found.profile, Profile::Small);
    assert_eq!(rt; found.edits.items().len(), 1);
    assert_eq!(rt; found.edits.items()[0].0, 24);
    let merge = read_edit(alloc, &MERGE)?;
    found.manifest.append(&mut journal, &merge)?;
    devices.back(journal);
    let bytes = devices
        .bytes_of(JournalFile::ManifestA)
        .ok_or("no manifest")?;
    let mut want = MANIFEST[..50].to_vec(alloc)?;
    want.extend_from_slice(&[1, 0, 0, 0, 22, 0, 0, 0, 18])?;
    want.extend_from_slice(&MERGE)?;
    want.push(0)?;
    assert_eq!(rt; bytes, want.as_slice());
    Ok(())
}

#[test]
fn damage_is_told_at_the_gate_of_its_group(rt: HostRuntime) -> Result<(), Fail> {
    let alloc = rt.alloc();
    for (at, value, want) in [
        (0, 0, Told::Absent),
        (5, b'L', Told::Damaged(0)),
        (15, 2, Told::Damaged(0)),
        (23, 1, Told::Damaged(0)),
        (24, 0, Told::Edits(0)),
        (28, 20, Told::Damaged(24)),
        (32, 16, Told::Damaged(24)),
        (33, 9, Told::Damaged(24)),
        (50, 1, Told::Damaged(50)),
        (50, 7, Told::Edits(1)),
    ] {
        assert_eq!(rt; replayed_with(alloc, at, value)?, want, "byte {at}");
    }
    // A second group of the same edit, then one with two records of it.
    let mut bytes = MANIFEST.to_vec(alloc)?;
    bytes[50] = 1;
    bytes.extend_from_slice(&MANIFEST[25..])?;
    assert_eq!(rt; replayed(alloc, &bytes)?, Told::Edits(2));
    bytes.truncate(76);
    bytes[54] = 42;
    bytes.extend_from_slice(&MANIFEST[29..])?;
    assert_eq!(rt; replayed(alloc, &bytes)?, Told::Damaged(50));
    Ok(())
}

/// How many edits stand before the first damage, and its place, if there is any.
fn front_of(alloc: Global, bytes: &[u8]) -> Result<(usize, Option<u64>), Fail> {
    let devices = MemDevices::new(alloc, Plans::empty(alloc))?;
    let mut devices = devices.with_file(JournalFile::ManifestA, bytes)?;
    let mut journal = devices.journal()?;
    let found = Manifest::replay_front(alloc, &mut journal)?;
    let front = found.ok_or("no manifest")?;
    let count = front.edits.items().len();
    let place = match front.manifest {
        Ok(_) => None,
        Err(at) => Some(at),
    };
    devices.back(journal);
    Ok((count, place))
}

#[test]
fn of_two_damages_the_first_is_told(rt: HostRuntime) -> Result<(), Fail> {
    let alloc = rt.alloc();
    // Groups of the same edit at 24, 50 and 76.
    let mut bytes = MANIFEST[..50].to_vec(alloc)?;
    bytes.extend_from_slice(&MANIFEST[24..50])?;
    bytes.extend_from_slice(&MANIFEST[24..])?;
    assert_eq!(rt; front_of(alloc, &bytes)?, (3, None));
    // The last has another length, then the second an edit of no kind, then the first.
    for (at, value, count, place) in [(80, 20, 2, 76), (59, 9, 1, 50), (33, 9, 0, 24)] {
        bytes[at] = value;
        assert_eq!(rt; replayed(alloc, &bytes)?, Told::Damaged(place));
        assert_eq!(rt; front_of(alloc, &bytes)?, (count, Some(place)));
    }
    Ok(())
}

/// Whether an append fails whose journal fails at this call, the first being 1, and how many edits
/// a crash leaves then. The first seven create the manifest.
fn failing_append(alloc: Global, call: u64, pick: Pick) -> Result<(bool, Told), Fail> {
    let mut plans = Plans::empty(alloc);
    plans.journal = FailPlan {
        calls: vec![in alloc; call]?,
        from: None,
    };
    let mut devices = MemDevices::new(alloc, plans)?;
    let mut journal = devices.journal()?;
    let mut manifest = Manifest::create(alloc, &mut journal, Profile::Small)?;
    let failed = match manifest.append(&mut journal, &opening()) {
        Ok(()) => false,
        Err(fault) => fault == AppendFault::Fault,
    };
    devices.back(journal);
    let mut devices = devices.crash(pick)?;
    Ok((failed, outcome(alloc, &mut devices)?))
}

#[test]
fn a_failed_append_leaves_the_edit_or_not(rt: HostRuntime) -> Result<(), Fail> {
    let alloc = rt.alloc();
    for (call, old, new) in [(8, 0, 0), (9, 0, 0), (10, 0, 0), (11, 0, 1)] {
        let (failed, left) = failing_append(alloc, call, Pick::Old)?;
        assert!(rt; failed, "call {call}");
        assert_eq!(rt; left, Told::Edits(old), "call {call}");
        let (_, left) = failing_append(alloc, call, Pick::New)?;
        assert_eq!(rt; left, Told::Edits(new), "call {call}");
    }
    let (failed, left) = failing_append(alloc, 12, Pick::Old)?;
    assert!(rt; !failed);
    assert_eq!(rt; left, Told::Edits(1));
    Ok(())
}
