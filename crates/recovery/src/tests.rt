//! Openings over devices in memory.
ghost use Rattle.std.specs.Prelude.{◌≤◌};
ghost use Rattle.flsm_core.specs.Place.{Place};

use crate::{OpenFault, open};
use disk_model::{Devices, FailPlan, JournalFile, MemDevices, Pick, Plans};
use flsm_core::Store;
use peb_base::{FileName, Key, LimitKind, Number, Profile, Value};
use std::alloc::Global;
use std::test::Fail;

/// The manifest of a store in the small profile that was opened once, with log 1.
pub const MANIFEST: [u8; 51] = [
    1, b'F', b'L', b'S', b'M', b'M', 1, 1, 0, 0, 0, 0, 0, 0, 0, 1, 0, 0, 0, 0, 0, 0, 0, 0, 1, 0, 0,
    0, 21, 0, 0, 0, 17, 1, 0, 0, 0, 0, 0, 0, 0, 1, 0, 0, 0, 0, 0, 0, 0, 1, 0,
];

/// Its log, where `a` was put with the value `1`: a group of one record, the batch of 1.1.
const PUT: [u8; 53] = [
    1, b'F', b'L', b'S', b'M', b'L', 1, 1, 0, 0, 0, 0, 0, 0, 0, 1, 0, 0, 0, 0, 0, 0, 0, 1, 1, 0, 0,
    0, 23, 0, 0, 0, 19, 0, 0, 1, 0, 0, 0, 0, 1, 0, 1, 1, 0, 1, b'a', 0, 0, 0, 1, b'1', 0,
];

/// The opening of session 2 with log 2, as a group of the manifest, and the closed gate behind it.
const SECOND: [u8; 27] = [
    1, 0, 0, 0, 21, 0, 0, 0, 17, 1, 0, 0, 0, 0, 0, 0, 0, 2, 0, 0, 0, 0, 0, 0, 0, 2, 0,
];

/// The log of session 2, where nothing was put.
const LOG: [u8; 25] = [
    1, b'F', b'L', b'S', b'M', b'L', 1, 1, 0, 0, 0, 0, 0, 0, 0, 2, 0, 0, 0, 0, 0, 0, 0, 2, 0,
];

/// A put on a store that stands somewhere, and then does so again.
fn put<S: Store>(store: &mut S, alloc: Global, key: &[u8], value: &[u8]) -> Result<Number, Fail>
    requires { (p : Place) × S.stands store.old p }
    ensures { (p : Place) × S.stands store.new p }
{
    Ok(store.put(Key::new(alloc, key)?, Value::new(alloc, value)?)?)
}

#[test]
fn an_opening_and_a_put_leave_the_manifest_and_a_log(rt: HostRuntime) -> Result<(), Fail> {
    let alloc = rt.alloc();
    let mut devices = MemDevices::new(alloc, Plans::empty(alloc))?;
    let Ok(mut first) = open(alloc, devices.journal()?, Profile::Small) else {
        return Err("not opened".into());
    };
    assert_eq!(rt; first.last(), Number::of_packed(0));
    assert_eq!(rt; put(&mut first, alloc, b"a", b"1")?, Number::new(1, 1));
    assert_eq!(rt; first.sync()?, Number::new(1, 1));
    devices.back(first.close());
    let manifest = devices.bytes_of(JournalFile::ManifestA).ok_or("none")?;
    assert_eq!(rt; manifest, MANIFEST.as_slice());
    let log = devices.bytes_of(JournalFile::Log(1)).ok_or("no log")?;
    assert_eq!(rt; log, PUT.as_slice());
    Ok(())
}

#[test]
fn a_later_opening_reads_what_was_synced_and_numbers_go_on(rt: HostRuntime) -> Result<(), Fail> {
    let alloc = rt.alloc();
    let mut devices = MemDevices::new(alloc, Plans::empty(alloc))?;
    let Ok(mut first) = open(alloc, devices.journal()?, Profile::Small) else {
        return Err("not opened".into());
    };
    assert_eq!(rt; first.last(), Number::of_packed(0));
    assert_eq!(rt; put(&mut first, alloc, b"a", b"1")?, Number::new(1, 1));
    assert_eq!(rt; put(&mut first, alloc, b"a", b"2")?, Number::new(1, 2));
    assert_eq!(rt; first.sync()?, Number::new(1, 2));
    devices.back(first.close());
    let Ok(mut second) = open(alloc, devices.journal()?, Profile::Small) else {
        return Err("not opened again".into());
    };
    assert_eq!(rt; second.get(b"a").ok_or("no value")?, b"2".as_slice());
    assert_eq!(rt; second.last(), Number::new(1, 2));
    assert_eq!(rt; put(&mut second, alloc, b"b", b"")?, Number::new(2, 1));
    devices.back(second.close());
    Ok(())
}

/// The files of a store that was opened so often, where `a` was put in the first session.
fn store(alloc: Global, plans: Plans, openings: u64) -> Result<MemDevices, Fail> {
    let devices = MemDevices::new(alloc, plans)?;
    if openings == 0 {
        return Ok(devices);
    }
    let devices = devices.with_file(JournalFile::Log(1), &PUT)?;
    if openings == 1 {
        return Ok(devices.with_file(JournalFile::ManifestA, &MANIFEST)?);
    }
    let mut manifest = MANIFEST[..50].to_vec(alloc)?;
    manifest.extend_from_slice(&SECOND)?;
    let devices = devices.with_file(JournalFile::ManifestA, &manifest)?;
    Ok(devices.with_file(JournalFile::Log(2), &LOG)?)
}

/// Opens the store, and gives whether that went well, or why not.
fn try_open(alloc: Global, devices: &mut MemDevices) -> Result<Option<OpenFault>, Fail> {
    match open(alloc, devices.journal()?, Profile::Small) {
        Ok(state) => {
            devices.back(state.close());
            Ok(None)
        }
        Err((fault, journal)) => {
            devices.back(journal);
            Ok(Some(fault))
        }
    }
}

/// Whether an open gate stands at this place.
fn is_open(bytes: &[u8], place: usize) -> bool {
    place < bytes.len() && bytes[place] == 1
}

/// How many openings a manifest has, up to three: a group of 26 bytes for each, behind an open gate.
fn openings_of(devices: &MemDevices) -> u64
    ensures { result ≤ 3 }
{
    let Some(bytes) = devices.bytes_of(JournalFile::ManifestA) else {
        return 0;
    };
    if !is_open(bytes, 0) || !is_open(bytes, 24) {
        return 0;
    }
    if !is_open(bytes, 50) {
        return 1;
    }
    if !is_open(bytes, 76) {
        return 2;
    }
    3
}

/// Opens the store again and puts: the number of the put, and whether `a` has its value.
fn reopen(alloc: Global, devices: &mut MemDevices) -> Result<(Number, bool), Fail> {
    let Ok(mut state) = open(alloc, devices.journal()?, Profile::Small) else {
        return Err("not opened again".into());
    };
    let number = put(&mut state, alloc, b"b", b"")?;
    let kept = state.get(b"a") == Some(b"1".as_slice());
    devices.back(state.close());
    Ok((number, kept))
}

/// What came of an opening of such a store where this call of the journal fails; and after a crash,
/// how many openings are recorded, and what opening again gives.
fn fail_and_crash(
    alloc: Global,
    openings: u64,
    call: u64,
    pick: Pick,
) -> Result<(Option<OpenFault>, u64, (Number, bool)), Fail> {
    let mut plans = Plans::empty(alloc);
    plans.journal = FailPlan {
        calls: vec![in alloc; call]?,
        from: None,
    };
    let mut devices = store(alloc, plans, openings)?;
    let fault = try_open(alloc, &mut devices)?;
    let mut devices = devices.crash(pick)?;
    let recorded = openings_of(&devices);
    Ok((fault, recorded, reopen(alloc, &mut devices)?))
}

/// Whether a store that was opened so often stays, whichever call of the next opening fails: what
/// was put is kept, and the next session is 1 + that of the last recorded opening.
fn stays(alloc: Global, openings: u64) -> Result<bool, Fail>
    requires { openings ≤ 2 }
{
    for call in 1..64 {
        let mut opened = false;
        for pick in [Pick::Old, Pick::New, Pick::Seeded(call)] {
            let (fault, recorded, again) = fail_and_crash(alloc, openings, call, pick)?;
            if recorded > 3 {
                return Ok(false);
            }
            if again != (Number::new(recorded as u32 + 1, 1), openings > 0) {
                return Ok(false);
            }
            match fault {
                None if recorded == openings + 1 => opened = true,
                Some(OpenFault::Journal) if recorded == openings || recorded == openings + 1 => {}
                _ => return Ok(false),
            }
        }
        if opened {
            return Ok(call > 1);
        }
    }
    Ok(false)
}

#[test]
fn a_first_opening_that_fails_at_any_call_leaves_nothing(rt: HostRuntime) -> Result<(), Fail> {
    assert!(rt; stays(rt.alloc(), 0)?);
    Ok(())
}

#[test]
fn a_second_opening_that_fails_at_any_call_leaves_the_store(rt: HostRuntime) -> Result<(), Fail> {
    assert!(rt; stays(rt.alloc(), 1)?);
    Ok(())
}

#[test]
fn a_third_opening_that_fails_at_any_call_leaves_the_store(rt: HostRuntime) -> Result<(), Fail> {
    assert!(rt; stays(rt.alloc(), 2)?);
    Ok(())
}

/// Why a store with this manifest and this log 1 isn't opened, where neither changes and no log 2
/// comes.
fn refused(alloc: Global, manifest: Option<&[u8]>, log: &[u8]) -> Result<Option<OpenFault>, Fail> {
    let devices = MemDevices::new(alloc, Plans::empty(alloc))?;
    let mut devices = devices.with_file(JournalFile::Log(1), log)?;
    if let Some(bytes) = manifest {
        devices = devices.with_file(JournalFile::ManifestA, bytes)?;
    }
    let fault = try_open(alloc, &mut devices)?;
    let same = devices.bytes_of(JournalFile::ManifestA) == manifest
        && devices.bytes_of(JournalFile::Log(1)) == Some(log)
        && devices.bytes_of(JournalFile::Log(2)).is_none();
    if !same {
        return Err("a file changed".into());
    }
    Ok(fault)
}

#[test]
fn a_store_without_a_manifest_is_refused(rt: HostRuntime) -> Result<(), Fail> {
    let damaged = OpenFault::Damaged(FileName::Log(1), 0);
    assert_eq!(rt; refused(rt.alloc(), None, &PUT)?, Some(damaged));
    Ok(())
}

#[test]
fn a_log_that_the_record_does_not_have_is_refused(rt: HostRuntime) -> Result<(), Fail> {
    let alloc = rt.alloc();
    let damaged = OpenFault::Damaged(FileName::Log(1), 0);
    let mut log = PUT;
    log[7] = 0;
    assert_eq!(rt; refused(alloc, Some(&MANIFEST), &log)?, Some(damaged));
    let mut log = PUT;
    log[23] = 2;
    assert_eq!(rt; refused(alloc, Some(&MANIFEST), &log)?, Some(damaged));
    // A number of another session than the header's, told at its group's gate.
    let mut log = PUT;
    log[35] = 2;
    let damaged = OpenFault::Damaged(FileName::Log(1), 24);
    assert_eq!(rt; refused(alloc, Some(&MANIFEST), &log)?, Some(damaged));
    Ok(())
}

#[test]
fn a_record_is_refused_before_its_logs_are(rt: HostRuntime) -> Result<(), Fail> {
    let alloc = rt.alloc();
    // The log is damaged each time, and not looked at: the last session there is, another profile,
    // and both; an edit that doesn't fit, and a gate that isn't open.
    let mut log = PUT;
    log[1] = 0;
    let limit = OpenFault::Limit(LimitKind::Openings, 8_388_607);
    let profile = OpenFault::Profile(Profile::Normal, Profile::Small);
    let mut manifest = MANIFEST;
    manifest[39] = 0x7f;
    manifest[40] = 0xff;
    manifest[41] = 0xff;
    assert_eq!(rt; refused(alloc, Some(&manifest), &log)?, Some(limit));
    manifest[7] = 0;
    assert_eq!(rt; refused(alloc, Some(&manifest), &log)?, Some(profile));
    let mut manifest = MANIFEST;
    manifest[49] = 2;
    let damaged = OpenFault::Damaged(FileName::ManifestA, 24);
    assert_eq!(rt; refused(alloc, Some(&manifest), &log)?, Some(damaged));
    assert_eq!(rt;
        refused(alloc, Some(&MANIFEST), &log)?,
        Some(OpenFault::Damaged(FileName::Log(1), 0))
    );
    Ok(())
}
