//! Reading a record and recording an opening, over devices in memory.

use crate::tests::MANIFEST;
use crate::{OpenFault, read_record, record_opening};
use disk_model::{Devices, FailPlan, JournalFile, MemDevices, Pick, Plans};
use peb_base::{FileName, LimitKind, Profile};
use std::alloc::Global;
use std::test::Fail;

/// The session of the record that is read over devices, or why none is.
fn session_over(alloc: Global, devices: &mut MemDevices) -> Result<Result<u64, OpenFault>, Fail> {
    let mut journal = devices.journal()?;
    let read = match read_record(alloc, &mut journal, Profile::Small) {
        Ok(recorded) => Ok(recorded.shape.session),
        Err(fault) => Err(fault),
    };
    devices.back(journal);
    Ok(read)
}

/// Reads the record over devices and records the next opening with this log, and gives whether both
/// went well.
fn records(alloc: Global, devices: &mut MemDevices, log: u64) -> Result<bool, Fail> {
    let mut journal = devices.journal()?;
    let recorded = match read_record(alloc, &mut journal, Profile::Small) {
        Ok(recorded) => recorded,
        Err(_) => {
            devices.back(journal);
            return Ok(false);
        }
    };
    let done = record_opening(alloc, &mut journal, Profile::Small, recorded, log).is_ok();
    devices.back(journal);
    Ok(done)
}

#[test]
fn the_first_opening_makes_the_manifest_and_the_second_adds_to_it(
    rt: HostRuntime,
) -> Result<(), Fail> {
    let alloc = rt.alloc();
    let mut devices = MemDevices::new(alloc, Plans::empty(alloc))?;
    assert_eq!(rt; session_over(alloc, &mut devices)?, Ok(0));
    assert!(rt; records(alloc, &mut devices, 1)?);
    let bytes = devices
        .bytes_of(JournalFile::ManifestA)
        .ok_or("no manifest")?;
    assert_eq!(rt; bytes, MANIFEST.as_slice());
    assert_eq!(rt; session_over(alloc, &mut devices)?, Ok(1));
    assert!(rt; records(alloc, &mut devices, 2)?);
    assert_eq!(rt; session_over(alloc, &mut devices)?, Ok(2));
    let bytes = devices
        .bytes_of(JournalFile::ManifestA)
        .ok_or("no manifest")?;
    assert_eq!(rt; bytes.len(), 77);
    Ok(())
}

/// What is read of a manifest of one opening with other bytes at these places.
fn read_with(alloc: Global, changes: &[(usize, u8)]) -> Result<Result<u64, OpenFault>, Fail> {
    let mut bytes = MANIFEST;
    for (place, byte) in changes {
        if *place < bytes.len() {
            bytes[*place] = *byte;
        }
    }
    let devices = MemDevices::new(alloc, Plans::empty(alloc))?;
    let mut devices = devices.with_file(JournalFile::ManifestA, &bytes)?;
    session_over(alloc, &mut devices)
}

#[test]
fn a_record_that_is_refused_has_its_cause(rt: HostRuntime) -> Result<(), Fail> {
    let alloc = rt.alloc();
    let last = [(39, 0x7f), (40, 0xff), (41, 0xff)];
    let limit = OpenFault::Limit(LimitKind::Openings, 8_388_607);
    let profile = OpenFault::Profile(Profile::Normal, Profile::Small);
    // A gate of the file that isn't open; the profile; the last session there is, and the one
    // before; a session of 0, a first log of 0, and one past the session's; a group of no edit.
    assert_eq!(rt; read_with(alloc, &[(0, 0)])?, Ok(0));
    assert_eq!(rt; read_with(alloc, &[(7, 0)])?, Err(profile));
    assert_eq!(rt; read_with(alloc, &last)?, Err(limit));
    assert_eq!(rt;
        read_with(alloc, &[last[0], last[1], (41, 0xfe)])?,
        Ok(8_388_606)
    );
    for changes in [(41, 0), (49, 0), (49, 2), (33, 9)] {
        let damaged = OpenFault::Damaged(FileName::ManifestA, 24);
        assert_eq!(rt; read_with(alloc, &[changes])?, Err(damaged));
    }
    Ok(())
}

#[test]
fn an_edit_that_does_not_fit_is_told_at_its_gate(rt: HostRuntime) -> Result<(), Fail> {
    let alloc = rt.alloc();
    // The same opening twice, in the profile that wasn't asked for.
    let mut bytes = MANIFEST.to_vec(alloc)?;
    bytes[7] = 0;
    bytes[50] = 1;
    bytes.extend_from_slice(&MANIFEST[25..])?;
    let devices = MemDevices::new(alloc, Plans::empty(alloc))?;
    let mut devices = devices.with_file(JournalFile::ManifestA, &bytes)?;
    let damaged = OpenFault::Damaged(FileName::ManifestA, 50);
    assert_eq!(rt; session_over(alloc, &mut devices)?, Err(damaged));
    Ok(())
}

/// What is read of a manifest with these bytes.
fn session_in(alloc: Global, bytes: &[u8]) -> Result<Result<u64, OpenFault>, Fail> {
    let devices = MemDevices::new(alloc, Plans::empty(alloc))?;
    let mut devices = devices.with_file(JournalFile::ManifestA, bytes)?;
    session_over(alloc, &mut devices)
}

#[test]
fn of_two_damages_of_a_record_the_first_is_told(rt: HostRuntime) -> Result<(), Fail> {
    let alloc = rt.alloc();
    // The openings of the sessions 1, 2 and 3, at 24, 50 and 76.
    let mut bytes = MANIFEST[..50].to_vec(alloc)?;
    bytes.extend_from_slice(&MANIFEST[24..50])?;
    bytes.extend_from_slice(&MANIFEST[24..])?;
    bytes[67] = 2;
    bytes[93] = 3;
    assert_eq!(rt; session_in(alloc, &bytes)?, Ok(3));
    // The third is no group, then the second is session 1 again, then the first no edit.
    for (at, value, place) in [(80, 20, 76), (67, 1, 50), (33, 9, 24)] {
        bytes[at] = value;
        let damaged = OpenFault::Damaged(FileName::ManifestA, place);
        assert_eq!(rt; session_in(alloc, &bytes)?, Err(damaged));
    }
    Ok(())
}

/// Whether reading and recording went well where this call of the journal fails, and what is read
/// after a crash.
fn fail_and_crash(
    alloc: Global,
    call: u64,
    pick: Pick,
) -> Result<(bool, Result<u64, OpenFault>), Fail> {
    let mut plans = Plans::empty(alloc);
    plans.journal = FailPlan {
        calls: vec![in alloc; call]?,
        from: None,
    };
    let mut devices = MemDevices::new(alloc, plans)?;
    let done = records(alloc, &mut devices, 1)?;
    let mut devices = devices.crash(pick)?;
    Ok((done, session_over(alloc, &mut devices)?))
}

#[test]
fn a_crash_leaves_the_record_or_that_and_the_opening(rt: HostRuntime) -> Result<(), Fail> {
    let alloc = rt.alloc();
    let mut kept = false;
    for call in 1..64 {
        for pick in [Pick::Old, Pick::New, Pick::Seeded(call)] {
            match fail_and_crash(alloc, call, pick)? {
                (true, Ok(1)) => {
                    assert!(rt; kept);
                    return Ok(());
                }
                (false, Ok(0)) => {}
                (false, Ok(1)) => kept = true,
                _ => return Err("a record is wrong".into()),
            }
        }
    }
    Err("no opening without a fault".into())
}
