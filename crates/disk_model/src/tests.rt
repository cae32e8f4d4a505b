//! Plans, picks and rooms, of which no clause speaks, and each form in memory once.

use crate::{
    Devices, FailPlan, Journal, JournalFile, MemDevices, MemScripts, MemSinks, Pick, Plans,
    Scripts, Sink, SinkPlans, Sinks,
};
use std::alloc::Global;
use std::test::Fail;

const LOG: JournalFile = JournalFile::Log(1);

/// Devices whose log was written, and perhaps synced and written over.
fn written(alloc: Global, sync: bool) -> Result<MemDevices, Fail> {
    let mut devices = MemDevices::new(alloc, Plans::empty(alloc))?;
    devices.set("d")?;
    let mut journal = devices.journal()?;
    journal.write(LOG, 0, b"abcd")?;
    if sync {
        journal.sync(LOG)?;
        journal.write(LOG, 0, b"xyz")?;
    }
    devices.back(journal);
    Ok(devices)
}

/// What a crash leaves of the log. An absent one reads as "none".
fn left(alloc: Global, sync: bool, pick: Pick) -> Result<Vec<u8>, Fail> {
    let devices = written(alloc, sync)?.crash(pick)?;
    Ok(devices.bytes_of(LOG).unwrap_or(b"none").to_vec(alloc)?)
}

/// Calls on a journal whose second, fifth and all later calls fail: which did, and what the log
/// holds then.
fn planned(alloc: Global) -> Result<([bool; 5], Vec<u8>), Fail> {
    let mut plans = Plans::empty(alloc);
    plans.journal = FailPlan {
        calls: vec![in alloc; 2]?,
        from: Some(5),
    };
    let mut devices = MemDevices::new(alloc, plans)?;
    let mut journal = devices.journal()?;
    let mut out = [0; 4];
    let failed = [
        journal.write(LOG, 0, b"abcd").is_err(),
        journal.drop_file(LOG).is_err(),
        journal.size(LOG).is_err(),
        journal.read(LOG, 1, &mut out).is_err(),
        journal.write(LOG, 0, b"x").is_err(),
    ];
    devices.back(journal);
    Ok((
        failed,
        devices.bytes_of(LOG).unwrap_or(b"none").to_vec(alloc)?,
    ))
}

/// Which calls of the journal fail, each kind once, where all from the second on are to: and the
/// byte that the read left as it was.
fn planned_kinds(alloc: Global) -> Result<([bool; 6], u8), Fail> {
    let mut plans = Plans::empty(alloc);
    plans.journal.from = Some(2);
    let mut devices = MemDevices::new(alloc, plans)?;
    let mut journal = devices.journal()?;
    let mut out = [7; 1];
    let failed = [
        journal.write(LOG, 0, b"a").is_err(),
        journal.size(LOG).is_err(),
        journal.read(LOG, 0, &mut out).is_err(),
        journal.write(LOG, 0, b"b").is_err(),
        journal.sync(LOG).is_err(),
        journal.drop_file(LOG).is_err(),
    ];
    devices.back(journal);
    Ok((failed, out[0]))
}

/// What a crash leaves of two logs, of which the first was synced and both written since.
fn left_of_two(alloc: Global, pick: Pick) -> Result<(Vec<u8>, Vec<u8>), Fail> {
    let other = JournalFile::Log(2);
    let mut devices = written(alloc, true)?;
    let mut journal = devices.journal()?;
    journal.write(other, 0, b"two")?;
    journal.sync(other)?;
    journal.write(other, 0, b"!")?;
    journal.sync(LOG)?;
    journal.write(LOG, 0, b"z")?;
    devices.back(journal);
    let devices = devices.crash(pick)?;
    let first = devices.bytes_of(LOG).unwrap_or(b"none").to_vec(alloc)?;
    Ok((
        first,
        devices.bytes_of(other).unwrap_or(b"none").to_vec(alloc)?,
    ))
}

/// The bytes of the log and of a manifest that was planted.
fn planted(alloc: Global) -> Result<(Vec<u8>, Vec<u8>), Fail> {
    let devices = written(alloc, true)?.with_file(JournalFile::ManifestA, b"m")?;
    let log = devices.bytes_of(LOG).unwrap_or(b"none").to_vec(alloc)?;
    let manifest = devices.bytes_of(JournalFile::ManifestA);
    Ok((log, manifest.unwrap_or(b"none").to_vec(alloc)?))
}

#[test]
fn listed_calls_and_all_from_one_on_fail(rt: HostRuntime) -> Result<(), Fail> {
    let (failed, log) = planned(rt.alloc())?;
    assert_eq!(rt; failed, [false, true, false, false, true]);
    assert_eq!(rt; log.as_slice(), b"abcd".as_slice());
    Ok(())
}

#[test]
fn each_call_of_the_journal_is_planned(rt: HostRuntime) -> Result<(), Fail> {
    let (failed, read) = planned_kinds(rt.alloc())?;
    assert_eq!(rt; failed, [false, true, true, true, true, true]);
    assert_eq!(rt; read, 7, "nothing was read");
    Ok(())
}

#[test]
fn a_crash_takes_of_each_file_its_own_last_sync(rt: HostRuntime) -> Result<(), Fail> {
    let (first, second) = left_of_two(rt.alloc(), Pick::Old)?;
    assert_eq!(rt; first.as_slice(), b"xyzd".as_slice());
    assert_eq!(rt; second.as_slice(), b"two".as_slice());
    let (first, second) = left_of_two(rt.alloc(), Pick::New)?;
    assert_eq!(rt; first.as_slice(), b"zyzd".as_slice());
    assert_eq!(rt; second.as_slice(), b"!wo".as_slice());
    Ok(())
}

#[test]
fn an_old_crash_leaves_what_was_synced_and_a_new_one_what_reads_give(
    rt: HostRuntime,
) -> Result<(), Fail> {
    let old = left(rt.alloc(), true, Pick::Old)?;
    let new = left(rt.alloc(), true, Pick::New)?;
    let none = left(rt.alloc(), false, Pick::Old)?;
    assert_eq!(rt; old.as_slice(), b"abcd".as_slice());
    assert_eq!(rt; new.as_slice(), b"xyzd".as_slice());
    assert_eq!(rt; none.as_slice(), b"none".as_slice());
    Ok(())
}

#[test]
fn seeds_lose_keep_cut_and_change_a_write(rt: HostRuntime) -> Result<(), Fail> {
    let (mut lost, mut kept, mut cut, mut changed) = (false, false, false, false);
    for seed in 0..64 {
        match left(rt.alloc(), false, Pick::Seeded(seed))?.as_slice() {
            b"none" => lost = true,
            b"abcd" => kept = true,
            bytes => {
                cut = cut || bytes.len() < 4;
                changed = changed || bytes.len() == 4;
            }
        }
    }
    assert!(rt; lost && kept && cut && changed);
    Ok(())
}

#[test]
fn a_planted_file_is_read(rt: HostRuntime) -> Result<(), Fail> {
    let (log, manifest) = planted(rt.alloc())?;
    assert_eq!(rt; log.as_slice(), b"xyzd".as_slice());
    assert_eq!(rt; manifest.as_slice(), b"m".as_slice());
    Ok(())
}

#[test]
fn a_script_is_fetched_in_parts_to_its_end(rt: HostRuntime) -> Result<(), Fail> {
    let alloc = rt.alloc();
    let plan = FailPlan {
        calls: vec![in alloc; 3]?,
        from: None,
    };
    let mut scripts = MemScripts::new(alloc, plan).with("a.txt", b"get a")?;
    let mut out = [0; 4];
    let first = (scripts.fetch("a.txt", 0, &mut out)?, out);
    let second = scripts.fetch("a.txt", 4, &mut out)?;
    let planned = scripts.fetch("a.txt", 4, &mut out).is_err();
    let end = scripts.fetch("a.txt", 5, &mut out)?;
    let absent = scripts.fetch("b.txt", 0, &mut out).is_err();
    assert_eq!(rt; first, (4, *b"get "));
    assert_eq!(rt; (second, end), (1, 0));
    assert!(rt; planned && absent);
    Ok(())
}

#[test]
fn a_sink_past_its_room_takes_what_fits(rt: HostRuntime) -> Result<(), Fail> {
    let alloc = rt.alloc();
    let mut plans = SinkPlans::empty(alloc);
    plans.calls.calls = vec![in alloc; 2]?;
    plans.rooms = vec![in alloc; (1, 3)]?;
    plans.report = Some(1);
    let mut sinks = MemSinks::new(alloc, plans);
    let mut one = sinks.client(1, "a.txt")?;
    let planned = sinks.client(2, "b.txt").is_err();
    one.put(b"ab")?;
    let full = one.put(b"cd").is_err();
    let report = sinks.report(b"last").is_err();
    sinks.back(1, one);
    assert!(rt; planned && full && report);
    assert_eq!(rt; sinks.bytes_of(1), Some(b"abc".as_slice()));
    assert_eq!(rt; sinks.name_of(1), Some("a.txt"));
    assert_eq!(rt; sinks.report_bytes(), b"l".as_slice());
    Ok(())
}
