//! Runs over devices, scripts and sinks in memory.

use crate::ended::Ended;
use crate::top::top_plain;
use disk_model::{FailPlan, JournalFile, MemDevices, MemScripts, MemSinks, Pick, Plans, SinkPlans};
use peb_base::{FileName, LimitKind, Profile};
use script::{Cause, Why};
use std::alloc::Global;
use std::test::Fail;

/// The report of a run after which the last number is 1.1.
const REPORT: &[u8] = b"last 1.1
level 0 tables 0 entries 0 bytes 0 cuts 0 short 0 lost 0
level 1 tables 0 entries 0 bytes 0 cuts 0 short 0 lost 0
level 2 tables 0 entries 0 bytes 0 cuts 0 short 0 lost 0
level 3 tables 0 entries 0 bytes 0 cuts 0 short 0 lost 0
";

/// The report of a run over an empty store in which nothing was written.
const EMPTY_REPORT: &[u8] = b"last 0.0
level 0 tables 0 entries 0 bytes 0 cuts 0 short 0 lost 0
level 1 tables 0 entries 0 bytes 0 cuts 0 short 0 lost 0
level 2 tables 0 entries 0 bytes 0 cuts 0 short 0 lost 0
level 3 tables 0 entries 0 bytes 0 cuts 0 short 0 lost 0
";

/// The report of a run after which the last number is 2.1.
const SECOND_REPORT: &[u8] = b"last 2.1
level 0 tables 0 entries 0 bytes 0 cuts 0 short 0 lost 0
level 1 tables 0 entries 0 bytes 0 cuts 0 short 0 lost 0
level 2 tables 0 entries 0 bytes 0 cuts 0 short 0 lost 0
level 3 tables 0 entries 0 bytes 0 cuts 0 short 0 lost 0
";

/// The manifest of a store in the small profile that was opened once, with log 1.
const MANIFEST: &[u8] =
    b"\x01FLSMM\x01\x01\0\0\0\0\0\0\0\x01\0\0\0\0\0\0\0\0\x01\0\0\0\x15\0\0\0\x11\x01\0\0\0\0\0\0\0\x01\0\0\0\0\0\0\0\x01\0";

/// The opening of session 2 with log 2, as a group of the manifest, and the closed gate behind it.
const SECOND_OPENING: &[u8] = b"\x01\0\0\0\x15\0\0\0\x11\x01\0\0\0\0\0\0\0\x02\0\0\0\0\0\0\0\x02\0";

/// The log of a store in which `a` was set to `1`.
const LOG: &[u8] =
    b"\x01FLSML\x01\x01\0\0\0\0\0\0\0\x01\0\0\0\0\0\0\0\x01\x01\0\0\0\x17\0\0\0\x13\0\0\x01\0\0\0\0\x01\0\x01\x01\0\x01a\0\0\0\x011\0";

/// The log of a second session, in which `a` was set to `2` and then to `3`: its groups' gates are
/// at 24 and 52, and the closed one at 80.
const SECOND_LOG: &[u8] =
    b"\x01FLSML\x01\x01\0\0\0\0\0\0\0\x02\0\0\0\0\0\0\0\x02\x01\0\0\0\x17\0\0\0\x13\0\0\x02\0\0\0\0\x01\0\x01\x01\0\x01a\0\0\0\x012\x01\0\0\0\x17\0\0\0\x13\0\0\x02\0\0\0\0\x02\0\x01\x01\0\x01a\0\0\0\x013\0";

const PICKS: [Pick; 6] = [
    Pick::Old,
    Pick::New,
    Pick::Seeded(1),
    Pick::Seeded(2),
    Pick::Seeded(3),
    Pick::Seeded(4),
];

/// How a run ended, what it replied and reported, and the manifest and the first log that it left.
#[derive(Debug, Drop)]
struct Told {
    status: u8,
    cause: Cause,
    replies: Vec<u8>,
    report: Vec<u8>,
    manifest: Vec<u8>,
    log: Vec<u8>,
}

fn bytes_or_none(alloc: Global, bytes: Option<&[u8]>) -> Result<Vec<u8>, Fail> {
    match bytes {
        Some(bytes) => Ok(bytes.to_vec(alloc)?),
        None => Ok(Vec::new(alloc)),
    }
}

fn words_of(alloc: Global, words: &[&str]) -> Result<Vec<String>, Fail> {
    let mut all = Vec::new(alloc);
    for word in words {
        all.push(String::from_str(alloc, word)?)?;
    }
    Ok(all)
}

fn told_of(
    alloc: Global,
    status: u8,
    cause: Cause,
    devices: &MemDevices,
    sinks: &MemSinks,
) -> Result<Told, Fail> {
    Ok(Told {
        status,
        cause,
        replies: bytes_or_none(alloc, sinks.bytes_of(1))?,
        report: sinks.report_bytes().to_vec(alloc)?,
        manifest: bytes_or_none(alloc, devices.bytes_of(JournalFile::ManifestA))?,
        log: bytes_or_none(alloc, devices.bytes_of(JournalFile::Log(1)))?,
    })
}

/// Runs a script over devices, and gives what was told and the devices.
fn run(
    alloc: Global,
    devices: MemDevices,
    script: &[u8],
    source: FailPlan,
    plans: SinkPlans,
) -> Result<(Told, MemDevices), Fail> {
    let words = words_of(
        alloc,
        &["run", "--profile", "small", "--workers", "0", "d", "a.txt"],
    )?;
    let mut scripts = MemScripts::new(alloc, source).with("a.txt", script)?;
    let mut sinks = MemSinks::new(alloc, plans);
    let Ended {
        status,
        cause,
        devices,
    } = top_plain(alloc, &words, devices, &mut scripts, &mut sinks);
    let told = told_of(alloc, status, cause, &devices, &sinks)?;
    Ok((told, devices))
}

fn run_well(alloc: Global, devices: MemDevices, script: &[u8]) -> Result<(Told, MemDevices), Fail> {
    run(
        alloc,
        devices,
        script,
        FailPlan::empty(alloc),
        SinkPlans::empty(alloc),
    )
}

/// Runs one script over empty devices.
fn run_one(alloc: Global, script: &[u8], source: FailPlan, plans: SinkPlans) -> Result<Told, Fail> {
    let devices = MemDevices::new(alloc, Plans::empty(alloc))?;
    let (told, _) = run(alloc, devices, script, source, plans)?;
    Ok(told)
}

/// Runs two scripts over empty devices, one after another.
fn run_two(alloc: Global, first: &[u8], second: &[u8]) -> Result<(Told, Told), Fail> {
    let devices = MemDevices::new(alloc, Plans::empty(alloc))?;
    let (one, devices) = run_well(alloc, devices, first)?;
    let (two, _) = run_well(alloc, devices, second)?;
    Ok((one, two))
}

/// Runs a script over a directory with a manifest, where there is one, and one log.
fn run_over(
    alloc: Global,
    manifest: Option<&[u8]>,
    log: &[u8],
    script: &[u8],
) -> Result<Told, Fail> {
    let devices = MemDevices::new(alloc, Plans::empty(alloc))?;
    let mut devices = devices.with_file(JournalFile::Log(1), log)?;
    if let Some(bytes) = manifest {
        devices = devices.with_file(JournalFile::ManifestA, bytes)?;
    }
    let (told, _) = run_well(alloc, devices, script)?;
    Ok(told)
}

/// Runs a script over a journal that fails by a plan, lets it crash, and runs another one.
fn run_and_crash(
    alloc: Global,
    journal: FailPlan,
    pick: Pick,
    first: &[u8],
    second: &[u8],
) -> Result<(Told, Told), Fail> {
    let plans = Plans {
        journal,
        ..Plans::empty(alloc)
    };
    let (one, devices) = run_well(alloc, MemDevices::new(alloc, plans)?, first)?;
    let (two, _) = run_well(alloc, devices.crash(pick)?, second)?;
    Ok((one, two))
}

fn failing(alloc: Global, call: u64) -> Result<FailPlan, Fail> {
    Ok(FailPlan {
        calls: vec![in alloc; call]?,
        from: None,
    })
}

/// A file with other bytes at these places.
fn file_with(alloc: Global, file: &[u8], changes: &[(usize, u8)]) -> Result<Vec<u8>, Fail> {
    let mut bytes = file.to_vec(alloc)?;
    for (place, byte) in changes {
        if let Some(old) = bytes.get_mut(*place) {
            *old = *byte;
        }
    }
    Ok(bytes)
}

/// Whether a run ended so and told so.
fn has_told(told: &Told, end: (Cause, u8), replies: &[u8], report: &[u8]) -> bool {
    told.cause == end.0
        && told.status == end.1
        && told.replies.as_slice() == replies
        && told.report.as_slice() == report
}

/// Whether two runs over empty devices, one after another, went well and told so; and whether the
/// first one left the manifest of one opening, and the log of one batch.
fn two_tell(
    alloc: Global,
    scripts: [&[u8]; 2],
    replies: [&[u8]; 2],
    reports: [&[u8]; 2],
) -> Result<([bool; 2], [bool; 2]), Fail> {
    let (one, two) = run_two(alloc, scripts[0], scripts[1])?;
    let done = (Cause::Done, 0);
    let first = has_told(&one, done, replies[0], reports[0]);
    let second = has_told(&two, done, replies[1], reports[1]);
    let files = [
        one.manifest.as_slice() == MANIFEST,
        one.log.as_slice() == LOG,
    ];
    Ok(([first, second], files))
}

#[test]
fn a_put_is_read_by_its_run_and_by_the_next(rt: HostRuntime) -> Result<(), Fail> {
    let (told, has_files) = two_tell(
        rt.alloc(),
        [b"put! a 1\nget a\n".as_slice(), b"get a\n".as_slice()],
        [
            b"1.1 synced\n1.1 value 1\n".as_slice(),
            b"1.1 value 1\n".as_slice(),
        ],
        [REPORT, REPORT],
    )?;
    assert_eq!(rt; told, [true, true]);
    assert_eq!(rt; has_files, [true, true]);
    assert_eq!(rt; [MANIFEST.len(), LOG.len()], [51, 53]);
    Ok(())
}

#[test]
fn an_empty_script_begins_a_session(rt: HostRuntime) -> Result<(), Fail> {
    let (told, _) = two_tell(
        rt.alloc(),
        [b"".as_slice(), b"put! a 1".as_slice()],
        [b"".as_slice(), b"2.1 synced\n".as_slice()],
        [EMPTY_REPORT, SECOND_REPORT],
    )?;
    assert_eq!(rt; told, [true, true]);
    Ok(())
}

/// Whether a store with these changes to its manifest and to its log is refused so, and both are
/// left alone.
fn is_refused(
    alloc: Global,
    record: &[(usize, u8)],
    changes: &[(usize, u8)],
    end: (Cause, u8),
) -> Result<bool, Fail> {
    let manifest = file_with(alloc, MANIFEST, record)?;
    let log = file_with(alloc, LOG, changes)?;
    let told = run_over(alloc, Some(&manifest), &log, b"get a\n")?;
    Ok(has_told(&told, end, b"", b"") && told.manifest == manifest && told.log == log)
}

#[test]
fn each_log_that_is_refused_has_its_cause(rt: HostRuntime) -> Result<(), Fail> {
    let alloc = rt.alloc();
    let header = (Cause::Damaged(FileName::Log(1), 0), 6);
    let record = (Cause::Damaged(FileName::Log(1), 24), 6);
    // A byte of the header's letters, another profile than the manifest's, and a session that it
    // doesn't have; a batch of another session, and an operation of no kind.
    let refused = [
        is_refused(alloc, &[], &[(1, b'f')], header)?,
        is_refused(alloc, &[], &[(7, 0)], header)?,
        is_refused(alloc, &[], &[(23, 2)], header)?,
        is_refused(alloc, &[], &[(35, 2)], record)?,
        is_refused(alloc, &[], &[(43, 2)], record)?,
    ];
    assert_eq!(rt; refused, [true; 5]);
    Ok(())
}

#[test]
fn each_manifest_that_is_refused_has_its_cause(rt: HostRuntime) -> Result<(), Fail> {
    let alloc = rt.alloc();
    let header = (Cause::Damaged(FileName::ManifestA, 0), 6);
    let edit = (Cause::Damaged(FileName::ManifestA, 24), 6);
    let profile = (Cause::Profile(Profile::Normal, Profile::Small), 11);
    let limit = (Cause::Limit(LimitKind::Openings, 8_388_607), 8);
    let last = [(39, 0x7f), (40, 0xff), (41, 0xff)];
    // A byte of the header's letters; an edit of no kind, and an opening that doesn't fit; another
    // profile; and a session of which no later one is left. Damage of the log isn't looked for then.
    let refused = [
        is_refused(alloc, &[(1, b'f')], &[], header)?,
        is_refused(alloc, &[(33, 9)], &[(1, b'f')], edit)?,
        is_refused(alloc, &[(49, 2)], &[(1, b'f')], edit)?,
        is_refused(alloc, &[(7, 0)], &[(1, b'f')], profile)?,
        is_refused(alloc, &last, &[(1, b'f')], limit)?,
    ];
    assert_eq!(rt; refused, [true; 5]);
    Ok(())
}

#[test]
fn logs_without_a_manifest_are_refused(rt: HostRuntime) -> Result<(), Fail> {
    let told = run_over(rt.alloc(), None, LOG, b"put! a 2\n")?;
    let damaged = Cause::Damaged(FileName::Log(1), 0);
    assert!(rt; has_told(&told, (damaged, 6), b"", b""));
    assert!(rt; told.manifest.is_empty() && told.log.as_slice() == LOG);
    Ok(())
}

/// Runs `get a` over a directory that was opened twice, with the first log and this second one.
fn run_over_two(alloc: Global, second: &[u8]) -> Result<(Told, MemDevices), Fail> {
    let mut manifest = MANIFEST[..50].to_vec(alloc)?;
    manifest.extend_from_slice(SECOND_OPENING)?;
    let devices = MemDevices::new(alloc, Plans::empty(alloc))?;
    let devices = devices.with_file(JournalFile::ManifestA, &manifest)?;
    let devices = devices.with_file(JournalFile::Log(1), LOG)?;
    run_well(
        alloc,
        devices.with_file(JournalFile::Log(2), second)?,
        b"get a\n",
    )
}

/// Whether a store whose second log has these first bytes, but for these changes, is refused at
/// this place of it, and both logs are left alone.
fn second_is_refused(
    alloc: Global,
    length: usize,
    changes: &[(usize, u8)],
    at: u64,
) -> Result<bool, Fail> {
    let mut second = file_with(alloc, SECOND_LOG, changes)?;
    second.truncate(length);
    let (told, devices) = run_over_two(alloc, &second)?;
    let left = bytes_or_none(alloc, devices.bytes_of(JournalFile::Log(2)))?;
    let damaged = Cause::Damaged(FileName::Log(2), at);
    Ok(has_told(&told, (damaged, 6), b"", b"") && told.log.as_slice() == LOG && left == second)
}

#[test]
fn damage_of_a_second_log_is_told_where_it_is(rt: HostRuntime) -> Result<(), Fail> {
    let alloc = rt.alloc();
    let (told, _) = run_over_two(alloc, SECOND_LOG)?;
    // A byte of the header's letters; the number of another log; the first batch of the session
    // before; the second of no kind, or with the number of the first; and the second group cut, or
    // without its next gate.
    let refused = [
        second_is_refused(alloc, 81, &[(4, b'm')], 0)?,
        second_is_refused(alloc, 81, &[(15, 1)], 0)?,
        second_is_refused(alloc, 81, &[(35, 1)], 24)?,
        second_is_refused(alloc, 81, &[(71, 2)], 52)?,
        second_is_refused(alloc, 81, &[(68, 1)], 52)?,
        second_is_refused(alloc, 70, &[], 52)?,
        second_is_refused(alloc, 80, &[], 52)?,
    ];
    assert_eq!(rt; told.replies.as_slice(), b"2.2 value 3\n".as_slice());
    assert_eq!(rt; refused, [true; 7]);
    Ok(())
}

/// The replies to a script over a log with these changes.
fn replies_over(alloc: Global, changes: &[(usize, u8)], script: &[u8]) -> Result<Vec<u8>, Fail> {
    let log = file_with(alloc, LOG, changes)?;
    Ok(run_over(alloc, Some(MANIFEST), &log, script)?.replies)
}

#[test]
fn the_last_number_of_a_session_is_read_and_the_next_session_goes_on(
    rt: HostRuntime,
) -> Result<(), Fail> {
    let changes = [
        (35, 1),
        (36, 0xff),
        (37, 0xff),
        (38, 0xff),
        (39, 0xff),
        (40, 0xff),
    ];
    let replies = replies_over(rt.alloc(), &changes, b"get a\nput! a 2\nget a\n")?;
    assert_eq!(rt;
        replies.as_slice(),
        b"1.1099511627775 value 1\n2.1 synced\n2.1 value 2\n".as_slice()
    );
    Ok(())
}

/// Whether these words are refused.
fn are_refused(alloc: Global, list: &[&str]) -> Result<bool, Fail> {
    let words = words_of(alloc, list)?;
    let mut scripts = MemScripts::new(alloc, FailPlan::empty(alloc));
    let mut sinks = MemSinks::new(alloc, SinkPlans::empty(alloc));
    let devices = MemDevices::new(alloc, Plans::empty(alloc))?;
    let Ended { status, cause, .. } = top_plain(alloc, &words, devices, &mut scripts, &mut sinks);
    Ok(cause == Cause::Usage && status == 2)
}

/// Whether a script alone, of which the source fails by this plan, ends so and opens nothing.
fn opens_nothing(
    alloc: Global,
    script: &[u8],
    source: FailPlan,
    end: (Cause, u8),
) -> Result<bool, Fail> {
    let told = run_one(alloc, script, source, SinkPlans::empty(alloc))?;
    Ok(has_told(&told, end, b"", b"") && told.log.is_empty())
}

#[test]
fn faulty_words_and_scripts_open_nothing(rt: HostRuntime) -> Result<(), Fail> {
    let alloc = rt.alloc();
    let refused = [
        are_refused(alloc, &[])?,
        are_refused(alloc, &["run", "d", "a.txt"])?,
        are_refused(alloc, &["run", "--profile", "small", "--workers", "0", "d"])?,
        are_refused(
            alloc,
            &["run", "--profile", "small", "--workers", "0", "", "a.txt"],
        )?,
        are_refused(
            alloc,
            &["run", "--profile", "small", "--workers", "0", "d", "-a"],
        )?,
    ];
    let faulty = Cause::Script(1, 2, Why::Command);
    let none = FailPlan::empty(alloc);
    let script = opens_nothing(alloc, b"get a\nput a 1\n", none, (faulty, 3))?;
    assert_eq!(rt; refused, [true; 5]);
    assert!(rt; script);
    Ok(())
}

/// How a run ended whose journal failed once: well; nothing was opened; the first put was told to
/// have failed, or the second one; or otherwise.
#[derive(Clone, Copy, PartialEq, Eq)]
enum End {
    Done,
    Refused,
    Stopped,
    Unsynced,
    Other,
}

fn end_of(told: &Told) -> End {
    let replies = told.replies.as_slice();
    let report = told.report.as_slice();
    if told.status == 0 {
        return End::Done;
    }
    if told.cause != Cause::Journal {
        return End::Other;
    }
    if replies.is_empty() && report.is_empty() {
        return End::Refused;
    }
    if replies == b"1.1 unsynced fault journal\nstopped\n1.1 value 1\n".as_slice()
        && report == REPORT
    {
        return End::Stopped;
    }
    if replies == b"1.1 synced\n1.2 unsynced fault journal\n1.2 value 2\n".as_slice() {
        return End::Unsynced;
    }
    End::Other
}

/// Which of the values 1 and 2 a run read, 0 where there was none, and 9 where it told otherwise.
fn value_of(told: &Told) -> u8 {
    match told.replies.as_slice() {
        b"0.0 none\n" if told.status == 0 => 0,
        b"1.1 value 1\n" if told.status == 0 => 1,
        b"1.2 value 2\n" if told.status == 0 => 2,
        _ => 9,
    }
}

/// How a run of two puts ended in which this call of the journal failed, and which value was read
/// after a crash.
fn fail_and_crash(alloc: Global, call: u64, pick: Pick) -> Result<(End, u8), Fail> {
    let (told, again) = run_and_crash(
        alloc,
        failing(alloc, call)?,
        pick,
        b"put! a 1\nput! a 2\nget a\n",
        b"get a\n",
    )?;
    Ok((end_of(&told), value_of(&again)))
}

#[test]
fn a_journal_that_fails_once_leaves_the_batch_or_nothing(rt: HostRuntime) -> Result<(), Fail> {
    let (mut refused, mut stopped, mut unsynced) = (false, false, false);
    for call in 1..64 {
        for pick in PICKS {
            match fail_and_crash(rt.alloc(), call, pick)? {
                (End::Done, _) => {
                    assert!(rt; refused && stopped && unsynced);
                    return Ok(());
                }
                (End::Refused, 0) => refused = true,
                (End::Stopped, 0 | 1) => stopped = true,
                (End::Unsynced, 1 | 2) => unsynced = true,
                (_, _) => return Err("a reply or a value is wrong".into()),
            }
        }
    }
    Err("no run without a fault".into())
}

/// Whether what was told to be synced is there, line by line.
fn are_kept(told: &[u8], again: &[u8]) -> bool {
    let ends = [b" 1", b" 2", b" 3", b" 4", b" 5"];
    let synced = told.split(|b| *b == b'\n');
    let values = again.split(|b| *b == b'\n');
    for ((line, value), end) in synced.zip(values).zip(ends) {
        if line.ends_with(b" synced") && !value.ends_with(end) {
            return false;
        }
    }
    true
}

/// Whether a run whose journal fails from this call on went well, and whether all that it told to
/// be synced is there after a crash.
fn stop_and_crash(alloc: Global, call: u64, pick: Pick) -> Result<(bool, bool), Fail> {
    let plan = FailPlan {
        calls: Vec::new(alloc),
        from: Some(call),
    };
    let (told, again) = run_and_crash(
        alloc,
        plan,
        pick,
        b"put! a 1\nput! b 2\nput! c 3\nput! d 4\nput! e 5\n",
        b"get a\nget b\nget c\nget d\nget e\n",
    )?;
    let kept = again.status == 0 && are_kept(&told.replies, &again.replies);
    Ok((told.status == 0, kept))
}

#[test]
fn what_was_told_synced_is_there_after_any_crash(rt: HostRuntime) -> Result<(), Fail> {
    for call in 1..64 {
        for pick in PICKS {
            let (done, kept) = stop_and_crash(rt.alloc(), call, pick)?;
            assert!(rt; kept);
            if done {
                return Ok(());
            }
        }
    }
    Err("no run without a fault".into())
}

#[test]
fn a_source_that_fails_opens_nothing(rt: HostRuntime) -> Result<(), Fail> {
    let alloc = rt.alloc();
    let source = Cause::Source(1);
    let script = b"put! a 1\nget a\n";
    let first = opens_nothing(alloc, script, failing(alloc, 1)?, (source, 10))?;
    let second = opens_nothing(alloc, script, failing(alloc, 2)?, (source, 10))?;
    assert!(rt; first && second);
    Ok(())
}

/// What is told where sinks fail: by their calls, by the room of the replies, by that of the
/// report.
fn run_into(
    alloc: Global,
    calls: FailPlan,
    room: Option<u64>,
    report: Option<u64>,
) -> Result<Told, Fail> {
    let mut rooms = Vec::new(alloc);
    if let Some(room) = room {
        rooms.push((1, room))?;
    }
    let plans = SinkPlans {
        calls,
        rooms,
        report,
    };
    run_one(alloc, b"put! a 1\nget a\n", FailPlan::empty(alloc), plans)
}

/// Whether a run told so whose sinks failed.
fn is_cut(told: Told, client: u32, replies: &[u8], report: &[u8]) -> bool {
    has_told(&told, (Cause::Sink(client), 9), replies, report)
}

#[test]
fn sinks_that_fail_have_their_cause_and_the_store_is_closed(rt: HostRuntime) -> Result<(), Fail> {
    let alloc = rt.alloc();
    let all = b"1.1 synced\n1.1 value 1\n";
    let told = run_into(alloc, failing(alloc, 1)?, None, None)?;
    let unopened = is_cut(told, 1, b"", EMPTY_REPORT);
    let told = run_into(alloc, failing(alloc, 2)?, None, None)?;
    let unreported = is_cut(told, 0, all, b"");
    let told = run_into(alloc, FailPlan::empty(alloc), Some(5), None)?;
    let early = is_cut(told, 1, b"1.1 s", REPORT);
    let told = run_into(alloc, FailPlan::empty(alloc), Some(15), None)?;
    let late = is_cut(told, 1, b"1.1 synced\n1.1 ", REPORT);
    let told = run_into(alloc, FailPlan::empty(alloc), None, Some(3))?;
    let report = is_cut(told, 0, all, b"las");
    assert_eq!(rt; [unopened, unreported, early, late, report], [true; 5]);
    Ok(())
}
