//! Each adapter over real files once.

use crate::{RealDevices, RealScripts, RealSinks};
use disk_model::{Devices, Journal, JournalFile, Port, Scripts, Sink, Sinks};
use std::fs;
use std::test::Fail;

const LOG: JournalFile = JournalFile::Log(1);

#[test]
fn what_the_journal_wrote_the_next_one_reads(rt: HostRuntime) -> Result<(), Fail> {
    let mut devices = RealDevices::new(rt);
    devices.set("journal-read")?;
    let mut journal = devices.journal()?;
    let absent = journal.size(LOG)?;
    journal.write(LOG, 0, b"abcd")?;
    journal.write(LOG, 2, b"xyz")?;
    journal.sync(LOG)?;
    devices.back(journal);
    let mut journal = devices.journal()?;
    let mut out = [0; 8];
    let read = (journal.size(LOG)?, journal.read(LOG, 1, &mut out)?, out);
    journal.drop_file(LOG)?;
    let gone = journal.size(LOG)?;
    devices.back(journal);
    fs::remove_dir(&rt, "journal-read")?;
    assert_eq!(rt; absent, None);
    assert_eq!(rt; read, (Some(5), 4, *b"bxyz\0\0\0\0"));
    assert_eq!(rt; gone, None);
    Ok(())
}

#[test]
fn a_directory_is_opened_once_at_a_time(rt: HostRuntime) -> Result<(), Fail> {
    fs::create_dir(&rt, "locked")?;
    let mut first = RealDevices::new(rt);
    first.set("locked")?;
    let journal = first.journal()?;
    let mut second = RealDevices::new(rt);
    second.set("locked")?;
    let refused = second.journal().is_err() && second.port().is_err() && second.maker().is_err();
    first.back(journal);
    let journal = first.journal()?;
    first.back(journal);
    drop(first);
    let journal = second.journal()?;
    second.back(journal);
    fs::remove_dir(&rt, "locked")?;
    assert!(rt; refused);
    Ok(())
}

#[test]
fn a_script_is_fetched_in_parts_to_its_end(rt: HostRuntime) -> Result<(), Fail> {
    fs::write(&rt, "script.txt", "get a")?;
    let mut scripts = RealScripts::new(rt);
    let mut out = [0; 4];
    let first = (scripts.fetch("script.txt", 0, &mut out)?, out);
    let second = scripts.fetch("script.txt", 4, &mut out)?;
    let end = scripts.fetch("script.txt", 5, &mut out)?;
    let absent = scripts.fetch("absent.txt", 0, &mut out).is_err();
    fs::remove_file(&rt, "script.txt")?;
    assert_eq!(rt; first, (4, *b"get "));
    assert_eq!(rt; (second, end), (1, 0));
    assert!(rt; absent);
    Ok(())
}

#[test]
fn replies_are_in_the_file_as_they_are_given(rt: HostRuntime) -> Result<(), Fail> {
    fs::write(&rt, "replies.txt", "older")?;
    let mut sinks = RealSinks::new(rt);
    let mut one = sinks.client(1, "replies.txt")?;
    one.put(b"ab")?;
    let early = fs::read_to_string(&rt, "replies.txt")?;
    one.put(b"cd")?;
    let text = fs::read_to_string(&rt, "replies.txt")?;
    sinks.back(1, one);
    fs::remove_file(&rt, "replies.txt")?;
    let refused = sinks.client(2, "absent/replies.txt").is_err();
    assert_eq!(rt; early.as_str(), "ab");
    assert_eq!(rt; text.as_str(), "abcd");
    assert!(rt; refused);
    Ok(())
}

#[test]
fn each_file_of_the_journal_is_a_file_of_its_own(rt: HostRuntime) -> Result<(), Fail> {
    let mut devices = RealDevices::new(rt);
    devices.set("journal-files")?;
    let mut journal = devices.journal()?;
    journal.write(LOG, 0, b"one")?;
    journal.write(JournalFile::Log(2), 0, b"three")?;
    journal.write(JournalFile::ManifestA, 0, b"m")?;
    let sizes = (
        journal.size(LOG)?,
        journal.size(JournalFile::Log(2))?,
        journal.size(JournalFile::ManifestA)?,
        journal.size(JournalFile::ManifestB)?,
    );
    devices.back(journal);
    fs::remove_dir_all(&rt, "journal-files")?;
    assert_eq!(rt; sizes, (Some(3), Some(5), Some(1), None));
    Ok(())
}

#[test]
fn a_log_that_another_made_meanwhile_is_left_alone(rt: HostRuntime) -> Result<(), Fail> {
    let mut devices = RealDevices::new(rt);
    devices.set("made-meanwhile")?;
    let mut journal = devices.journal()?;
    let absent = journal.size(LOG)?;
    let mut others = RealDevices::new(rt);
    others.set("made-meanwhile")?;
    let mut other = others.journal()?;
    other.write(LOG, 0, b"other")?;
    other.sync(LOG)?;
    others.back(other);
    drop(others);
    let mut port = devices.port()?;
    let tables = port.list()?.len();
    devices.back_port(port);
    let _ = journal.drop_file(LOG);
    let written = journal.write(LOG, 0, b"a").is_ok();
    let _ = journal.drop_file(LOG);
    devices.back(journal);
    let text = fs::read_to_string(&rt, "made-meanwhile/log-1")?;
    fs::remove_dir_all(&rt, "made-meanwhile")?;
    assert_eq!(rt; (absent, tables, written), (None, 0, false));
    assert_eq!(rt; text.as_str(), "other");
    Ok(())
}
