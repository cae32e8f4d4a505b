//! The log against bytes from outside.

use crate::{BatchRecordFault, Header, LogFault, LogFile, read_batch, write_batch};
use disk_model::{Devices, Journal, JournalFile, MemDevices, Plans};
use peb_base::{Batch, Number, Profile};
use std::alloc::Global;
use std::test::Fail;

/// Log 1 of session 1 in the small profile, with one batch: the put of `1` to `a`, numbered 1.1.
const LOG: [u8; 53] = [
    1, b'F', b'L', b'S', b'M', b'L', 1, 1, 0, 0, 0, 0, 0, 0, 0, 1, 0, 0, 0, 0, 0, 0, 0, 1, 1, 0, 0,
    0, 23, 0, 0, 0, 19, 0, 0, 1, 0, 0, 0, 0, 1, 0, 1, 1, 0, 1, b'a', 0, 0, 0, 1, b'1', 0,
];

/// What opening tells of a file.
#[derive(Clone, Copy, Debug, PartialEq, Eq)]
enum Told {
    Absent,
    Records(usize),
    Damaged(u64),
    Failed,
}

fn opened(alloc: Global, bytes: &[u8]) -> Result<Told, Fail> {
    let devices = MemDevices::new(alloc, Plans::empty(alloc))?;
    let mut devices = devices.with_file(JournalFile::Log(1), bytes)?;
    let mut journal = devices.journal()?;
    Ok(
        match LogFile::open(alloc, &mut journal, JournalFile::Log(1)) {
            Ok(Some(found)) => Told::Records(found.1.len()),
            Ok(None) => Told::Absent,
            Err(LogFault::Damaged { at }) => Told::Damaged(at),
            Err(_) => Told::Failed,
        },
    )
}

#[test]
fn the_log_of_one_put_has_these_bytes(rt: HostRuntime) -> Result<(), Fail> {
    let alloc = rt.alloc();
    let mut devices = MemDevices::new(alloc, Plans::empty(alloc))?;
    let mut journal = devices.journal()?;
    let mut batch = Batch::new(alloc);
    batch.put(b"a", b"1")?;
    let body = write_batch(alloc, Number::new(1, 1), &batch)?;
    let header = Header::of_log(Profile::Small, 1, 1);
    let mut log = LogFile::create(alloc, &mut journal, JournalFile::Log(1), header)?;
    log.add(&body)?;
    assert_eq!(rt; log.tail(), 23);
    log.close_group(&mut journal)?;
    assert_eq!(rt; log.tail(), 0);
    devices.back(journal);
    let bytes = devices.bytes_of(JournalFile::Log(1)).ok_or("no log")?;
    assert_eq!(rt; bytes, LOG.as_slice());
    Ok(())
}

#[test]
fn the_log_of_one_put_is_read(rt: HostRuntime) -> Result<(), Fail> {
    let alloc = rt.alloc();
    let devices = MemDevices::new(alloc, Plans::empty(alloc))?;
    let mut devices = devices.with_file(JournalFile::Log(1), &LOG)?;
    let mut journal = devices.journal()?;
    let found = LogFile::open(alloc, &mut journal, JournalFile::Log(1))?;
    let (header, records) = found.ok_or("no log")?;
    assert_eq!(rt; header, Header::of_log(Profile::Small, 1, 1));
    assert_eq!(rt; records.len(), 1);
    assert_eq!(rt; records[0].gate, 24);
    let (first, batch) = read_batch(alloc, &records[0].body)?;
    assert_eq!(rt; first, Number::new(1, 1));
    assert_eq!(rt; batch.ops().len(), 1);
    assert_eq!(rt; batch.ops()[0].key.bytes(), b"a".as_slice());
    Ok(())
}

#[test]
fn a_log_is_read_up_to_its_first_broken_group(rt: HostRuntime) -> Result<(), Fail> {
    let alloc = rt.alloc();
    // Groups of the same batch at 24 and 52; the second has another length.
    let mut bytes = LOG[..52].to_vec(alloc)?;
    bytes.extend_from_slice(&LOG[24..])?;
    assert_eq!(rt; opened(alloc, &bytes)?, Told::Records(2));
    bytes[56] = 22;
    assert_eq!(rt; opened(alloc, &bytes)?, Told::Damaged(52));
    let devices = MemDevices::new(alloc, Plans::empty(alloc))?;
    let mut devices = devices.with_file(JournalFile::Log(1), &bytes)?;
    let mut journal = devices.journal()?;
    let found = LogFile::read_front(alloc, &mut journal, JournalFile::Log(1))?;
    let front = found.ok_or("no log")?;
    assert_eq!(rt; front.records.len(), 1);
    assert_eq!(rt; front.records[0].gate, 24);
    let place = match front.log {
        Ok(_) => None,
        Err(at) => Some(at),
    };
    assert_eq!(rt; place, Some(52));
    Ok(())
}

/// Reads a log, and closes a group of a record with this body behind what was read: how many
/// records that were.
fn grown<J: Journal>(alloc: Global, journal: &mut J, body: &[u8]) -> Result<usize, Fail> {
    let (mut log, header, records) = match LogFile::resume(alloc, journal, JournalFile::Log(1)) {
        Ok(Some(read)) => read,
        Ok(None) => return Err("no log".into()),
        Err(fault) => return Err(fault.into()),
    };
    if header != Header::of_log(Profile::Small, 1, 1) || log.tail() != 0 {
        return Err("another log".into());
    }
    log.add(body)?;
    log.close_group(journal)?;
    Ok(records.len())
}

#[test]
fn a_log_that_was_read_takes_further_groups(rt: HostRuntime) -> Result<(), Fail> {
    let alloc = rt.alloc();
    let devices = MemDevices::new(alloc, Plans::empty(alloc))?;
    let mut devices = devices.with_file(JournalFile::Log(1), &LOG)?;
    let mut journal = devices.journal()?;
    let read = grown(alloc, &mut journal, b"more")?;
    devices.back(journal);
    let bytes = devices.bytes_of(JournalFile::Log(1)).ok_or("no log")?;
    let mut want = LOG[..52].to_vec(alloc)?;
    want.extend_from_slice(&[1, 0, 0, 0, 8, 0, 0, 0, 4, b'm', b'o', b'r', b'e', 0])?;
    assert_eq!(rt; read, 1);
    assert_eq!(rt; bytes, want.as_slice());
    Ok(())
}

#[test]
fn damage_is_told_at_the_header_or_at_the_gate(rt: HostRuntime) -> Result<(), Fail> {
    let alloc = rt.alloc();
    for (at, value, want) in [
        (1, b'f', Told::Damaged(0)),
        (7, 2, Told::Damaged(0)),
        (15, 2, Told::Damaged(0)),
        (28, 22, Told::Damaged(24)),
        (32, 18, Told::Damaged(24)),
        (0, 0, Told::Absent),
        (24, 2, Told::Records(0)),
        (52, 9, Told::Records(1)),
    ] {
        let mut bytes = LOG;
        bytes[at] = value;
        assert_eq!(rt; opened(alloc, &bytes)?, want, "byte {at}");
    }
    Ok(())
}

#[test]
fn a_log_that_is_cut_is_damaged_or_absent(rt: HostRuntime) -> Result<(), Fail> {
    let alloc = rt.alloc();
    for (len, want) in [
        (24, Told::Absent),
        (25, Told::Damaged(24)),
        (40, Told::Damaged(24)),
        (52, Told::Damaged(24)),
        (53, Told::Records(1)),
    ] {
        assert_eq!(rt; opened(alloc, &LOG[..len])?, want, "{len} bytes");
    }
    Ok(())
}

#[test]
fn a_put_and_a_deletion_have_these_bytes(rt: HostRuntime) -> Result<(), Fail> {
    let alloc = rt.alloc();
    let mut batch = Batch::new(alloc);
    batch.put(b"a", b"1")?;
    batch.delete(b"b")?;
    let body = write_batch(alloc, Number::new(1, 1), &batch)?;
    let want = [
        0, 0, 1, 0, 0, 0, 0, 1, 0, 2, 1, 0, 1, b'a', 0, 0, 0, 1, b'1', 0, 0, 1, b'b',
    ];
    assert_eq!(rt; body.as_slice(), want.as_slice());
    let (first, read) = read_batch(alloc, &body)?;
    assert_eq!(rt; first, Number::new(1, 1));
    assert_eq!(rt; read.ops().len(), 2);
    Ok(())
}

#[test]
fn bytes_that_spell_no_batch_are_refused(rt: HostRuntime) -> Result<(), Fail> {
    let alloc = rt.alloc();
    // The session, the count in it, the number of operations, the kind, the key's length and the
    // value's.
    for (at, value) in [
        (2, 0),
        (7, 0),
        (9, 0),
        (9, 2),
        (10, 2),
        (12, 0),
        (17, 0),
        (17, 2),
    ] {
        let mut body = [
            0, 0, 1, 0, 0, 0, 0, 1, 0, 1, 1, 0, 1, b'a', 0, 0, 0, 1, b'1',
        ];
        body[at] = value;
        let refused = match read_batch(alloc, &body) {
            Ok(_) => false,
            Err(fault) => fault == BatchRecordFault::Form,
        };
        assert!(rt; refused, "byte {at} is {value}");
    }
    Ok(())
}
