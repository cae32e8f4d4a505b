//! Tables that are written, opened again and walked.

use crate::tests::ONE;
use crate::{TripFault, are_sorted, round_trip};
use disk_model::{MemDevices, Plans};
use peb_base::{Change, Entry, Key, List, Number, Options, Profile, Value};
use std::alloc::Global;
use std::test::Fail;

/// An entry of session 1.
fn entry(alloc: Global, key: &[u8], count: u64, value: Option<&[u8]>) -> Result<Entry, Fail> {
    let change = match value {
        Some(value) => Change::Put(Value::new(alloc, value)?),
        None => Change::Delete,
    };
    Ok(Entry {
        key: Key::new(alloc, key)?,
        number: Number::new(1, count % 1000),
        change,
    })
}

/// Whether writing, opening and walking these sorted entries fails where this call of the port does.
fn fails_at_call(alloc: Global, entries: &[Entry], call: u64) -> Result<bool, Fail> {
    if entries.is_empty() || !are_sorted(entries) {
        return Err("not sorted".into());
    }
    let mut plans = Plans::empty(alloc);
    plans.port.calls.push(call)?;
    let mut devices = MemDevices::new(alloc, plans)?;
    let options = Options::of(Profile::Small);
    match round_trip(alloc, &mut devices, &options, ONE, 2, entries) {
        Ok(_) => Ok(false),
        Err(TripFault::Fault) => Ok(true),
        Err(why) => Err(why.into()),
    }
}

/// Writes these entries and walks them, if they are sorted.
fn tripped(alloc: Global, entries: &[Entry]) -> Result<Option<List<Entry>>, Fail> {
    if entries.is_empty() || !are_sorted(entries) {
        return Ok(None);
    }
    let mut devices = MemDevices::new(alloc, Plans::empty(alloc))?;
    let options = Options::of(Profile::Small);
    let seen = round_trip(alloc, &mut devices, &options, ONE, 2, entries)?;
    Ok(Some(seen))
}

/// The first byte of the key, the count of the number and the length of the value of each.
fn plain(
    alloc: Global,
    entries: &List<Entry>,
) -> Result<Vec<(Option<u8>, u64, Option<usize>)>, Fail> {
    let mut plain = Vec::new(alloc);
    for entry in entries.items() {
        let value = match &entry.change {
            Change::Put(value) => Some(value.bytes().len()),
            Change::Delete => None,
        };
        plain.push((
            entry.key.bytes().first().copied(),
            entry.number.count(),
            value,
        ))?;
    }
    Ok(plain)
}

#[test]
fn what_was_written_is_walked(rt: HostRuntime) -> Result<(), Fail> {
    let alloc = rt.alloc();
    let mut entries = Vec::new(alloc);
    entries.push(entry(alloc, b"a", 2, None)?)?;
    entries.push(entry(alloc, b"a", 1, Some(&[b'v'; 240]))?)?;
    entries.push(entry(alloc, b"p", 3, Some(b"12"))?)?;
    let seen = tripped(alloc, &entries)?.ok_or("not sorted")?;
    assert_eq!(rt;
        plain(alloc, &seen)?.as_slice(),
        [
            (Some(b'a'), 2, None),
            (Some(b'a'), 1, Some(240)),
            (Some(b'p'), 3, Some(2))
        ]
        .as_slice()
    );
    entries.push(entry(alloc, b"p", 4, None)?)?;
    assert!(rt; tripped(alloc, &entries)?.is_none());
    Ok(())
}

/// The port is handed out, three reads open the table, and each of its two blocks takes one.
#[test]
fn what_is_walked_is_read(rt: HostRuntime) -> Result<(), Fail> {
    let alloc = rt.alloc();
    let mut entries = Vec::new(alloc);
    entries.push(entry(alloc, b"a", 1, Some(&[b'v'; 300]))?)?;
    entries.push(entry(alloc, b"p", 3, Some(b"12"))?)?;
    let mut failing = Vec::new(alloc);
    for call in 1..=7 {
        failing.push(fails_at_call(alloc, &entries, call)?)?;
    }
    assert_eq!(rt;
        failing.as_slice(),
        [true, true, true, true, true, true, false].as_slice()
    );
    Ok(())
}
