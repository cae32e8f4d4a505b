//! A store over a journal in memory.

use crate::{CurrentMap, Parts, State, Store};
use disk_model::{Devices, JournalFile, MemDevices, Plans};
use peb_base::{Key, Number, Profile, Value};
use record_log::{Header, LogFile};
use std::test::Fail;

#[test]
fn a_store_of_an_empty_log_reads_what_is_put(rt: HostRuntime) -> Result<(), Fail> {
    let alloc = rt.alloc();
    let mut devices = MemDevices::new(alloc, Plans::empty(alloc))?;
    let mut journal = devices.journal()?;
    let header = Header::of_log(Profile::Small, 1, 1);
    let Ok(log) = LogFile::create(alloc, &mut journal, JournalFile::Log(1), header) else {
        return Err("no log".into());
    };
    let mut store = State::new(Parts {
        alloc,
        journal,
        log,
        current: CurrentMap::new(alloc),
        session: 1,
        last: Number::of_packed(0),
    });
    assert_eq!(rt;
        store.put(Key::new(alloc, b"a")?, Value::new(alloc, b"1")?)?,
        Number::new(1, 1)
    );
    assert_eq!(rt; store.get(b"a").ok_or("no value")?, b"1".as_slice());
    assert_eq!(rt; store.last(), Number::new(1, 1));
    devices.back(store.close());
    Ok(())
}
