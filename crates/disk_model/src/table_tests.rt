//! Plans and picks of ports and makers, of which no clause speaks, and each of their calls once.

use crate::{Devices, FailPlan, Failed, Maker, MemDevices, MemTableFile, Pick, Plans, Port};
use std::alloc::Global;
use std::test::Fail;

/// Seals a table of this number with these bytes, written in two parts.
fn seal<M: Maker>(maker: &mut M, number: u64, bytes: &[u8]) -> Result<M::File, Failed> {
    let (front, rest) = bytes.split_at(bytes.len() / 2);
    maker.begin(number)?;
    maker.write(front)?;
    maker.write(rest)?;
    maker.seal()
}

/// Devices with the tables 1, 2 and 3, of which the first is retired and the second removed, and
/// the number 4 begun.
fn written(alloc: Global) -> Result<MemDevices, Fail> {
    let mut devices = MemDevices::new(alloc, Plans::empty(alloc))?;
    let mut maker = devices.maker()?;
    let first = seal(&mut maker, 1, b"one")?;
    let _second: MemTableFile = seal(&mut maker, 2, b"two")?;
    let _third: MemTableFile = seal(&mut maker, 3, b"three")?;
    maker.retire(&first)?;
    maker.remove(2)?;
    maker.begin(4)?;
    devices.back_maker(maker);
    Ok(devices)
}

/// The numbers that are listed, and the bytes of a table of this number, or "none".
fn tables_of(
    alloc: Global,
    devices: &mut MemDevices,
    number: u64,
) -> Result<(Vec<u64>, Vec<u8>), Fail> {
    let mut port = devices.port()?;
    let numbers = port.list()?;
    devices.back_port(port);
    let bytes = devices.table_bytes(number).unwrap_or(b"none");
    Ok((numbers, bytes.to_vec(alloc)?))
}

/// The numbers that are listed after a crash, and the bytes of table 3.
fn left(alloc: Global, pick: Pick) -> Result<(Vec<u64>, Vec<u8>), Fail> {
    let mut devices = written(alloc)?.crash(pick)?;
    tables_of(alloc, &mut devices, 3)
}

/// What two reads of table 3 give, by a port and by a fork of it, and whether tables 1 and 4 are
/// found.
fn read(alloc: Global) -> Result<(usize, [u8; 4], usize, [bool; 2]), Fail> {
    let mut devices = written(alloc)?;
    let mut port = devices.port()?;
    let found = [port.find(1)?.is_some(), port.find(4)?.is_some()];
    let file = port.find(3)?.ok_or("no table")?;
    let mut out = [0; 4];
    let count = port.read(&file, 1, &mut out)?;
    let mut fork = port.fork()?;
    let end = fork.read(&file, 5, &mut out)?;
    port.join(fork);
    devices.back_port(port);
    Ok((count, out, end, found))
}

/// Which calls of two makers and of two ports fail where the third call of makers, and the fourth
/// and all later ones of ports fail.
fn planned(alloc: Global) -> Result<([bool; 2], [bool; 4]), Fail> {
    let mut plans = Plans::empty(alloc);
    plans.maker.calls = vec![in alloc; 3]?;
    plans.port.from = Some(4);
    let mut devices = MemDevices::new(alloc, plans)?;
    let mut maker = devices.maker()?;
    maker.begin(1)?;
    maker.write(b"a")?;
    let mut other = devices.maker()?;
    let made = [other.begin(2).is_err(), maker.seal().is_err()];
    devices.back_maker(maker);
    devices.back_maker(other);
    let mut port = devices.port()?;
    let mut fork = port.fork()?;
    let found = [
        port.find(1).is_err(),
        fork.find(1).is_err(),
        fork.list().is_err(),
        port.list().is_err(),
    ];
    port.join(fork);
    devices.back_port(port);
    Ok((made, found))
}

/// Which calls of a maker fail, each kind at least once, where the second, the fourth, the eighth
/// and all later ones are to: and the table that was sealed before.
fn planned_makes(alloc: Global) -> Result<([bool; 6], Vec<u8>), Fail> {
    let mut plans = Plans::empty(alloc);
    plans.maker = FailPlan {
        calls: vec![in alloc; 2, 4]?,
        from: Some(8),
    };
    let mut devices = MemDevices::new(alloc, plans)?;
    let mut maker = devices.maker()?;
    maker.begin(1)?;
    let first = maker.write(b"a").is_err();
    maker.write(b"b")?;
    let second = maker.seal().is_err();
    maker.begin(1)?;
    maker.write(b"c")?;
    let file = maker.seal()?;
    let failed = [
        first,
        second,
        maker.retire(&file).is_err(),
        maker.remove(1).is_err(),
        maker.begin(3).is_err(),
        maker.retire(&file).is_err(),
    ];
    devices.back_maker(maker);
    Ok((
        failed,
        devices.table_bytes(1).unwrap_or(b"none").to_vec(alloc)?,
    ))
}

/// Which calls of a port fail, each kind once, where all from the second on are to.
fn planned_reads(alloc: Global) -> Result<[bool; 4], Fail> {
    let mut plans = Plans::empty(alloc);
    plans.port.from = Some(2);
    let mut devices = MemDevices::new(alloc, plans)?.with_table(1, b"one")?;
    let mut port = devices.port()?;
    let found = port.find(1)?;
    let file = found.ok_or("no table")?;
    let mut out = [0; 4];
    let failed = [
        port.read(&file, 0, &mut out).is_err(),
        port.list().is_err(),
        port.find(1).is_err(),
        port.read(&file, 0, &mut out).is_err(),
    ];
    devices.back_port(port);
    Ok(failed)
}

#[test]
fn a_sealed_table_is_found_listed_and_read(rt: HostRuntime) -> Result<(), Fail> {
    let mut devices = written(rt.alloc())?;
    let (numbers, bytes) = tables_of(rt.alloc(), &mut devices, 3)?;
    assert_eq!(rt; numbers.as_slice(), [3, 4].as_slice());
    assert_eq!(rt; bytes.as_slice(), b"three".as_slice());
    assert_eq!(rt; read(rt.alloc())?, (4, *b"hree", 0, [false, false]));
    Ok(())
}

#[test]
fn a_crash_brings_tables_back_by_its_pick(rt: HostRuntime) -> Result<(), Fail> {
    let (old, _) = left(rt.alloc(), Pick::Old)?;
    let (new, _) = left(rt.alloc(), Pick::New)?;
    assert_eq!(rt; old.as_slice(), [1, 2, 3].as_slice());
    assert_eq!(rt; new.as_slice(), [3, 4].as_slice());
    let (mut back, mut lost, mut begun) = (false, false, false);
    for seed in 0..32 {
        let (numbers, bytes) = left(rt.alloc(), Pick::Seeded(seed))?;
        back = back || numbers.contains(&1);
        lost = lost || !numbers.contains(&1);
        begun = begun || numbers.contains(&4);
        assert_eq!(rt; bytes.as_slice(), b"three".as_slice());
    }
    assert!(rt; back && lost && begun);
    Ok(())
}

#[test]
fn the_objects_of_a_kind_share_their_plan(rt: HostRuntime) -> Result<(), Fail> {
    let (made, found) = planned(rt.alloc())?;
    assert_eq!(rt; made, [true, false]);
    assert_eq!(rt; found, [false, false, false, true]);
    Ok(())
}

#[test]
fn each_call_of_a_maker_is_planned(rt: HostRuntime) -> Result<(), Fail> {
    let (failed, bytes) = planned_makes(rt.alloc())?;
    assert_eq!(rt; failed, [true; 6]);
    assert_eq!(rt;
        bytes.as_slice(),
        b"c".as_slice(),
        "sealed, and not taken away"
    );
    Ok(())
}

#[test]
fn each_call_of_a_port_is_planned(rt: HostRuntime) -> Result<(), Fail> {
    let failed = planned_reads(rt.alloc())?;
    assert_eq!(rt; failed, [true; 4]);
    Ok(())
}

#[test]
fn a_planted_table_is_read(rt: HostRuntime) -> Result<(), Fail> {
    let alloc = rt.alloc();
    let mut devices = written(alloc)?.with_table(3, b"thre")?;
    let (numbers, bytes) = tables_of(alloc, &mut devices, 3)?;
    assert_eq!(rt; numbers.as_slice(), [3, 4].as_slice());
    assert_eq!(rt; bytes.as_slice(), b"thre".as_slice());
    Ok(())
}
