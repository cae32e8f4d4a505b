//! What the ports and makers do to real files: no contract can say it.

use crate::{KeepOut, RealDevices};
use disk_model::{Devices, Failed, Maker, Port};
use std::fs;
use std::rt::Files;
use std::sync::Wait;
use std::test::Fail;

/// The number of table 1.2.
const NUMBER: u64 = (1 << 40) + 2;

/// Devices over a directory of this name that isn't there.
fn devices_over<R>(rt: R, name: &str) -> Result<RealDevices<R>, Fail>
where
    R: Files<File: KeepOut + Send + Sync> + Wait + AllocGlobal + Clone + Drop + Send + Sync,
{
    let mut devices = RealDevices::new(rt);
    devices.set(name)?;
    Ok(devices)
}

fn names_in(rt: &HostRuntime, name: &str) -> Result<Vec<String>, Fail> {
    let mut names = Vec::new(rt.alloc());
    for entry in fs::read_dir(rt, name)? {
        names.push(String::from_str(rt.alloc(), entry?.file_name())?)?;
    }
    Ok(names)
}

/// What a table made by a maker told: how many are listed before, the bytes taken, whether a table
/// of a number that is there is begun, how many are listed after and whether the sealed one is, which
/// of both weren't found while they were begun, and two reads.
#[derive(Clone, Copy)]
struct Made {
    before: usize,
    early: bool,
    taken: u64,
    again: bool,
    after: (usize, bool),
    unsealed: bool,
    read: (usize, [u8; 4], usize),
}

/// Begins a table, and another in its place that is sealed.
fn make<M: Maker, P: Port<File = M::File>>(maker: &mut M, port: &mut P) -> Result<bool, Failed> {
    maker.begin(NUMBER)?;
    maker.write(b"one")?;
    maker.begin(NUMBER + 1)?;
    maker.write(b"two")?;
    maker.write(b"three")?;
    let early = port.find(NUMBER + 1)?.is_none();
    drop(maker.seal()?);
    Ok(early)
}

/// Two reads of the table that was sealed.
fn read<P: Port>(port: &mut P) -> Result<(usize, [u8; 4], usize), Fail> {
    let file = port.find(NUMBER + 1)?.ok_or("no table")?;
    let mut out = [0; 4];
    let first = port.read(&file, 3, &mut out)?;
    let text = out;
    let second = port.read(&file, 7, &mut out)?;
    Ok((first, text, second))
}

fn made_by<M: Maker, P: Port<File = M::File>>(maker: &mut M, port: &mut P) -> Result<Made, Fail> {
    let before = port.list()?.len();
    let early = make(maker, port)?;
    let taken = maker.taken();
    let again = maker.begin(NUMBER + 1).is_err();
    let unsealed = port.find(NUMBER)?.is_none();
    let read = read(port)?;
    let numbers = port.list()?;
    let after = (numbers.len(), numbers.contains(&(NUMBER + 1)));
    Ok(Made {
        before,
        early,
        taken,
        again,
        after,
        unsealed,
        read,
    })
}

/// What a table told that is made in a directory of this name.
fn made_in<R>(rt: R, name: &str) -> Result<Made, Fail>
where
    R: Files<File: KeepOut + Send + Sync> + Wait + AllocGlobal + Clone + Drop + Send + Sync,
{
    let mut devices = devices_over(rt, name)?;
    let mut port = devices.port()?;
    let mut maker = devices.maker()?;
    let made = made_by(&mut maker, &mut port);
    devices.back_port(port);
    devices.back_maker(maker);
    made
}

#[test]
fn a_sealed_table_is_a_file_that_is_found_and_read(rt: HostRuntime) -> Result<(), Fail> {
    let name = "tables-sealed";
    let made = made_in(rt, name)?;
    let text = fs::read_to_string(&rt, "tables-sealed/table-1.3")?;
    let count = names_in(&rt, name)?.len();
    fs::remove_dir_all(&rt, name)?;
    assert_eq!(rt; made.before, 0, "no directory");
    assert_eq!(rt; made.taken, 11);
    assert!(rt; made.early, "begun, and not found");
    assert!(rt; made.again, "a table is there");
    assert_eq!(rt; made.after, (1, true));
    assert!(rt; made.unsealed);
    assert_eq!(rt; made.read, (4, *b"thre", 1));
    assert_eq!(rt; text.as_str(), "twothree");
    assert_eq!(rt; count, 1);
    Ok(())
}

/// How many tables are listed while a handle of a retired one is there, how many then and whether the
/// other one is, and how many once that was removed twice.
fn take_away<M: Maker, P: Port<File = M::File>>(
    maker: &mut M,
    port: &mut P,
) -> Result<(usize, (usize, bool), usize), Fail> {
    maker.begin(NUMBER)?;
    let first = maker.seal()?;
    maker.begin(NUMBER + 1)?;
    drop(maker.seal()?);
    let second = port.find(NUMBER)?;
    maker.retire(&first)?;
    drop(first);
    let held = port.list()?.len();
    drop(second);
    let numbers = port.list()?;
    let let_go = (numbers.len(), numbers.contains(&(NUMBER + 1)));
    maker.remove(NUMBER + 1)?;
    maker.remove(NUMBER + 1)?;
    Ok((held, let_go, port.list()?.len()))
}

fn taken_away_in<R>(rt: R, name: &str) -> Result<(usize, (usize, bool), usize), Fail>
where
    R: Files<File: KeepOut + Send + Sync> + Wait + AllocGlobal + Clone + Drop + Send + Sync,
{
    let mut devices = devices_over(rt, name)?;
    let mut port = devices.port()?;
    let mut maker = devices.maker()?;
    let told = take_away(&mut maker, &mut port);
    devices.back_port(port);
    devices.back_maker(maker);
    told
}

#[test]
fn a_retired_table_goes_with_its_last_handle_and_a_removed_one_at_once(
    rt: HostRuntime,
) -> Result<(), Fail> {
    let name = "tables-gone";
    let (held, let_go, removed) = taken_away_in(rt, name)?;
    fs::remove_dir_all(&rt, name)?;
    assert_eq!(rt; held, 2, "another handle is there");
    assert_eq!(rt; let_go, (1, true));
    assert_eq!(rt; removed, 0);
    Ok(())
}

/// How many tables are listed while a fork has a handle of a retired one, and then.
fn fork_holds<M: Maker, P: Port<File = M::File>>(
    maker: &mut M,
    port: &mut P,
    fork: &mut P,
) -> Result<(usize, usize), Fail> {
    maker.begin(NUMBER)?;
    let first = maker.seal()?;
    let second = fork.find(NUMBER)?.ok_or("no table")?;
    maker.retire(&first)?;
    drop(first);
    let held = port.list()?.len();
    drop(second);
    Ok((held, port.list()?.len()))
}

fn forked_in<R>(rt: R, name: &str) -> Result<(usize, usize), Fail>
where
    R: Files<File: KeepOut + Send + Sync> + Wait + AllocGlobal + Clone + Drop + Send + Sync,
{
    let mut devices = devices_over(rt, name)?;
    let mut maker = devices.maker()?;
    let mut port = devices.port()?;
    let mut fork = port.fork()?;
    let told = fork_holds(&mut maker, &mut port, &mut fork);
    port.join(fork);
    devices.back_port(port);
    devices.back_maker(maker);
    told
}

#[test]
fn a_fork_finds_the_same_handles(rt: HostRuntime) -> Result<(), Fail> {
    let name = "tables-fork";
    let told = forked_in(rt, name)?;
    fs::remove_dir_all(&rt, name)?;
    assert_eq!(rt; told, (1, 0));
    Ok(())
}
