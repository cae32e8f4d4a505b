//! Which syncs and locks the devices over files ask for, and what they do with short reads and
//! failed ones: no contract can say it.

ghost use Rattle.std.specs.Prelude.{IsSome};

use crate::faults::Faults;
use crate::folder::Folder;
use crate::journal_folder::JournalFolder;
use crate::real_journal::RealJournal;
use crate::real_maker::RealMaker;
use crate::real_port::RealPort;
use crate::real_scripts::RealScripts;
use crate::shared::Shared;
use crate::watched::{Seen, Watched};
use disk_model::{Failed, Journal, JournalFile, Maker, Port, Scripts};
use std::alloc::{AllocError, Global};
use std::io::ErrorKind;
use std::rc::Rc;
use std::sync::{Arc, Wait};
use std::test::Fail;

const LOG: JournalFile = JournalFile::Log(1);

const SECOND: JournalFile = JournalFile::Log(2);

/// The number of table 1.1.
const TABLE: u64 = (1 << 40) + 1;

/// A call on the journal, or what becomes of the file system before the next one.
#[derive(Clone, Copy)]
enum Step {
    Size,
    Read,
    Write,
    WriteSecond,
    Sync,
    Drop,
    FailSyncs(bool),
    FailFolderSyncs(bool),
    FailReads(bool),
    Interrupt,
    MakeFolder,
    MakeFile,
    Forbid(ErrorKind),
}

/// What is there at first.
#[derive(Clone, Copy, PartialEq, Eq)]
enum First {
    Nothing,
    Folder,
    File,
    Taken,
}

/// What eight steps told: which were Ok, and the syncs so far of the file, of its directory and of
/// the directory's parent; and at the end the syncs of the second file, whether the file is there,
/// and the count of faults.
#[derive(Clone, Copy)]
struct Told {
    ok: [bool; 8],
    syncs: [(u8, u8, u8); 8],
    second_syncs: u8,
    has_file: bool,
    faults: u64,
}

fn seen_at(alloc: Global, first: First) -> Result<Rc<Seen>, AllocError> {
    let seen = Seen::nothing();
    seen.has_folder
        .set(first == First::Folder || first == First::File);
    seen.has_file.set(first == First::File);
    seen.is_taken.set(first == First::Taken);
    Ok(Rc::new(alloc, seen)?)
}

/// An opening of the watched directory.
fn folder_over<W: Wait + Clone + Drop>(
    rt: W,
    alloc: Global,
    seen: &Rc<Seen>,
) -> Result<Folder<Watched<W>>, AllocError> {
    let seen = seen.clone()?;
    let shared = Arc::new(alloc, Shared::new(alloc))?;
    let name = String::from_str(alloc, "d")?;
    Ok(Folder::new(Watched { rt, alloc, seen }, name, shared))
}

fn journal_over<W: Wait + Clone + Drop>(folder: Folder<Watched<W>>) -> RealJournal<Watched<W>> {
    RealJournal::new(JournalFolder::new(folder), true, Faults::none())
}

/// Lets this happen, unless it is a call.
fn happens(seen: &Seen, step: Step) -> bool {
    match step {
        Step::FailSyncs(fails) => seen.fails_syncs.set(fails),
        Step::FailFolderSyncs(fails) => seen.fails_folder_syncs.set(fails),
        Step::FailReads(fails) => seen.fails_reads.set(fails),
        Step::Interrupt => seen.is_interrupted.set(true),
        Step::MakeFolder => seen.has_folder.set(true),
        Step::MakeFile => seen.has_file.set(true),
        Step::Forbid(kind) => seen.read_only.set(Some(kind)),
        _ => return false,
    }
    true
}

/// Takes a step, and says whether it was Ok.
fn take<J: Journal>(journal: &mut J, seen: &Seen, step: Step) -> bool {
    let mut out = [0; 4];
    match step {
        Step::Size => journal.size(LOG).is_ok(),
        Step::Read => journal.read(LOG, 0, &mut out).is_ok(),
        Step::Write => journal.write(LOG, 0, b"a").is_ok(),
        Step::WriteSecond => journal.write(SECOND, 0, b"a").is_ok(),
        Step::Sync => journal.sync(LOG).is_ok(),
        Step::Drop => journal.drop_file(LOG).is_ok(),
        other => happens(seen, other),
    }
}

/// Takes the first eight of these steps.
fn take_all<W: Wait + Clone + Drop>(
    journal: &mut RealJournal<Watched<W>>,
    seen: &Seen,
    steps: &[Step],
) -> Told {
    let mut told = Told {
        ok: [false; 8],
        syncs: [(0, 0, 0); 8],
        second_syncs: 0,
        has_file: false,
        faults: 0,
    };
    for i in 0..8 {
        if i < steps.len() {
            told.ok[i] = take(journal, seen, steps[i]);
            told.syncs[i] = seen.syncs();
        }
    }
    told.second_syncs = seen.second_syncs.get();
    told.has_file = seen.has_file.get();
    told.faults = journal.faults.count;
    told
}

/// What steps on the journal of a new opening told.
fn steps_of<W: Wait + Clone + Drop>(
    rt: W,
    alloc: Global,
    first: First,
    steps: &[Step],
) -> Result<Told, Fail> {
    let seen = seen_at(alloc, first)?;
    let folder = folder_over(rt, alloc, &seen)?;
    let _ = folder.keep_others_out();
    let mut journal = journal_over(folder);
    Ok(take_all(&mut journal, &seen, steps))
}

#[test]
fn names_are_synced_with_files(rt: HostRuntime) -> Result<(), Fail> {
    let steps = [
        Step::Sync,
        Step::Write,
        Step::Sync,
        Step::Sync,
        Step::Drop,
        Step::Drop,
        Step::Sync,
    ];
    let told = steps_of(rt, rt.alloc(), First::Nothing, &steps)?;
    assert_eq!(rt; told.ok, [true, true, true, true, true, true, true, false]);
    assert_eq!(rt; told.syncs[0], (0, 0, 0), "nothing is there");
    assert_eq!(rt; told.syncs[1], (0, 0, 1), "a new directory");
    assert_eq!(rt; told.syncs[2], (1, 1, 1), "a new file");
    assert_eq!(rt; told.syncs[3], (2, 1, 1), "an old file");
    assert_eq!(rt; told.syncs[4], (2, 2, 1), "a file that is gone");
    assert_eq!(rt; told.syncs[6], (2, 2, 1), "a file that was gone");
    Ok(())
}

#[test]
fn names_of_an_earlier_run_are_synced(rt: HostRuntime) -> Result<(), Fail> {
    let first = steps_of(rt, rt.alloc(), First::Folder, &[Step::Sync, Step::Write])?;
    let second = steps_of(rt, rt.alloc(), First::File, &[Step::Sync, Step::Write])?;
    let dropped = steps_of(rt, rt.alloc(), First::Folder, &[Step::Drop])?;
    assert_eq!(rt; first.syncs[0], (0, 1, 0), "an absent file");
    assert_eq!(rt;
        first.syncs[1],
        (0, 1, 1),
        "the first file of a directory that was there"
    );
    assert_eq!(rt; second.syncs[1], (1, 1, 0), "a file that was there");
    assert_eq!(rt; dropped.syncs[0], (0, 1, 0), "a drop of an absent file");
    Ok(())
}

#[test]
fn a_sync_is_of_the_file_that_is_named(rt: HostRuntime) -> Result<(), Fail> {
    let steps = [Step::Write, Step::WriteSecond, Step::Sync];
    let told = steps_of(rt, rt.alloc(), First::Nothing, &steps)?;
    assert_eq!(rt; told.syncs[1], (0, 0, 1));
    assert_eq!(rt; told.syncs[2], (1, 1, 1));
    assert_eq!(rt; told.second_syncs, 0);
    Ok(())
}

#[test]
fn a_failed_read_or_size_is_a_fault(rt: HostRuntime) -> Result<(), Fail> {
    let steps = [
        Step::Write,
        Step::FailReads(true),
        Step::Read,
        Step::Size,
        Step::FailReads(false),
        Step::Read,
        Step::Size,
    ];
    let told = steps_of(rt, rt.alloc(), First::Nothing, &steps)?;
    let opened = steps_of(rt, rt.alloc(), First::File, &steps[1..])?;
    assert_eq!(rt;
        told.ok,
        [true, true, false, false, true, true, true, false]
    );
    assert_eq!(rt;
        opened.ok,
        [true, false, false, true, true, true, false, false]
    );
    assert_eq!(rt; (told.faults, opened.faults), (2, 2));
    Ok(())
}

/// Writes over the middle of a log, and reads from its second byte on.
fn write_and_read<J: Journal>(journal: &mut J) -> Result<(usize, [u8; 4]), Failed> {
    let mut out = [0; 4];
    journal.write(LOG, 0, b"abcdef")?;
    journal.write(LOG, 2, b"xyz")?;
    let count = journal.read(LOG, 1, &mut out)?;
    Ok((count, out))
}

/// What was read of a log, where each read and write of the system gives and takes one byte.
fn log_by_bytes<W: Wait + Clone + Drop>(rt: W, alloc: Global) -> Result<(usize, [u8; 4]), Fail> {
    let seen = seen_at(alloc, First::Nothing)?;
    let mut journal = journal_over(folder_over(rt, alloc, &seen)?);
    let told = write_and_read(&mut journal);
    drop(journal);
    Ok(told?)
}

/// Makes a table of six bytes, and reads from its second byte on; then whether it is neither found
/// nor read while reads fail.
fn make_and_read<M: Maker, P: Port<File = M::File>>(
    maker: &mut M,
    port: &mut P,
    seen: &Seen,
) -> Result<(usize, [u8; 4], bool), Failed> {
    let mut out = [0; 4];
    maker.begin(TABLE)?;
    maker.write(b"abcdef")?;
    let table = maker.seal()?;
    let count = port.read(&table, 1, &mut out)?;
    seen.fails_reads.set(true);
    let is_refused = port.find(TABLE).is_err() && port.read(&table, 1, &mut [0; 4]).is_err();
    Ok((count, out, is_refused))
}

/// What that told of a table, where each read and write of the system gives and takes one byte, and
/// the count of faults.
fn table_by_bytes<W: Wait + Clone + Drop>(
    rt: W,
    alloc: Global,
) -> Result<((usize, [u8; 4], bool), u64), Fail> {
    let seen = seen_at(alloc, First::Nothing)?;
    let folder = folder_over(rt, alloc, &seen)?;
    let mut maker = RealMaker::new(folder.copy()?)?;
    let mut port = RealPort::new(folder);
    let told = make_and_read(&mut maker, &mut port, &seen);
    let faults = port.faults.count;
    drop(maker);
    drop(port);
    Ok((told?, faults))
}

/// Fetches a script from its second byte on; then whether it isn't fetched while reads fail.
fn fetch<S: Scripts>(scripts: &mut S, seen: &Seen) -> Result<(usize, [u8; 4], bool), Failed> {
    let mut out = [0; 4];
    let count = scripts.fetch("script", 1, &mut out)?;
    seen.fails_reads.set(true);
    let is_refused = scripts.fetch("script", 1, &mut [0; 4]).is_err();
    Ok((count, out, is_refused))
}

/// What that told of a script of three bytes, where each read of the system gives one byte.
fn script_by_bytes<W: Wait + Clone + Drop>(
    rt: W,
    alloc: Global,
) -> Result<(usize, [u8; 4], bool), Fail> {
    let seen = seen_at(alloc, First::File)?;
    for (at, byte) in [(0, b'a'), (1, b'b'), (2, b'c')] {
        seen.put(at, byte)?;
    }
    let mut scripts = RealScripts::new(Watched {
        rt,
        alloc,
        seen: seen.clone()?,
    });
    let told = fetch(&mut scripts, &seen);
    drop(scripts);
    Ok(told?)
}

#[test]
fn short_reads_and_writes_are_gone_on_with(rt: HostRuntime) -> Result<(), Fail> {
    let log = log_by_bytes(rt, rt.alloc())?;
    let (table, faults) = table_by_bytes(rt, rt.alloc())?;
    let script = script_by_bytes(rt, rt.alloc())?;
    assert_eq!(rt; log, (4, *b"bxyz"));
    assert_eq!(rt; table, (4, *b"bcde", true));
    assert_eq!(rt; faults, 2);
    assert_eq!(rt; script, (2, *b"bc\0\0", true));
    Ok(())
}

#[test]
fn no_sync_after_a_failed_one_is_trusted(rt: HostRuntime) -> Result<(), Fail> {
    let steps = [
        Step::Write,
        Step::FailSyncs(true),
        Step::Sync,
        Step::FailSyncs(false),
        Step::Sync,
        Step::Drop,
    ];
    let told = steps_of(rt, rt.alloc(), First::Nothing, &steps)?;
    assert_eq!(rt;
        told.ok,
        [true, true, false, true, false, false, false, false]
    );
    assert_eq!(rt; told.faults, 3);
    assert!(rt; told.has_file);
    Ok(())
}

#[test]
fn no_file_is_made_where_the_name_of_its_directory_is_not_stable(
    rt: HostRuntime,
) -> Result<(), Fail> {
    let steps = [
        Step::FailSyncs(true),
        Step::Write,
        Step::FailSyncs(false),
        Step::Write,
    ];
    let told = steps_of(rt, rt.alloc(), First::Nothing, &steps)?;
    assert_eq!(rt;
        told.ok,
        [true, false, true, false, false, false, false, false]
    );
    assert!(rt; !told.has_file);
    Ok(())
}

#[test]
fn a_directory_in_use_is_not_opened_and_not_made(rt: HostRuntime) -> Result<(), Fail> {
    let told = steps_of(rt, rt.alloc(), First::Taken, &[Step::Write])?;
    let opened = is_opened(rt, rt.alloc())?;
    assert!(rt; !told.ok[0] && !opened);
    assert!(rt; !told.has_file);
    Ok(())
}

/// Whether a directory is opened in which another is.
fn is_opened<W: Wait + Clone + Drop>(rt: W, alloc: Global) -> Result<bool, Fail> {
    let seen = seen_at(alloc, First::Taken)?;
    seen.has_folder.set(true);
    let folder = folder_over(rt, alloc, &seen)?;
    Ok(folder.keep_others_out().is_ok())
}

#[test]
fn a_directory_that_another_made_meanwhile_is_left_alone(rt: HostRuntime) -> Result<(), Fail> {
    let early = steps_of(
        rt,
        rt.alloc(),
        First::Nothing,
        &[Step::MakeFolder, Step::Write],
    )?;
    let steps = [
        Step::MakeFolder,
        Step::MakeFile,
        Step::Write,
        Step::Size,
        Step::Drop,
    ];
    let told = steps_of(rt, rt.alloc(), First::Nothing, &steps)?;
    assert!(rt; !early.ok[1] && !early.has_file);
    assert!(rt; !told.ok[2] && told.has_file);
    Ok(())
}

#[test]
fn a_log_that_may_only_be_read_is_read(rt: HostRuntime) -> Result<(), Fail> {
    let by_mode = [
        Step::Forbid(ErrorKind::PermissionDenied),
        Step::Size,
        Step::Read,
        Step::Write,
    ];
    let told = steps_of(rt, rt.alloc(), First::File, &by_mode)?;
    assert_eq!(rt;
        told.ok,
        [true, true, true, false, false, false, false, false]
    );
    assert_eq!(rt; told.faults, 1);
    Ok(())
}

#[test]
fn a_log_on_a_read_only_file_system_is_read(rt: HostRuntime) -> Result<(), Fail> {
    let opened_so = [
        Step::Forbid(ErrorKind::ReadOnlyFilesystem),
        Step::Size,
        Step::Read,
        Step::Write,
    ];
    let told = steps_of(rt, rt.alloc(), First::File, &opened_so)?;
    let meanwhile = [
        Step::Write,
        Step::Forbid(ErrorKind::ReadOnlyFilesystem),
        Step::Write,
        Step::Read,
    ];
    let later = steps_of(rt, rt.alloc(), First::File, &meanwhile)?;
    assert_eq!(rt;
        told.ok,
        [true, true, true, false, false, false, false, false]
    );
    assert_eq!(rt;
        later.ok,
        [true, true, false, true, false, false, false, false]
    );
    assert_eq!(rt; (told.faults, later.faults), (1, 1));
    Ok(())
}

#[test]
fn a_read_and_a_write_go_on_after_a_signal(rt: HostRuntime) -> Result<(), Fail> {
    let steps = [
        Step::Write,
        Step::Interrupt,
        Step::Write,
        Step::Interrupt,
        Step::Read,
    ];
    let told = steps_of(rt, rt.alloc(), First::Nothing, &steps)?;
    let table = sealed_after(rt, rt.alloc(), Step::Interrupt)?;
    assert_eq!(rt;
        told.ok,
        [true, true, true, true, true, false, false, false]
    );
    assert_eq!(rt; told.faults, 0);
    assert_eq!(rt; (table.taken, table.faults), (3, 0));
    Ok(())
}

#[test]
fn a_new_log_whose_name_was_not_synced_is_not_stable(rt: HostRuntime) -> Result<(), Fail> {
    let steps = [
        Step::Write,
        Step::FailFolderSyncs(true),
        Step::Sync,
        Step::FailFolderSyncs(false),
        Step::Sync,
    ];
    let told = steps_of(rt, rt.alloc(), First::Nothing, &steps)?;
    assert_eq!(rt;
        told.ok,
        [true, true, false, true, false, false, false, false]
    );
    Ok(())
}

#[test]
fn no_sync_after_a_failed_removal_is_trusted(rt: HostRuntime) -> Result<(), Fail> {
    let steps = [
        Step::Write,
        Step::Sync,
        Step::FailFolderSyncs(true),
        Step::Drop,
        Step::FailFolderSyncs(false),
        Step::Drop,
        Step::Sync,
    ];
    let told = steps_of(rt, rt.alloc(), First::Nothing, &steps)?;
    assert_eq!(rt;
        told.ok,
        [true, true, true, false, true, false, false, false]
    );
    Ok(())
}

/// What the making of a table told: whether it was sealed, and where it wasn't, whether it was when
/// that was asked again; the syncs before and after, the bytes taken and the count of faults.
#[derive(Clone, Copy)]
struct Sealed {
    is_sealed: bool,
    again: bool,
    before: (u8, u8, u8),
    after: (u8, u8, u8),
    taken: u64,
    faults: u64,
}

/// Seals what is begun, and asks again where that failed, once syncs work.
fn seal_twice<M: Maker>(maker: &mut M, seen: &Seen) -> (bool, bool)
    requires { IsSome (M.begun maker.old) }
{
    match maker.seal() {
        Ok(table) => {
            drop(table);
            (true, false)
        }
        Err(_) => {
            seen.fails_syncs.set(false);
            seen.fails_folder_syncs.set(false);
            (false, maker.seal().is_ok())
        }
    }
}

/// Writes a table and seals it, where this happens before. Gives the syncs before the sealing.
fn make<M: Maker>(
    maker: &mut M,
    seen: &Seen,
    step: Step,
) -> Result<((bool, bool), (u8, u8, u8)), Failed> {
    maker.begin(TABLE)?;
    let _ = happens(seen, step);
    maker.write(b"one")?;
    let before = seen.syncs();
    Ok((seal_twice(maker, seen), before))
}

/// What the making of a table told, where this happens once it is begun.
fn sealed_after<W: Wait + Clone + Drop>(rt: W, alloc: Global, step: Step) -> Result<Sealed, Fail> {
    let seen = seen_at(alloc, First::Nothing)?;
    let mut maker = RealMaker::new(folder_over(rt, alloc, &seen)?)?;
    let made = make(&mut maker, &seen, step);
    let (taken, faults) = (maker.taken, maker.faults.count);
    drop(maker);
    let ((is_sealed, again), before) = made?;
    Ok(Sealed {
        is_sealed,
        again,
        before,
        after: seen.syncs(),
        taken,
        faults,
    })
}

#[test]
fn a_table_is_sealed_by_syncs_of_its_file_and_its_name(rt: HostRuntime) -> Result<(), Fail> {
    let told = sealed_after(rt, rt.alloc(), Step::Size)?;
    assert!(rt; told.is_sealed);
    assert_eq!(rt; (told.before, told.after), ((0, 0, 1), (1, 1, 1)));
    Ok(())
}

#[test]
fn no_table_is_sealed_after_a_failed_sync(rt: HostRuntime) -> Result<(), Fail> {
    let told = sealed_after(rt, rt.alloc(), Step::FailSyncs(true))?;
    assert!(rt; !told.is_sealed && !told.again);
    assert_eq!(rt; (told.faults, told.after), (2, (0, 0, 1)));
    Ok(())
}

#[test]
fn no_table_is_sealed_whose_name_was_not_synced(rt: HostRuntime) -> Result<(), Fail> {
    let told = sealed_after(rt, rt.alloc(), Step::FailFolderSyncs(true))?;
    assert!(rt; !told.is_sealed && !told.again);
    Ok(())
}

/// Whether a log is synced while syncs of the directory fail, and then a table sealed.
fn log_then_table<J: Journal, M: Maker>(
    journal: &mut J,
    maker: &mut M,
    seen: &Seen,
) -> Result<(bool, bool), Failed> {
    journal.write(LOG, 0, b"a")?;
    maker.begin(TABLE)?;
    seen.fails_folder_syncs.set(true);
    let early = journal.sync(LOG).is_ok();
    seen.fails_folder_syncs.set(false);
    Ok((early, maker.seal().is_ok()))
}

/// Whether a table is sealed while syncs of the directory fail, and then a log synced.
fn table_then_log<J: Journal, M: Maker>(
    journal: &mut J,
    maker: &mut M,
    seen: &Seen,
) -> Result<(bool, bool), Failed> {
    journal.write(LOG, 0, b"a")?;
    maker.begin(TABLE)?;
    seen.fails_folder_syncs.set(true);
    let early = maker.seal().is_ok();
    seen.fails_folder_syncs.set(false);
    Ok((early, journal.sync(LOG).is_ok()))
}

/// The one or the other over a journal and a maker of one directory.
fn over_one<W: Wait + Clone + Drop>(
    rt: W,
    alloc: Global,
    log_first: bool,
) -> Result<(bool, bool), Fail> {
    let seen = seen_at(alloc, First::Nothing)?;
    let folder = folder_over(rt, alloc, &seen)?;
    let mut maker = RealMaker::new(folder.copy()?)?;
    let mut journal = journal_over(folder);
    let told = if log_first {
        log_then_table(&mut journal, &mut maker, &seen)
    } else {
        table_then_log(&mut journal, &mut maker, &seen)
    };
    Ok(told?)
}

#[test]
fn a_failed_sync_of_names_is_shared_by_the_journal_and_the_makers(
    rt: HostRuntime,
) -> Result<(), Fail> {
    let log_first = over_one(rt, rt.alloc(), true)?;
    let table_first = over_one(rt, rt.alloc(), false)?;
    assert_eq!(rt; log_first, (false, false));
    assert_eq!(rt; table_first, (false, false));
    Ok(())
}

/// The numbers that a port of the watched directory lists.
fn numbers_of<W: Wait + Clone + Drop>(rt: W, alloc: Global) -> Result<Vec<u64>, Fail> {
    let seen = seen_at(alloc, First::Folder)?;
    let folder = folder_over(rt, alloc, &seen)?;
    let _ = folder.keep_others_out();
    let numbers = RealPort::new(folder).list();
    Ok(numbers?)
}

#[test]
fn names_that_are_no_tables_are_skipped(rt: HostRuntime) -> Result<(), Fail> {
    let numbers = numbers_of(rt, rt.alloc())?;
    assert_eq!(rt; numbers.as_slice(), [TABLE, TABLE + 1].as_slice());
    Ok(())
}
