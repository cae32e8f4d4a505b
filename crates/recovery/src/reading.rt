//! Reading the logs that a record asks for.

ghost use Rattle.std.specs.Prelude.{◌≡◌, ◌≤◌, ◌<◌, ◌+◌, ◌*◌, ◌^◌, ◌++◌, ◌∷◌, [], List, IsTrue, true, false, IfOk, IfErr, OnOk};
ghost use Rattle.peb_base.specs.Batches.{Batches};
ghost use Rattle.disk_model.specs.Images.{Keeps, Rose};
ghost use Rattle.disk_model.specs.Told.{told_by};
ghost use Rattle.disk_model.specs.declared.journal_file.JournalFile.TheVariants.{Log};
ghost use Rattle.record_log.specs.Log.{IsUnfinished};
ghost use Rattle.store_layout.specs.Logs.{Held, BeginsLogs, HoldsLogs};
ghost use Rattle.store_layout.specs.Recorded.{Bounds};
ghost use Rattle.recovery.specs.Opening.{HasWatched, fault_of};
ghost use Rattle.recovery.specs.Reading.{HasLogs, KeepsLogs, LogsCause};

use crate::logs_read::LogsRead;
use crate::open_fault::OpenFault;
use disk_model::{Journal, JournalFile};
use peb_base::{FileName, Profile};
use record_log::{LogFault, LogFile, one_batch, one_reading};
use std::alloc::Global;

/// What the fault of a log means to an opening.
fn fault_of(number: u64, fault: LogFault) -> OpenFault
    ensures { result ≡ fault_of number fault }
{
    match fault {
        LogFault::Fault => OpenFault::Journal,
        LogFault::Damaged { at } => OpenFault::Damaged(FileName::Log(number), at),
        LogFault::Memory => OpenFault::Memory,
    }
}

/// Reads the next log, and tells whether there was one.
fn next_log<J: Journal>(
    alloc: Global,
    journal: &mut J,
    profile: Profile,
    read: LogsRead,
) -> Result<(LogsRead, bool), OpenFault>
    // what it gives
    ensures count { IfOk result (λ step. step.1 ≡ true → step.0.next ≡ read.next + 1) }
    ensures same { IfOk result (λ step. step.0.session ≡ read.session) }
    ensures taken { IfOk result (λ step. step.1 ≡ true → (bounds : Bounds) (logs : List Held)
        (batches : Batches) → bounds.profile ≡ profile → HasLogs bounds read logs batches
        → (IsTrue J.tells → BeginsLogs bounds.first logs (J.seen journal.old))
        → (log : Held) × (own : Batches)
        × HasLogs bounds step.0 (logs ++ log ∷ []) (batches ++ own)
        × (IsTrue J.tells → BeginsLogs bounds.first (logs ++ log ∷ []) (J.seen journal.old))) }
    ensures done { IfOk result (λ step. step.1 ≡ false → (step.0 ≡ read)
        × (IsTrue J.tells → IsUnfinished (J.seen journal.old (Log read.next)))) }
    // when it fails
    ensures cause { IfErr result (λ fault. (bounds : Bounds) (logs : List Held)
        (batches : Batches) → bounds.profile ≡ profile → HasLogs bounds read logs batches
        → (IsTrue J.tells → BeginsLogs bounds.first logs (J.seen journal.old))
        → LogsCause (Rose (J.faults journal.old) (J.faults journal.new)) J.tells
        (J.seen journal.old) bounds fault) }
    // what it leaves
    ensures kept { OnOk result (Keeps (Log read.next)
        (J.seen journal.old (Log read.next)) (J.may_leave journal.new)) }
    ensures watched { HasWatched (told_by J.Journal journal.old) (told_by J.Journal journal.new) }
    ensures never_falls { J.faults journal.old ≤ J.faults journal.new }
{
    one_reading();
    one_batch();
    let number = read.next;
    let (header, records) = match LogFile::open(alloc, journal, JournalFile::Log(number)) {
        Ok(Some(log)) => log,
        Ok(None) => return Ok((read, false)),
        Err(fault) => return Err(fault_of(number, fault)),
    };
    match read.take_log(alloc, profile, &header, &records) {
        Ok(read) => Ok((read, true)),
        Err(fault) => Err(fault),
    }
}

/// Reads the logs from the first one on up to the first absent one, and syncs each before it is
/// read, also the absent one. Their headers have the profile, and no session above this one.
///
/// `Journal` comes only where the journal failed, and `Damaged` tells of the first log that isn't
/// in form or can't stand behind those before it. Beside these comes `Memory` alone.
pub fn read_logs<J: Journal>(
    alloc: Global,
    journal: &mut J,
    profile: Profile,
    first: u64,
    session: u64,
) -> Result<LogsRead, OpenFault>
    requires followed { session < 8388607 }
    requires numbered { first ≤ 2 ^ 41 * session + 1 }
    // what it gives
    ensures read { IfOk result (λ read. (bounds : Bounds) → bounds.profile ≡ profile
        → bounds.first ≡ first → bounds.session ≡ session → (logs : List Held) × (batches : Batches)
        × HasLogs bounds read logs batches
        × (IsTrue J.tells → HoldsLogs first logs (J.seen journal.old))) }
    ensures same { IfOk result (λ read. read.session ≡ session) }
    // when it fails
    ensures cause { IfErr result (λ fault. (bounds : Bounds) → bounds.profile ≡ profile
        → bounds.first ≡ first → bounds.session ≡ session
        → LogsCause (Rose (J.faults journal.old) (J.faults journal.new)) J.tells
        (J.seen journal.old) bounds fault) }
    // what it leaves
    ensures kept { IfOk result (λ read. KeepsLogs J.Journal journal.new first (read.next + 1)) }
    ensures watched { HasWatched (told_by J.Journal journal.old) (told_by J.Journal journal.new) }
    ensures never_falls { J.faults journal.old ≤ J.faults journal.new }
{
    let mut read = LogsRead::new(alloc, first, session);
    for number in first..u64::MAX {
        let (next, more) = match next_log(alloc, journal, profile, read) {
            Ok(step) => step,
            Err(fault) => return Err(fault),
        };
        if !more {
            return Ok(next);
        }
        read = next;
    }
    unreachable!()
}
