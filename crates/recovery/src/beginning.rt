//! The beginning of a session: what an opening writes.

ghost use Rattle.std.specs.Prelude.{◌≡◌, ◌≢◌, ◌≤◌, ◌<◌, ◌+◌, ◌*◌, ◌^◌, ◌++◌, ◌∷◌, [], ℕ, suc, length, List, IsTrue, IfOk, IfErr, IfSome};
ghost use Rattle.disk_model.specs.Images.{Image, Elapses, Follows, In, Rose};
ghost use Rattle.disk_model.specs.Told.{told_by};
ghost use Rattle.disk_model.specs.declared.journal_file.JournalFile.TheVariants.{Log, ManifestA};
ghost use Rattle.record_log.specs.Crash.{Creates};
ghost use Rattle.record_log.specs.Header.{IsHeaderOf, log_header};
ghost use Rattle.manifest.specs.Manifests.{IsManifest};
ghost use Rattle.store_layout.specs.Logs.{Held};
ghost use Rattle.store_layout.specs.Recorded.{next_opening};
ghost use Rattle.flsm_core.specs.Place.{Start, opened};
ghost use Rattle.flsm_core.specs.Standing.{IsAt};
ghost use Rattle.flsm_core.specs.State.{state_session, state_journal, state_file};
ghost use Rattle.flsm_core.specs.Touched.{HasTouched};
ghost use Rattle.recovery.specs.Looking.{Stored, HasLooked, stored_of, HasRead, HasRecorded};
ghost use Rattle.recovery.specs.Opening.{IsReplayOf};
ghost use Rattle.recovery.specs.Record.{RecordingCause};
ghost use Rattle.recovery.specs.Session.{creation_fault, journal_of, IsNextHeader, IsBeginning, HasTouchedBoth};
ghost use Rattle.recovery.specs.declared.open_fault.OpenFault.TheVariants as opens;

use crate::logs_read::LogsRead;
use crate::looked::Looked;
use crate::open_fault::OpenFault;
use crate::recording::record_opening;
use crate::replay::Replay;
use disk_model::{Journal, JournalFile};
use flsm_core::{Parts, State};
use flsm_model::law_shape;
use peb_base::Profile;
use record_log::{Header, LogFault, LogFile};
use std::alloc::Global;

/// What the fault of creating a log means to an opening.
fn creation_fault(fault: LogFault) -> OpenFault
    ensures { result ≡ creation_fault fault }
{
    match fault {
        LogFault::Fault => OpenFault::Journal,
        LogFault::Damaged { .. } => OpenFault::Journal,
        LogFault::Memory => OpenFault::Memory,
    }
}

/// Makes the log of a session, and a store that stands at what was replayed.
///
/// `Journal` comes only where the journal failed. Beside it comes `Memory` alone, before any call on
/// the journal.
fn begin_log<J: Journal>(
    alloc: Global,
    journal: J,
    header: Header,
    replay: Replay,
) -> Result<State<J>, (OpenFault, J)>
    requires header { IsHeaderOf (Log header.number) header }
    requires begun { 1 ≤ header.session }
    requires possible { header.session ≤ 8388607 }
    requires within { replay.last < header.session * 2 ^ 40 }
    // what it gives
    ensures stands { IfOk result (λ state. (start : Start) (logs : List Held)
        → IsNextHeader start header → IsReplayOf replay start.base
        → HasRecorded J.Journal journal start logs header.number
        → IsAt J.Journal state (opened start header.number)) }
    ensures session { IfOk result (λ state. state_session state ≡ header.session) }
    ensures file { IfOk result (λ state. state_file state ≡ Log header.number) }
    // when it fails
    ensures cause { IfErr result (λ e. RecordingCause
        (Rose (J.faults journal) (J.faults e.1)) e.0) }
    // what it leaves
    ensures untouched { IfErr result (λ e. e.0 ≢ opens.Journal → e.1 ≡ journal) }
    ensures any_moment { IsTrue J.tells
        → Follows (In (Log header.number) (Creates (Log header.number) header))
        (J.may_leave journal) (J.left_since (journal_of result) (J.moment journal)) }
    // what stays
    ensures touched { HasTouched J.tells (Log header.number) (told_by J.Journal journal)
        (told_by J.Journal (journal_of result)) }
    ensures time { Elapses (J.moment journal) (J.moment (journal_of result))
        (J.left_since journal) (J.left_since (journal_of result)) }
    ensures never_falls { J.faults journal ≤ J.faults (journal_of result) }
{
    let mut journal = journal;
    let session = header.session;
    match LogFile::create(alloc, &mut journal, JournalFile::Log(header.number), header) {
        Ok(log) => Ok(State::new(Parts {
            alloc,
            journal,
            log,
            current: replay.current,
            session: session as u32,
            last: replay.last,
        })),
        Err(fault) => Err((creation_fault(fault), journal)),
    }
}

/// Begins the next session of a store that was read: records its opening in the manifest, and then
/// makes its log. After `Ok` the record has the opening, and each crash leaves it.
///
/// `Journal` comes only where the journal failed. Beside it comes `Memory` alone; then no file but
/// the manifest was changed.
pub fn begin_session<J: Journal>(
    alloc: Global,
    journal: J,
    profile: Profile,
    looked: Looked,
) -> Result<State<J>, (OpenFault, J)>
    requires looked { (stored : Stored) × HasLooked J.Journal journal profile looked stored }
    // what it gives
    ensures stands { IfOk result (λ state. (start : Start) (logs : List Held)
        → start.profile ≡ profile
        → HasLooked J.Journal journal profile looked (stored_of start logs)
        → HasRead J.Journal journal start logs
        → IsAt J.Journal state (opened start looked.read.next)) }
    ensures session { IfOk result (λ state. state_session state
        ≡ looked.recorded.shape.session + 1) }
    ensures file { IfOk result (λ state. state_file state ≡ Log looked.read.next) }
    ensures recorded { IfOk result (λ state. IsTrue J.tells → (stored : Stored)
        → HasLooked J.Journal journal profile looked stored
        → (image : Image) → J.may_leave (state_journal state) image
        → IsManifest profile
        (stored.edits ++ next_opening profile stored.edits looked.read.next ∷ [])
        (image ManifestA)) }
    // when it fails
    ensures cause { IfErr result (λ e. RecordingCause
        (Rose (J.faults journal) (J.faults e.1)) e.0) }
    // what it leaves
    ensures any_moment { IsTrue J.tells → (stored : Stored)
        → HasLooked J.Journal journal profile looked stored
        → Follows (IsBeginning profile stored.edits looked.read.next)
        (J.may_leave journal) (J.left_since (journal_of result) (J.moment journal)) }
    ensures memory { IfErr result (λ e. e.0 ≢ opens.Journal
        → HasTouched J.tells ManifestA (told_by J.Journal journal) (told_by J.Journal e.1)) }
    // what stays
    ensures touched { HasTouchedBoth J.tells (Log looked.read.next) (told_by J.Journal journal)
        (told_by J.Journal (journal_of result)) }
    ensures time { Elapses (J.moment journal) (J.moment (journal_of result))
        (J.left_since journal) (J.left_since (journal_of result)) }
    ensures never_falls { J.faults journal ≤ J.faults (journal_of result) }
{
    let mut journal = journal;
    let Looked { recorded, read } = looked;
    let LogsRead {
        replay,
        next: number,
        session: last,
    } = read;
    let header = Header::of_log(profile, number, last + 1);
    match record_opening(alloc, &mut journal, profile, recorded, number) {
        Ok(_) => begin_log(alloc, journal, header, replay),
        Err(fault) => Err((fault, journal)),
    }
}
