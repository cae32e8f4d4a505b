//! Opening a store.

ghost use Rattle.std.specs.Prelude.{◌≡◌, ◌≢◌, ◌⊎◌, ◌≤◌, ◌<◌, ◌+◌, ◌*◌, ◌^◌, ◌++◌, ◌∷◌, [], ℕ, Bool, true, false, List, IsTrue, IfOk, IfErr};
ghost use Rattle.peb_base.specs.Batches.{Batches, last_number};
ghost use Rattle.disk_model.specs.Images.{Image, Rose};
ghost use Rattle.disk_model.specs.Told.{told_by};
ghost use Rattle.disk_model.specs.declared.journal_file.JournalFile.{JournalFile};
ghost use Rattle.disk_model.specs.declared.journal_file.JournalFile.TheVariants.{Log, ManifestA};
ghost use Rattle.flsm_model.specs.Shape.{Record};
ghost use Rattle.store_layout.specs.Logs.{Held};
ghost use Rattle.store_layout.specs.Recorded.{next_opening, ReadsBy, StandsFor};
ghost use Rattle.flsm_core.specs.Place.{start_at};
ghost use Rattle.flsm_core.specs.State.{state_session, state_journal, state_file};
ghost use Rattle.flsm_core.specs.Touched.{HasTouched};
ghost use Rattle.recovery.specs.NextLog.{HasTouchedNext};
ghost use Rattle.recovery.specs.Opened.{OpensBy, OpenedOn, LeavesOpening, HasOpened, HasOlder};
ghost use Rattle.recovery.specs.Opening.{HasWatched};
ghost use Rattle.recovery.specs.Range.{Range, AreIn, OpenedIn};
ghost use Rattle.recovery.specs.Reading.{StoreCause};
ghost use Rattle.recovery.specs.Session.{journal_of};
ghost use Rattle.recovery.specs.declared.open_fault.OpenFault.TheVariants as opens;

use crate::beginning::begin_session;
use crate::looking::look;
use crate::open_fault::OpenFault;
use disk_model::Journal;
use flsm_core::State;
use flsm_model::law_shape;
use manifest::one_manifest;
use peb_base::Profile;
use record_log::{one_batch, one_reading};
use std::alloc::Global;

/// Opens the store that the journal holds, in this profile, and begins its next session.
///
/// First the record is read of the manifest, then the logs from the record's first one on up to the
/// first absent one, in order; then the logs below them are synced, down to the first absent one.
/// Each file is synced before it is read, also the absent ones, and only then is anything written:
/// the manifest where there is none, the opening in it, and the log of the session. The session is
/// 1 + that of the last opening in the record.
///
/// `Journal` comes only where the journal failed. `Damaged` tells of the manifest: its first place
/// that isn't in form, or the gate of its first edit that doesn't fit those before it; or of the
/// first log that can't be taken in: its first place that isn't in form, 0 where its header has
/// another profile or a session that the record doesn't have, or the gate of its first record that
/// can't stand there. `Profile` comes where the manifest has another profile than the one asked
/// for, and then `Limit`, where no session is left: both only after the manifest was read to its
/// end, and before any log is read.
///
/// A refusal hands the journal back, and every crash during it and after it leaves the batches that
/// were there, and the record as it was or with the opening. Where the journal didn't fail and
/// memory wasn't short it was only read and synced; where memory was short, at most the manifest
/// was changed.
pub fn open<J: Journal>(
    alloc: Global,
    journal: J,
    profile: Profile,
) -> Result<State<J>, (OpenFault, J)>
    // what it gives
    ensures stands { IfOk result (λ state. IsTrue J.tells → (honest : Bool) (base : Batches)
        (edits : Record) → OpensBy profile edits honest base (told_by J.Journal journal)
        → OpenedOn J.Journal state
        (start_at (told_by J.Journal journal) profile honest base edits)) }
    ensures somewhere { IfOk result (λ state. (base : Batches) × (edits : Record)
        × (IsTrue J.tells → (logs : List Held)
        × ReadsBy profile edits (J.seen journal) logs base)
        × OpenedOn J.Journal state
        (start_at (told_by J.Journal journal) profile false base edits)) }
    ensures within { IfOk result (λ state. IsTrue J.tells → (range : Range)
        → range.profile ≡ profile → AreIn range (J.may_leave journal)
        → OpenedIn J.Journal state (told_by J.Journal journal) range) }
    ensures session { IfOk result (λ state. IsTrue J.tells
        → HasOpened J.Journal journal profile state) }
    ensures possible { IfOk result (λ state. state_session state ≤ 8388607) }
    ensures fresh { IfOk result (λ state. IsTrue J.tells → (edits : Record) (logs : List Held)
        (base : Batches) → ReadsBy profile edits (J.seen journal) logs base
        → last_number base < state_session state * 2 ^ 40) }
    // when it fails
    ensures cause { IfErr result (λ e. StoreCause (Rose (J.faults journal) (J.faults e.1))
        J.tells (J.seen journal) profile e.0) }
    // what it leaves
    ensures images { IsTrue J.tells → (base : Batches) (edits : Record)
        → OpensBy profile edits true base (told_by J.Journal journal)
        → LeavesOpening profile base edits
        (J.left_since (journal_of result) (J.moment journal)) }
    ensures recorded { IfOk result (λ state. IsTrue J.tells → (base : Batches) (edits : Record)
        → OpensBy profile edits true base (told_by J.Journal journal)
        → (log : ℕ) × (state_file state ≡ Log log)
        × ((image : Image) → J.may_leave (state_journal state) image
        → StandsFor profile base (edits ++ next_opening profile edits log ∷ []) image)) }
    ensures images_within { IsTrue J.tells → (range : Range) → range.profile ≡ profile
        → AreIn range (J.may_leave journal)
        → AreIn range (J.left_since (journal_of result) (J.moment journal)) }
    ensures older { IsTrue J.tells → (image : Image)
        → J.left_since (journal_of result) (J.moment journal) image
        → J.may_leave journal image ⊎ HasOlder profile (J.seen journal) image }
    ensures untouched { IfErr result (λ e. e.0 ≢ opens.Journal → e.0 ≢ opens.Memory
        → HasWatched (told_by J.Journal journal) (told_by J.Journal e.1)) }
    ensures memory { IfErr result (λ e. e.0 ≡ opens.Memory → HasTouched J.tells ManifestA
        (told_by J.Journal journal) (told_by J.Journal e.1)) }
    ensures next_log { IfOk result (λ state. HasTouchedNext J.tells profile (state_file state)
        (told_by J.Journal journal) (told_by J.Journal (state_journal state))) }
    ensures next_log_err { IfErr result
        (λ e. HasWatched (told_by J.Journal journal) (told_by J.Journal e.1)
        ⊎ ((file : JournalFile) × HasTouchedNext J.tells profile file
        (told_by J.Journal journal) (told_by J.Journal e.1))) }
    // what stays
    ensures time { J.moment journal ≤ J.moment (journal_of result) }
    ensures never_falls { J.faults journal ≤ J.faults (journal_of result) }
{
    one_reading();
    one_batch();
    one_manifest();
    law_shape();
    let mut journal = journal;
    match look(alloc, &mut journal, profile) {
        Ok(looked) => begin_session(alloc, journal, profile, looked),
        Err(fault) => Err((fault, journal)),
    }
}
