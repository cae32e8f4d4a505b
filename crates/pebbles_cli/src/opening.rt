ghost use Rattle.std.specs.Prelude.{◌≡◌, ◌≢◌, ◌⊎◌, ◌≤◌, ◌<◌, ◌*◌, ◌^◌, ℕ, Bool, true, false, List, IsTrue, IfOk, IfErr, OnOk, OnErr};
ghost use Rattle.peb_base.specs.declared.profile.Profile.TheVariants.{Small};
ghost use Rattle.peb_base.specs.Batches.{Batches};
ghost use Rattle.disk_model.specs.Directories.{after_choice, after_opening};
ghost use Rattle.disk_model.specs.Told.{TellsTheSame, TablesStay, told_by};
ghost use Rattle.disk_model.specs.declared.journal_file.JournalFile.TheVariants.{ManifestA};
ghost use Rattle.flsm_model.specs.Shape.{Record};
ghost use Rattle.store_layout.specs.Logs.{Held};
ghost use Rattle.store_layout.specs.Recorded.{ReadsBy};
ghost use Rattle.flsm_core.specs.Place.{Place, start_at};
ghost use Rattle.flsm_core.specs.Standing.{IsAt, IsLeftBy};
ghost use Rattle.flsm_core.specs.State.{state_session, state_journal, state_file};
ghost use Rattle.flsm_core.specs.Touched.{HasTouched};
ghost use Rattle.recovery.specs.NextLog.{HasTouchedNext};
ghost use Rattle.recovery.specs.Opened.{OpensBy, OpenedOn, LeavesOpening};
ghost use Rattle.recovery.specs.Opening.{HasWatched};
ghost use Rattle.recovery.specs.Range.{Range, AreIn, OpenedIn};
ghost use Rattle.script.specs.declared.cause.Cause.TheVariants as causes;
ghost use Rattle.pebbles_cli.specs.Causes.{IsOpeningCause, opening_cause};
ghost use Rattle.pebbles_cli.specs.Names.{OpensAtMost};
ghost use Rattle.pebbles_cli.specs.Outside.{devices_told};
ghost use Rattle.pebbles_cli.specs.Top.{TouchesAtMost};

use disk_model::Devices;
use flsm_core::State;
use peb_base::Profile;
use recovery::OpenFault;
use script::Cause;
use std::alloc::Global;

fn opening_cause(fault: OpenFault) -> Cause
    ensures { result ≡ opening_cause fault }
{
    match fault {
        OpenFault::Journal => Cause::Journal,
        OpenFault::Damaged(file, at) => Cause::Damaged(file, at),
        OpenFault::Profile(have, asked) => Cause::Profile(have, asked),
        OpenFault::Limit(kind, n) => Cause::Limit(kind, n),
        OpenFault::Memory => Cause::Memory,
    }
}

/// Opens the store of a directory in the profile `small`. Where that fails the devices have their
/// journal back, and each crash since leaves what was there; but for a fault of the journal, and for
/// want of memory, no file was changed.
pub fn open_store<D: Devices>(
    alloc: Global,
    dir: &str,
    devices: &mut D,
) -> Result<State<D::J>, Cause>
    // what it gives
    ensures stands { IfOk result (λ state. IsTrue D.J.tells → (honest : Bool) (base : Batches)
        (edits : Record) → OpensBy Small edits honest base (D.journal_told devices.old)
        → OpenedOn D.J.Journal state
        (start_at (D.journal_told devices.old) Small honest base edits)) }
    ensures somewhere { IfOk result (λ state. (base : Batches) × (edits : Record)
        × (IsTrue D.J.tells → (logs : List Held)
        × ReadsBy Small edits (D.journal_told devices.old).seen logs base)
        × OpenedOn D.J.Journal state
        (start_at (D.journal_told devices.old) Small false base edits)) }
    ensures within { IfOk result (λ state. IsTrue D.J.tells → (range : Range)
        → range.profile ≡ Small → AreIn range (D.journal_told devices.old).may_leave
        → OpenedIn D.J.Journal state (D.journal_told devices.old) range) }
    ensures possible { IfOk result (λ state. state_session state ≤ 8388607) }
    ensures opened { OnOk result (D.directories devices.new
        ≡ after_opening (after_choice dir.now (D.directories devices.old))) }
    ensures next_log { IfOk result (λ state. HasTouchedNext D.J.tells Small (state_file state)
        (D.journal_told devices.old) (told_by D.J.Journal (state_journal state))) }
    // when it fails
    ensures cause { IfErr result
        (λ cause. IsOpeningCause (devices_told D.J.Journal D.Devices devices.old)
        (devices_told D.J.Journal D.Devices devices.new) cause) }
    // what it leaves
    ensures refused { OnErr result (OpensAtMost dir.now (D.directories devices.old)
        (D.directories devices.new)) }
    ensures untouched { IfErr result (λ cause. cause ≢ causes.Journal → cause ≢ causes.Memory
        → HasWatched (D.journal_told devices.old) (D.journal_told devices.new)) }
    ensures memory { IfErr result (λ cause. cause ≡ causes.Memory
        → HasTouched D.J.tells ManifestA (D.journal_told devices.old)
        (D.journal_told devices.new)) }
    ensures next_log_err { IfErr result (λ _. TouchesAtMost D.J.tells
        (D.journal_told devices.old) (D.journal_told devices.new)) }
    ensures ever { IfErr result (λ cause. IsTrue D.J.tells → (base : Batches) (edits : Record)
        → OpensBy Small edits true base (D.journal_told devices.old)
        → LeavesOpening Small base edits
        ((D.journal_told devices.new).left_since (D.journal_told devices.old).moment)) }
    ensures ever_within { IfErr result (λ cause. IsTrue D.J.tells → (range : Range)
        → range.profile ≡ Small → AreIn range (D.journal_told devices.old).may_leave
        → AreIn range ((D.journal_told devices.new).left_since
        (D.journal_told devices.old).moment)) }
    ensures later { IfErr result (λ _. (D.journal_told devices.old).moment
        ≤ (D.journal_told devices.new).moment) }
    ensures tables { TablesStay (D.tables_told devices.old) (D.tables_told devices.new) }
{
    let Ok(()) = devices.set(dir) else {
        return Err(Cause::Journal);
    };
    let Ok(journal) = devices.journal() else {
        return Err(Cause::Journal);
    };
    match recovery::open(alloc, journal, Profile::Small) {
        Ok(state) => Ok(state),
        Err(refused) => {
            let (fault, journal) = refused;
            devices.back(journal);
            Err(opening_cause(fault))
        }
    }
}

/// Hands the journal of a store back to the devices.
pub fn close_store<D: Devices>(devices: &mut D, state: State<D::J>)
    ensures told { TellsTheSame (told_by D.J.Journal (state_journal state))
        (D.journal_told devices.new) }
    ensures left { IsTrue D.J.tells → (p : Place) → IsAt D.J.Journal state p
        → IsLeftBy p (D.journal_told devices.new) }
    ensures directories { D.directories devices.new ≡ D.directories devices.old }
    ensures faults { D.faults devices.new ≡ D.faults devices.old }
    ensures tables { TablesStay (D.tables_told devices.old) (D.tables_told devices.new) }
{
    devices.back(state.close());
}
