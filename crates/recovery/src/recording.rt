//! The opening of a session, in the store's record.

ghost use Rattle.std.specs.Prelude.{◌≡◌, ◌≢◌, ◌≤◌, ◌<◌, ◌+◌, ◌^◌, ◌∷◌, ◌++◌, [], Some, IsTrue, IfOk, IfErr, IfSome};
ghost use Rattle.disk_model.specs.Images.{Elapses, Follows, In, Rose};
ghost use Rattle.disk_model.specs.declared.journal_file.JournalFile.{JournalFile};
ghost use Rattle.disk_model.specs.declared.journal_file.JournalFile.TheVariants.{ManifestA};
ghost use Rattle.flsm_model.specs.declared.edit.Edit.{Edit};
ghost use Rattle.flsm_model.specs.declared.edit.Edit.TheVariants.{Open};
ghost use Rattle.flsm_model.specs.Shape.{Record};
ghost use Rattle.manifest.specs.Manifests.{IsReadyManifest, IsUnspent};
ghost use Rattle.recovery.specs.Record.{IsReadyRecord, Records, RecordingCause, append_fault};

use crate::open_fault::OpenFault;
use crate::recorded::Recorded;
use disk_model::Journal;
use flsm_model::Edit;
use manifest::{AppendFault, Manifest};
use peb_base::Profile;
use record_log::LogFault;
use std::alloc::Global;

/// The manifest as it is, or a new one without edits where there is none.
fn have_manifest<J: Journal>(
    alloc: Global,
    journal: &mut J,
    profile: Profile,
    manifest: Option<Manifest>,
) -> Result<Manifest, OpenFault>
    requires unspent { IfSome manifest IsUnspent }
    // what it gives
    ensures ready { IfOk result (λ made. (edits : Record) → IsTrue J.tells
        → IsReadyRecord J.Journal journal.old profile edits manifest
        → IsReadyManifest J.tells J.seen J.may_leave journal.new made profile edits) }
    ensures unspent { IfOk result IsUnspent }
    // when it fails
    ensures cause { IfErr result (RecordingCause
        (Rose (J.faults journal.old) (J.faults journal.new))) }
    // what it leaves
    ensures any_moment { (edits : Record) (edit : Edit) → IsTrue J.tells
        → IsReadyRecord J.Journal journal.old profile edits manifest
        → Follows (In ManifestA (Records profile edits edit)) (J.may_leave journal.old)
        (J.left_since journal.new (J.moment journal.old)) }
    // what stays
    ensures never_falls { J.faults journal.old ≤ J.faults journal.new }
    ensures elsewhere { (other : JournalFile) → other ≢ ManifestA
        → J.seen journal.new other ≡ J.seen journal.old other }
    ensures time { Elapses (J.moment journal.old) (J.moment journal.new)
        (J.left_since journal.old) (J.left_since journal.new) }
{
    if let Some(manifest) = manifest {
        return Ok(manifest);
    }
    match Manifest::create(alloc, journal, profile) {
        Ok(manifest) => Ok(manifest),
        Err(LogFault::Memory) => Err(OpenFault::Memory),
        Err(_) => Err(OpenFault::Journal),
    }
}

/// What the fault of an append means to an opening, whose edit is never too long.
fn append_fault(fault: AppendFault) -> OpenFault
    ensures { result ≡ append_fault fault }
{
    match fault {
        AppendFault::Fault => OpenFault::Journal,
        AppendFault::Full => OpenFault::Journal,
        AppendFault::Memory => OpenFault::Memory,
    }
}

/// Records the opening of the next session, with this first log: makes the manifest where there is
/// none, and appends the edit. After `Ok` every crash leaves it; at any moment before, the record as
/// it was, or with the opening.
///
/// `Journal` comes only where the journal failed; beside it comes `Memory` alone.
pub fn record_opening<J: Journal>(
    alloc: Global,
    journal: &mut J,
    profile: Profile,
    recorded: Recorded,
    log: u64,
) -> Result<Manifest, OpenFault>
    requires unspent { IfSome recorded.manifest IsUnspent }
    requires ready { IsTrue J.tells → (edits : Record)
        × IsReadyRecord J.Journal journal.old profile edits recorded.manifest }
    // what it gives
    ensures recorded { IfOk result (λ made. (edits : Record) → IsTrue J.tells
        → IsReadyRecord J.Journal journal.old profile edits recorded.manifest
        → IsReadyManifest J.tells J.seen J.may_leave journal.new made profile
        (edits ++ Open (recorded.shape.session + 1) log ∷ [])) }
    ensures unspent { IfOk result IsUnspent }
    // when it fails
    ensures cause { IfErr result (RecordingCause
        (Rose (J.faults journal.old) (J.faults journal.new))) }
    // what it leaves
    ensures any_moment { (edits : Record) → IsTrue J.tells
        → IsReadyRecord J.Journal journal.old profile edits recorded.manifest
        → Follows (In ManifestA
        (Records profile edits (Open (recorded.shape.session + 1) log))) (J.may_leave journal.old)
        (J.left_since journal.new (J.moment journal.old)) }
    // what stays
    ensures never_falls { J.faults journal.old ≤ J.faults journal.new }
    ensures elsewhere { (other : JournalFile) → other ≢ ManifestA
        → J.seen journal.new other ≡ J.seen journal.old other }
    ensures time { Elapses (J.moment journal.old) (J.moment journal.new)
        (J.left_since journal.old) (J.left_since journal.new) }
{
    let Recorded { shape, manifest } = recorded;
    let session = shape.session + 1;
    let mut made = match have_manifest(alloc, journal, profile, manifest) {
        Ok(made) => made,
        Err(fault) => return Err(fault),
    };
    match made.append(journal, &Edit::Open { session, log }) {
        Ok(()) => Ok(made),
        Err(fault) => Err(append_fault(fault)),
    }
}
