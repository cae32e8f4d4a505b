//! The store's record, as its manifest keeps it.

ghost use Rattle.std.specs.Prelude.{◌≡◌, ◌≤◌, ◌<◌, [], Some, None, Ok, IsTrue, IfOk, IfErr, IfSome, OnOk};
ghost use Rattle.peb_base.specs.Profiles.{column};
ghost use Rattle.disk_model.specs.Images.{Keeps, Rose};
ghost use Rattle.disk_model.specs.Told.{told_by};
ghost use Rattle.disk_model.specs.declared.journal_file.JournalFile.TheVariants.{ManifestA, ManifestB};
ghost use Rattle.record_log.specs.Log.{IsUnfinished};
ghost use Rattle.flsm_model.specs.Fields.{fields_of};
ghost use Rattle.flsm_model.specs.Fits.{IsShapeOf};
ghost use Rattle.flsm_model.specs.Shape.{Record};
ghost use Rattle.manifest.specs.declared.manifest_file.Manifest.{Manifest};
ghost use Rattle.manifest.specs.Manifests.{IsManifest, IsReadyManifest, IsUnspent, edits_of};
ghost use Rattle.recovery.specs.Opening.{HasWatched};
ghost use Rattle.recovery.specs.Record.{HoldsRecord, MisfitCause, FoldCause, RecordCause, IsReadyRecord, record_fault};
ghost use Rattle.recovery.specs.declared.open_fault.OpenFault.TheVariants as opens;

use crate::open_fault::OpenFault;
use crate::syncing::sync_file;
use disk_model::{Journal, JournalFile};
use flsm_model::{Edit, Shape};
use manifest::{Manifest, ManifestFront};
use peb_base::{FileName, LimitKind, Options, Profile};
use record_log::LogFault;
use std::alloc::Global;

/// The greatest session that an opening may have.
const LAST_SESSION: u64 = 8_388_607;

/// What the manifest tells: what its edits leave, and the manifest, ready for the next one.
#[derive(Drop)]
pub struct Recorded {
    pub shape: Shape,
    /// None where no manifest was created to its end.
    pub manifest: Option<Manifest>,
    ghost followed: { shape.session < 8388607 },
}

/// What the fault of the manifest means to an opening.
fn record_fault(fault: LogFault) -> OpenFault
    ensures { result ≡ record_fault fault }
{
    match fault {
        LogFault::Fault => OpenFault::Journal,
        LogFault::Damaged { at } => OpenFault::Damaged(FileName::ManifestA, at),
        LogFault::Memory => OpenFault::Memory,
    }
}

/// Takes edits in, each behind the place of its group's gate, in their order.
///
/// `Damaged` tells the place of the first one that doesn't fit those before it. Beside it comes
/// `Memory` alone.
fn fold(alloc: Global, options: &Options, edits: &[(u64, Edit)]) -> Result<Shape, OpenFault>
    ensures shape { IfOk result (λ shape. IsShapeOf (column options.now.profile) (fields_of shape)
        (edits_of edits.now)) }
    ensures cause { IfErr result (MisfitCause (column options.now.profile) edits.now) }
{
    let Ok(mut shape) = Shape::new(alloc, options) else {
        return Err(OpenFault::Memory);
    };
    for item in edits {
        let fitting = match shape.add(&item.1) {
            Ok(fitting) => fitting,
            Err(_) => return Err(OpenFault::Memory),
        };
        if !fitting {
            return Err(OpenFault::Damaged(FileName::ManifestA, item.0));
        }
    }
    Ok(shape)
}

/// The record of a manifest that was read up to its first damage.
///
/// `Damaged` tells the first edit that doesn't fit those before it, and where all do that damage;
/// then `Profile` tells that the manifest has another profile than the one asked for, then `Limit`
/// that no session is left.
fn record_of(alloc: Global, profile: Profile, front: ManifestFront) -> Result<Recorded, OpenFault>
    ensures record { IfOk result (λ recorded. (front.profile ≡ profile)
        × IsShapeOf (column profile) (fields_of recorded.shape) (edits_of front.edits)
        × ((manifest : Manifest) × (front.manifest ≡ Ok manifest)
        × (recorded.manifest ≡ Some manifest))) }
    ensures cause { IfErr result (FoldCause profile front.profile front.edits front.manifest) }
{
    let ManifestFront {
        profile: have,
        edits,
        manifest,
    } = front;
    let options = Options::of(have);
    let shape = match fold(alloc, &options, edits.items()) {
        Ok(shape) => shape,
        Err(fault) => return Err(fault),
    };
    let manifest = match manifest {
        Ok(manifest) => manifest,
        Err(at) => return Err(OpenFault::Damaged(FileName::ManifestA, at)),
    };
    if have != profile {
        return Err(OpenFault::Profile(have, profile));
    }
    if shape.session >= LAST_SESSION {
        return Err(OpenFault::Limit(LimitKind::Openings, LAST_SESSION));
    }
    Ok(Recorded {
        shape,
        manifest: Some(manifest),
    })
}

/// The record of a store without a manifest.
fn no_record(alloc: Global, profile: Profile) -> Result<Recorded, OpenFault>
    ensures record { IfOk result (λ recorded.
        IsShapeOf (column profile) (fields_of recorded.shape) []
        × (recorded.manifest ≡ None)) }
    ensures cause { IfErr result (λ fault. fault ≡ opens.Memory) }
{
    let options = Options::of(profile);
    let Ok(shape) = Shape::new(alloc, &options) else {
        return Err(OpenFault::Memory);
    };
    Ok(Recorded {
        shape,
        manifest: None,
    })
}

/// Replays the manifest, which was synced, and folds its edits.
fn replay_record<J: Journal>(
    alloc: Global,
    journal: &mut J,
    profile: Profile,
) -> Result<Recorded, OpenFault>
    // what it gives
    ensures record { IfOk result (λ recorded. (edits : Record)
        × IsShapeOf (column profile) (fields_of recorded.shape) edits
        × (IsTrue J.tells → HoldsRecord profile edits (J.seen journal.old ManifestA)
        × IsReadyRecord J.Journal journal.new profile edits recorded.manifest)) }
    ensures unspent { IfOk result (λ recorded. IfSome recorded.manifest IsUnspent) }
    // when it fails
    ensures cause { IfErr result (RecordCause (Rose (J.faults journal.old) (J.faults journal.new))
        J.tells (J.seen journal.old ManifestA) profile) }
    // what it leaves
    ensures kept { OnOk result (Keeps ManifestA (J.seen journal.old ManifestA)
        (J.may_leave journal.new)) }
    ensures watched { HasWatched (told_by J.Journal journal.old) (told_by J.Journal journal.new) }
    ensures never_falls { J.faults journal.old ≤ J.faults journal.new }
{
    let front = match Manifest::replay_front(alloc, journal) {
        Ok(Some(front)) => front,
        Ok(None) => return no_record(alloc, profile),
        Err(fault) => return Err(record_fault(fault)),
    };
    record_of(alloc, profile, front)
}

/// Reads the record of a store: syncs both files of the manifest, replays the one in force, and
/// folds its edits. The manifest comes back ready for the next edit.
///
/// `Damaged` tells the first place of the manifest that isn't in form or doesn't fit: 0 for the
/// header, else the gate of its first group that is no edit's, or whose edit doesn't fit those before
/// it. Then comes `Profile`, where the manifest has another profile than the one asked for, then
/// `Limit`, where no session is left. `Journal` comes only where the journal failed. Nothing is
/// changed; after `Ok` every crash leaves both files as they are read.
pub fn read_record<J: Journal>(
    alloc: Global,
    journal: &mut J,
    profile: Profile,
) -> Result<Recorded, OpenFault>
    // what it gives
    ensures record { IfOk result (λ recorded. (edits : Record)
        × IsShapeOf (column profile) (fields_of recorded.shape) edits
        × (IsTrue J.tells → HoldsRecord profile edits (J.seen journal.old ManifestA)
        × IsReadyRecord J.Journal journal.new profile edits recorded.manifest)) }
    ensures unspent { IfOk result (λ recorded. IfSome recorded.manifest IsUnspent) }
    // when it fails
    ensures cause { IfErr result (RecordCause (Rose (J.faults journal.old) (J.faults journal.new))
        J.tells (J.seen journal.old ManifestA) profile) }
    // what it leaves
    ensures kept { OnOk result (Keeps ManifestA (J.seen journal.old ManifestA)
        (J.may_leave journal.new)) }
    ensures other_kept { OnOk result (Keeps ManifestB (J.seen journal.old ManifestB)
        (J.may_leave journal.new)) }
    ensures watched { HasWatched (told_by J.Journal journal.old) (told_by J.Journal journal.new) }
    ensures never_falls { J.faults journal.old ≤ J.faults journal.new }
{
    match sync_file(journal, JournalFile::ManifestB) {
        Ok(()) => {}
        Err(fault) => return Err(fault),
    }
    replay_record(alloc, journal, profile)
}
