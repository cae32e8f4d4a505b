//! Reading a store, before anything is written.

ghost use Rattle.std.specs.Prelude.{◌≤◌, IsTrue, IfOk, IfErr};
ghost use Rattle.disk_model.specs.Images.{Rose};
ghost use Rattle.disk_model.specs.Told.{told_by};
ghost use Rattle.recovery.specs.Looking.{Stored, HasLooked};
ghost use Rattle.recovery.specs.Opening.{HasWatched};
ghost use Rattle.recovery.specs.Reading.{StoreCause};

use crate::looked::Looked;
use crate::open_fault::OpenFault;
use crate::reading::read_logs;
use crate::recorded::read_record;
use crate::walking::sync_below;
use disk_model::Journal;
use flsm_model::law_shape;
use manifest::one_manifest;
use peb_base::Profile;
use record_log::{one_batch, one_reading};
use std::alloc::Global;

/// Reads a store: its record, and the logs that this asks for. Each file is synced before it is
/// read; so are the logs below them, down to the first one that isn't there.
///
/// `Journal` comes only where the journal failed. `Damaged` tells a place of the manifest, or
/// where it has a record, of the first log that isn't in form or can't stand there: one whose
/// header has another profile, or a session that the record doesn't have, is damaged at 0.
/// `Profile` and `Limit` come of the record. Nothing is changed.
pub fn look<J: Journal>(
    alloc: Global,
    journal: &mut J,
    profile: Profile,
) -> Result<Looked, OpenFault>
    ensures found { IfOk result (λ looked. (stored : Stored)
        × HasLooked J.Journal journal.new profile looked stored) }
    ensures cause { IfErr result (StoreCause (Rose (J.faults journal.old) (J.faults journal.new))
        J.tells (J.seen journal.old) profile) }
    ensures watched { HasWatched (told_by J.Journal journal.old) (told_by J.Journal journal.new) }
    ensures never_falls { J.faults journal.old ≤ J.faults journal.new }
{
    one_reading();
    one_batch();
    one_manifest();
    law_shape();
    let recorded = match read_record(alloc, journal, profile) {
        Ok(recorded) => recorded,
        Err(fault) => return Err(fault),
    };
    let first = recorded.shape.log;
    let read = match read_logs(alloc, journal, profile, first, recorded.shape.session) {
        Ok(read) => read,
        Err(fault) => return Err(fault),
    };
    match sync_below(journal, first) {
        Ok(()) => Ok(Looked { recorded, read }),
        Err(fault) => Err(fault),
    }
}
