ghost use Rattle.std.specs.Prelude.{◌≡◌, ◌≤◌, ℕ, Result};
ghost use Rattle.peb_base.specs.Faults.{Rose};
ghost use Rattle.disk_model.specs.Replies.{ClientsStay};
ghost use Rattle.flsm_core.specs.declared.sync_fault.SyncFault.{SyncFault};
ghost use Rattle.flsm_core.specs.Place.{Place, Syncs, after_sync};
ghost use Rattle.pebbles_cli.specs.Tells.{sync_cause};
ghost use Rattle.pebbles_cli.specs.Causes.{ReportCause};
ghost use Rattle.pebbles_cli.specs.Top.{Reports};

use disk_model::Sinks;
use flsm_core::{Store, SyncFault};
use peb_base::Number;
use script::{Cause, Report};
use std::alloc::Global;

/// The deepest level of the profile `small`.
const LAST_LEVEL: u8 = 3;

fn sync_cause(answer: Result<Number, SyncFault>) -> Option<Cause>
    ensures { result ≡ sync_cause answer }
{
    match answer {
        Ok(_) => None,
        Err(SyncFault::Stopped) => None,
        Err(SyncFault::Journal) => Some(Cause::Journal),
    }
}

/// Makes all batches stable, and gives the journal's fault, if there is one.
pub fn settle<S: Store>(store: &mut S) -> Option<Cause>
    requires { (p : Place) × S.stands store.old p }
    ensures stands { (p : Place) → S.stands store.old p → (closing : Result ℕ SyncFault)
        × Syncs p closing × (result ≡ sync_cause closing)
        × S.stands store.new (after_sync p closing) }
    ensures touched { S.touched store.old store.new }
{
    let answer = store.sync();
    sync_cause(answer)
}

/// Writes the report, and gives the fault that cut it short, if there is one.
pub fn write_report<K: Sinks>(alloc: Global, sinks: &mut K, last: Number) -> Option<Cause>
    ensures reports { Reports last result (K.reported sinks.old) (K.reported sinks.new) }
    ensures cause { ReportCause (Rose (K.faults sinks.old) (K.faults sinks.new)) result }
    ensures never_falls { K.faults sinks.old ≤ K.faults sinks.new }
    ensures clients { ClientsStay K.Sinks sinks.old sinks.new }
{
    let report = Report {
        last,
        last_level: LAST_LEVEL,
    };
    let Ok(text) = report.text(alloc) else {
        return Some(Cause::Memory);
    };
    if sinks.report(&text).is_err() {
        return Some(Cause::Sink(0));
    }
    None
}
