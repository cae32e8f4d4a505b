ghost use Rattle.std.specs.Prelude.{◌≡◌, ◌≤◌, ℕ, List, Bool, true, false, IsTrue, IfOk, Option, string_bytes};
ghost use Rattle.peb_base.specs.declared.profile.Profile.TheVariants.{Small};
ghost use Rattle.peb_base.specs.Batches.{Batches};
ghost use Rattle.disk_model.specs.Told.{TablesStay, told_by};
ghost use Rattle.flsm_model.specs.Shape.{Record};
ghost use Rattle.recovery.specs.Opened.{OpensBy};
ghost use Rattle.flsm_core.specs.Place.{Place, start_at};
ghost use Rattle.flsm_core.specs.Standing.{IsAt};
ghost use Rattle.recovery.specs.Range.{Range, AreIn};
ghost use Rattle.flsm_core.specs.State.{state_journal, state_file};
ghost use Rattle.flsm_core.specs.Touched.{HasTouched};
ghost use Rattle.pebbles_cli.specs.Causes.{IsBeforeOpening, Says, end_of};
ghost use Rattle.pebbles_cli.specs.Names.{replies_name};
ghost use Rattle.pebbles_cli.specs.Outside.{outside, sinks_told};
ghost use Rattle.pebbles_cli.specs.Read.{IsWithin};
ghost use Rattle.pebbles_cli.specs.Tells.{sync_cause};
ghost use Rattle.pebbles_cli.specs.Top.{Asked, Closed, IsClosed, Plays, PlaysIn, PlaysSomehow};

use crate::closing::{settle, write_report};
use crate::opening::{close_store, open_store};
use crate::serve_client::serve_client;
use crate::served::Served;
use disk_model::{Devices, Sinks};
use flsm_core::{State, Store};
use script::{Cause, Command, ReplyBuf};
use std::alloc::{AllocError, Global};

/// The name of the file of a client's replies.
fn reply_name(alloc: Global, file: &str) -> Result<String, AllocError>
    ensures { IfOk result (λ name. string_bytes name ≡ replies_name file.now) }
{
    format!(in alloc; "{file}.out")
}

/// The first of these faults, or `Done`.
fn end_of(served: Served, closing: Option<Cause>, report: Option<Cause>) -> Cause
    ensures { result ≡ end_of served.fault served.sink_failed closing report }
{
    let sink = if served.sink_failed {
        Some(Cause::Sink(1))
    } else {
        None
    };
    served
        .fault
        .or(sink.or(closing.or(report)))
        .unwrap_or(Cause::Done)
}

/// Settles a store, hands its journal back, writes the report, and gives the cause that the run
/// ends with.
fn close_run<D: Devices, K: Sinks>(
    alloc: Global,
    devices: &mut D,
    sinks: &mut K,
    opened: State<D::J>,
    served: Served,
) -> Cause
    requires { (p : Place) × IsAt D.J.Journal opened p }
    // what it leaves
    ensures closed { (p : Place) → IsAt D.J.Journal opened p → (closed : Closed)
        × (IsClosed p (sinks_told K.Sinks sinks.old)
        (outside D.J.Journal D.Devices K.Sinks devices.new sinks.new) closed
        × (result ≡ end_of served.fault served.sink_failed
        (sync_cause closed.answer) closed.report)) }
    // what stays
    ensures directories { D.directories devices.new ≡ D.directories devices.old }
    ensures touched { HasTouched D.J.tells (state_file opened)
        (told_by D.J.Journal (state_journal opened))
        (D.journal_told devices.new) }
    ensures faults { D.faults devices.new ≡ D.faults devices.old }
    ensures tables { TablesStay (D.tables_told devices.old) (D.tables_told devices.new) }
{
    let mut state = opened;
    let closing = settle(&mut state);
    let last = state.last();
    close_store(devices, state);
    let report = write_report(alloc, sinks, last);
    end_of(served, closing, report)
}

/// Opens the store of a directory, runs the commands of a script, and closes the store.
///
/// Once the store was opened, it is settled and the report is written, whatever happens.
pub fn run_commands<D: Devices, K: Sinks>(
    alloc: Global,
    dir: &str,
    file: &str,
    devices: &mut D,
    sinks: &mut K,
    commands: Vec<Command>,
) -> Cause
    ensures ran { IsTrue D.J.tells → (text : Option (List ℕ)) → IsWithin text 16777216
        → Says text commands.items
        → (honest : Bool) (base : Batches) (edits : Record)
        → OpensBy Small edits honest base (D.journal_told devices.old)
        → Plays (start_at (D.journal_told devices.old) Small honest base edits)
        (record { dir = dir.now; file = file.now; text = text })
        (outside D.J.Journal D.Devices K.Sinks devices.old sinks.old)
        (outside D.J.Journal D.Devices K.Sinks devices.new sinks.new) result }
    ensures within { IsTrue D.J.tells → (text : Option (List ℕ)) → IsWithin text 16777216
        → Says text commands.items
        → (range : Range) → range.profile ≡ Small
        → AreIn range (D.journal_told devices.old).may_leave
        → PlaysIn range (record { dir = dir.now; file = file.now; text = text })
        (outside D.J.Journal D.Devices K.Sinks devices.old sinks.old)
        (outside D.J.Journal D.Devices K.Sinks devices.new sinks.new) result }
    ensures somehow { (text : Option (List ℕ)) → IsWithin text 16777216 → Says text commands.items
        → PlaysSomehow (record { dir = dir.now; file = file.now; text = text })
        (outside D.J.Journal D.Devices K.Sinks devices.old sinks.old)
        (outside D.J.Journal D.Devices K.Sinks devices.new sinks.new) result }
    ensures after_opening { IsBeforeOpening result → ⊥ }
{
    let Ok(name) = reply_name(alloc, file) else {
        return Cause::Memory;
    };
    let Ok(mut line) = ReplyBuf::new(alloc) else {
        return Cause::Memory;
    };
    let mut state = match open_store(alloc, dir, devices) {
        Ok(state) => state,
        Err(cause) => return cause,
    };
    let served = serve_client(&mut state, sinks, name.as_str(), commands, &mut line);
    close_run(alloc, devices, sinks, state, served)
}
