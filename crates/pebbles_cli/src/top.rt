ghost use Rattle.std.specs.Prelude.{◌≡◌, ◌↔◌, ℕ, Bool, true, false, IsTrue, List, map, None, IfSome, string_bytes};
ghost use Rattle.peb_base.specs.declared.profile.Profile.TheVariants.{Small};
ghost use Rattle.peb_base.specs.Batches.{Batches};
ghost use Rattle.peb_base.specs.Faults.{Rose};
ghost use Rattle.flsm_model.specs.Shape.{Record};
ghost use Rattle.recovery.specs.Opened.{OpensBy};
ghost use Rattle.flsm_core.specs.Place.{start_at};
ghost use Rattle.recovery.specs.Range.{Range, AreIn};
ghost use Rattle.script.specs.Cause.{status_of};
ghost use Rattle.script.specs.declared.cause.Cause.TheVariants as causes;
ghost use Rattle.pebbles_cli.specs.Words.{run_words};
ghost use Rattle.pebbles_cli.specs.Causes.{PlayCause, IsBeforeOpening};
ghost use Rattle.pebbles_cli.specs.Outside.{outside};
ghost use Rattle.pebbles_cli.specs.Top.{Asked, Plays, PlaysIn, PlaysSomehow};

use crate::ended::Ended;
use crate::read_commands::read_commands;
use crate::run::run_commands;
use crate::words::run_words;
use disk_model::{Devices, Scripts, Sinks};
use script::Cause;
use std::alloc::Global;

/// Reads a script, and runs its commands on the store of a directory.
fn play<D: Devices, S: Scripts, K: Sinks>(
    alloc: Global,
    dir: &str,
    file: &str,
    devices: &mut D,
    scripts: &mut S,
    sinks: &mut K,
) -> Cause
    // what it does
    ensures ran { IsTrue D.J.tells → (honest : Bool) (base : Batches) (edits : Record)
        → OpensBy Small edits honest base (D.journal_told devices.old)
        → Plays (start_at (D.journal_told devices.old) Small honest base edits)
        (record { dir = dir.now; file = file.now; text = S.text scripts.old file.now })
        (outside D.J.Journal D.Devices K.Sinks devices.old sinks.old)
        (outside D.J.Journal D.Devices K.Sinks devices.new sinks.new) result }
    ensures within { IsTrue D.J.tells → (range : Range) → range.profile ≡ Small
        → AreIn range (D.journal_told devices.old).may_leave
        → PlaysIn range
        (record { dir = dir.now; file = file.now; text = S.text scripts.old file.now })
        (outside D.J.Journal D.Devices K.Sinks devices.old sinks.old)
        (outside D.J.Journal D.Devices K.Sinks devices.new sinks.new) result }
    ensures somehow { PlaysSomehow
        (record { dir = dir.now; file = file.now; text = S.text scripts.old file.now })
        (outside D.J.Journal D.Devices K.Sinks devices.old sinks.old)
        (outside D.J.Journal D.Devices K.Sinks devices.new sinks.new) result }
    // when it fails
    ensures source { (i : ℕ) → result ≡ causes.Source i
        → Rose (S.faults scripts.old) (S.faults scripts.new) }
    // what stays
    ensures untouched { IsBeforeOpening result → devices.new ≡ devices.old }
    ensures silent { IsBeforeOpening result → sinks.new ≡ sinks.old }
{
    let commands = match read_commands(alloc, scripts, file) {
        Ok(commands) => commands,
        Err(cause) => return cause,
    };
    run_commands(alloc, dir, file, devices, sinks, commands)
}

/// Does all that the program does, on words that need no thread.
///
/// The words are `run --profile small --workers 0 DIR FILE`; all others are `Usage`. The script
/// FILE is read and parsed, the store of the directory DIR is opened on the devices, the commands
/// run one after another, each reply is handed to the sink that is opened for client 1 under the
/// name FILE.out before the next command runs, the store is synced and closed, and the report goes
/// to the report's sink. Once the store was opened, it is closed and the report is written whatever
/// happened. No other directory is chosen, no other sink is opened, and no table is touched. The
/// cause is the first fault: of the words, the script, the opening, a reply, the client's sink, the
/// last sync, the report.
///
/// The devices come back with all that was made of them. A crash at any moment of the call, and
/// after it, leaves the batches that were opened and first ones of the run, after it at least the
/// settled ones; and the record that was opened, or that and this opening, after it with the opening.
pub fn top_plain<D: Devices, S: Scripts, K: Sinks>(
    alloc: Global,
    words: &[String],
    devices: D,
    scripts: &mut S,
    sinks: &mut K,
) -> Ended<D>
    // what it does: over a base that each image stood for, or that is read; over what is read,
    // where images differ within a range; and over some base in any case
    ensures ran { IfSome (run_words (map string_bytes words.now)) (λ names. IsTrue D.J.tells
        → (honest : Bool) (base : Batches) (edits : Record)
        → OpensBy Small edits honest base (D.journal_told devices)
        → Plays (start_at (D.journal_told devices) Small honest base edits)
        (record { dir = names.0; file = names.1; text = S.text scripts.old names.1 })
        (outside D.J.Journal D.Devices K.Sinks devices sinks.old)
        (outside D.J.Journal D.Devices K.Sinks result.devices sinks.new) result.cause) }
    ensures within { IfSome (run_words (map string_bytes words.now)) (λ names. IsTrue D.J.tells
        → (range : Range) → range.profile ≡ Small
        → AreIn range (D.journal_told devices).may_leave
        → PlaysIn range
        (record { dir = names.0; file = names.1; text = S.text scripts.old names.1 })
        (outside D.J.Journal D.Devices K.Sinks devices sinks.old)
        (outside D.J.Journal D.Devices K.Sinks result.devices sinks.new) result.cause) }
    ensures somehow { IfSome (run_words (map string_bytes words.now)) (λ names. PlaysSomehow
        (record { dir = names.0; file = names.1; text = S.text scripts.old names.1 })
        (outside D.J.Journal D.Devices K.Sinks devices sinks.old)
        (outside D.J.Journal D.Devices K.Sinks result.devices sinks.new) result.cause) }
    // how it ends
    ensures status { result.status ≡ status_of result.cause }
    ensures usage { (result.cause ≡ causes.Usage)
        ↔ (run_words (map string_bytes words.now) ≡ None) }
    ensures cause { IfSome (run_words (map string_bytes words.now))
        (λ names. PlayCause (S.text scripts.old names.1)
        (outside D.J.Journal D.Devices K.Sinks devices sinks.old)
        (outside D.J.Journal D.Devices K.Sinks result.devices sinks.new) result.cause) }
    ensures source { (i : ℕ) → result.cause ≡ causes.Source i
        → Rose (S.faults scripts.old) (S.faults scripts.new) }
    // what stays
    ensures untouched { IsBeforeOpening result.cause → result.devices ≡ devices }
    ensures silent { IsBeforeOpening result.cause → sinks.new ≡ sinks.old }
    ensures unread { (result.cause ≡ causes.Usage) → scripts.new ≡ scripts.old }
{
    let Some(names) = run_words(words) else {
        return Ended::new(Cause::Usage, devices);
    };
    let mut devices = devices;
    let cause = play(alloc, names.dir, names.file, &mut devices, scripts, sinks);
    Ended::new(cause, devices)
}
