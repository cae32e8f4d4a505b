ghost use Rattle.std.specs.Prelude.{◌≡◌, ℕ, List, IsTrue, Err, Ok, false};
ghost use Rattle.std.specs.Option.{option_or};
ghost use Rattle.peb_base.specs.Faults.{Rose};
ghost use Rattle.peb_base.specs.Batches.{last_number};
ghost use Rattle.flsm_core.specs.Place.{Place, all_of};
ghost use Rattle.pebbles_cli.specs.Tells.{Tells, TellsOne, TookMore, write_line, write_cause, get_line};

use crate::served::Served;
use crate::write::write;
use crate::write_fault::WriteFault;
use disk_model::Sink;
use flsm_core::Store;
use peb_base::{Key, Number};
use script::{Cause, Command, Reply, ReplyBuf, reply_into};

fn tell_written(number: Number, sync: bool, out: &mut ReplyBuf)
    ensures { out.new ≡ write_line sync (Ok number) }
{
    if sync {
        reply_into(&Reply::Synced(number), out);
    } else {
        reply_into(&Reply::Written(number), out);
    }
}

fn tell_write_fault(fault: WriteFault, out: &mut ReplyBuf) -> Option<Cause>
    ensures line { out.new ≡ write_line false (Err fault) }
    ensures cause { result ≡ write_cause (Err fault) }
{
    match fault {
        WriteFault::Unsynced(number) => {
            reply_into(&Reply::UnsyncedFault(number), out);
            Some(Cause::Journal)
        }
        WriteFault::Stopped => {
            reply_into(&Reply::Stopped, out);
            None
        }
        WriteFault::Limit(kind, n) => {
            reply_into(&Reply::Limit(kind, n), out);
            Some(Cause::Limit(kind, n))
        }
        WriteFault::Memory => {
            reply_into(&Reply::Memory, out);
            Some(Cause::Memory)
        }
    }
}

/// Leaves the line for what a write answered, and gives the fault that it tells.
fn tell_write(answer: Result<Number, WriteFault>, sync: bool, out: &mut ReplyBuf) -> Option<Cause>
    ensures line { out.new ≡ write_line sync answer }
    ensures cause { result ≡ write_cause answer }
{
    match answer {
        Ok(number) => {
            tell_written(number, sync, out);
            None
        }
        Err(fault) => tell_write_fault(fault, out),
    }
}

fn get<S: Store>(store: &S, key: &Key, out: &mut ReplyBuf)
    ensures { (p : Place) → S.stands store.now p → out.new ≡ get_line (all_of p) key.now }
{
    let number = store.last();
    match store.get(key.bytes()) {
        Some(value) => reply_into(&Reply::Value(number, value), out),
        None => reply_into(&Reply::Nothing(number), out),
    }
}

/// Runs a command, leaves its line, and gives the fault that the line tells.
fn answer<S: Store>(store: &mut S, command: Command, out: &mut ReplyBuf) -> Option<Cause>
    requires { (p : Place) × S.stands store.old p }
    ensures told { (old : Place) → S.stands store.old old → (new : Place)
        × (S.stands store.new new × TellsOne (S.session store.old) old command out.new result new) }
    ensures session { S.session store.new ≡ S.session store.old }
    ensures touched { S.touched store.old store.new }
{
    match command {
        Command::Put { key, value, sync } => {
            let answer = write(store, key, value, sync);
            tell_write(answer, sync, out)
        }
        Command::Get { key } => {
            get(store, &key, out);
            None
        }
    }
}

/// Runs commands in their order, until all were run or the sink failed. Each reply is handed to the
/// sink before the next command runs.
pub fn serve<S: Store, K: Sink>(
    store: &mut S,
    sink: &mut K,
    commands: Vec<Command>,
    out: &mut ReplyBuf,
) -> Served
    requires { (p : Place) × S.stands store.old p }
    ensures told { (old : Place) → S.stands store.old old
        → (text : List ℕ) × (new : Place) × (S.stands store.new new
        × ((TookMore (K.taken sink.old) text (K.taken sink.new))
        × Tells (TellsOne (S.session store.old)) old commands.items text result.fault
        result.sink_failed new)) }
    ensures session { S.session store.new ≡ S.session store.old }
    ensures touched { S.touched store.old store.new }
    ensures label { K.label sink.new ≡ K.label sink.old }
    ensures sink { IsTrue result.sink_failed → Rose (K.faults sink.old) (K.faults sink.new) }
{
    let mut fault = None;
    for command in commands {
        let told = answer(store, command, out);
        fault = fault.or(told);
        if sink.put(out.bytes()).is_err() {
            return Served {
                fault,
                sink_failed: true,
            };
        }
    }
    Served {
        fault,
        sink_failed: false,
    }
}
