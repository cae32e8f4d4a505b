ghost use Rattle.std.specs.Prelude.{◌≡◌, ◌≤◌, ℕ};
ghost use Rattle.flsm_core.specs.Place.{Place};
ghost use Rattle.pebbles_cli.specs.Outside.{sinks_told};
ghost use Rattle.pebbles_cli.specs.Top.{Went, IsServed};

use crate::serve::serve;
use crate::served::Served;
use disk_model::Sinks;
use flsm_core::Store;
use script::{Command, ReplyBuf};

/// Opens the sink of client 1 under a name, runs the commands, and hands the sink back. Where it
/// can't be opened, no command is run.
pub fn serve_client<S: Store, K: Sinks>(
    store: &mut S,
    sinks: &mut K,
    name: &str,
    commands: Vec<Command>,
    line: &mut ReplyBuf,
) -> Served
    requires { (p : Place) × S.stands store.old p }
    // what it leaves
    ensures served { (start : Place) → S.stands store.old start
        → (went : Went) × (S.stands store.new went.place
        × (went.served ≡ result)
        × IsServed (record {
          session = S.session store.old;
          start = start;
          name = name.now;
          commands = commands.items;
        })
        (sinks_told K.Sinks sinks.old) (sinks_told K.Sinks sinks.new) went) }
    ensures session { S.session store.new ≡ S.session store.old }
    ensures touched { S.touched store.old store.new }
    // what stays
    ensures report { K.reported sinks.new ≡ K.reported sinks.old }
    ensures never_falls { K.faults sinks.old ≤ K.faults sinks.new }
{
    let Ok(mut sink) = sinks.client(1, name) else {
        return Served {
            fault: None,
            sink_failed: true,
        };
    };
    let served = serve(store, &mut sink, commands, line);
    sinks.back(1, sink);
    served
}
