//! Laws of what a run tells. Each function runs nothing; its contract is the law.

ghost use Rattle.pebbles_cli.specs.Crashes.{FinishedLogsStay, LeavesRanges};
ghost use Rattle.pebbles_cli.specs.Numbers.{RunsNumber};
ghost use Rattle.pebbles_cli.specs.Outside.{outside};
ghost use Rattle.pebbles_cli.specs.Shows.{RunsShow, StoppedStays};

use disk_model::{Devices, Sinks};

/// Each value that a run reads is that of its key in the map of all batches of the run, at the
/// number of the reply; the batch of each number that it prints is among them, and where it is
/// printed `synced`, every crash leaves it.
pub fn law_reads()
    ensures { RunsShow }
{}

/// Along a run no number falls, and a write's is above all before it. Each is the last number after
/// some first batches of the run, which begin with those that were opened: no reply is older than
/// what the client saw.
pub fn law_numbers()
    ensures { RunsNumber }
{}

/// Once the journal has failed each write replies `stopped` and changes nothing.
pub fn law_stopped()
    ensures { StoppedStays }
{}

/// Over a journal whose images all stood for one list of batches, a run leaves what the next run's
/// promise asks: images from the settled batches to all, and, whenever it is stopped, from those that
/// were opened to all.
pub fn law_next_run<D: Devices, K: Sinks>(devices: &D, sinks: &K, later: &D, later_sinks: &K)
    ensures { LeavesRanges (outside D.J.Journal D.Devices K.Sinks devices.now sinks.now)
        (outside D.J.Journal D.Devices K.Sinks later.now later_sinks.now) }
{}

/// A log that was finished before a run is as it was, also in each image of a crash within the run.
pub fn law_finished_logs<D: Devices, K: Sinks>(devices: &D, sinks: &K, later: &D, later_sinks: &K)
    ensures { FinishedLogsStay (outside D.J.Journal D.Devices K.Sinks devices.now sinks.now)
        (outside D.J.Journal D.Devices K.Sinks later.now later_sinks.now) }
{}
