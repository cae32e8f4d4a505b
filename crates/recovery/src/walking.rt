//! The logs below those that an opening reads.

ghost use Rattle.std.specs.Prelude.{◌≡◌, ◌≤◌, ◌<◌, ℕ, None, IsTrue, true, false, IfOk, IfErr, OnOk};
ghost use Rattle.disk_model.specs.Images.{Keeps, Rose};
ghost use Rattle.disk_model.specs.Told.{told_by};
ghost use Rattle.disk_model.specs.declared.journal_file.JournalFile.TheVariants.{Log};
ghost use Rattle.recovery.specs.Opening.{HasWatched};
ghost use Rattle.recovery.specs.Reading.{KeepsBelow};
ghost use Rattle.recovery.specs.declared.open_fault.OpenFault.TheVariants as opens;

use crate::open_fault::OpenFault;
use crate::syncing::sync_file;
use disk_model::{Journal, JournalFile};

/// Syncs the log of this number, whether or not it is there, and tells whether it is.
fn sync_log<J: Journal>(journal: &mut J, number: u64) -> Result<bool, OpenFault>
    ensures kept { OnOk result (Keeps (Log number) (J.seen journal.old (Log number))
        (J.may_leave journal.new)) }
    ensures absent { IfOk result (λ there. there ≡ false → IsTrue J.tells
        → J.seen journal.old (Log number) ≡ None) }
    ensures cause { IfErr result (λ fault. (fault ≡ opens.Journal)
        × Rose (J.faults journal.old) (J.faults journal.new)) }
    ensures watched { HasWatched (told_by J.Journal journal.old) (told_by J.Journal journal.new) }
    ensures never_falls { J.faults journal.old ≤ J.faults journal.new }
{
    let file = JournalFile::Log(number);
    match sync_file(journal, file) {
        Ok(()) => {}
        Err(fault) => return Err(fault),
    }
    match journal.size(file) {
        Ok(Some(_)) => Ok(true),
        Ok(None) => Ok(false),
        Err(_) => Err(OpenFault::Journal),
    }
}

/// Syncs the logs below this number, down to the first one that isn't there, and that one too.
/// After `Ok` every crash leaves each of them as it is read.
///
/// `Journal` comes where the journal failed, and no other fault.
pub fn sync_below<J: Journal>(journal: &mut J, number: u64) -> Result<(), OpenFault>
    ensures kept { OnOk result (KeepsBelow J.Journal journal.new number) }
    ensures cause { IfErr result (λ fault. (fault ≡ opens.Journal)
        × Rose (J.faults journal.old) (J.faults journal.new)) }
    ensures watched { HasWatched (told_by J.Journal journal.old) (told_by J.Journal journal.new) }
    ensures never_falls { J.faults journal.old ≤ J.faults journal.new }
{
    let mut low = number;
    'down: while low > 0 {
        low -= 1;
        match sync_log(journal, low) {
            Ok(true) => {}
            Ok(false) => return Ok(()),
            Err(fault) => return Err(fault),
        }
    }
    Ok(())
}
