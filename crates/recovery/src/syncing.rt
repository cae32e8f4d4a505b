ghost use Rattle.std.specs.Prelude.{◌≡◌, ◌≤◌, IfErr, OnOk};
ghost use Rattle.disk_model.specs.Images.{Keeps, Rose};
ghost use Rattle.disk_model.specs.Told.{told_by};
ghost use Rattle.recovery.specs.Opening.{HasWatched};
ghost use Rattle.recovery.specs.declared.open_fault.OpenFault.TheVariants as opens;

use crate::open_fault::OpenFault;
use disk_model::{Journal, JournalFile};

/// Makes a file durable, whether or not it is there. After `Ok` every crash leaves it as it is read.
pub fn sync_file<J: Journal>(journal: &mut J, file: JournalFile) -> Result<(), OpenFault>
    ensures kept { OnOk result (Keeps file (J.seen journal.old file) (J.may_leave journal.new)) }
    ensures cause { IfErr result (λ fault. (fault ≡ opens.Journal)
        × Rose (J.faults journal.old) (J.faults journal.new)) }
    ensures watched { HasWatched (told_by J.Journal journal.old) (told_by J.Journal journal.new) }
    ensures never_falls { J.faults journal.old ≤ J.faults journal.new }
{
    match journal.sync(file) {
        Ok(()) => Ok(()),
        Err(_) => Err(OpenFault::Journal),
    }
}
