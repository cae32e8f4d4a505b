ghost use Rattle.std.specs.Prelude.{◌≡◌, ◌≤◌, ◌+◌};
ghost use Rattle.disk_model.specs.Images.{Rose};
ghost use Rattle.disk_model.specs.Tables.{capped};

use crate::Failed;
use crate::port_tables::PortTables;
use crate::shelf::Shelf;

/// What devices in memory hold of tables, and what their ports and makers did: the reads, the bytes
/// taken and the faults.
#[derive(Drop)]
pub struct Stock {
    pub shelf: Shelf,
    pub reads: u64,
    pub taken: u64,
    pub faults: u64,
}

impl Stock {
    /// These table files, to which nothing was done.
    pub fn resting(tables: PortTables) -> Stock
        ensures shelf { result.shelf ≡ Shelf.Resting tables }
        ensures reads { result.reads ≡ 0 }
        ensures taken { result.taken ≡ 0 }
        ensures faults { result.faults ≡ 0 }
    {
        Stock {
            shelf: Shelf::Resting(tables),
            reads: 0,
            taken: 0,
            faults: 0,
        }
    }

    /// Counts a fault.
    pub fn fail(&mut self) -> Failed
        ensures shelf { self.new.shelf ≡ self.old.shelf }
        ensures reads { self.new.reads ≡ self.old.reads }
        ensures taken { self.new.taken ≡ self.old.taken }
        ensures counted { self.new.faults ≡ capped (self.old.faults + 1) }
        ensures later { self.old.faults ≤ self.new.faults }
        ensures rose { Rose self.old.faults self.new.faults }
    {
        self.faults = self.faults.saturating_add(1);
        Failed
    }
}
