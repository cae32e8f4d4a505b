ghost use Rattle.std.specs.Prelude.{◌≡◌, ◌≤◌, ◌+◌, IsOk, IfOk, OnOk, OnErr};
ghost use Rattle.std.specs.Arc.{arc_value};
ghost use Rattle.disk_model.specs.Images.{Rose, HasCause};
ghost use Rattle.disk_model.specs.Tables.{capped};
ghost use Rattle.disk_model.specs.Plans.{IsEmptyPlan};

use crate::Failed;
use crate::kind_turns::KindTurns;
use std::alloc::AllocError;
use std::sync::Arc;

/// The turns that one object shares with the others of its kind, and how often it failed itself.
#[derive(Drop)]
pub struct SharedTurns {
    pub kind: Arc<KindTurns>,
    pub faults: u64,
}

impl SharedTurns {
    pub fn new(kind: &Arc<KindTurns>) -> Result<SharedTurns, AllocError>
        ensures kind { IfOk result (λ turns. arc_value turns.kind ≡ arc_value kind.now) }
        ensures faults { IfOk result (λ turns. turns.faults ≡ 0) }
    {
        Ok(SharedTurns {
            kind: Arc::try_clone(kind)?,
            faults: 0,
        })
    }

    /// Counts a fault.
    pub fn fail(&mut self) -> Failed
        ensures kind { self.new.kind ≡ self.old.kind }
        ensures counted { self.new.faults ≡ capped (self.old.faults + 1) }
        ensures later { self.old.faults ≤ self.new.faults }
        ensures rose { Rose self.old.faults self.new.faults }
    {
        self.faults = self.faults.saturating_add(1);
        Failed
    }

    /// Counts a call, and a fault where the plan wants one.
    pub fn begin(&mut self) -> Result<(), Failed>
        ensures kind { self.new.kind ≡ self.old.kind }
        ensures never { IsEmptyPlan (arc_value self.old.kind).plan → IsOk result }
        ensures fault { OnErr result (self.new.faults ≡ capped (self.old.faults + 1)) }
        ensures unfailed { OnOk result (self.new.faults ≡ self.old.faults) }
        ensures cause { HasCause self.old.faults self.new.faults result }
    {
        if self.kind.fails_next() {
            return Err(self.fail());
        }
        Ok(())
    }
}
