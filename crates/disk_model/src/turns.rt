ghost use Rattle.std.specs.Prelude.{◌≡◌, ◌≤◌, ◌+◌, ◌%◌, ◌^◌, is_err, IsOk, OnOk, OnErr};
ghost use Rattle.disk_model.specs.Images.{Rose, HasCause};
ghost use Rattle.disk_model.specs.Tables.{capped};
ghost use Rattle.disk_model.specs.Plans.{IsEmptyPlan, fails_at};

use crate::{FailPlan, Failed};

/// How many calls were made, which are to fail, and how many did.
#[derive(Drop)]
pub struct Turns {
    pub plan: FailPlan,
    made: u64,
    pub faults: u64,
}

impl Turns {
    pub fn new(plan: FailPlan) -> Turns
        ensures plan { result.plan ≡ plan }
        ensures faults { result.faults ≡ 0 }
    {
        Turns {
            plan,
            made: 0,
            faults: 0,
        }
    }

    /// Counts a fault.
    pub fn fail(&mut self) -> Failed
        ensures plan { self.new.plan ≡ self.old.plan }
        ensures made { self.new.made ≡ self.old.made }
        ensures counted { self.new.faults ≡ capped (self.old.faults + 1) }
        ensures later { self.old.faults ≤ self.new.faults }
        ensures rose { Rose self.old.faults self.new.faults }
    {
        self.faults = self.faults.saturating_add(1);
        Failed
    }

    /// Counts a call, and a fault where the plan wants one.
    pub fn begin(&mut self) -> Result<(), Failed>
        ensures plan { self.new.plan ≡ self.old.plan }
        ensures counted { self.new.made ≡ (self.old.made + 1) % 2 ^ 64 }
        ensures exact { is_err result ≡ fails_at self.old.plan self.new.made }
        ensures never { IsEmptyPlan self.old.plan → IsOk result }
        ensures fault { OnErr result (self.new.faults ≡ capped (self.old.faults + 1)) }
        ensures unfailed { OnOk result (self.new.faults ≡ self.old.faults) }
        ensures cause { HasCause self.old.faults self.new.faults result }
    {
        self.made = self.made.wrapping_add(1);
        if self.plan.fails(self.made) {
            return Err(self.fail());
        }
        Ok(())
    }

    pub fn into_plan(self) -> FailPlan
        ensures { result ≡ self.plan }
    {
        self.plan
    }
}
