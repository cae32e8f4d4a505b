ghost use Rattle.std.specs.Prelude.{◌≡◌, false};
ghost use Rattle.disk_model.specs.Plans.{IsEmptyPlan};

use crate::FailPlan;
use std::sync::atomic::{AtomicU64, Ordering};

/// How many calls all objects of one kind have made, and which of them are to fail.
#[derive(Drop)]
pub struct KindTurns {
    pub plan: FailPlan,
    made: AtomicU64,
}

impl KindTurns {
    pub fn new(plan: FailPlan) -> KindTurns
        ensures { result.plan ≡ plan }
    {
        KindTurns {
            plan,
            made: AtomicU64::new(0),
        }
    }

    /// Counts a call, and says whether the plan wants it to fail.
    pub fn fails_next(&self) -> bool
        ensures { IsEmptyPlan self.now.plan → result ≡ false }
    {
        let earlier = self.made.fetch_add(1, Ordering::SeqCst);
        self.plan.fails(earlier.wrapping_add(1))
    }
}
