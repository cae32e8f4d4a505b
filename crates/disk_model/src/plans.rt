ghost use Rattle.disk_model.specs.Plans.{IsEmptyPlan};

use crate::FailPlan;
use std::alloc::Global;

/// The plans of the devices in memory, one for each kind of object. All objects of a kind share its
/// plan and its count of calls.
#[derive(Drop)]
pub struct Plans {
    pub journal: FailPlan,
    pub port: FailPlan,
    pub maker: FailPlan,
}

impl Plans {
    /// The plans by which no call fails.
    pub fn empty(alloc: Global) -> Plans
        ensures journal { IsEmptyPlan result.journal }
        ensures port { IsEmptyPlan result.port }
        ensures maker { IsEmptyPlan result.maker }
    {
        Plans {
            journal: FailPlan::empty(alloc),
            port: FailPlan::empty(alloc),
            maker: FailPlan::empty(alloc),
        }
    }
}
