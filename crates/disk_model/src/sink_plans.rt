ghost use Rattle.std.specs.Prelude.{◌≡◌, [], None};
ghost use Rattle.disk_model.specs.Plans.{IsEmptyPlan};

use crate::FailPlan;
use std::alloc::Global;

/// The plans of the sinks in memory.
///
/// `calls` are the calls of `client` and `report` that fail and do nothing. A client's sink in
/// `rooms`, or the report, takes the given number of bytes in all; a call that goes past them takes
/// those that fit, and fails.
#[derive(Drop)]
pub struct SinkPlans {
    pub calls: FailPlan,
    pub rooms: Vec<(u32, u64)>,
    pub report: Option<u64>,
}

impl SinkPlans {
    /// The plans by which no call fails.
    pub fn empty(alloc: Global) -> SinkPlans
        ensures calls { IsEmptyPlan result.calls }
        ensures rooms { result.rooms.items ≡ [] }
        ensures report { result.report ≡ None }
    {
        SinkPlans {
            calls: FailPlan::empty(alloc),
            rooms: Vec::new(alloc),
            report: None,
        }
    }
}
