ghost use Rattle.std.specs.Prelude.{◌≡◌, false};
ghost use Rattle.disk_model.specs.Plans.{IsEmptyPlan, fails_at};

use std::alloc::Global;

/// Which calls of a form in memory fail: those listed, counted from 1, and all from one on.
///
/// A call that fails by its plan does nothing.
#[derive(Drop)]
pub struct FailPlan {
    pub calls: Vec<u64>,
    pub from: Option<u64>,
}

impl FailPlan {
    /// The plan by which no call fails.
    pub fn empty(alloc: Global) -> FailPlan
        ensures { IsEmptyPlan result }
    {
        FailPlan {
            calls: Vec::new(alloc),
            from: None,
        }
    }

    /// Whether the call that is counted so fails.
    pub(crate) fn fails(&self, call: u64) -> bool
        ensures exact { result ≡ fails_at self.now call }
        ensures never { IsEmptyPlan self.now → result ≡ false }
    {
        let late = match self.from {
            Some(first) => first <= call,
            None => false,
        };
        late || self.calls.contains(&call)
    }
}
