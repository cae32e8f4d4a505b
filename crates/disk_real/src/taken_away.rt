ghost use Rattle.std.specs.Prelude.{◌≡◌, []};

use std::alloc::Global;

/// The numbers of the tables that a maker over files retired, and of those that it removed.
#[derive(Drop)]
pub struct TakenAway {
    pub retired: Vec<u64>,
    pub removed: Vec<u64>,
}

impl TakenAway {
    pub fn nothing(alloc: Global) -> TakenAway
        ensures retired { result.retired.items ≡ [] }
        ensures removed { result.removed.items ≡ [] }
    {
        TakenAway {
            retired: Vec::new(alloc),
            removed: Vec::new(alloc),
        }
    }
}
