//! Handles to what is shared.

ghost use Rattle.std.specs.Prelude.{◌≡◌, map, IfOk};
ghost use Rattle.std.specs.Arc.{arc_value};

use peb_base::Memory;
use std::alloc::Global;
use std::sync::Arc;

/// Further handles, in a list with room for so many.
pub fn share_all<X: Drop>(
    alloc: Global,
    handles: &[Arc<X, Global>],
    room: usize,
) -> Result<Vec<Arc<X, Global>>, Memory>
    ensures { IfOk result (λ shared. map arc_value shared.items ≡ map arc_value handles.now) }
{
    let mut shared = Vec::with_capacity(alloc, room)?;
    for handle in handles {
        shared.push(Arc::try_clone(handle)?)?;
    }
    Ok(shared)
}
