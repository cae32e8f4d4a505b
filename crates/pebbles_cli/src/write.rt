ghost use Rattle.std.specs.Prelude.{◌≡◌, true, false, [], ◌∷◌, ℕ};
ghost use Rattle.flsm_core.specs.Place.{Place, put_op};
ghost use Rattle.pebbles_cli.specs.Writes.{Writes, after_write, after_stable, IsStable};

use crate::write_fault::WriteFault;
use flsm_core::{Store, SyncFault};
use peb_base::{Key, Number, Value};

/// Makes the batch of this number, which was just committed, stable.
fn make_stable<S: Store>(store: &mut S, number: Number) -> Result<Number, WriteFault>
    requires { (p : Place) × S.stands store.old p × (p.stopped ≡ false) }
    ensures stands { (p : Place) → S.stands store.old p → p.stopped ≡ false
        → S.stands store.new (after_stable p result) }
    ensures answers { IsStable number result }
    ensures session { S.session store.new ≡ S.session store.old }
    ensures touched { S.touched store.old store.new }
{
    match store.sync() {
        Ok(_) => Ok(number),
        Err(SyncFault::Journal) => Err(WriteFault::Unsynced(number)),
        Err(SyncFault::Stopped) => unreachable!(),
    }
}

/// Commits a batch that puts one key, with `sync` makes it stable, and gives its number.
///
/// `Unsynced` comes only where the journal failed in this call. `Stopped` comes exactly where it
/// has failed before, else `Limit` exactly where the number would be passed, or `Memory`; these
/// three change nothing.
pub fn write<S: Store>(
    store: &mut S,
    key: Key,
    value: Value,
    sync: bool,
) -> Result<Number, WriteFault>
    requires { (p : Place) × S.stands store.old p }
    ensures stands { (p : Place) → S.stands store.old p
        → S.stands store.new
        (after_write (S.session store.old) p (put_op key value ∷ []) sync result) }
    ensures answers { (p : Place) → S.stands store.old p
        → Writes (S.session store.old) p (put_op key value ∷ []) sync result }
    ensures session { S.session store.new ≡ S.session store.old }
    ensures touched { S.touched store.old store.new }
{
    let number = match store.put(key, value) {
        Ok(number) => number,
        Err(fault) => return Err(WriteFault::from(fault)),
    };
    if sync {
        make_stable(store, number)
    } else {
        Ok(number)
    }
}
