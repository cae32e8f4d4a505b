ghost use Rattle.std.specs.Prelude.{◌≡◌, ◌≤◌, ℕ, [], ◌∷◌, IfSome, IsErrOf, length};
ghost use Rattle.std.specs.Option.{option_copied};
ghost use Rattle.peb_base.specs.Batches.{last_number};
ghost use Rattle.peb_base.specs.Map.{value_at};
ghost use Rattle.disk_model.specs.Images.{Rose};
ghost use Rattle.flsm_core.specs.Place.{Place, all_of, put_op, after_put, Puts, after_sync, Syncs};
ghost use Rattle.flsm_core.specs.declared.sync_fault.SyncFault.TheVariants as syncs;

use crate::commit_fault::CommitFault;
use crate::sync_fault::SyncFault;
use peb_base::{Key, Number, Value};

/// An open store: an ordered map whose writes are numbered, and stable once they are synced.
///
/// What it stands for is a place in its history (`stands`): each call leads from there to the place
/// that its answer names.
pub trait Store {
    /// The places that the store stands at.
    ghost stands: { Self → Place → Type 0 };

    /// The session of this opening.
    ghost session: { Self → ℕ };

    /// How often the journal has failed.
    ghost faults: { Self → ℕ };

    /// Calls led from the one store to the other, and changed no file of the journal but the store's own log.
    ghost touched: { Self → Self → Type 0 };

    /// Commits a batch that puts one key, and gives its number. It makes no call on the journal.
    ///
    /// `Stopped` comes exactly where the journal has failed before, else `Limit` exactly where the
    /// session's numbers or the bytes that wait would pass their limit, or `Memory`. A refusal
    /// changes nothing.
    fn put(&mut self, key: Key, value: Value) -> Result<Number, CommitFault>
        ensures stands { (p : Place) → stands self.old p
            → stands self.new (after_put (session self.old) p (put_op key value ∷ []) result) }
        ensures answers { (p : Place) → stands self.old p
            → Puts (session self.old) p (put_op key value ∷ []) result }
        ensures session { session self.new ≡ session self.old }
        ensures faults { faults self.new ≡ faults self.old }
        ensures touched { touched self.old self.new };

    /// Makes all committed batches stable: every crash leaves them. It gives the last number and
    /// takes no memory.
    ///
    /// `Stopped` comes exactly where the journal has failed before. `Journal` comes only where it
    /// failed in this call; then the batches that waited may be lost, and every later commit or
    /// sync is refused.
    fn sync(&mut self) -> Result<Number, SyncFault>
        requires { (p : Place) × stands self.old p }
        ensures stands { (p : Place) → stands self.old p → stands self.new (after_sync p result) }
        ensures answers { (p : Place) → stands self.old p → Syncs p result }
        ensures session { session self.new ≡ session self.old }
        ensures later { faults self.old ≤ faults self.new }
        ensures cause { IsErrOf result syncs.Journal → Rose (faults self.old) (faults self.new) }
        ensures touched { touched self.old self.new };

    /// The last number, or 0.0 where there is no batch.
    fn last(&self) -> Number
        ensures { (p : Place) → stands self.now p → result ≡ last_number (all_of p) };

    /// The value of a key after all batches.
    fn get(&self, key: &[u8]) -> Option<&[u8]>
        ensures value { (p : Place) → stands self.now p
            → option_copied result ≡ value_at (all_of p) (last_number (all_of p)) key.now }
        ensures short { IfSome result (λ value. length value.now ≤ 32768) };

    /// No call changes no file.
    ghost touched_self: { (store : Self) → touched store store };

    /// Calls follow one another.
    ghost touched_on: { (a b c : Self) → touched a b → touched b c → touched a c };
}
