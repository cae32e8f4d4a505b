ghost use Rattle.std.specs.Prelude.{◌≡◌, ℕ, List, Option};
ghost use Rattle.disk_model.specs.Images.{HasCause};
ghost use Rattle.disk_model.specs.Bytes.{Takes};
ghost use Rattle.disk_model.specs.SinkNames.{Label};

use crate::Failed;

/// What takes the replies to one client.
pub trait Sink {
    /// The bytes taken so far, where they are told.
    ghost taken: { Self → Option (List ℕ) };

    /// For which client it was opened, and under which name.
    ghost label: { Self → Label };

    /// How often a call has failed, a count that stays at 2^64 - 1 once it is there.
    ghost faults: { Self → ℕ };

    /// Takes all of `bytes` after those taken before.
    ///
    /// `Failed` comes only where the count of faults rose; then some first bytes were taken, or
    /// none.
    fn put(&mut self, bytes: &[u8]) -> Result<(), Failed>
        ensures taken { Takes (taken self.old) bytes.now result (taken self.new) }
        ensures label { label self.new ≡ label self.old }
        ensures cause { HasCause (faults self.old) (faults self.new) result };
}
