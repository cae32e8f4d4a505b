ghost use Rattle.std.specs.Prelude.{◌≡◌, ℕ, List, Option};
ghost use Rattle.disk_model.specs.Images.{HasCause};
ghost use Rattle.disk_model.specs.Bytes.{Fetches};

use crate::Failed;

/// Where scripts come from, by their names. No call changes a script.
pub trait Scripts {
    /// The bytes of the script of a name, where they are told.
    ghost text: { Self → List ℕ → Option (List ℕ) };

    /// How often a call has failed, a count that stays at 2^64 - 1 once it is there.
    ghost faults: { Self → ℕ };

    /// Copies bytes of the script `name` from place `at` on to the front of `out`, and gives their
    /// count.
    ///
    /// It may give fewer than there are. 0 bytes of an `out` that isn't empty are the script's end.
    /// `Failed` comes only where the count of faults rose.
    fn fetch(&mut self, name: &str, at: u64, out: &mut [u8]) -> Result<usize, Failed>
        ensures bytes { Fetches (text self.old name.now) at result out.new }
        ensures same { (name : List ℕ) → text self.new name ≡ text self.old name }
        ensures cause { HasCause (faults self.old) (faults self.new) result };
}
