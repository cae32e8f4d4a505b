ghost use Rattle.std.specs.Prelude.{◌≡◌, ◌≤◌, ◌<◌, ◌+◌, ◌^◌, ℕ, IsTrue, IsOk, IfOk, OnOk, OnErr, IfSome, length, take, drop, option_map};
ghost use Rattle.std.specs.List.Sorted.{IsStrictlyIncreasing};
ghost use Rattle.disk_model.specs.Images.{HasCause};
ghost use Rattle.disk_model.specs.Faults.{RoseWhere};
ghost use Rattle.disk_model.specs.Tables.{TableFiles, Lists, capped};

use crate::{Failed, ListFault, TableHandle};
use peb_base::Memory;

/// The device that reads sealed tables.
///
/// It answers for the files that were there when it was made. A port over real files looks at them
/// when it is asked: it may find and list a table that was sealed since, and not one that was taken
/// away since. A port counts its faults and its reads, and is joined to another or handed back to
/// its devices, so that the counts are kept.
pub trait Port {
    type File: TableHandle;

    /// The table files that were there when the port was made. No call changes them.
    ghost table_files: { Self → TableFiles };

    /// How often a call has failed, a count that stays at 2^64 - 1 once it is there.
    ghost faults: { Self → ℕ };

    /// The count of reads, which stays at 2^64 - 1 once it is there.
    ghost reads: { Self → ℕ };

    /// While it holds, `read` never fails. It need never hold.
    ghost steady: { Self → Type 0 };

    /// A handle of the table of this number, or `None` exactly where no table of it was sealed when
    /// the port was made.
    ///
    /// `Failed` comes only where the count of faults rose.
    fn find(&mut self, number: u64) -> Result<Option<Self::File>, Failed>
        // what it gives
        ensures number { IfOk result (λ found. IfSome found (λ file.
            Self.File.number file ≡ number)) }
        ensures bytes { IfOk result (λ found. IsTrue Self.File.tells →
            option_map Self.File.bytes found ≡ (table_files self.old).sealed number) }
        // when it fails
        ensures cause { HasCause (faults self.old) (faults self.new) result }
        // what stays
        ensures files { table_files self.new ≡ table_files self.old }
        ensures reads { reads self.new ≡ reads self.old }
        ensures steady { steady self.old → steady self.new };

    /// The numbers of all table files that were there when the port was made, ascending: of those
    /// that were sealed, and of those that were begun and not sealed.
    ///
    /// `ListFault::Failed` comes only where the count of faults rose.
    fn list(&mut self) -> Result<Vec<u64>, ListFault>
        // what it gives
        ensures ascending { IfOk result (λ numbers. IsStrictlyIncreasing numbers.items) }
        ensures numbers { IfOk result (λ numbers. IsTrue Self.File.tells →
            Lists (table_files self.old) numbers.items) }
        // when it fails
        ensures cause { RoseWhere (result
            ≡ Err ListFault.Failed) (faults self.old) (faults self.new) }
        // what stays
        ensures files { table_files self.new ≡ table_files self.old }
        ensures reads { reads self.new ≡ reads self.old }
        ensures steady { steady self.old → steady self.new };

    /// Copies the table's bytes from place `at` on to the front of `out`, and gives their count.
    ///
    /// It is less than the length of `out` exactly where the table ends before. `Failed` comes only
    /// where the count of faults rose. A call is at most one read, and one at Ok.
    fn read(&mut self, file: &Self::File, at: u64, out: &mut [u8]) -> Result<usize, Failed>
        // what it gives
        ensures count { IfOk result (λ n. n ≤ length out.old) }
        ensures read { IfOk result (λ n. IsTrue Self.File.tells →
            take n out.new ≡ take (length out.old) (drop at (Self.File.bytes file.now))) }
        // what it leaves
        ensures counted { OnOk result (reads self.new ≡ capped (reads self.old + 1)) }
        ensures no_fewer { reads self.old ≤ reads self.new }
        ensures once { reads self.new ≤ reads self.old + 1 }
        ensures undone { OnErr result (IsTrue Self.File.is_atomic →
            reads self.new ≡ reads self.old) }
        // when it fails
        ensures cause { HasCause (faults self.old) (faults self.new) result }
        ensures steady { steady self.old → IsOk result × steady self.new }
        // what stays
        ensures files { table_files self.new ≡ table_files self.old };

    /// A port on the same tables, with counts of 0. It is joined when it is done. Memory is the one
    /// refusal.
    fn fork(&mut self) -> Result<Self, Memory>
        // what it gives
        ensures same { IfOk result (λ fork. table_files fork ≡ table_files self.old) }
        ensures unused { IfOk result (λ fork. (faults fork ≡ 0) × (reads fork ≡ 0)) }
        ensures fork_steady { steady self.old → IfOk result (λ fork. steady fork) }
        // what stays
        ensures files { table_files self.new ≡ table_files self.old }
        ensures reads { reads self.new ≡ reads self.old }
        ensures steady { steady self.old → steady self.new }
        ensures faults { faults self.new ≡ faults self.old };

    /// Takes a fork back, and adds its counts to this port's.
    fn join(&mut self, fork: Self)
        ensures reads { reads self.new ≡ capped (reads self.old + reads fork) }
        ensures faults { faults self.new ≡ capped (faults self.old + faults fork) }
        ensures files { table_files self.new ≡ table_files self.old }
        ensures steady { steady self.old → steady self.new };

    /// The count of reads stays below 2^64.
    ghost reads_fit: { (port : Self) → reads port < 2 ^ 64 };
}
