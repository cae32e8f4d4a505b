ghost use Rattle.std.specs.Prelude.{◌≡◌, ◌⊎◌, ◌+◌, ◌^◌, ◌<◌, ◌++◌, [], ℕ, List, Option, None, Some, IsTrue, IsSome, IfOk, OnOk, OnErr, length};
ghost use Rattle.disk_model.specs.Images.{HasCause};
ghost use Rattle.disk_model.specs.Tables.{Sealed, Gone, capped, with_table, with_retired, with_removed, TakesSome};

use crate::{Failed, TableHandle};

/// The device that writes tables, one after another, and takes them away.
///
/// A table is begun, written and sealed. A maker counts its faults and the bytes that it took, and
/// is handed back to its devices, which then tell what it sealed.
pub trait Maker {
    type File: TableHandle;

    /// The number that is begun, if any.
    ghost begun: { Self → Option ℕ };

    /// The bytes written since `begin`, where they are told.
    ghost written: { Self → List ℕ };

    /// The tables that it sealed, where they are told.
    ghost sealed: { Self → Sealed };

    /// The numbers of the tables that it retired and of those that it removed.
    ghost gone: { Self → Gone };

    /// The count of the bytes taken, which stays at 2^64 - 1 once it is there.
    ghost taken: { Self → ℕ };

    /// How often a call has failed, a count that stays at 2^64 - 1 once it is there.
    ghost faults: { Self → ℕ };

    /// Begins the table of this number, and drops what an earlier unsealed number held.
    ///
    /// `Failed` comes only where the count of faults rose; then the earlier number is begun as
    /// before, or none.
    fn begin(&mut self, number: u64) -> Result<(), Failed>
        ensures begun { OnOk result (begun self.new ≡ Some number) }
        ensures empty { OnOk result (written self.new ≡ []) }
        ensures earlier { OnErr result ((begun self.new ≡ None)
            ⊎ ((begun self.new ≡ begun self.old) × (written self.new ≡ written self.old))) }
        ensures undone { OnErr result (IsTrue Self.File.is_atomic →
            (begun self.new ≡ begun self.old) × (written self.new ≡ written self.old)) }
        ensures sealed { sealed self.new ≡ sealed self.old }
        ensures gone { gone self.new ≡ gone self.old }
        ensures taken { taken self.new ≡ taken self.old }
        ensures cause { HasCause (faults self.old) (faults self.new) result };

    /// Writes `bytes` after those written since `begin`, and counts them as taken.
    ///
    /// `Failed` comes only where the count of faults rose; then some first bytes were written, or
    /// none, and those were counted.
    fn write(&mut self, bytes: &[u8]) -> Result<(), Failed>
        requires { IsSome (begun self.old) }
        ensures written { OnOk result (IsTrue Self.File.tells →
            written self.new ≡ written self.old ++ bytes.now) }
        ensures counted { OnOk result (taken self.new
            ≡ capped (taken self.old + length bytes.now)) }
        ensures in_part { OnErr result (TakesSome Self.File.tells bytes.now
            (taken self.old) (taken self.new) (written self.old) (written self.new)) }
        ensures undone { OnErr result (IsTrue Self.File.is_atomic →
            (taken self.new ≡ taken self.old) × (written self.new ≡ written self.old)) }
        ensures begun { begun self.new ≡ begun self.old }
        ensures sealed { sealed self.new ≡ sealed self.old }
        ensures gone { gone self.new ≡ gone self.old }
        ensures cause { HasCause (faults self.old) (faults self.new) result };

    /// The count of the bytes taken.
    fn taken(&self) -> u64
        ensures { result ≡ taken self.now };

    /// Makes the table durable, and gives a handle of it: from then on a crash leaves it with its
    /// bytes until it is retired or removed. No number is begun then.
    ///
    /// `Failed` comes only where the count of faults rose, and leaves the number begun.
    fn seal(&mut self) -> Result<Self::File, Failed>
        requires { IsSome (begun self.old) }
        ensures number { IfOk result (λ file. begun self.old ≡ Some (Self.File.number file)) }
        ensures bytes { IfOk result (λ file. IsTrue Self.File.tells →
            Self.File.bytes file ≡ written self.old) }
        ensures sealed { IfOk result (λ file. IsTrue Self.File.tells →
            sealed self.new ≡ with_table (Self.File.number file) (written self.old)
            (sealed self.old)) }
        ensures ended { OnOk result (begun self.new ≡ None) }
        ensures begun { OnErr result (begun self.new ≡ begun self.old) }
        ensures written { OnErr result (written self.new ≡ written self.old) }
        ensures unsealed { OnErr result (sealed self.new ≡ sealed self.old) }
        ensures gone { gone self.new ≡ gone self.old }
        ensures taken { taken self.new ≡ taken self.old }
        ensures cause { HasCause (faults self.old) (faults self.new) result };

    /// Retires a table: its file goes when no handle of it is left.
    ///
    /// `Failed` comes only where the count of faults rose; then the number was counted as retired,
    /// or not.
    fn retire(&mut self, file: &Self::File) -> Result<(), Failed>
        ensures retired { OnOk result (gone self.new
            ≡ with_retired (Self.File.number file.now) (gone self.old)) }
        ensures perhaps { OnErr result ((gone self.new ≡ gone self.old)
            ⊎ (gone self.new ≡ with_retired (Self.File.number file.now) (gone self.old))) }
        ensures undone { OnErr result (IsTrue Self.File.is_atomic → gone self.new ≡ gone self.old) }
        ensures begun { begun self.new ≡ begun self.old }
        ensures written { written self.new ≡ written self.old }
        ensures sealed { sealed self.new ≡ sealed self.old }
        ensures taken { taken self.new ≡ taken self.old }
        ensures cause { HasCause (faults self.old) (faults self.new) result };

    /// Takes away the file of a table of which there is no handle. An absent file is none the less
    /// Ok.
    ///
    /// `Failed` comes only where the count of faults rose; then the number was counted as removed,
    /// or not.
    fn remove(&mut self, number: u64) -> Result<(), Failed>
        ensures removed { OnOk result (gone self.new ≡ with_removed number (gone self.old)) }
        ensures perhaps { OnErr result ((gone self.new ≡ gone self.old)
            ⊎ (gone self.new ≡ with_removed number (gone self.old))) }
        ensures undone { OnErr result (IsTrue Self.File.is_atomic → gone self.new ≡ gone self.old) }
        ensures begun { begun self.new ≡ begun self.old }
        ensures written { written self.new ≡ written self.old }
        ensures sealed { sealed self.new ≡ sealed self.old }
        ensures taken { taken self.new ≡ taken self.old }
        ensures cause { HasCause (faults self.old) (faults self.new) result };

    /// The count of the bytes taken stays below 2^64.
    ghost taken_fits: { (maker : Self) → taken maker < 2 ^ 64 };
}
