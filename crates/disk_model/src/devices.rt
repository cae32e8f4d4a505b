ghost use Rattle.std.specs.Prelude.{◌≡◌, ◌⊎◌, ◌≤◌, ◌+◌, ℕ, Some, IsTrue, IfOk, OnOk, OnErr};
ghost use Rattle.std.specs.Option.{option_or};
ghost use Rattle.disk_model.specs.Directories.{Directories, after_choice, after_opening};
ghost use Rattle.disk_model.specs.Images.{Image, HasCause};
ghost use Rattle.disk_model.specs.Tables.{StaysOrGoes, is_gone, with_maker, capped};
ghost use Rattle.disk_model.specs.Told.{JournalTold, TablesTold, TellsTheSame, FilesStay, TablesStay, told_by, after_port, MayLeaveTables};
ghost use Rattle.disk_model.specs.Ports.{IsNewPort};
ghost use Rattle.disk_model.specs.Makers.{IsNewMaker};

use crate::{Failed, Journal, Maker, Port, TableHandle};

/// Where a store keeps its files: it hands out the journal, ports and makers, and takes them back.
///
/// What it tells of the journal is what the journal told when it was last at hand. What it tells of
/// tables counts what the makers and ports did that were handed back. What it tells of directories
/// says which one it was asked for, and of which one its journal is.
pub trait Devices {
    type J: Journal + Send;

    type F: TableHandle + Send + Sync;

    type P: Port<File = Self::F> + Send;

    type M: Maker<File = Self::F> + Send;

    /// What it tells of the journal.
    ghost journal_told: { Self → JournalTold };

    /// What it tells of tables. Their count of faults says how often `port` or `maker` has failed,
    /// or a call of a port or a maker that was handed back.
    ghost tables_told: { Self → TablesTold };

    /// Which directory was chosen last, of which one the journal was handed out last, and how often
    /// each was done.
    ghost directories: { Self → Directories };

    /// How often `set` or `journal` has failed.
    ghost faults: { Self → ℕ };

    /// Chooses the directory by its name. It changes nothing that is told of files.
    ///
    /// `Failed` comes only where the count of faults rose, and the directory is then as before.
    fn set(&mut self, dir: &str) -> Result<(), Failed>
        // what it leaves
        ensures chosen { OnOk result (directories self.new
            ≡ after_choice dir.now (directories self.old)) }
        ensures unchosen { OnErr result (directories self.new ≡ directories self.old) }
        // when it fails
        ensures cause { HasCause (faults self.old) (faults self.new) result }
        // what stays
        ensures told { TellsTheSame (journal_told self.old) (journal_told self.new) }
        ensures tables { TablesStay (tables_told self.old) (tables_told self.new) };

    /// Hands out the journal of the directory, which tells what the devices told of it. What they
    /// tell of it while it is out is open; what they tell of tables stays.
    ///
    /// `Failed` comes only where the count of faults rose, and changes nothing that is told.
    fn journal(&mut self) -> Result<Self::J, Failed>
        // what it gives
        ensures journal { IfOk result (λ journal.
            TellsTheSame (journal_told self.old) (told_by Self.J.Journal journal)) }
        // what it leaves
        ensures opened { OnOk result (directories self.new ≡ after_opening (directories self.old)) }
        ensures unopened { OnErr result (directories self.new ≡ directories self.old) }
        // when it fails
        ensures cause { HasCause (faults self.old) (faults self.new) result }
        // what stays
        ensures told { OnErr result (TellsTheSame (journal_told self.old) (journal_told self.new)) }
        ensures tables { TablesStay (tables_told self.old) (tables_told self.new) };

    /// Hands out a port over the table files that the devices tell, with counts of 0. It changes
    /// nothing that is told of files.
    ///
    /// `Failed` comes only where the count of faults of tables rose.
    fn port(&mut self) -> Result<Self::P, Failed>
        // what it gives
        ensures port { IfOk result (λ port. IsNewPort Self.P.Port (tables_told self.old) port) }
        // when it fails
        ensures cause { HasCause (tables_told self.old).faults
            (tables_told self.new).faults result }
        // what stays
        ensures files { FilesStay (tables_told self.old) (tables_told self.new) }
        ensures told { TellsTheSame (journal_told self.old) (journal_told self.new) }
        ensures directories { directories self.new ≡ directories self.old }
        ensures faults { faults self.new ≡ faults self.old };

    /// Hands out a maker with counts of 0, which made nothing yet. It changes nothing that is told
    /// of files.
    ///
    /// `Failed` comes only where the count of faults of tables rose.
    fn maker(&mut self) -> Result<Self::M, Failed>
        // what it gives
        ensures maker { IfOk result (λ maker. IsNewMaker Self.M.Maker maker) }
        // when it fails
        ensures cause { HasCause (tables_told self.old).faults
            (tables_told self.new).faults result }
        // what stays
        ensures files { FilesStay (tables_told self.old) (tables_told self.new) }
        ensures told { TellsTheSame (journal_told self.old) (journal_told self.new) }
        ensures directories { directories self.new ≡ directories self.old }
        ensures faults { faults self.new ≡ faults self.old };

    /// Takes a journal back. The devices then tell of it what it told itself.
    fn back(&mut self, journal: Self::J)
        ensures told { TellsTheSame (told_by Self.J.Journal journal) (journal_told self.new) }
        ensures tables { TablesStay (tables_told self.old) (tables_told self.new) }
        ensures directories { directories self.new ≡ directories self.old }
        ensures faults { faults self.new ≡ faults self.old };

    /// Takes a port back, and adds its counts.
    fn back_port(&mut self, port: Self::P)
        ensures counted { TablesStay (after_port Self.P.Port port (tables_told self.old))
            (tables_told self.new) }
        ensures told { TellsTheSame (journal_told self.old) (journal_told self.new) }
        ensures directories { directories self.new ≡ directories self.old }
        ensures faults { faults self.new ≡ faults self.old };

    /// Takes a maker back, adds its counts and its numbers, and tells from then on what it sealed.
    ///
    /// A table that no maker which was handed back has retired or removed is there. One that was
    /// may be there still, or not. A number that it has begun and not sealed, and each earlier one,
    /// is listed from then on, unless it was retired or removed.
    fn back_maker(&mut self, maker: Self::M)
        // what it leaves
        ensures kept { IsTrue Self.F.tells → (n : ℕ) →
            (tables_told self.new).kept n
            ≡ option_or (Self.M.sealed maker n) ((tables_told self.old).kept n) }
        ensures sealed { IsTrue Self.F.tells → (n : ℕ) →
            StaysOrGoes (tables_told self.new).tally.gone n (option_or (Self.M.sealed maker n)
            ((tables_told self.old).files.sealed n)) ((tables_told self.new).files.sealed n) }
        ensures unsealed { (n : ℕ) → IsTrue ((tables_told self.new).files.is_unsealed n) →
            IsTrue ((tables_told self.old).files.is_unsealed n) ⊎ (Self.M.begun maker ≡ Some n) }
        ensures kept_unsealed { IsTrue Self.F.tells → (n : ℕ) →
            (IsTrue ((tables_told self.old).files.is_unsealed n) ⊎ (Self.M.begun maker ≡ Some n)) →
            IsTrue (is_gone (tables_told self.new).tally.gone n)
            ⊎ IsTrue ((tables_told self.new).files.is_unsealed n) }
        ensures done { (tables_told self.new).tally
            ≡ with_maker (Self.M.taken maker) (Self.M.gone maker) (tables_told self.old).tally }
        ensures counted { (tables_told self.new).faults
            ≡ capped ((tables_told self.old).faults + Self.M.faults maker) }
        ensures ports_steady { (tables_told self.old).steady → (tables_told self.new).steady }
        // what stays
        ensures told { TellsTheSame (journal_told self.old) (journal_told self.new) }
        ensures directories { directories self.new ≡ directories self.old }
        ensures faults { faults self.new ≡ faults self.old };

    /// What a crash may leave at this moment is what it might have left since an earlier one.
    ghost counts_now: { (devices : Self) (t : ℕ) (image : Image)
        → t ≤ (journal_told devices).moment →
        (journal_told devices).may_leave image → (journal_told devices).left_since t image };

    /// Since this moment there is no other.
    ghost only_now: { (devices : Self) (image : Image) →
        (journal_told devices).left_since (journal_told devices).moment image →
        (journal_told devices).may_leave image };

    /// What is told of the files is one of the images.
    ghost read_is_left: { (devices : Self) → IsTrue Self.J.tells →
        (journal_told devices).may_leave (journal_told devices).seen };

    /// The table files that are there are what a crash may leave.
    ghost there_is_left: { (devices : Self) → IsTrue Self.F.tells →
        MayLeaveTables (tables_told devices) (tables_told devices).files };
}
