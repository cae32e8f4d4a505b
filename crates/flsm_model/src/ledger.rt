//! Ledgers.

ghost use Rattle.std.specs.Prelude.{◌≡◌, ◌+◌, ◌<◌, List, [], ◌∷◌, ◌++◌, All, length, slice_index_or, IfOk};
ghost use Rattle.flsm_model.specs.Shape.{Record, outputs_of};
ghost use Rattle.flsm_model.specs.Ledgers.{nothing, Shorts, Counts, IsLedger};

use crate::edit::Edit;
use crate::level_count::LevelCount;
use peb_base::{Memory, TableRow};
use std::alloc::Global;
use std::marker::Model;

/// What was written into each level, and what jobs that were cut short wrote in vain. Sums stop at
/// the type's end.
#[derive(Debug, Drop)]
pub struct Ledger {
    levels: Vec<LevelCount>,
}

impl Model for Ledger {
    ghost use Rattle.std.specs.Prelude.{List};
    ghost use Rattle.flsm_model.specs.declared.level_count.LevelCount.{LevelCount};

    ghost Value = { List LevelCount };

    ghost view = { λ ledger. ledger.levels.items };
}

impl Ledger {
    /// A ledger of no level, so that each level's counts are 0. It takes no memory.
    pub fn empty(alloc: Global) -> Ledger
        ensures { result ≡ [] }
    {
        Ledger {
            levels: Vec::new(alloc),
        }
    }

    /// A ledger of the levels 0 to `last_level`, in which nothing is counted.
    pub fn new(alloc: Global, last_level: u8) -> Result<Ledger, Memory>
        ensures levels { IfOk result (λ made. length made ≡ last_level + 1) }
        ensures nothing { IfOk result (λ made. IsLedger made [] []) }
    {
        let levels = vec![in alloc; LevelCount::nothing(); last_level as usize + 1]?;
        Ok(Ledger { levels })
    }

    /// Counts the tables that an edit adds, each at its level, which is one of the ledger's.
    pub fn add(&mut self, edit: &Edit)
        requires { All (λ row. row.level < length self.old) (outputs_of edit.now) }
        ensures levels { length self.new ≡ length self.old }
        ensures counts { (es : Record) (shorts : Shorts) → IsLedger self.old es shorts
            → IsLedger self.new (es ++ edit.now ∷ []) shorts }
    {
        match edit {
            Edit::Open { .. } => {}
            Edit::Flush { row, .. } => self.count_row(row),
            Edit::Move { outputs, .. } => self.count_rows(outputs.items()),
            Edit::Cut { outputs, .. } => self.count_cut_rows(outputs.items()),
            Edit::Merge { outputs, .. } => self.count_rows(outputs.items()),
        }
    }

    /// Counts a job into a level of the ledger that was cut short after it wrote so many bytes.
    pub fn short(&mut self, level: u8, bytes: u64)
        requires { level < length self.old }
        ensures levels { length self.new ≡ length self.old }
        ensures counts { (es : Record) (shorts : Shorts) → IsLedger self.old es shorts
            → IsLedger self.new es (shorts ++ (level, bytes) ∷ []) }
    {
        let level = level as usize;
        self.levels[level] = self.levels[level].with_short(bytes);
    }

    /// The counts of a level, all 0 where the ledger doesn't have it.
    pub fn level(&self, level: u8) -> LevelCount
        ensures { result ≡ slice_index_or self.now level nothing }
    {
        match self.levels.get(level as usize) {
            Some(count) => *count,
            None => LevelCount::nothing(),
        }
    }

    /// Counts a row at its level.
    #[tactic(auto, using(crate::proofs::lists::Counting::counts_row))]
    fn count_row(&mut self, row: &TableRow)
        requires { row.now.level < length self.old }
        ensures levels { length self.new ≡ length self.old }
        ensures counts { (rows cuts : List TableRow) (shorts : Shorts)
            → Counts self.old rows cuts shorts
            → Counts self.new (rows ++ row.now ∷ []) cuts shorts }
    {
        let level = row.level as usize;
        self.levels[level] = self.levels[level].with_row(row);
    }

    /// Counts a row that a Cut wrote at its level.
    #[tactic(auto, using(crate::proofs::lists::Counting::counts_cut_row))]
    fn count_cut_row(&mut self, row: &TableRow)
        requires { row.now.level < length self.old }
        ensures levels { length self.new ≡ length self.old }
        ensures counts { (rows cuts : List TableRow) (shorts : Shorts)
            → Counts self.old rows cuts shorts
            → Counts self.new (rows ++ row.now ∷ []) (cuts ++ row.now ∷ []) shorts }
    {
        let level = row.level as usize;
        self.levels[level] = self.levels[level].with_cut_row(row);
    }

    /// Counts rows at their levels.
    fn count_rows(&mut self, added: &[TableRow])
        requires { All (λ row. row.level < length self.old) added.now }
        ensures levels { length self.new ≡ length self.old }
        ensures counts { (rows cuts : List TableRow) (shorts : Shorts)
            → Counts self.old rows cuts shorts → Counts self.new (rows ++ added.now) cuts shorts }
    {
        for row in added {
            self.count_row(row);
        }
    }

    /// Counts rows that a Cut wrote at their levels.
    fn count_cut_rows(&mut self, added: &[TableRow])
        requires { All (λ row. row.level < length self.old) added.now }
        ensures levels { length self.new ≡ length self.old }
        ensures counts { (rows cuts : List TableRow) (shorts : Shorts)
            → Counts self.old rows cuts shorts
            → Counts self.new (rows ++ added.now) (cuts ++ added.now) shorts }
    {
        for row in added {
            self.count_cut_row(row);
        }
    }
}
