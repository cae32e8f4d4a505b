ghost use Rattle.disk_model.specs.declared.pick.Pick.TheVariants.{New};
ghost use Rattle.std.specs.Prelude.{◌≡◌, ◌&&◌, ◌||◌, ◌==◌, ◌∷◌, [], not, ℕ, IfOk, OnOk, IfSome, option_map, option_copied};
ghost use Rattle.std.specs.Option.{option_or};
ghost use Rattle.disk_model.specs.Tables.{is_among, is_gone};
ghost use Rattle.disk_model.specs.TableLists.{table_bytes, table_in};
ghost use Rattle.disk_model.specs.Shelf.{is_begun, kept_by, gone_by, begun_by, without, is_done, is_lost, files_in, files_of, files_left};

use crate::made::Made;
use crate::port_tables::PortTables;
use crate::{MemTableFile, Pick};
use std::alloc::{AllocError, Global};

/// The tables of devices in memory: those that were there at first, and what each maker made that
/// was handed back, the latest first.
#[derive(Drop)]
pub enum Shelf {
    Resting(PortTables),
    More(Made, Box<Shelf>),
}

/// The table of this number, or `None` where it isn't among these.
pub fn table_of(tables: &[MemTableFile], number: u64) -> Option<&MemTableFile>
    ensures number { IfSome result (λ table. table.now.number ≡ number) }
    ensures bytes { option_map table_bytes (option_copied result) ≡ table_in tables.now number }
{
    match tables {
        [] => None,
        [table, rest @ ..] => {
            if number == table.number {
                Some(table)
            } else {
                table_of(rest, number)
            }
        }
    }
}

/// Whether what was done with the file of this number, and isn't durable, stands after a crash.
fn does(pick: Pick, number: u64) -> bool
    ensures { result ≡ is_done pick number }
{
    match pick {
        Pick::Old => false,
        Pick::New => true,
        Pick::Seeded(seed) => (seed >> (number % 64)) % 2 == 1,
    }
}

impl Shelf {
    /// The table of this number that was sealed last, also where it was retired or removed since.
    pub fn kept(&self, number: u64) -> Option<&MemTableFile>
        ensures { option_map table_bytes (option_copied result) ≡ kept_by self.now number }
    {
        match self {
            Shelf::Resting(tables) => table_of(&tables.sealed, number),
            Shelf::More(made, earlier) => match table_of(&made.tables, number) {
                Some(table) => Some(table),
                None => earlier.kept(number),
            },
        }
    }

    /// Whether the table of this number was retired or removed.
    pub fn has_lost(&self, number: u64) -> bool
        ensures { result ≡ is_gone (gone_by self.now) number }
    {
        match self {
            Shelf::Resting(_) => false,
            Shelf::More(made, earlier) => made.has_lost(number) || earlier.has_lost(number),
        }
    }

    /// Whether a crash loses this table.
    fn loses(&self, pick: Pick, number: u64) -> bool
        ensures { result ≡ is_lost pick (gone_by self.now) number }
    {
        does(pick, number) && self.has_lost(number)
    }

    /// Adds a handle of this table, if a crash leaves it.
    fn leave_one(
        &self,
        pick: Pick,
        table: &MemTableFile,
        left: &mut Vec<MemTableFile>,
    ) -> Result<(), AllocError>
        ensures { OnOk result ((n : ℕ) →
            table_in left.new.items n
            ≡ option_or (table_in left.old.items n) (without (is_lost pick (gone_by self.now))
            (table_in (table.now ∷ [])) n)) }
    {
        if self.loses(pick, table.number) {
            return Ok(());
        }
        left.push(table.share()?)?;
        Ok(())
    }

    /// Adds a handle of each of these tables that a crash leaves.
    fn leave_of(
        &self,
        pick: Pick,
        tables: &[MemTableFile],
        left: &mut Vec<MemTableFile>,
    ) -> Result<(), AllocError>
        ensures { OnOk result ((n : ℕ) →
            table_in left.new.items n
            ≡ option_or (table_in left.old.items n) (without (is_lost pick (gone_by self.now))
            (table_in tables.now) n)) }
    {
        match tables {
            [] => Ok(()),
            [table, rest @ ..] => {
                self.leave_one(pick, table, left)?;
                self.leave_of(pick, rest, left)
            }
        }
    }

    /// Adds a handle of each table that a crash leaves of a part of the whole.
    fn leave_part(
        &self,
        pick: Pick,
        part: &Shelf,
        left: &mut Vec<MemTableFile>,
    ) -> Result<(), AllocError>
        ensures { OnOk result ((n : ℕ) →
            table_in left.new.items n
            ≡ option_or (table_in left.old.items n) (without (is_lost pick (gone_by self.now))
            (kept_by part.now) n)) }
    {
        match part {
            Shelf::Resting(tables) => self.leave_of(pick, &tables.sealed, left),
            Shelf::More(made, earlier) => {
                self.leave_of(pick, &made.tables, left)?;
                self.leave_part(pick, earlier, left)
            }
        }
    }

    /// A handle of each sealed table that a crash leaves.
    fn leave_sealed(&self, alloc: Global, pick: Pick) -> Result<Vec<MemTableFile>, AllocError>
        ensures { IfOk result (λ left. (n : ℕ) →
            table_in left.items n ≡ (files_left pick self.now).sealed n) }
    {
        let mut left = Vec::new(alloc);
        self.leave_part(pick, self, &mut left)?;
        Ok(left)
    }

    /// Adds this number, which was begun and not sealed, if a crash leaves it and it wasn't
    /// removed.
    fn add_unsealed(
        &self,
        pick: Pick,
        number: u64,
        numbers: &mut Vec<u64>,
    ) -> Result<(), AllocError>
        ensures { OnOk result ((n : ℕ) →
            is_among numbers.new.items n
            ≡ (is_among numbers.old.items n || (is_done pick n &&
            (not (is_gone (gone_by self.now) n) && number == n)))) }
    {
        if !does(pick, number) || self.has_lost(number) {
            return Ok(());
        }
        numbers.push(number)?;
        Ok(())
    }

    /// Adds those of these numbers, which were begun and not sealed, that a crash leaves.
    fn add_each(&self, pick: Pick, begun: &[u64], numbers: &mut Vec<u64>) -> Result<(), AllocError>
        ensures { OnOk result ((n : ℕ) →
            is_among numbers.new.items n
            ≡ (is_among numbers.old.items n || (is_done pick n &&
            (not (is_gone (gone_by self.now) n) && is_among begun.now n)))) }
    {
        match begun {
            [] => Ok(()),
            [number, rest @ ..] => {
                self.add_unsealed(pick, *number, numbers)?;
                self.add_each(pick, rest, numbers)
            }
        }
    }

    /// Adds this number, if it is begun and a crash leaves it.
    fn add_begun(
        &self,
        pick: Pick,
        begun: Option<u64>,
        numbers: &mut Vec<u64>,
    ) -> Result<(), AllocError>
        ensures { OnOk result ((n : ℕ) →
            is_among numbers.new.items n
            ≡ (is_among numbers.old.items n || (is_done pick n &&
            (not (is_gone (gone_by self.now) n) && is_begun begun n)))) }
    {
        match begun {
            Some(number) => self.add_unsealed(pick, number, numbers),
            None => Ok(()),
        }
    }

    /// Adds the numbers of a part of the whole that were begun and not sealed and that a crash
    /// leaves.
    fn begun_in(&self, pick: Pick, part: &Shelf, numbers: &mut Vec<u64>) -> Result<(), AllocError>
        ensures { OnOk result ((n : ℕ) →
            is_among numbers.new.items n
            ≡ (is_among numbers.old.items n || (is_done pick n &&
            (not (is_gone (gone_by self.now) n) && begun_by part.now n)))) }
    {
        match part {
            Shelf::Resting(tables) => self.add_each(pick, &tables.unsealed, numbers),
            Shelf::More(made, earlier) => {
                self.add_begun(pick, made.begun, numbers)?;
                self.begun_in(pick, earlier, numbers)
            }
        }
    }

    /// The table files that a crash leaves. By `New` these are those that are there.
    pub fn leave(&self, alloc: Global, pick: Pick) -> Result<PortTables, AllocError>
        ensures sealed { IfOk result (λ left. (n : ℕ) →
            (files_in left).sealed n ≡ (files_left pick self.now).sealed n) }
        ensures unsealed { IfOk result (λ left. (n : ℕ) →
            (files_in left).is_unsealed n ≡ (files_left pick self.now).is_unsealed n) }
        ensures there { pick ≡ New → IfOk result (λ left. files_in left ≡ files_of self.now) }
    {
        let sealed = self.leave_sealed(alloc, pick)?;
        let mut unsealed = Vec::new(alloc);
        self.begun_in(pick, self, &mut unsealed)?;
        Ok(PortTables { sealed, unsealed })
    }
}
