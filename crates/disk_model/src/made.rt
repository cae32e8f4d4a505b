ghost use Rattle.std.specs.Prelude.{◌≡◌, ◌||◌, [], None, Some, IsSome, IfOk, OnOk, OnErr};
ghost use Rattle.disk_model.specs.Tables.{is_among, with_table};
ghost use Rattle.disk_model.specs.TableLists.{table_bytes, table_in};

use crate::MemTableFile;
use std::alloc::{AllocError, Global};

/// What a maker in memory made and took away: the tables that it sealed, the latest first, the
/// number that is begun, and the numbers that it retired and removed.
#[derive(Drop)]
pub struct Made {
    pub tables: Vec<MemTableFile>,
    pub begun: Option<u64>,
    pub retired: Vec<u64>,
    pub removed: Vec<u64>,
}

impl Made {
    pub fn nothing(alloc: Global) -> Made
        ensures tables { result.tables.items ≡ [] }
        ensures begun { result.begun ≡ None }
        ensures retired { result.retired.items ≡ [] }
        ensures removed { result.removed.items ≡ [] }
    {
        Made {
            tables: Vec::new(alloc),
            begun: None,
            retired: Vec::new(alloc),
            removed: Vec::new(alloc),
        }
    }

    /// Seals the table that is begun, with these bytes, and gives a handle of it. An `Err` changes
    /// nothing.
    pub fn seal(&mut self, alloc: Global, bytes: &[u8]) -> Result<MemTableFile, AllocError>
        requires { IsSome self.old.begun }
        ensures number { IfOk result (λ file. self.old.begun ≡ Some file.number) }
        ensures bytes { IfOk result (λ file. table_bytes file ≡ bytes.now) }
        ensures tables { IfOk result (λ file.
            table_in self.new.tables.items
            ≡ with_table file.number bytes.now (table_in self.old.tables.items)) }
        ensures ended { OnOk result (self.new.begun ≡ None) }
        ensures begun { OnErr result (self.new.begun ≡ self.old.begun) }
        ensures unsealed { OnErr result (self.new.tables.items ≡ self.old.tables.items) }
        ensures retired { self.new.retired ≡ self.old.retired }
        ensures removed { self.new.removed ≡ self.old.removed }
    {
        let kept = MemTableFile::new(alloc, self.begun.unwrap(), bytes)?;
        let file = kept.share()?;
        self.tables.insert(0, kept)?;
        self.begun = None;
        Ok(file)
    }

    /// Whether it retired or removed the table of this number.
    pub fn has_lost(&self, number: u64) -> bool
        ensures { result ≡ (is_among self.now.retired.items number || is_among
            self.now.removed.items number) }
    {
        self.retired.contains(&number) || self.removed.contains(&number)
    }
}
