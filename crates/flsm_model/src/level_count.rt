//! Counts of a level.

ghost use Rattle.std.specs.Prelude.{◌≡◌};
ghost use Rattle.flsm_model.specs.Ledgers as ledgers;

use peb_base::TableRow;

/// What was written into one level, in tables, entries and bytes, and what was written in vain.
/// Each sum stops at the type's end.
#[derive(Clone, Copy, Debug, PartialEq, Eq)]
pub struct LevelCount {
    pub tables: u64,
    pub entries: u64,
    pub bytes: u64,
    /// The part of `entries` that Cuts wrote.
    pub cuts: u64,
    /// The number of jobs into the level that were cut short.
    pub short: u64,
    /// The bytes that these jobs wrote.
    pub lost: u64,
}

impl LevelCount {
    /// Nothing was written.
    pub(crate) fn nothing() -> LevelCount
        ensures { result ≡ ledgers.nothing }
    {
        LevelCount {
            tables: 0,
            entries: 0,
            bytes: 0,
            cuts: 0,
            short: 0,
            lost: 0,
        }
    }

    /// With one table more, of this row.
    pub(crate) fn with_row(self, row: &TableRow) -> LevelCount
        ensures { result ≡ ledgers.with_row row.now self }
    {
        LevelCount {
            tables: self.tables.saturating_add(1),
            entries: self.entries.saturating_add(row.entries),
            bytes: self.bytes.saturating_add(row.bytes),
            ..self
        }
    }

    /// With one table more, of this row, that a Cut wrote.
    pub(crate) fn with_cut_row(self, row: &TableRow) -> LevelCount
        ensures { result ≡ ledgers.with_cut_row row.now self }
    {
        LevelCount {
            cuts: self.cuts.saturating_add(row.entries),
            ..self.with_row(row)
        }
    }

    /// With one job more that was cut short after it wrote so many bytes.
    pub(crate) fn with_short(self, bytes: u64) -> LevelCount
        ensures { result ≡ ledgers.with_short bytes self }
    {
        LevelCount {
            short: self.short.saturating_add(1),
            lost: self.lost.saturating_add(bytes),
            ..self
        }
    }
}
