//! Why a table isn't written and walked.

ghost use Rattle.std.specs.Prelude.{◌≡◌};
ghost use Rattle.table_cursor.specs.Trips.{of_put, of_table, of_read};
ghost use Rattle.table_cursor.specs.declared.trip_fault.TripFault.TheVariants.{Memory as NoMemory};

use peb_base::{LimitKind, Memory, ReadFault};
use table_file::{PutFault, TableFault};
use thiserror::Error;

/// Why a table isn't written, opened and walked.
#[derive(Clone, Copy, Debug, PartialEq, Eq, Error)]
pub enum TripFault {
    #[error("the device failed")]
    Fault,
    /// What the limit counts, and the limit.
    #[error("limit {0} {1}")]
    Limit(LimitKind, u64),
    /// The table of this number isn't in its form, or disagrees with its row, at this place of its file.
    #[error("table {table} is damaged at {at}")]
    Damaged { table: u64, at: u64 },
    #[error("out of memory")]
    Memory,
}

impl From<PutFault> for TripFault {
    ghost from_gives = { λ why trip. trip ≡ of_put why };

    fn from(why: PutFault) -> Self {
        match why {
            PutFault::Fault => TripFault::Fault,
            PutFault::Limit(kind, most) => TripFault::Limit(kind, most),
            PutFault::Memory => TripFault::Memory,
        }
    }
}

impl From<TableFault> for TripFault {
    ghost from_gives = { λ why trip. trip ≡ of_table why };

    fn from(why: TableFault) -> Self {
        match why {
            TableFault::Fault => TripFault::Fault,
            TableFault::Damaged { table, at } => TripFault::Damaged { table, at },
            TableFault::Memory => TripFault::Memory,
        }
    }
}

impl From<ReadFault> for TripFault {
    ghost from_gives = { λ why trip. trip ≡ of_read why };

    fn from(why: ReadFault) -> Self {
        match why {
            ReadFault::Fault => TripFault::Fault,
            ReadFault::Damaged { table, at } => TripFault::Damaged { table, at },
        }
    }
}

impl From<Memory> for TripFault {
    ghost from_gives = { λ why trip. trip ≡ NoMemory };

    fn from(_: Memory) -> Self {
        TripFault::Memory
    }
}
