//! Cursors over sorted tables: one place among a table's entries, moved at the cost of one read at
//! most.
//!
//! The layer above may use `TableCursor`, by the trait `Cursor`, over a table that it shares, a port and
//! a loan, which it gets back in the end. It may not know how a block is read, checked and kept.
#![tactic(auto)]

mod agreeing;
mod fetching;
mod laws;
mod looking;
#[cfg(test)]
mod looking_tests;
mod page;
mod step;
mod table_cursor;
#[cfg(test)]
mod tests;
mod trip_fault;
mod trips;
#[cfg(test)]
mod trips_tests;

pub use laws::{law_damage, law_walk_ascends, law_walk_ends, law_walk_told};
pub use looking::{look_in, look_up};
pub use table_cursor::TableCursor;
pub use trip_fault::TripFault;
pub use trips::{are_sorted, round_trip};
