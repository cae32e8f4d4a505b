//! Guards that are committed inside tables: each table that new guards split is written anew, in pieces.
//!
//! The layer above may use `run_cut`, which needs no state. It speaks of what was read of a table by the words
//! of `specs/Reading`, of the pieces by those of `specs/Cutting`, and of when a job is stopped by those of
//! `specs/Stopping`. It may not know how many buffers are used, and in which order blocks are read.
#![tactic(auto)]

mod causes;
mod copying;
mod cut;
mod passing;
mod tally;
#[cfg(test)]
mod tests;
mod writing;

pub use cut::run_cut;
