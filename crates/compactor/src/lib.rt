//! Jobs as workers run them: what a job makes of its inputs, without the store's state.
//!
//! The layer above may use `run_flush`, which makes a sorted table of a frozen memtable. It speaks
//! of what a flush gives by the words of `specs/Flushing`, and of when it is stopped by those of
//! `specs/Stopping`. It may not know in which order keys are chosen and entries are written.
#![tactic(auto)]

mod choosing;
mod flush;
#[cfg(test)]
mod tests;
mod writing;

pub use flush::run_flush;
