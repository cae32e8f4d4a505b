//! The guards of one level, each with its tables.
//!
//! The layer above sees a level as its guard keys and, for the sentinel and each guard, a list of
//! tables. It appends a table to the guard that it lies in, takes one out by its number, and splits a
//! guard at a new key. It may not know how the lists are kept.
#![tactic(auto)]

mod keys;
mod level;
mod tables;
#[cfg(test)]
mod tests;

pub use level::Level;
