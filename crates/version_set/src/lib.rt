//! The version that is current, the next one that an edit makes of it, and the numbers that clients
//! hold.
//!
//! The layer above sees by which shape of a record the current version goes, and the list of the
//! held numbers. It stages an edit, writes it down, and swaps the staged version in without memory;
//! it holds and releases numbers without memory. It may not know how versions share levels.
#![tactic(auto)]

mod building;
mod changing;
mod held;
mod laws;
mod staged;
mod staging;
#[cfg(test)]
mod tests;
mod version_set;

pub use laws::{law_contents, law_parts};
pub use staged::Staged;
pub use version_set::VersionSet;
