//! Versions: the live tables of a moment, by levels and guards.
//!
//! The layer above sees a version as the tables of level 0 and the guards of each deeper level. It
//! asks for the tables in which a key may lie, and makes further versions that differ from one in a
//! level. A version never changes. The layer above may not know which levels two versions share.
#![tactic(auto)]

#[cfg(test)]
mod tests;
mod version;
mod view;

pub use version::Version;
pub use view::View;
