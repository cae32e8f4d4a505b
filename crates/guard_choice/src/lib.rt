//! Which keys may become guards: the bits and the level of a key, and the keys that were chosen so far.
//!
//! The layers above ask of a key which levels it may guard, keep the chosen keys of all flushes, and take
//! from them the candidates of a range. They may not know how the chosen keys are kept; a contract sees
//! them as a list, and speaks of it by `is_candidate`.
#![tactic(auto)]

mod candidates;
mod sorted;
#[cfg(test)]
mod tests;

pub use candidates::Candidates;
pub use peb_base::{bits, level_of};
