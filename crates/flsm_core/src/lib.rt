//! The state of an open store: its logs, the ordered map of all batches in memory, and the numbers
//! that it gives.
//!
//! An opening makes a store of its parts (`State::new`); the layer above writes and reads it through
//! the trait `Store`, and closes it (`State::close`). It speaks of a store by its place in its
//! history (`specs/Place`), and of what a crash leaves by `specs/Standing`. It may not know in which
//! log a batch lies, nor when the journal is called.
#![tactic(auto)]

mod commit_fault;
mod current_map;
mod parts;
mod state;
mod store;
mod sync_fault;

pub use commit_fault::CommitFault;
pub use current_map::CurrentMap;
pub use parts::Parts;
pub use state::State;
pub use store::Store;
pub use sync_fault::SyncFault;

#[cfg(test)]
mod tests;
