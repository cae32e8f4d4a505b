//! Bloom filters, which tell of most keys that a table doesn't hold them.
//!
//! The layers above build a filter for so many entries, add the hash of each key, and keep
//! its bytes; later they read it back and ask it. A contract sees a filter as its bytes.
//! `specs/Filter.antt` says which bits are set.
#![tactic(auto)]

mod bits;
mod filter;
mod filter_fault;
mod laws;
mod probes;
#[cfg(test)]
mod tests;

pub use filter::Filter;
pub use filter_fault::FilterFault;
pub use laws::{law_added, law_bits, law_filter};
