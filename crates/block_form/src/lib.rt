//! Blocks: the bytes of some entries in order, which begin alike where their keys do.
//!
//! The layer above may use `BlockBuilder`, which makes the bytes, and `Block`, which reads them.
//! It speaks of a block by the words of `specs/Form`: the list of its entries, and their one
//! spelling. It may not know how either walks the bytes.
#![tactic(auto)]

mod block;
mod block_builder;
mod block_fault;
mod ends;
mod fields;
mod front;
mod head;
mod laws;
mod parts;
mod places;
mod reading;
mod room;
mod spot;
mod stepped;
#[cfg(test)]
mod tests;
mod writing;

pub use block::Block;
pub use block_builder::BlockBuilder;
pub use block_fault::BlockFault;
pub use ends::Ends;
pub use laws::{block_grows, block_reads, one_block};
pub use spot::Spot;
