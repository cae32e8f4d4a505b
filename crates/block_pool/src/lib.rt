//! Buffers of 40,960 bytes that are lent one at a time, so that reading a block takes no memory.
//!
//! The layers above make a pool of as many buffers as they hold at once, borrow from
//! it and give back. They may not know where a buffer lies; a contract sees of a pool
//! how many buffers are in and how many are out.
#![tactic(auto)]

mod buffer;
mod loan;
mod pool;
#[cfg(test)]
mod tests;

pub use loan::Loan;
pub use pool::Pool;
