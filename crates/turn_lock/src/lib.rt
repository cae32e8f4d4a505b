//! A lock that serves its callers by turn, and hands a value on with the history of its events.
//!
//! The layer above makes a value `Counted`, gives each caller a seat, and changes the value between
//! `take` and `give`. Contracts tell what a seat has seen of the one history, and which places in
//! it are its own; the laws say that turns come in the order of the tickets. The layer may not know
//! how turns are kept. Nothing promises that a turn comes.
#![tactic(auto)]

mod counted;
mod known;
mod laws;
mod lock;
mod named;
mod rule;
mod seat;
mod stage;
mod steps;
#[cfg(test)]
mod tests;

pub use counted::Counted;
pub use known::Known;
pub use laws::{law_history, law_order, law_places, law_value};
pub use lock::TurnLock;
pub use seat::Seat;
pub use stage::Stage;
