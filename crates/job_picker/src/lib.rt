//! Which job is due, and the claims of the jobs in flight.
//!
//! The layer above asks whether a job is wanted, and for the first one that conflicts with no job in
//! flight; it takes the claims of that job before the job begins, and frees them when it ends. It
//! sees the claims as a list with a place for each actor, and both calls by the definitions of the
//! model, over the shape that its version and its candidates stand for. It may not know how the
//! guards are walked.
#![tactic(auto)]

mod claims;
mod conflicts;
mod guard_range;
mod job_claims;
mod jobs;
mod keys;
mod laws;
mod levels;
mod numbers;
mod picking;
#[cfg(test)]
mod shapes;
#[cfg(test)]
mod tests;

pub use claims::Claims;
pub use job_claims::claims_of;
pub use laws::{law_picked, law_seen};
pub use picking::{due, pick};
