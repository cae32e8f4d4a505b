//! Several cursors as one, and what a number sees of them.
//!
//! The layers above hand in cursors, walk over the entries of all of them in order, in either direction,
//! and get the cursors back. They may not know in which order the cursors are moved.
#![tactic(auto)]

mod choosing;
mod laws;
mod merge;
mod moving;
mod step;
#[cfg(test)]
mod tests;
#[cfg(test)]
mod trial_cursor;
mod visible;

pub use laws::law_visible;
pub use merge::Merge;
pub use visible::Visible;
