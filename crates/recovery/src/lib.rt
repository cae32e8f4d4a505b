//! Opening a store: what its files hold is read, and its next session is begun.
//!
//! The layer above calls `open`. It speaks of what an opening rests on and leaves by `specs/Opened`,
//! of why it is refused by `specs/Reading`, of images that differ by `specs/Range`, and of the files
//! that it changes by `specs/NextLog`. The calls that it consists of are `look`, which reads a store
//! by its record, and `begin_session`, which writes. The layer above may not know in which order
//! files are read.
#![tactic(auto)]

mod beginning;
mod logs_read;
mod looked;
mod looking;
mod open_fault;
mod opening;
mod reading;
mod recorded;
mod recording;
mod replay;
mod replay_fault;
mod syncing;
mod walking;

pub use beginning::begin_session;
pub use looked::Looked;
pub use looking::look;
pub use open_fault::OpenFault;
pub use opening::open;
pub use recorded::{Recorded, read_record};
pub use recording::record_opening;

#[cfg(test)]
mod record_tests;
#[cfg(test)]
mod tests;
