//! Which record and which logs an image of the store has, and which batches they spell.
//!
//! The layers above may use what the logs spell (`specs/Logs`), what an image is read as and stands
//! for by its record (`specs/Recorded`), the lemmas beside these (how logs go on, what a step of one
//! file leaves of them), and the laws that an image is read in one way. Nothing runs here, and
//! nothing is known of an open store, nor of an opening.
#![tactic(auto)]

mod laws;

pub use laws::{first_images, one_layout, one_spelling};
