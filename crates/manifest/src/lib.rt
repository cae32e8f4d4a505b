//! The manifest: the edits of the store's record as bytes, and the file that keeps them, one edit
//! a group.
//!
//! The layer above may use `Manifest`, `Replayed`, `ManifestFront`, `write_edit`, `read_edit`,
//! their faults, and the laws that bytes spell one edit at most, and a file one list of them or one
//! first damage. It speaks of an edit's bytes by the words of `specs/Edits` and `specs/Fields`, and
//! of the file by those of `specs/Manifests`. It may not know how fields are read and written, nor
//! how many writes an append makes.
#![tactic(auto)]

mod append_fault;
mod decode;
mod edit_fault;
mod edit_groups;
mod edit_record;
mod encode;
mod encode_edit;
mod laws;
mod manifest_file;
mod reading;
mod replayed;
#[cfg(test)]
mod tests;

pub use append_fault::AppendFault;
pub use edit_fault::EditFault;
pub use edit_record::{read_edit, write_edit};
pub use laws::{one_edit, one_manifest};
pub use manifest_file::Manifest;
pub use replayed::{ManifestFront, Replayed};
