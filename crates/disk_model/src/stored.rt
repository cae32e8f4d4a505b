use crate::JournalFile;

/// What is kept of one file of the journal: its bytes, or that it isn't there.
#[derive(Drop)]
pub struct Stored {
    pub file: JournalFile,
    pub bytes: Option<Vec<u8>>,
}
