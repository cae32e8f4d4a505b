use crate::JournalFile;

/// A call that a journal in memory keeps, since what a crash may leave depends on it.
#[derive(Drop)]
pub enum Call {
    Write(JournalFile, u64, Vec<u8>),
    Sync(JournalFile),
    Remove(JournalFile),
}
