//! A log as far as it is in form.

use crate::header::Header;
use crate::log_file::LogFile;
use crate::record::Record;

/// A log as it was read up to the first group that isn't in form: its header, the records of the
/// groups before that one, and the place of that one's gate; or, where all groups are in form, the
/// log ready for further ones.
#[derive(Drop)]
pub struct LogFront {
    pub header: Header,
    pub records: Vec<Record>,
    pub log: Result<LogFile, u64>,
}
