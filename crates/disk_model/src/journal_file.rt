ghost use Rattle.std.specs.Prelude.{◌≡◌};
ghost use Rattle.disk_model.specs.Names.{file_name_of};

use peb_base::FileName;

/// A file of the journal: one of the two manifest files, or the log of a number.
#[derive(Clone, Copy, Debug, PartialEq, Eq)]
pub enum JournalFile {
    ManifestA,
    ManifestB,
    Log(u64),
}

impl JournalFile {
    /// The name under which causes and listings speak of the file.
    pub fn file_name(self) -> FileName
        ensures { result ≡ file_name_of self }
    {
        match self {
            JournalFile::ManifestA => FileName::ManifestA,
            JournalFile::ManifestB => FileName::ManifestB,
            JournalFile::Log(number) => FileName::Log(number),
        }
    }
}
