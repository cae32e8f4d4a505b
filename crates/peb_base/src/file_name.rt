//! Names of a store's files.

ghost use Rattle.std.specs.Prelude.{Some};
ghost use Rattle.peb_base.specs.Texts.{file_text};

use std::fmt;

/// A file of a store. It prints as `manifest-a`, `manifest-b`, `log-N` or `table-S.C`.
///
/// A log has its own count from 1. A table has a number of the form session * 2^40 + count, below 2^63.
#[derive(Clone, Copy, Debug, PartialEq, Eq)]
pub enum FileName {
    ManifestA,
    ManifestB,
    Log(u64),
    Table(u64),
}

impl fmt::Display for FileName {
    ghost output = { λ file. Some (file_text file) };

    fn fmt<W: fmt::Write>(&self, f: &mut fmt::Formatter<W>) -> fmt::Result {
        match self {
            FileName::ManifestA => f.write_str("manifest-a"),
            FileName::ManifestB => f.write_str("manifest-b"),
            FileName::Log(number) => write!(f, "log-{number}"),
            FileName::Table(number) => {
                let session = *number / 1_099_511_627_776;
                let count = *number % 1_099_511_627_776;
                write!(f, "table-{session}.{count}")
            }
        }
    }
}
