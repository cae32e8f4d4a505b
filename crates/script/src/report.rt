//! The report of a run.

ghost use Rattle.std.specs.Prelude.{◌≡◌, ◌++◌, OnOk, IfOk};
ghost use Rattle.std.specs.Prelude.{string_bytes};
ghost use Rattle.script.specs.Report.{level_text, report_text};

use peb_base::{Memory, Number};
use std::alloc::{AllocError, Global};

/// What the program prints of a run that moved no tables: the last number, and zeros for each
/// level.
#[derive(Clone, Copy, Debug)]
pub struct Report {
    pub last: Number,
    pub last_level: u8,
}

fn put_level(alloc: Global, out: &mut Vec<u8>, level: u8) -> Result<(), AllocError>
    ensures { OnOk result (out.new.items ≡ out.old.items ++ level_text level) }
{
    let line = format!(in alloc;
        "level {level} tables 0 entries 0 bytes 0 cuts 0 short 0 lost 0\n"
    )?;
    out.extend_from_slice(line.as_bytes())
}

impl Report {
    /// The lines of the report, each with its LF.
    pub fn text(&self, alloc: Global) -> Result<Vec<u8>, Memory>
        ensures { IfOk result (λ v. v.items ≡ report_text self.now.last self.now.last_level) }
    {
        let last = self.last;
        let mut out = format!(in alloc; "last {last}\n")?.into_bytes();
        for level in 0..=self.last_level {
            put_level(alloc, &mut out, level)?;
        }
        Ok(out)
    }
}
