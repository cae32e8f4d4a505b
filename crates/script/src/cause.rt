//! How a run ends.

ghost use Rattle.std.specs.Prelude.{◌≡◌, IfOk, Some};
ghost use Rattle.script.specs.Cause.{status_of, cause_text, cause_line};

use crate::why::Why;
use peb_base::{FileName, LimitKind, Memory, Profile};
use std::alloc::Global;
use std::fmt;

/// How a run ends.
#[derive(Clone, Copy, Debug, PartialEq, Eq)]
pub enum Cause {
    /// The report was written.
    Done,
    /// The command words aren't in their grammar.
    Usage,
    /// Of a script, counted from 1, the first line outside the grammar, counted from 1, and why.
    Script(u32, u64, Why),
    /// The journal failed.
    Journal,
    /// From a place of a file on, bytes aren't in their form.
    Damaged(FileName, u64),
    /// There was no memory.
    Memory,
    /// A limit's number would be passed.
    Limit(LimitKind, u64),
    /// The replies of a client, counted from 1, or the report, 0, couldn't be written.
    Sink(u32),
    /// A script, counted from 1, couldn't be read.
    Source(u32),
    /// The files have the first profile, and the second was asked for.
    Profile(Profile, Profile),
}

impl Cause {
    /// The program's status: 0 for `Done`, and a number of its own for each other cause.
    pub fn status(&self) -> u8
        ensures { result ≡ status_of self.now }
    {
        match self {
            Cause::Done => 0,
            Cause::Usage => 2,
            Cause::Script(_, _, _) => 3,
            Cause::Journal => 4,
            Cause::Damaged(_, _) => 6,
            Cause::Memory => 7,
            Cause::Limit(_, _) => 8,
            Cause::Sink(_) => 9,
            Cause::Source(_) => 10,
            Cause::Profile(_, _) => 11,
        }
    }

    /// The line that the program prints to standard error, with its LF; of `Done`, nothing.
    pub fn line(&self, alloc: Global) -> Result<Vec<u8>, Memory>
        ensures { IfOk result (λ v. v.items ≡ cause_line self.now) }
    {
        if *self == Cause::Done {
            return Ok(Vec::new(alloc));
        }
        Ok(format!(in alloc; "{self}\n")?.into_bytes())
    }
}

impl fmt::Display for Cause {
    ghost output = { λ cause. Some (cause_text cause) };

    fn fmt<W: fmt::Write>(&self, f: &mut fmt::Formatter<W>) -> fmt::Result {
        match self {
            Cause::Done => f.write_str("done"),
            Cause::Usage => f.write_str("usage"),
            Cause::Script(script, line, why) => write!(f, "script {script} line {line} {why}"),
            Cause::Journal => f.write_str("journal"),
            Cause::Damaged(file, at) => write!(f, "damaged {file} {at}"),
            Cause::Memory => f.write_str("memory"),
            Cause::Limit(kind, n) => write!(f, "limit {kind} {n}"),
            Cause::Sink(sink) => write!(f, "sink {sink}"),
            Cause::Source(source) => write!(f, "source {source}"),
            Cause::Profile(have, asked) => write!(f, "profile {have} {asked}"),
        }
    }
}
