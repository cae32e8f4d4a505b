//! Why a line is refused.

ghost use Rattle.std.specs.Prelude.{Some};
ghost use Rattle.script.specs.Line.{why_text};

use std::fmt;

/// Why a line is refused. It prints as one word.
#[derive(Clone, Copy, Debug, PartialEq, Eq)]
pub enum Why {
    /// The line is neither `put! KEY VALUE` nor `get KEY`.
    Command,
}

impl fmt::Display for Why {
    ghost output = { λ why. Some (why_text why) };

    fn fmt<W: fmt::Write>(&self, f: &mut fmt::Formatter<W>) -> fmt::Result {
        f.write_str(match self {
            Why::Command => "command",
        })
    }
}
