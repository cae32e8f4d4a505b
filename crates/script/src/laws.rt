//! Laws of scripts. Each function runs nothing; its contract is the law.

ghost use Rattle.script.specs.Laws.{WrittenIsRead, ReadIsCommand, TokensAreExact, LinesAreExact};

/// A token is read exactly as the strings that it spells.
pub fn law_tokens()
    ensures { TokensAreExact }
{}

/// A line is read exactly as the commands that it spells.
pub fn law_lines()
    ensures { LinesAreExact }
{}

/// The commands of a script that was written are those that were written, and each command that is
/// read can be written.
pub fn law_written()
    ensures again { WrittenIsRead }
    ensures ranges { ReadIsCommand }
{}
