//! Reading scripts.

ghost use Rattle.std.specs.Prelude.{◌≡◌, ◌∷◌, ◌<◌, ◌==◌, length, MatchResult, Ok};
ghost use Rattle.std.specs.List.{position};
ghost use Rattle.script.specs.Script.{lines_of, script_of, at_line, Refused};

use crate::command::Command;
use crate::line::line_at;
use crate::line_fault::LineFault;
use crate::parse_fault::ParseFault;
use std::alloc::Global;

fn line_end(bytes: &[u8]) -> Option<usize>
    ensures { result ≡ position (λ b. b == 10) bytes.now }
{
    bytes.iter().position(|b| *b == b'\n')
}

/// The first line, and the bytes after it.
fn first_line(bytes: &[u8]) -> (&[u8], &[u8])
    requires { 0 < length bytes.now }
    ensures lines { lines_of bytes.now ≡ result.0.now ∷ lines_of result.1.now }
    ensures shorter { length result.1.now < length bytes.now }
{
    match line_end(bytes) {
        Some(end) => (&bytes[..end], &bytes[end + 1..]),
        None => (bytes, &[]),
    }
}

fn at_line(line: u64, fault: LineFault) -> ParseFault
    ensures { result ≡ at_line line fault }
{
    match fault {
        LineFault::Bad(why) => ParseFault::Bad { line, why },
        LineFault::Memory => ParseFault::Memory,
    }
}

/// Reads a script: lines that end with LF, of which the last may be missing.
///
/// Ok gives the commands, one a line, exactly where every line is `put! KEY VALUE` or `get KEY`,
/// its words separated by one space each, KEY a token of 1 to 1024 bytes and VALUE a token of at
/// most 32,768. `Bad` tells exactly the first other line, counted from 1.
pub fn parse(alloc: Global, bytes: &[u8]) -> Result<Vec<Command>, ParseFault>
    ensures { MatchResult result (λ v. script_of bytes.now
        ≡ Ok v.items) (λ e. Refused e (script_of bytes.now)) }
{
    let mut commands = Vec::new(alloc);
    let mut line = 1;
    let mut rest = bytes;
    while !rest.is_empty() {
        let (text, after) = first_line(rest);
        let command = match line_at(alloc, text) {
            Ok(command) => command,
            Err(fault) => return Err(at_line(line, fault)),
        };
        commands.push(command)?;
        line += 1;
        rest = after;
    }
    Ok(commands)
}
