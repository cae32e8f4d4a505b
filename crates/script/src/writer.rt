//! Writing commands.

ghost use Rattle.std.specs.Prelude.{◌≡◌, ◌++◌, ◌∷◌, OnOk, IfOk};
ghost use Rattle.script.specs.Token.{token_text};
ghost use Rattle.script.specs.Written.{command_text};

use crate::command::Command;
use crate::token::put_token;
use peb_base::Memory;
use std::alloc::{AllocError, Global};

/// Writes a space and a token at the end.
fn put_word(out: &mut Vec<u8>, bytes: &[u8]) -> Result<(), AllocError>
    ensures { OnOk result (out.new.items ≡ out.old.items ++ 32 ∷ token_text bytes.now) }
{
    out.push(b' ')?;
    put_token(out, bytes)
}

/// The line of a command, with its LF: the commands of a script of such lines are those that were
/// written, where every put asks for sync.
pub fn write_command(alloc: Global, command: &Command) -> Result<Vec<u8>, Memory>
    ensures { IfOk result (λ v. v.items ≡ command_text command.now) }
{
    let mut out = Vec::new(alloc);
    match command {
        Command::Put { key, value, sync } => {
            out.extend_from_slice(if *sync {
                b"put!".as_slice()
            } else {
                b"put".as_slice()
            })?;
            put_word(&mut out, key.bytes())?;
            put_word(&mut out, value.bytes())?;
        }
        Command::Get { key } => {
            out.extend_from_slice(b"get")?;
            put_word(&mut out, key.bytes())?;
        }
    }
    out.push(b'\n')?;
    Ok(out)
}
