ghost use Rattle.std.specs.Prelude.{◌≡◌, ℕ, IfOk, IfErr};
ghost use Rattle.peb_base.specs.Faults.{Rose};
ghost use Rattle.script.specs.declared.cause.Cause.TheVariants as causes;
ghost use Rattle.pebbles_cli.specs.Causes.{Says, ScriptCause};
ghost use Rattle.pebbles_cli.specs.Read.{IsWithin};

use crate::read_fault::ReadFault;
use crate::read_script::{LONGEST_SCRIPT, read_script};
use disk_model::Scripts;
use peb_base::LimitKind;
use script::{Cause, Command, ParseFault, parse};
use std::alloc::Global;

/// The commands of the script FILE, or the cause that the program ends with.
pub fn read_commands<S: Scripts>(
    alloc: Global,
    scripts: &mut S,
    file: &str,
) -> Result<Vec<Command>, Cause>
    ensures short { IfOk result (λ commands. IsWithin (S.text scripts.old file.now) 16777216) }
    ensures says { IfOk result (λ commands. Says (S.text scripts.old file.now) commands.items) }
    ensures refused { IfErr result (ScriptCause (S.text scripts.old file.now)) }
    ensures source { IfErr result (λ cause. (i : ℕ) → cause ≡ causes.Source i
        → Rose (S.faults scripts.old) (S.faults scripts.new)) }
{
    let text = match read_script(alloc, scripts, file) {
        Ok(text) => text,
        Err(ReadFault::Source) => return Err(Cause::Source(1)),
        Err(ReadFault::TooLong) => {
            return Err(Cause::Limit(LimitKind::Script, LONGEST_SCRIPT as u64));
        }
        Err(ReadFault::Memory) => return Err(Cause::Memory),
    };
    match parse(alloc, &text) {
        Ok(commands) => Ok(commands),
        Err(ParseFault::Bad { line, why }) => Err(Cause::Script(1, line, why)),
        Err(ParseFault::Memory) => Err(Cause::Memory),
    }
}
