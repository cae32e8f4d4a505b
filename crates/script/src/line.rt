//! The lines of a script, one function for each form.

ghost use Rattle.std.specs.Prelude.{◌≡◌, map, IfOk};
ghost use Rattle.script.specs.Gives.{Gives};
ghost use Rattle.script.specs.Line.{words_of, key_of, value_of, put_at, get_at, line_at};

use crate::command::Command;
use crate::line_fault::LineFault;
use crate::token::string_of;
use crate::why::Why;
use peb_base::{Key, KeyFault, Value, ValueFault};
use std::alloc::{AllocError, Global};

/// The words of a line. Two spaces in a row, or one at an end, make an empty word.
fn words_of(alloc: Global, line: &[u8]) -> Result<Vec<&[u8]>, AllocError>
    ensures { IfOk result (λ v. map (λ x. x.now) v.items ≡ words_of line.now) }
{
    line.split(|b| *b == b' ').collect(alloc)
}

fn key_of(alloc: Global, bytes: &[u8]) -> Result<Key, LineFault>
    ensures { Gives (λ key. key) result (key_of bytes.now) }
{
    match Key::new(alloc, bytes) {
        Ok(key) => Ok(key),
        Err(KeyFault::Length(_)) => Err(LineFault::Bad(Why::Command)),
        Err(KeyFault::Memory) => Err(LineFault::Memory),
    }
}

fn value_of(alloc: Global, bytes: &[u8]) -> Result<Value, LineFault>
    ensures { Gives (λ value. value) result (value_of bytes.now) }
{
    match Value::new(alloc, bytes) {
        Ok(value) => Ok(value),
        Err(ValueFault::Length(_)) => Err(LineFault::Bad(Why::Command)),
        Err(ValueFault::Memory) => Err(LineFault::Memory),
    }
}

/// `put! KEY VALUE`.
#[tactic(auto, unfolding(crate::specs::Line::put_at))]
fn put_at(alloc: Global, args: &[&[u8]], sync: bool) -> Result<Command, LineFault>
    ensures { Gives (λ command. command) result (put_at (map (λ x. x.now) args.now) sync) }
{
    let [key, value] = args else {
        return Err(LineFault::Bad(Why::Command));
    };
    let key = string_of(alloc, key)?;
    let value = string_of(alloc, value)?;
    let key = key_of(alloc, &key)?;
    let value = value_of(alloc, &value)?;
    Ok(Command::Put { key, value, sync })
}

/// `get KEY`.
#[tactic(auto, unfolding(crate::specs::Line::get_at))]
fn get_at(alloc: Global, args: &[&[u8]]) -> Result<Command, LineFault>
    ensures { Gives (λ command. command) result (get_at (map (λ x. x.now) args.now)) }
{
    let [key] = args else {
        return Err(LineFault::Bad(Why::Command));
    };
    let key = string_of(alloc, key)?;
    let key = key_of(alloc, &key)?;
    Ok(Command::Get { key })
}

/// What a line says.
#[tactic(auto, unfolding(crate::specs::Line::line_at))]
pub fn line_at(alloc: Global, line: &[u8]) -> Result<Command, LineFault>
    ensures { Gives (λ command. command) result (line_at line.now) }
{
    let words = words_of(alloc, line)?;
    let [word, args @ ..] = words.as_slice() else {
        return Err(LineFault::Bad(Why::Command));
    };
    let word = *word;
    if word == b"put!".as_slice() {
        put_at(alloc, args, true)
    } else if word == b"get".as_slice() {
        get_at(alloc, args)
    } else {
        Err(LineFault::Bad(Why::Command))
    }
}
