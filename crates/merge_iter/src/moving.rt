//! Moves of the inputs of a merge.

ghost use Rattle.std.specs.Prelude.{◌≡◌, ◌<◌, Option, None, Some, IfSome, length, if◌then◌else◌};
ghost use Rattle.merge_iter.specs.Moves.{Went, AllWent, Moved, Searched, Sought, Each, Of};
ghost use Rattle.merge_iter.specs.Told as told;
ghost use Rattle.merge_iter.specs.declared.step.Step.TheVariants as steps;

use crate::step::Step;
use peb_base::{Cursor, Number, ReadFault};

/// Goes one entry on with a cursor, and from no place to its first one.
pub fn go_on<C: Cursor>(input: &mut C) -> Result<(), ReadFault>
    ensures { Went C.Cursor steps.Next input.old input.new result }
{
    if input.at().is_none() {
        return input.first();
    }
    input.next()
}

/// Goes one entry back with a cursor, and from no place to its last one.
fn go_back<C: Cursor>(input: &mut C) -> Result<(), ReadFault>
    ensures { Went C.Cursor steps.Previous input.old input.new result }
{
    if input.at().is_none() {
        return input.last();
    }
    input.prev()
}

/// Makes a step with a cursor.
fn go<C: Cursor>(input: &mut C, step: Step) -> Result<(), ReadFault>
    ensures { Went C.Cursor step input.old input.new result }
{
    match step {
        Step::First => input.first(),
        Step::Last => input.last(),
        Step::Next => go_on(input),
        Step::Previous => go_back(input),
    }
}

/// Makes a step with each cursor, in their order, up to the first that refuses.
fn send_all<C: Cursor>(inputs: &mut Vec<C>, step: Step) -> Result<(), ReadFault>
    ensures { AllWent C.Cursor
        (Each (Moved C.Cursor step)) inputs.old.items inputs.new.items result }
{
    for k in 0..inputs.len() {
        go(&mut inputs[k], step)?;
    }
    Ok(())
}

/// Makes a step with the cursor at a place, or with each.
pub fn send<C: Cursor>(
    inputs: &mut Vec<C>,
    only: Option<usize>,
    step: Step,
) -> Result<(), ReadFault>
    requires { IfSome only (λ place. place < length inputs.old.items) }
    ensures { AllWent C.Cursor
        (Of (Moved C.Cursor step) only) inputs.old.items inputs.new.items result }
{
    let Some(place) = only else {
        return send_all(inputs, step);
    };
    go(&mut inputs[place], step)
}

/// The first refusal among the cursors' last moves.
pub fn first_refusal<C: Cursor>(inputs: &[C]) -> Option<ReadFault>
    ensures { result ≡ told.first_refusal C.Cursor inputs.now }
{
    for i in 0..inputs.len() {
        if let Some(fault) = inputs[i].fault() {
            return Some(fault);
        }
    }
    None
}

/// Seeks a key and number with one cursor.
fn seek_with<C: Cursor>(input: &mut C, key: &[u8], number: Number) -> Result<(), ReadFault>
    ensures { Searched C.Cursor key.now number input.old input.new result }
{
    input.seek(key, number)
}

/// Seeks a key and number with each cursor, in their order, up to the first that refuses.
pub fn seek_all<C: Cursor>(inputs: &mut Vec<C>, key: &[u8], number: Number) -> Result<(), ReadFault>
    ensures { AllWent C.Cursor
        (Each (Sought C.Cursor key.now number)) inputs.old.items inputs.new.items
        result }
{
    for k in 0..inputs.len() {
        seek_with(&mut inputs[k], key, number)?;
    }
    Ok(())
}

/// The one input that a step moves, the current one, or None for all of them where the walk turns.
pub fn moved_input(place: usize, turns: bool) -> Option<usize>
    ensures { result ≡ (if turns then None else Some place) }
{
    if turns {
        return None;
    }
    Some(place)
}
