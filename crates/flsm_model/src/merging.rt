//! Guards with further keys among them.

ghost use Rattle.std.specs.Prelude.{◌≡◌, ◌≤◌, MatchResult, OnOk, IfOk, length};
ghost use Rattle.std.specs.List.{insert};
ghost use Rattle.flsm_model.specs.Ranges as ranges;

use crate::copying::copy_keys;
use peb_base::{Key, Memory, is_below};
use std::alloc::Global;

/// The place of the key among guards: Ok where it is one of them, Err where it belongs in front of
/// this place.
fn place_of(guards: &[Key], key: &[u8]) -> Result<usize, usize>
    ensures { MatchResult result (λ place. ranges.with_key key.now guards.now
        ≡ guards.now) (λ place. (place ≤ length guards.now)
        × (ranges.with_key key.now guards.now ≡ insert guards.now place key.now)) }
{
    for (place, guard) in guards.iter().enumerate() {
        let guard = guard.bytes();
        if is_below(key, guard) {
            return Err(place);
        }
        if key == guard {
            return Ok(place);
        }
    }
    Err(guards.len())
}

/// Puts a key among guards, if it isn't one of them.
fn add_key(guards: &mut Vec<Key>, key: Key) -> Result<(), Memory>
    ensures { OnOk result (guards.new.items ≡ ranges.with_key key guards.old.items) }
{
    if let Err(place) = place_of(guards, key.bytes()) {
        guards.insert(place, key)?;
    }
    Ok(())
}

/// Copies of the guards, with copies of these keys among them.
#[tactic(auto, using(std::proofs::lemmas::List::at_drop_more))]
pub fn with_keys(alloc: Global, keys: &[Key], guards: &[Key]) -> Result<Vec<Key>, Memory>
    ensures { IfOk result (λ merged. merged.items ≡ ranges.with_keys keys.now guards.now) }
{
    let mut merged = copy_keys(alloc, guards)?;
    let mut left = keys.len();
    while left > 0 {
        left -= 1;
        add_key(&mut merged, keys[left].copy(alloc)?)?;
    }
    Ok(merged)
}
