//! Chosen keys in a sorted list.

ghost use Rattle.std.specs.Prelude.{◌≡◌, ◌<◌, ◌≤◌, ◌+◌, IfOk, length, map, filter, vec_len, vec_capacity, nat_le};
ghost use Rattle.std.specs.Option.{option_copied};
ghost use Rattle.guard_choice.specs.Candidates.{Ascend};
ghost use Rattle.guard_choice.specs.Sorted.{end_in, place_in, with_chosen};

use flsm_model::Chosen;
use peb_base::{Key, Memory, is_below};
use std::alloc::Global;

/// How many of the keys come before this one.
pub fn place_of(chosen: &[Chosen], key: &[u8]) -> usize
    requires { Ascend chosen.now }
    ensures place { result ≡ place_in key.now chosen.now }
    ensures within { result ≤ length chosen.now }
{
    chosen.partition_point(|c| is_below(c.key.bytes(), key))
}

/// How many of the keys come before the end of a range, if it has one.
pub fn end_of(chosen: &[Chosen], hi: Option<&Key>) -> usize
    requires { Ascend chosen.now }
    ensures place { result ≡ end_in (option_copied hi.entry) chosen.now }
    ensures within { result ≤ length chosen.now }
{
    match hi {
        Some(hi) => place_of(chosen, hi.bytes()),
        None => chosen.len(),
    }
}

/// Puts one more key among them, for which there is room.
pub fn put(chosen: &mut Vec<Chosen>, more: Chosen)
    requires ascend { Ascend chosen.old.items }
    requires room { vec_len chosen.old < vec_capacity chosen.old }
    ensures put { chosen.new.items ≡ with_chosen more chosen.old.items }
    ensures room { vec_len chosen.new ≤ vec_len chosen.old + 1 }
    ensures capacity { vec_capacity chosen.new ≡ vec_capacity chosen.old }
{
    let at = place_of(chosen, more.key.bytes());
    if at < chosen.len() && chosen[at].key.bytes() == more.key.bytes() {
        let level = chosen[at].level.min(more.level);
        chosen[at].level = level;
        return;
    }
    let Ok(()) = chosen.insert(at, more) else {
        unreachable!()
    };
}

/// Copies of chosen keys.
pub fn copies(alloc: Global, chosen: &[Chosen]) -> Result<Vec<Chosen>, Memory>
    ensures { IfOk result (λ copies. copies.items ≡ chosen.now) }
{
    let mut copies = Vec::new(alloc);
    for c in chosen {
        copies.push(Chosen {
            key: c.key.copy(alloc)?,
            level: c.level,
        })?;
    }
    Ok(copies)
}

/// Copies of the keys that were chosen with this level or with a shallower one.
pub fn keys_to(alloc: Global, chosen: &[Chosen], level: u8) -> Result<Vec<Key>, Memory>
    ensures { IfOk result
        (λ keys. keys.items ≡ map (λ c. c.key) (filter (λ c. nat_le c.level level) chosen.now)) }
{
    let mut keys = Vec::new(alloc);
    for c in chosen {
        if c.level <= level {
            keys.push(c.key.copy(alloc)?)?;
        }
    }
    Ok(keys)
}
