//! Guard keys, which ascend.

ghost use Rattle.std.specs.Prelude.{◌≡◌, ◌≤◌, [], length, find, not, filter, IfOk};
ghost use Rattle.std.specs.Option.{option_copied};
ghost use Rattle.peb_base.specs.Guards.{Ascend};
ghost use Rattle.flsm_model.specs.Ranges as ranges;
ghost use Rattle.job_picker.specs.Places.{place_in, end_in};

use crate::guard_range::GuardRange;
use peb_base::{Key, Memory, is_below};
use std::alloc::Global;

/// How many of the keys come before this one.
fn place_of(keys: &[Key], key: &[u8]) -> usize
    requires { Ascend [] keys.now }
    ensures place { result ≡ place_in key.now keys.now }
    ensures within { result ≤ length keys.now }
{
    keys.partition_point(|k| is_below(k.bytes(), key))
}

/// Whether the key is one of these.
pub fn is_guard(keys: &[Key], key: &[u8]) -> bool
    requires { Ascend [] keys.now }
    ensures { result ≡ ranges.has_key key.now keys.now }
{
    let place = place_of(keys, key);
    place < keys.len() && key == keys[place].bytes()
}

/// The first of the wanted keys that is none of the others.
pub fn first_missing<'a>(keys: &[Key], wanted: &'a [Key]) -> Option<&'a Key>
    requires { Ascend [] keys.now }
    ensures { option_copied result ≡ find (λ key. not (ranges.has_key key keys.now)) wanted.now }
{
    for key in wanted {
        if !is_guard(keys, key.bytes()) {
            return Some(key);
        }
    }
    None
}

/// How many of the keys come before the end of a range, if it has one.
fn end_of(keys: &[Key], hi: Option<&Key>) -> usize
    requires { Ascend [] keys.now }
    ensures place { result ≡ end_in (option_copied hi.entry) keys.now }
    ensures within { result ≤ length keys.now }
{
    match hi {
        Some(hi) => place_of(keys, hi.bytes()),
        None => keys.len(),
    }
}

/// Copies of the keys.
fn copies(alloc: Global, keys: &[Key]) -> Result<Vec<Key>, Memory>
    ensures { IfOk result (λ copies. copies.items ≡ keys.now) }
{
    let mut copies = Vec::new(alloc);
    for key in keys {
        copies.push(key.copy(alloc)?)?;
    }
    Ok(copies)
}

/// Copies of the keys that lie in a range.
pub fn keys_in(alloc: Global, keys: &[Key], range: GuardRange) -> Result<Vec<Key>, Memory>
    requires { Ascend [] keys.now }
    ensures { IfOk result (λ within. within.items
        ≡ filter (ranges.in_range range.entry.lo.now (option_copied range.entry.hi)) keys.now) }
{
    let (_, rest) = keys.split_at(place_of(keys, range.lo));
    let (within, _) = rest.split_at(end_of(rest, range.hi));
    copies(alloc, within)
}
