//! The entry at the front of the bytes of others.

ghost use Rattle.std.specs.Prelude.{◌≡◌, ◌≢◌, ◌↔◌, ◌≤◌, ◌++◌, List, ℕ, true, length, take, IfSome, IfNone, IsTrue};
ghost use Rattle.peb_base.specs.EntryRefs.{change_of};
ghost use Rattle.peb_base.specs.Entries.{value_of, comes_before, IsEntry};
ghost use Rattle.peb_base.specs.Tables.{common_prefix, shared_length};
ghost use Rattle.peb_base.specs.declared.entry.Entry.{Entry};
ghost use Rattle.block_form.specs.Form.{entry_bytes};
ghost use Rattle.block_form.specs.Parts.{parts_of};
ghost use Rattle.block_form.specs.Walks.{Meets, IsNext};

use crate::fields::{Fields, fields_at};
use peb_base::{Key, Value};
use std::cmp::Ordering;

/// Neither begins with a byte that the other begins with.
fn differs(before: &[u8], rest: &[u8]) -> bool
    ensures { IsTrue result ↔ (common_prefix before.now rest.now ≡ 0) }
{
    if before.is_empty() {
        return true;
    }
    if rest.is_empty() {
        return true;
    }
    before[0] != rest[0]
}

/// The part that is shared is what the entry at this place leaves out.
fn is_longest(place: usize, before: &[u8], shared: usize, rest: &[u8]) -> bool
    requires { shared ≤ length before.now }
    ensures { IsTrue result ↔
        (shared_length place before.now (take shared before.now ++ rest.now) ≡ shared) }
{
    if place % 16 == 0 {
        return shared == 0;
    }
    differs(&before[shared..], rest)
}

/// The key that begins with the first `shared` bytes of the one before, and
/// the number, come after those before.
pub fn comes_after(before: &[u8], above: u64, shared: usize, rest: &[u8], number: u64) -> bool
    requires { shared ≤ length before.now }
    ensures { IsTrue result ↔
        (comes_before before.now above (take shared before.now ++ rest.now) number ≡ true) }
{
    let left = &before[shared..];
    match left.cmp(&rest) {
        Ordering::Less => true,
        Ordering::Equal => number < above,
        Ordering::Greater => false,
    }
}

fn meets(place: usize, before: &[u8], above: u64, fields: &Fields<'_>) -> bool
    requires { length before.now ≤ 1024 }
    ensures { IsTrue result ↔ Meets place before.now above (parts_of fields.now) }
{
    if fields.shared > before.len() {
        return false;
    }
    if fields.rest.len() > Key::LONGEST - fields.shared {
        return false;
    }
    if fields.shared + fields.rest.len() == 0 {
        return false;
    }
    if fields.number >= 1 << 63 {
        return false;
    }
    if fields.change.len() > Value::LONGEST {
        return false;
    }
    if !is_longest(place, before, fields.shared, fields.rest) {
        return false;
    }
    comes_after(before, above, fields.shared, fields.rest, fields.number)
}

/// The entry at the front, if it is one at this place after this key and number, and the bytes behind it.
pub fn entry_front<'b>(
    place: usize,
    before: &[u8],
    above: u64,
    bytes: &'b [u8],
) -> Option<(Fields<'b>, &'b [u8])>
    requires { length before.now ≤ 1024 }
    ensures found { IfSome result
        (λ found. IsNext place before.now above bytes.now (parts_of found.0) found.1.now) }
    ensures none { IfNone result
        ((e : Entry) (behind : List ℕ) → IsEntry e
        → comes_before before.now above e.key e.number ≡ true
        → bytes.now ≢ entry_bytes place before.now e ++ behind) }
{
    let Some(found) = fields_at(bytes) else {
        return None;
    };
    let (fields, behind) = found;
    if !meets(place, before, above, &fields) {
        return None;
    }
    Some((fields, behind))
}
