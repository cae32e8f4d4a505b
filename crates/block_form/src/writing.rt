//! Spelling an entry.

ghost use Rattle.std.specs.Prelude.{◌≡◌, ◌≤◌, ◌+◌, ◌++◌, length};
ghost use Rattle.peb_base.specs.Entries.{value_of, IsEntry};
ghost use Rattle.peb_base.specs.Tables.{common_prefix, shared_length};
ghost use Rattle.peb_base.specs.EntryRefs.{change_of, entry_of};
ghost use Rattle.block_form.specs.Building.{put_in};
ghost use Rattle.block_form.specs.Form.{entry_bytes};
ghost use Rattle.block_form.specs.Parts.{code_of};

use crate::head::{Head, head_array};
use crate::room::Room;
use peb_base::{ChangeRef, EntryRef};

/// How many bytes the two begin with alike.
fn common(before: &[u8], key: &[u8]) -> usize
    ensures { result ≡ common_prefix before.now key.now }
{
    for i in 0..before.len() {
        if i >= key.len() {
            return i;
        }
        if before[i] != key[i] {
            return i;
        }
    }
    before.len()
}

/// How much of its key the entry at this place leaves out.
fn shared_len(place: usize, before: &[u8], key: &[u8]) -> usize
    ensures value { result ≡ shared_length place before.now key.now }
    ensures kept { result ≤ length key.now }
{
    if place % 16 == 0 {
        return 0;
    }
    common(before, key)
}

fn code_and_value(change: ChangeRef<'_>) -> (u8, &[u8])
    ensures code { result.0 ≡ code_of (change_of change.entry) }
    ensures value { result.1.now ≡ value_of (change_of change.entry) }
{
    match change {
        ChangeRef::Put(value) => (1, value),
        ChangeRef::Delete => (0, &[]),
    }
}

/// Appends the bytes of an entry at this place, after this key.
pub fn put_entry(out: &mut Room, place: usize, before: &[u8], item: &EntryRef<'_>)
    requires entry { IsEntry (entry_of item.now) }
    requires room { length (put_in out.old) + length
        (entry_bytes place before.now (entry_of item.now)) ≤ 40960 }
    ensures { put_in out.new ≡ put_in out.old ++ entry_bytes place before.now (entry_of item.now) }
{
    let shared = shared_len(place, before, item.key);
    let rest = &item.key[shared..];
    let (code, value) = code_and_value(item.change);
    let head = head_array(Head {
        shared: shared as u16,
        rest: rest.len() as u16,
        number: item.number,
        code,
        value: value.len() as u32,
    });
    out.put(&head);
    out.put(rest);
    out.put(value);
}
