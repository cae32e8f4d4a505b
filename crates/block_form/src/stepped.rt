//! Walking the entries of a block that was read.

ghost use Rattle.std.specs.Prelude.{◌≡◌, ◌++◌, List, ℕ, true};
ghost use Rattle.peb_base.specs.EntryRefs.{change_of};
ghost use Rattle.peb_base.specs.Entries.{IsEntry};
ghost use Rattle.peb_base.specs.Keys.{Bytes};
ghost use Rattle.peb_base.specs.declared.entry.Entry.{Entry};
ghost use Rattle.block_form.specs.Form.{entry_bytes, is_restart};
ghost use Rattle.block_form.specs.Walks.{BeginsWithEntry};

use crate::fields::fields_at;
use peb_base::{ChangeRef, KeyBuf};

/// An entry behind its key, and the bytes behind it.
#[derive(Clone, Copy)]
pub struct Stepped<'a> {
    pub number: u64,
    pub change: ChangeRef<'a>,
    pub behind: &'a [u8],
}

/// The whole key of the entry at the front, which is known to be a restart, and the entry behind it.
pub fn restart_at(rest: &[u8]) -> (&[u8], Stepped<'_>)
    requires { (before : Bytes) × BeginsWithEntry before rest.now }
    ensures { (place : ℕ) (before : Bytes) (e : Entry) (more : List ℕ) → is_restart place ≡ true
        → IsEntry e
        → rest.now ≡ entry_bytes place before e ++ more → (result.0.now ≡ e.key)
        × (result.1.number ≡ e.number) × (change_of result.1.change ≡ e.change)
        × (result.1.behind.now ≡ more) }
{
    let Some(found) = fields_at(rest) else {
        unreachable!();
    };
    let (fields, behind) = found;
    let stepped = Stepped {
        number: fields.number,
        change: fields.change,
        behind,
    };
    (fields.rest, stepped)
}

/// Goes over the entry at the front, which is known to stand there, and leaves its key.
pub fn step<'a>(key: &mut KeyBuf, rest: &'a [u8]) -> Stepped<'a>
    requires { BeginsWithEntry key.old rest.now }
    ensures { (place : ℕ) (e : Entry) (more : List ℕ) → IsEntry e
        → rest.now ≡ entry_bytes place key.old e ++ more → (key.new ≡ e.key)
        × (result.number ≡ e.number) × (change_of result.change ≡ e.change)
        × (result.behind.now ≡ more) }
{
    let Some(found) = fields_at(rest) else {
        unreachable!();
    };
    let (fields, behind) = found;
    key.put(fields.shared, fields.rest);
    Stepped {
        number: fields.number,
        change: fields.change,
        behind,
    }
}
