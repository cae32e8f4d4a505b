//! The parts of an entry.

ghost use Rattle.std.specs.Prelude.{◌≡◌, ◌≢◌, ◌++◌, List, ℕ, IfSome, IfNone};
ghost use Rattle.peb_base.specs.EntryRefs.{change_of};
ghost use Rattle.peb_base.specs.Entries.{value_of};
ghost use Rattle.peb_base.specs.declared.change.Change.{Change};
ghost use Rattle.block_form.specs.Parts.{code_of, Parts, parts_of, parts_bytes, FitsParts};

use crate::head::head_of;
use peb_base::ChangeRef;

/// An entry without the part of its key that it shares with the key before.
#[derive(Clone, Copy)]
pub struct Fields<'a> {
    pub shared: usize,
    pub rest: &'a [u8],
    pub number: u64,
    pub change: ChangeRef<'a>,
}

/// The change that a code and the bytes of a value tell.
fn change_at(code: u8, value: &[u8]) -> Option<ChangeRef<'_>>
    ensures found { IfSome result
        (λ change. (code_of (change_of change) ≡ code)
        × (value_of (change_of change) ≡ value.now)) }
    ensures none { IfNone result
        ((change : Change) → code_of change ≡ code → value_of change ≢ value.now) }
{
    match code {
        0 => {
            if value.is_empty() {
                Some(ChangeRef::Delete)
            } else {
                None
            }
        }
        1 => Some(ChangeRef::Put(value)),
        _ => None,
    }
}

/// The parts at the front, and the bytes behind them.
pub fn fields_at(bytes: &[u8]) -> Option<(Fields<'_>, &[u8])>
    ensures found { IfSome result
        (λ found. bytes.now ≡ parts_bytes (parts_of found.0) ++ found.1.now) }
    ensures fits { IfSome result (λ found. FitsParts (parts_of found.0)) }
    ensures none { IfNone result
        ((p : Parts) (behind : List ℕ) → FitsParts p → bytes.now ≢ parts_bytes p ++ behind) }
{
    if bytes.len() < 17 {
        return None;
    }
    let head = head_of(bytes);
    let body = &bytes[17..];
    let rest_len = head.rest as usize;
    let value_len = head.value as usize;
    if body.len() < rest_len + value_len {
        return None;
    }
    let (rest, more) = body.split_at(rest_len);
    let (value, behind) = more.split_at(value_len);
    let Some(change) = change_at(head.code, value) else {
        return None;
    };
    let fields = Fields {
        shared: head.shared as usize,
        rest,
        number: head.number,
        change,
    };
    Some((fields, behind))
}
