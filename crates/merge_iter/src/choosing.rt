//! Which of several cursors comes first.

ghost use Rattle.std.specs.Prelude.{◌≡◌, ◌<◌, true, false, not, map, length, if◌then◌else◌};
ghost use Rattle.merge_iter.specs.Heads.{head_at, meets_first, is_better, IsChosen};

use peb_base::{Cursor, is_before};

/// Whether a walk back, or on, meets the entry of the first cursor before that of the second, or the
/// second has none.
fn meets_before<C: Cursor>(a: &C, b: &C, is_back: bool) -> bool
    ensures { result ≡ meets_first is_back (C.shows a.now) (C.shows b.now) }
{
    let Some(e) = a.at() else {
        return false;
    };
    let Some(f) = b.at() else {
        return true;
    };
    if is_back {
        return is_before(f.key, f.number, e.key, e.number);
    }
    is_before(e.key, e.number, f.key, f.number)
}

/// Of two places, the one whose cursor a walk back, or on, takes first; the second is the earlier one.
fn better<C: Cursor>(inputs: &[C], place: usize, other: usize, is_back: bool) -> usize
    requires place { place < length inputs.now }
    requires other { other < length inputs.now }
    ensures { result ≡
        (if is_better is_back (map C.shows inputs.now) place other then place else other) }
{
    if is_back {
        if meets_before(&inputs[other], &inputs[place], true) {
            return other;
        }
        return place;
    }
    if meets_before(&inputs[place], &inputs[other], false) {
        return place;
    }
    other
}

/// The place of the cursor whose entry a walk back, or on, meets first, on the first such place, back the
/// last; None exactly where none has an entry.
pub fn chosen<C: Cursor>(inputs: &[C], is_back: bool) -> Option<usize>
    ensures { IsChosen is_back (map C.shows inputs.now) result }
{
    let mut best = 0;
    for i in 0..inputs.len() {
        best = better(inputs, i, best, is_back);
    }
    if best >= inputs.len() {
        return None;
    }
    match inputs[best].at() {
        Some(_) => Some(best),
        None => None,
    }
}
