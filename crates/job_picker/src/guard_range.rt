//! Ranges of guards.

ghost use Rattle.std.specs.Prelude.{◌≡◌, ◌≤◌, length};
ghost use Rattle.std.specs.List.{slice_get};
ghost use Rattle.std.specs.Option.{option_copied};
ghost use Rattle.flsm_model.specs.GuardRanges.{range_at};

use peb_base::Key;

/// The range of a guard: from `lo` on, which is empty for the sentinel, and below the next guard, if
/// there is one.
#[derive(Clone, Copy)]
pub struct GuardRange<'a> {
    pub lo: &'a [u8],
    pub hi: Option<&'a Key>,
}

/// The key at an index, if there is one.
fn end_at(keys: &[Key], index: usize) -> Option<&Key>
    ensures { option_copied result ≡ slice_get keys.now index }
{
    if index < keys.len() {
        return Some(&keys[index]);
    }
    None
}

impl<'a> GuardRange<'a> {
    /// The range of the guard at an index, which is at most the number of guard keys.
    pub fn of(keys: &'a [Key], guard: usize) -> GuardRange<'a>
        requires { guard ≤ length keys.now }
        ensures { (result.lo.now, option_copied result.hi) ≡ range_at keys.now guard }
    {
        if guard == 0 {
            return GuardRange {
                lo: &[],
                hi: keys.first(),
            };
        }
        GuardRange {
            lo: keys[guard - 1].bytes(),
            hi: end_at(keys, guard),
        }
    }
}
