//! Ranges of keys.

ghost use Rattle.std.specs.Prelude.{◌≡◌};
ghost use Rattle.std.specs.Option.{option_copied};
ghost use Rattle.flsm_model.specs.Ranges as ranges;
ghost use Rattle.flsm_model.specs.Fits as fits;

use peb_base::{Key, TableRow, is_below};

/// The range of a guard: from `lo` on, which is empty for the sentinel, and below `hi`, if there is
/// one.
#[derive(Clone, Copy)]
pub struct Range<'a> {
    pub lo: &'a [u8],
    pub hi: Option<&'a [u8]>,
}

impl<'a> Range<'a> {
    /// The range of the guard that has the key.
    #[tactic(auto, using(std::proofs::lemmas::List::at_drop_more))]
    pub fn of(guards: &'a [Key], key: &[u8]) -> Range<'a>
        ensures { (result.lo.now, option_copied result.hi) ≡ ranges.range_of guards.now key.now }
    {
        let mut lo: &[u8] = &[];
        for guard in guards {
            let next = guard.bytes();
            if is_below(key, next) {
                return Range { lo, hi: Some(next) };
            }
            lo = next;
        }
        Range { lo, hi: None }
    }

    /// Whether the key is below the end.
    pub fn ends_behind(&self, key: &[u8]) -> bool
        ensures { result ≡ ranges.is_below key.now (option_copied self.now.hi) }
    {
        match self.hi {
            Some(hi) => is_below(key, hi),
            None => true,
        }
    }

    /// Whether the key lies in the range.
    pub fn has(&self, key: &[u8]) -> bool
        ensures { result ≡ ranges.in_range self.now.lo.now (option_copied self.now.hi) key.now }
    {
        !is_below(key, self.lo) && self.ends_behind(key)
    }

    /// Whether all keys of the row's table lie in the range.
    pub fn has_row(&self, row: &TableRow) -> bool
        ensures { result ≡ fits.lies_in (self.now.lo.now, option_copied self.now.hi) row.now }
    {
        !is_below(row.smallest.bytes(), self.lo) && self.ends_behind(row.largest.bytes())
    }
}
