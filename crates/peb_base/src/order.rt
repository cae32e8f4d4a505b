//! The order of keys and of entries.

ghost use Rattle.std.specs.Prelude.{◌≡◌};
ghost use Rattle.peb_base.specs.Entries.{comes_before};
ghost use Rattle.peb_base.specs.Keys.{key_lt};

use std::cmp::Ordering;

/// Whether the key comes before the other.
pub fn is_below(key: &[u8], other: &[u8]) -> bool
    ensures { result ≡ key_lt key.now other.now }
{
    key.cmp(other).is_lt()
}

/// Whether the first key and number, as `Number::packed` gives it, come
/// before the second ones, in entry order.
#[tactic(auto, using(crate::specs::EntryLaws::comes_before_by))]
pub fn is_before(key: &[u8], number: u64, later: &[u8], lower: u64) -> bool
    ensures { result ≡ comes_before key.now number later.now lower }
{
    match key.cmp(&later) {
        Ordering::Less => true,
        Ordering::Equal => lower < number,
        Ordering::Greater => false,
    }
}
