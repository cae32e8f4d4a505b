//! Which keys may be guards.

ghost use Rattle.std.specs.Prelude.{◌≡◌, ◌≤◌, IfSome};
ghost use Rattle.peb_base.specs.Profiles.{column};
ghost use Rattle.peb_base.specs.Choice as choice;

use crate::hashing::bits;
use crate::options::Options;

/// The shallowest level at which a key may be a guard, from 1 to the last; None where its hash ends in too
/// few one bits for any level (PebblesDB, section 3.4: deeper levels ask for fewer bits).
pub fn level_of(options: &Options, key: &[u8]) -> Option<u8>
    ensures level { result ≡ choice.level_of (column options.now.profile) key.now }
    ensures deep { IfSome result (λ level. level ≤ options.now.last_level) }
{
    let have = bits(options.hash, key);
    for level in 1..=options.last_level {
        if options.top_bits - options.decrement * (level as u32 - 1) <= have {
            return Some(level);
        }
    }
    None
}
