//! The filter of the keys that were written.

ghost use Rattle.std.specs.Prelude.{◌≡◌, ◌≤◌, length, IfOk};
ghost use Rattle.peb_base.specs.Tables.{filter_length};
ghost use Rattle.bloom.specs.Filter.{filter_of};

use bloom::{Filter, law_filter};
use peb_base::Memory;
use std::alloc::Global;

/// The filter of these hashes.
pub fn filter_with(alloc: Global, hashes: &[u64]) -> Result<Filter, Memory>
    requires { length hashes.now ≤ 1717986918 }
    ensures filter { IfOk result (λ filter. filter ≡ filter_of (length hashes.now) hashes.now) }
    ensures long { IfOk result (λ filter. length filter ≡ filter_length (length hashes.now)) }
{
    law_filter();
    let mut filter = Filter::build(alloc, hashes.len() as u64)?;
    for hash in hashes {
        filter.add_mixed(*hash);
    }
    Ok(filter)
}
