ghost use Rattle.std.specs.Prelude.{◌≡◌, ℕ, IfOk};
ghost use Rattle.std.specs.List.Sorted.{IsStrictlyIncreasing};
ghost use Rattle.disk_model.specs.Tables.{is_among};

use std::alloc::AllocError;

/// The same numbers, ascending and each once, as a port lists them.
pub fn ascending(mut numbers: Vec<u64>) -> Result<Vec<u64>, AllocError>
    ensures ascending { IfOk result (λ each. IsStrictlyIncreasing each.items) }
    ensures same { IfOk result (λ each. (n : ℕ) →
        is_among each.items n ≡ is_among numbers.items n) }
{
    numbers.sort()?;
    numbers.dedup();
    Ok(numbers)
}
