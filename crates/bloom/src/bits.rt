//! Single bits of bytes.

ghost use Rattle.std.specs.Prelude.{◌≡◌, ℕ, ◌<◌, ◌*◌, ◌||◌, ◌==◌, length};
ghost use Rattle.bloom.specs.Bits.{bit};

/// Whether the bit at the place is set.
pub fn has_bit(bytes: &[u8], place: u64) -> bool
    requires { place < 8 * length bytes.now }
    ensures { result ≡ bit bytes.now place }
{
    (bytes[(place / 8) as usize] >> (place % 8)) & 1 == 1
}

/// Sets the bit at the place.
pub fn set_bit(bytes: &mut [u8], place: u64)
    requires { place < 8 * length bytes.old }
    ensures { (j : ℕ) → bit bytes.new j ≡ (bit bytes.old j || (j == place)) }
{
    bytes[(place / 8) as usize] |= 1 << (place % 8);
}
