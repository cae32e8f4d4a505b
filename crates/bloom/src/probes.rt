//! The probes of a hash.

ghost use Rattle.std.specs.Prelude.{◌≡◌, ◌<◌, ◌*◌, length};
ghost use Rattle.bloom.specs.Filter.{probe, may_hold, with_hash};

use crate::bits::{has_bit, set_bit};

/// How many probes a hash has.
const PROBES: u64 = 6;

/// Probe `i` of a hash among the bits of so many bytes.
fn probe_at(hash: u64, bytes: usize, i: u64) -> u64
    requires some { 0 < bytes }
    requires few { i < 6 }
    ensures { result ≡ probe hash (8 * bytes) i }
{
    let low = hash % (1 << 32);
    let high = hash / (1 << 32) | 1;
    // A probe before the remainder is below 2^35, so more bits than a u64 can count leave it as it is.
    (low + i * high) % (bytes as u64).saturating_mul(8)
}

/// Sets the probes of a hash.
pub fn set_probes(bytes: &mut [u8], hash: u64)
    requires { 0 < length bytes.old }
    ensures { bytes.new ≡ with_hash bytes.old hash }
{
    for i in 0..PROBES {
        let place = probe_at(hash, bytes.len(), i);
        set_bit(bytes, place);
    }
}

/// Whether all probes of a hash are set.
pub fn has_probes(bytes: &[u8], hash: u64) -> bool
    requires { 0 < length bytes.now }
    ensures { result ≡ may_hold bytes.now hash }
{
    for i in 0..PROBES {
        if !has_bit(bytes, probe_at(hash, bytes.len(), i)) {
            return false;
        }
    }
    true
}
