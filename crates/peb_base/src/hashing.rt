//! Hashes of keys.

ghost use Rattle.std.specs.Prelude.{◌≡◌, ◌≤◌};
ghost use Rattle.peb_base.specs.Choice as choice;

use crate::hash_kind::HashKind;

const FNV_START: u64 = 14_695_981_039_346_656_037;

const FNV_PRIME: u64 = 1_099_511_628_211;

/// 64-bit FNV-1a of the key's bytes.
#[tactic(auto, using(std::proofs::lemmas::List::at_drop_more))]
fn fnv1a(key: &[u8]) -> u64
    ensures { result ≡ choice.fnv1a choice.fnv_start key.now }
{
    let mut hash = FNV_START;
    for byte in key {
        hash = (hash ^ *byte as u64).wrapping_mul(FNV_PRIME);
    }
    hash
}

/// The hash of a key by which filters and the profile `normal` go: 64-bit
/// FNV-1a, then the finalizer of SplitMix64.
#[tactic(auto, unfolding(crate::specs::Choice::mixed))]
pub fn mixed(key: &[u8]) -> u64
    ensures { result ≡ choice.mixed key.now }
{
    let mut hash = fnv1a(key);
    hash = (hash ^ (hash >> 30)).wrapping_mul(0xBF58_476D_1CE4_E5B9);
    hash = (hash ^ (hash >> 27)).wrapping_mul(0x94D0_49BB_1331_11EB);
    hash ^ (hash >> 31)
}

/// How many one bits the hash of a key ends in: at most 64 for `Mixed`, and 8 for `LastByte`.
#[tactic(auto, unfolding(crate::specs::Choice::bits))]
pub fn bits(hash: HashKind, key: &[u8]) -> u32
    ensures bits { result ≡ choice.bits hash key.now }
    ensures few { result ≤ 64 }
{
    match hash {
        HashKind::Mixed => mixed(key).trailing_ones(),
        HashKind::LastByte => match key {
            [] => 0,
            [.., last] => last.trailing_ones(),
        },
    }
}
