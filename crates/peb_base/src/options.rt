//! The numbers of a profile.

ghost use Rattle.std.specs.Prelude.{◌≡◌};
ghost use Rattle.peb_base.specs.Profiles.{column};

use crate::hash_kind::HashKind;
use crate::profile::Profile;

/// The sizes and counts of a profile. Each value is that of `Options::of` for its profile.
#[derive(Clone, Copy, Debug)]
pub struct Options {
    pub profile: Profile,
    /// The deepest level; level 0 is the first.
    pub last_level: u8,
    /// How many one bits a key's hash ends in where the key may be a guard of level 1.
    pub top_bits: u32,
    /// How many bits fewer each deeper level asks.
    pub decrement: u32,
    /// How many tables a guard holds before it is compacted.
    pub guard_tables: usize,
    /// How many tables level 0 holds before it is compacted.
    pub zero_tables: usize,
    /// The size in bytes at which the memtable is frozen.
    pub mem_limit: u64,
    /// The length in bytes at which a block is full.
    pub block_bytes: u32,
    pub hash: HashKind,
    pub ghost last_level_of: { last_level ≡ (column profile).last_level },
    pub ghost top_bits_of: { top_bits ≡ (column profile).top_bits },
    pub ghost decrement_of: { decrement ≡ (column profile).decrement },
    pub ghost guard_tables_of: { guard_tables ≡ (column profile).guard_tables },
    pub ghost zero_tables_of: { zero_tables ≡ (column profile).zero_tables },
    pub ghost mem_limit_of: { mem_limit ≡ (column profile).mem_limit },
    pub ghost block_bytes_of: { block_bytes ≡ (column profile).block_bytes },
    pub ghost hash_of: { hash ≡ (column profile).hash },
}

impl Options {
    /// The column of a profile in the table of profiles.
    pub fn of(profile: Profile) -> Options
        ensures { result.profile ≡ profile }
    {
        match profile {
            Profile::Normal => Options {
                profile,
                last_level: 5,
                top_bits: 16,
                decrement: 2,
                guard_tables: 4,
                zero_tables: 4,
                mem_limit: 4_194_304,
                block_bytes: 4096,
                hash: HashKind::Mixed,
            },
            Profile::Small => Options {
                profile,
                last_level: 3,
                top_bits: 4,
                decrement: 1,
                guard_tables: 2,
                zero_tables: 2,
                mem_limit: 1024,
                block_bytes: 256,
                hash: HashKind::LastByte,
            },
        }
    }
}
