//! Candidates in the profile `small`, whose hash is the last byte of a key.

use crate::{Candidates, bits, level_of};
use flsm_model::Chosen;
use peb_base::{HashKind, Key, Options, Profile};
use std::alloc::Global;
use std::test::Fail;

/// The keys `o` and `g` with their levels, and `o` again with a deeper one.
fn chosen(alloc: Global) -> Result<Vec<Chosen>, Fail> {
    let mut chosen = Vec::new(alloc);
    for (key, level) in [(b"o", 1), (b"g", 2), (b"o", 3)] {
        chosen.push(Chosen {
            key: Key::new(alloc, key)?,
            level,
        })?;
    }
    Ok(chosen)
}

#[test]
fn keys_have_bits_and_levels(rt: HostRuntime) {
    let options = Options::of(Profile::Small);
    for (key, have, level) in [
        (b"o", 4, Some(1)),
        (b"g", 3, Some(2)),
        (b"c", 2, Some(3)),
        (b"a", 1, None),
        (b"b", 0, None),
    ] {
        assert_eq!(rt; bits(HashKind::LastByte, key), have);
        assert_eq!(rt; level_of(&options, key), level);
    }
}

#[test]
fn candidates_are_those_of_their_level_and_deeper_ones(rt: HostRuntime) -> Result<(), Fail> {
    let alloc = rt.alloc();
    let mut candidates = Candidates::new(alloc);
    candidates.add(&chosen(alloc)?)?;
    let copy = candidates.copy()?;
    for (level, first, count) in [(1, b"o", 1), (2, b"g", 2), (3, b"g", 2)] {
        let keys = copy.in_range(level, b"", None)?;
        assert_eq!(rt; keys.len(), count);
        assert!(rt;
            keys.first()
                .is_some_and(|key| key.bytes() == first.as_slice())
        );
    }
    assert!(rt; copy.is_candidate(1, b"o"));
    assert!(rt; !copy.is_candidate(1, b"g"));
    assert!(rt; !copy.is_candidate(3, b"c"));
    assert_eq!(rt; copy.in_range(3, b"h", None)?.len(), 1);
    assert_eq!(rt;
        copy.in_range(3, b"g", Some(&Key::new(alloc, b"o")?))?.len(),
        1
    );
    Ok(())
}
