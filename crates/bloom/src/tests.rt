//! Filters byte for byte, against another program's.

use crate::{Filter, FilterFault};
use std::test::Fail;

#[test]
fn one_key_sets_six_bits_of_64(rt: HostRuntime) -> Result<(), Fail> {
    let mut filter = Filter::build(rt.alloc(), 1)?;
    filter.add_mixed(0x02C0_BDBF_4814_20F8);
    assert_eq!(rt; filter.bytes(), [0, 0, 0, 0, 0, 0, 0xf8, 1].as_slice());
    assert!(rt; filter.may_hold(b"a"));
    Ok(())
}

#[test]
fn ten_keys_are_held_in_13_bytes(rt: HostRuntime) -> Result<(), Fail> {
    let alloc = rt.alloc();
    let mut filter = Filter::build(alloc, 10)?;
    for key in b'a'..b'k' {
        filter.add(&[key]);
    }
    assert_eq!(rt;
        filter.bytes(),
        [39, 16, 129, 230, 179, 90, 111, 40, 86, 84, 252, 136, 135].as_slice()
    );
    let again = Filter::read(alloc, filter.bytes())?;
    for key in b'a'..b'k' {
        assert!(rt; again.may_hold(&[key]));
    }
    for key in b'k'..b'{' {
        assert!(rt; !again.may_hold(&[key]));
    }
    Ok(())
}

#[test]
fn a_filter_has_8_bytes_at_least(rt: HostRuntime) -> Result<(), Fail> {
    let alloc = rt.alloc();
    assert!(rt; matches!(Filter::read(alloc, &[255; 7]), Err(FilterFault::Form)));
    assert!(rt; Filter::read(alloc, &[255; 8])?.may_hold(b""));
    Ok(())
}
