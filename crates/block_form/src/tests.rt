//! Blocks against bytes from outside.

use crate::{Block, BlockBuilder, BlockFault};
use peb_base::{ChangeRef, EntryRef, KeyBuf, Number, Options, Profile};
use std::test::Fail;

/// The block of the put of `1` to `a`, numbered 1.1.
const BLOCK: [u8; 28] = [
    0, 0, 0, 0, 1, 0, 0, 1, 0, 0, 0, 0, 1, 1, 0, 0, 0, 1, b'a', b'1', 0, 0, 0, 1, 0, 0, 0, 1,
];

#[test]
fn a_block_of_one_put_has_these_bytes(rt: HostRuntime) -> Result<(), Fail> {
    let mut builder = BlockBuilder::new(rt.alloc(), &Options::of(Profile::Small))?;
    let entry = EntryRef::new(b"a", Number::new(1, 1), ChangeRef::Put(b"1"));
    assert!(rt; builder.is_empty());
    assert!(rt; !builder.is_full());
    builder.push(entry);
    assert!(rt; !builder.is_empty());
    assert_eq!(rt; builder.finish(), BLOCK.as_slice());
    assert!(rt; !builder.is_full());
    builder.push(entry);
    assert_eq!(rt; builder.finish(), BLOCK.as_slice(), "the next one");
    Ok(())
}

#[test]
fn the_block_of_one_put_is_read(rt: HostRuntime) -> Result<(), Fail> {
    let block = Block::read(&BLOCK)?;
    assert_eq!(rt; block.len(), 1);
    let mut key = KeyBuf::new();
    let entry = block.entry_at(0, &mut key);
    assert_eq!(rt; entry.key, b"a".as_slice());
    assert_eq!(rt; entry.number(), Number::new(1, 1));
    assert!(rt; matches!(entry.change, ChangeRef::Put(b"1")));
    Ok(())
}

#[test]
fn a_block_is_read_again_as_it_was(rt: HostRuntime) -> Result<(), Fail> {
    let count = Block::read(&BLOCK)?.len();
    let block = Block::again(&BLOCK, count);
    assert_eq!(rt; block.len(), 1);
    let mut key = KeyBuf::new();
    assert_eq!(rt; block.entry_at(0, &mut key).key, b"a".as_slice());
    assert_eq!(rt; block.find(b"a", Number::new(1, 0)), 1);
    Ok(())
}

#[test]
fn an_entry_is_found_by_its_key_and_number(rt: HostRuntime) -> Result<(), Fail> {
    let block = Block::read(&BLOCK)?;
    assert_eq!(rt; block.find(b"", Number::new(0, 0)), 0);
    assert_eq!(rt; block.find(b"a", Number::new(1, 2)), 0);
    assert_eq!(rt; block.find(b"a", Number::new(1, 1)), 0);
    assert_eq!(rt; block.find(b"a", Number::new(1, 0)), 1);
    assert_eq!(rt; block.find(b"b", Number::new(2, 0)), 1);
    Ok(())
}

#[test]
fn other_bytes_are_no_block(rt: HostRuntime) -> Result<(), Fail> {
    // The kind, the shared part, the rest, the session, the code, the value's length, the restart, their number.
    for (at, value) in [
        (0, 1),
        (2, 1),
        (4, 0),
        (5, 128),
        (13, 2),
        (13, 0),
        (17, 2),
        (23, 2),
        (27, 0),
        (27, 2),
    ] {
        let mut bytes = BLOCK;
        *bytes.get_mut(at).ok_or("past the end")? = value;
        let refused = matches!(Block::read(&bytes), Err(BlockFault::Form));
        assert!(rt; refused, "byte {at} is {value}");
    }
    assert!(rt; Block::read(&BLOCK[..27]).is_err());
    assert!(rt; Block::read(&[0, 0, 0, 0, 0]).is_err());
    Ok(())
}

#[test]
fn a_deletion_shares_the_key_before_it(rt: HostRuntime) -> Result<(), Fail> {
    let mut builder = BlockBuilder::new(rt.alloc(), &Options::of(Profile::Normal))?;
    let put = EntryRef::new(b"ab", Number::new(0, 2), ChangeRef::Put(b"1"));
    let deletion = EntryRef::new(b"ac", Number::new(0, 1), ChangeRef::Delete);
    assert!(rt; !builder.is_full());
    builder.push(put);
    assert!(rt; !builder.is_full());
    builder.push(deletion);
    let want = [
        0, 0, 0, 0, 2, 0, 0, 0, 0, 0, 0, 0, 2, 1, 0, 0, 0, 1, b'a', b'b', b'1', 0, 1, 0, 1, 0, 0,
        0, 0, 0, 0, 0, 1, 0, 0, 0, 0, 0, b'c', 0, 0, 0, 1, 0, 0, 0, 1,
    ];
    let bytes = builder.finish();
    assert_eq!(rt; bytes, want.as_slice());
    let mut key = KeyBuf::new();
    let (block, ends) = Block::read_ends(bytes, &mut key)?;
    assert_eq!(rt; block.len(), 2);
    assert_eq!(rt; key.bytes(), b"ac".as_slice());
    assert_eq!(rt; (ends.last, ends.least, ends.greatest), (1, 1, 2));
    let found = block.entry_at(1, &mut key);
    assert_eq!(rt; found.key, b"ac".as_slice());
    assert!(rt; matches!(found.change, ChangeRef::Delete));
    let first = block.entry_at(0, &mut key);
    assert_eq!(rt; first.key, b"ab".as_slice());
    assert_eq!(rt; first.number(), Number::new(0, 2));
    assert!(rt; matches!(first.change, ChangeRef::Put(b"1")));
    Ok(())
}

#[test]
fn a_small_block_is_full_at_256_bytes(rt: HostRuntime) -> Result<(), Fail> {
    for (len, full) in [(228, false), (229, true)] {
        let value = vec![in rt.alloc(); 49; len]?;
        let mut builder = BlockBuilder::new(rt.alloc(), &Options::of(Profile::Small))?;
        assert!(rt; !builder.is_full());
        builder.push(EntryRef::new(b"a", Number::new(1, 1), ChangeRef::Put(&value)));
        assert_eq!(rt; builder.is_full(), full, "a value of {len} bytes");
    }
    Ok(())
}
