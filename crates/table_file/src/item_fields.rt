//! Reading the items of an index.

ghost use Rattle.std.specs.Prelude.{◌≡◌, ◌≢◌, ◌<◌, ◌≤◌, ◌++◌, ◌^◌, List, ℕ, length, IfSome, IfNone};
ghost use Rattle.byteorder.specs.Endian.{big_bytes};
ghost use Rattle.table_file.specs.Form.{item_bytes};
ghost use Rattle.table_file.specs.declared.index_item.IndexItem.{IndexItem};

use byteorder::{BigEndian, ByteOrder};

/// An item of an index as it stands in a file, and the bytes behind it.
#[derive(Clone, Copy)]
pub struct ItemFields<'a> {
    pub place: u64,
    pub len: u32,
    pub key: &'a [u8],
    pub number: u64,
    pub behind: &'a [u8],
}

/// The item at the front.
pub fn item_at(bytes: &[u8]) -> Option<ItemFields<'_>>
    ensures found { IfSome result
        (λ f. bytes.now
        ≡ item_bytes (record { place = f.place; len = f.len; key = f.key.now; number = f.number })
        ++ f.behind.now) }
    ensures fits { IfSome result
        (λ f. (f.place < 2 ^ 64) × (f.len < 2 ^ 32) × (length f.key.now < 2 ^ 16)
        × (f.number < 2 ^ 64)) }
    ensures none { IfNone result
        ((item : IndexItem) (rest : List ℕ) → length item.key < 2 ^ 16 → bytes.now ≢ item_bytes item
        ++ rest) }
{
    if bytes.len() < 22 {
        return None;
    }
    let key_len = BigEndian::read_u16(&bytes[12..]) as usize;
    let tail = &bytes[14..];
    if tail.len() < key_len + 8 {
        return None;
    }
    let (key, rest) = tail.split_at(key_len);
    Some(ItemFields {
        place: BigEndian::read_u64(bytes),
        len: BigEndian::read_u32(&bytes[8..]),
        key,
        number: BigEndian::read_u64(rest),
        behind: &rest[8..],
    })
}
