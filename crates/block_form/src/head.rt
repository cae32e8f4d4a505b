//! The head of an entry.

ghost use Rattle.std.specs.Prelude.{◌≡◌, ◌≤◌, length};
ghost use Rattle.block_form.specs.Parts.{head_bytes, head_from};

use byteorder::{BigEndian, ByteOrder};

/// The seventeen bytes at the front of an entry.
#[derive(Clone, Copy)]
pub struct Head {
    /// How many bytes of the key before the key begins with.
    pub shared: u16,
    /// How many bytes of the key follow the head.
    pub rest: u16,
    pub number: u64,
    /// 1 for a put, 0 for a deletion.
    pub code: u8,
    /// How many bytes of a value follow the key.
    pub value: u32,
}

/// The head that stands at the front.
pub fn head_of(bytes: &[u8]) -> Head
    requires { 17 ≤ length bytes.now }
    ensures { result ≡ head_from bytes.now }
{
    Head {
        shared: BigEndian::read_u16(bytes),
        rest: BigEndian::read_u16(&bytes[2..]),
        number: BigEndian::read_u64(&bytes[4..]),
        code: bytes[12],
        value: BigEndian::read_u32(&bytes[13..]),
    }
}

/// The bytes of a head.
#[tactic(auto, unfolding(crate::specs::Parts::head_bytes))]
pub fn head_array(head: Head) -> [u8; 17]
    ensures { result ≡ head_bytes head }
{
    let s = head.shared.to_be_bytes();
    let r = head.rest.to_be_bytes();
    let n = head.number.to_be_bytes();
    let v = head.value.to_be_bytes();
    [
        s[0], s[1], r[0], r[1], n[0], n[1], n[2], n[3], n[4], n[5], n[6], n[7], head.code, v[0],
        v[1], v[2], v[3],
    ]
}
