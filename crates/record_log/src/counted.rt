//! Bytes behind their length.

ghost use Rattle.std.specs.Prelude.{◌≢◌, ◌≡◌, ◌<◌, ◌^◌, ◌++◌, List, ℕ, length, IfSome, IfNone};
ghost use Rattle.record_log.specs.Counted.{counted_bytes};

use byteorder::{BigEndian, ByteOrder};

/// A length of two bytes at the front and that many bytes, and the bytes behind them.
pub fn counted_by_two(bytes: &[u8]) -> Option<(&[u8], &[u8])>
    ensures found { IfSome result (λ found. bytes.now ≡ counted_bytes 2 found.0.now
        ++ found.1.now) }
    ensures small { IfSome result (λ found. length found.0.now < 2 ^ 16) }
    ensures none { IfNone result ((body rest : List ℕ) → length body < 2 ^ 16
        → bytes.now ≢ counted_bytes 2 body ++ rest) }
{
    if bytes.len() < 2 {
        return None;
    }
    let len = BigEndian::read_u16(bytes) as usize;
    let rest = &bytes[2..];
    if rest.len() < len {
        return None;
    }
    Some(rest.split_at(len))
}

/// A length of four bytes at the front and that many bytes, and the bytes behind them.
pub fn counted_by_four(bytes: &[u8]) -> Option<(&[u8], &[u8])>
    ensures found { IfSome result (λ found. bytes.now ≡ counted_bytes 4 found.0.now
        ++ found.1.now) }
    ensures small { IfSome result (λ found. length found.0.now < 2 ^ 32) }
    ensures none { IfNone result ((body rest : List ℕ) → length body < 2 ^ 32
        → bytes.now ≢ counted_bytes 4 body ++ rest) }
{
    if bytes.len() < 4 {
        return None;
    }
    let len = BigEndian::read_u32(bytes) as usize;
    let rest = &bytes[4..];
    if rest.len() < len {
        return None;
    }
    Some(rest.split_at(len))
}
