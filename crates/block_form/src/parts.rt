//! The parts of a block.

ghost use Rattle.std.specs.Prelude.{IfSome, IfNone, List};
ghost use Rattle.peb_base.specs.declared.entry.Entry.{Entry};
ghost use Rattle.block_form.specs.Form.{IsBlock};
ghost use Rattle.block_form.specs.Walks.{BlockParts};

use byteorder::{BigEndian, ByteOrder};

/// The most bytes that a block has.
pub const MOST_BYTES: usize = 40960;

/// The entries and the places of the restarts, where they stand; a block has these parts alone.
pub fn parts_of_block(bytes: &[u8]) -> Option<(&[u8], &[u8])>
    ensures found { IfSome result (λ parts. BlockParts bytes.now parts.0.now parts.1.now) }
    ensures none { IfNone result ((es : List Entry) → IsBlock es bytes.now → ⊥) }
{
    if bytes.len() < 5 {
        return None;
    }
    if bytes.len() > MOST_BYTES {
        return None;
    }
    if bytes[0] != 0 {
        return None;
    }
    let body = &bytes[1..];
    let (front, tail) = body.split_at(body.len() - 4);
    let count = BigEndian::read_u32(tail) as usize;
    if front.len() < 4 * count {
        return None;
    }
    Some(front.split_at(front.len() - 4 * count))
}
