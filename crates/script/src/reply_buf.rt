//! Room for one line of reply.

ghost use Rattle.std.specs.Prelude.{◌≡◌, ◌++◌, [], ◌+◌, ◌*◌, ◌≤◌, length, take, IfOk};
ghost use Rattle.std.specs.Fmt.{decimal};
ghost use Rattle.peb_base.specs.Texts.{number_text};
ghost use Rattle.script.specs.Token.{token_text};

use crate::token::{hex_digit, is_plain_byte};
use itoa::Buffer;
use peb_base::{Memory, Number};
use std::alloc::Global;
use std::marker::Model;

/// Room for one line of reply, 102,400 bytes: enough for the token of any value, at three bytes a
/// byte.
#[derive(Debug, Drop)]
pub struct ReplyBuf {
    bytes: Vec<u8>,
    len: usize,
}

impl Model for ReplyBuf {
    ghost use Rattle.std.specs.Prelude.{List, ℕ, take, length, ◌≡◌, ◌≤◌};

    ghost Value = { List ℕ };

    ghost view = { λ buf. take buf.len buf.bytes.items };

    ghost invariant = { λ buf. (length buf.bytes.items ≡ 102400) × (buf.len ≤ 102400) };
}

fn copy_at(room: &mut [u8], at: usize, bytes: &[u8])
    requires { at + length bytes.now ≤ length room.old }
    ensures { take (at + length bytes.now) room.new ≡ take at room.old ++ bytes.now }
{
    room[at..at + bytes.len()].copy_from_slice(bytes);
}

impl ReplyBuf {
    /// Takes the room, and holds no line yet.
    pub fn new(alloc: Global) -> Result<ReplyBuf, Memory>
        ensures { IfOk result (λ buf. buf ≡ []) }
    {
        Ok(ReplyBuf {
            bytes: vec![in alloc; 0; 102400]?,
            len: 0,
        })
    }

    /// Lends the bytes of the line that it holds.
    pub fn bytes(&self) -> &[u8]
        ensures { result.now ≡ self.now }
    {
        &self.bytes[..self.len]
    }

    pub(crate) fn clear(&mut self)
        ensures { self.new ≡ [] }
    {
        self.len = 0;
    }

    pub(crate) fn put(&mut self, bytes: &[u8])
        requires { length self.old + length bytes.now ≤ 102400 }
        ensures { self.new ≡ self.old ++ bytes.now }
    {
        copy_at(&mut self.bytes, self.len, bytes);
        self.len += bytes.len();
    }

    pub(crate) fn put_decimal(&mut self, n: u64)
        requires { length self.old + 20 ≤ 102400 }
        ensures text { self.new ≡ self.old ++ decimal n }
        ensures short { length self.new ≤ length self.old + 20 }
    {
        let mut digits = Buffer::new();
        self.put(digits.format(n).as_bytes());
    }

    fn put_number(&mut self, n: Number)
        requires { length self.old + 50 ≤ 102400 }
        ensures text { self.new ≡ self.old ++ number_text n }
        ensures short { length self.new ≤ length self.old + 50 }
    {
        self.put_decimal(n.session() as u64);
        self.put(b".");
        self.put_decimal(n.count());
    }

    pub(crate) fn put_token(&mut self, bytes: &[u8])
        requires { length self.old + 3 * length bytes.now + 2 ≤ 102400 }
        ensures text { self.new ≡ self.old ++ token_text bytes.now }
        ensures short { length self.new ≤ length self.old + 3 * length bytes.now + 2 }
    {
        if bytes.is_empty() {
            self.put(b"\"\"");
            return;
        }
        for b in bytes {
            if is_plain_byte(*b) {
                self.put(&[*b]);
            } else {
                self.put(&[b'%', hex_digit(*b / 16), hex_digit(*b % 16)]);
            }
        }
    }

    pub(crate) fn put_numbered(&mut self, n: Number, words: &[u8])
        requires { length self.old + length words.now + 50 ≤ 102400 }
        ensures text { self.new ≡ self.old ++ (number_text n ++ words.now) }
        ensures short { length self.new ≤ length self.old + length words.now + 50 }
    {
        self.put_number(n);
        self.put(words);
    }
}
