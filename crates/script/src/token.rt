//! Tokens: strings of bytes as printable text without spaces.

ghost use Rattle.std.specs.Prelude.{◌≡◌, ◌<◌, ◌++◌, length, option_map, OnOk, IfSome};
ghost use Rattle.script.specs.Token.{hex_value, is_plain_byte, byte_at, escape_at, bytes_in, string_of, token_text, hex_digit};
ghost use Rattle.script.specs.Gives.{Gives, or_why};
ghost use Rattle.script.specs.declared.why.Why.TheVariants as whys;

use crate::line_fault::LineFault;
use crate::why::Why;
use std::alloc::{AllocError, Global};

/// Whether a byte stands for itself in a token.
pub fn is_plain_byte(b: u8) -> bool
    ensures { result ≡ is_plain_byte b }
{
    (0x21..=0x7e).contains(&b) && b != b'%' && b != b'"'
}

/// The value of a hexadecimal digit of either case.
#[tactic(auto, unfolding(crate::specs::Token::hex_value))]
fn hex_value(c: u8) -> Option<u8>
    ensures value { result ≡ hex_value c }
    ensures small { IfSome result (λ v. v < 16) }
{
    match c {
        b'0'..=b'9' => Some(c - b'0'),
        b'A'..=b'F' => Some(c - b'A' + 10),
        b'a'..=b'f' => Some(c - b'a' + 10),
        _ => None,
    }
}

/// The upper-case hexadecimal digit of a number below 16.
#[tactic(auto, unfolding(crate::specs::Token::hex_digit))]
pub fn hex_digit(n: u8) -> u8
    requires { n < 16 }
    ensures { result ≡ hex_digit n }
{
    if n < 10 { n + b'0' } else { n - 10 + b'A' }
}

/// The byte that two hexadecimal digits at the front spell, and the rest.
#[tactic(auto, unfolding(crate::specs::Token::escape_at))]
fn escape_at(text: &[u8]) -> Option<(u8, &[u8])>
    ensures value { option_map (λ x. (x.0, x.1.now)) result ≡ escape_at text.now }
    ensures shorter { IfSome result (λ x. length x.1.now < length text.now) }
{
    match text {
        [high, low, rest @ ..] => {
            let high = hex_value(*high)?;
            let low = hex_value(*low)?;
            Some((high * 16 + low, rest))
        }
        _ => None,
    }
}

/// The byte that the front of a text spells, and the rest of the text.
#[tactic(auto, unfolding(crate::specs::Token::byte_at))]
fn byte_at(text: &[u8]) -> Option<(u8, &[u8])>
    ensures value { option_map (λ x. (x.0, x.1.now)) result ≡ byte_at text.now }
    ensures shorter { IfSome result (λ x. length x.1.now < length text.now) }
{
    match text {
        [c, rest @ ..] => {
            if is_plain_byte(*c) {
                Some((*c, rest))
            } else if *c == b'%' {
                escape_at(rest)
            } else {
                None
            }
        }
        [] => None,
    }
}

/// The bytes that a text spells, one after another.
fn bytes_in(alloc: Global, text: &[u8]) -> Result<Vec<u8>, LineFault>
    ensures { Gives (λ v. v.items) result (or_why whys.Command (bytes_in text.now)) }
{
    let mut bytes = Vec::new(alloc);
    let mut rest = text;
    while !rest.is_empty() {
        let Some((byte, after)) = byte_at(rest) else {
            return Err(LineFault::Bad(Why::Command));
        };
        bytes.push(byte)?;
        rest = after;
    }
    Ok(bytes)
}

/// The string that a token spells.
#[tactic(auto, unfolding(crate::specs::Token::string_of))]
pub fn string_of(alloc: Global, text: &[u8]) -> Result<Vec<u8>, LineFault>
    ensures { Gives (λ v. v.items) result (string_of text.now) }
{
    if text == b"\"\"".as_slice() {
        return Ok(Vec::new(alloc));
    }
    if text.is_empty() {
        return Err(LineFault::Bad(Why::Command));
    }
    bytes_in(alloc, text)
}

/// Writes a string as a token at the end.
pub fn put_token(out: &mut Vec<u8>, bytes: &[u8]) -> Result<(), AllocError>
    ensures { OnOk result (out.new.items ≡ out.old.items ++ token_text bytes.now) }
{
    if bytes.is_empty() {
        return out.extend_from_slice(b"\"\"");
    }
    for b in bytes {
        if is_plain_byte(*b) {
            out.push(*b)?;
        } else {
            out.extend_from_slice(&[b'%', hex_digit(*b / 16), hex_digit(*b % 16)])?;
        }
    }
    Ok(())
}
