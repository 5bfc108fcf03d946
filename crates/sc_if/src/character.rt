//! Character constants (C11 6.4.4.4).
ghost use Rattle.std.specs.Prelude.{◌≡◌, option_copied, option_map};
ghost use Rattle.c11_expressions.specs.Constants.{after_quote, character_value, content_value, escape_value, is_quote, quoted_number, simple_escape};
ghost use Rattle.sc_if.specs.Seen.{seen_value};

use crate::Value;
use crate::integer::number;
use c11_tokens::Base;
use sc_base::is_same;
use sc_constants::{after_digits, has_digit, is_digit};

/// The value of a character constant of one character.
pub(crate) fn character(bytes: &[u8]) -> Option<Value>
    ensures { option_map seen_value result ≡ character_value bytes.now }
{
    let byte = content(after_quote(bytes)?)?;
    Some(Value::Signed(i64::from(byte)))
}

/// What stands behind the first quote.
fn after_quote(bytes: &[u8]) -> Option<&[u8]>
    ensures { option_copied result ≡ after_quote bytes.now }
{
    match bytes {
        [b'\'', rest @ ..] if !rest.is_empty() => Some(rest),
        [b'L' | b'u' | b'U', b'\'', rest @ ..] => Some(rest),
        _ => None,
    }
}

fn content(bytes: &[u8]) -> Option<u8>
    ensures { result ≡ content_value bytes.now }
{
    match bytes {
        [b'\\', rest @ ..] => escape(rest),
        [byte, rest @ ..] if is_quote(rest) && *byte < 128 => Some(*byte),
        _ => None,
    }
}

/// What stands behind a backslash.
fn escape(bytes: &[u8]) -> Option<u8>
    ensures { result ≡ escape_value bytes.now }
{
    match bytes {
        [] => None,
        [first, rest @ ..] if is_digit(Base::Octal, *first) => {
            if rest.len() <= 3 {
                quoted_number(Base::Octal, bytes)
            } else {
                None
            }
        }
        [b'x', rest @ ..] => quoted_number(Base::Hexadecimal, rest),
        [first, rest @ ..] if is_quote(rest) => simple_escape(*first),
        _ => None,
    }
}

/// Digits and a quote.
fn quoted_number(base: Base, bytes: &[u8]) -> Option<u8>
    ensures { result ≡ quoted_number base bytes.now }
{
    if !has_digit(base, bytes) || !is_quote(after_digits(base, bytes)) {
        return None;
    }
    match number(base, bytes) {
        Some(number) if number < 128 => Some(number as u8),
        _ => None,
    }
}

fn is_quote(bytes: &[u8]) -> bool
    ensures { result ≡ is_quote bytes.now }
{
    is_same(bytes, b"'")
}

fn simple_escape(byte: u8) -> Option<u8>
    ensures { result ≡ simple_escape byte }
{
    match byte {
        b'\'' | b'"' | b'?' | b'\\' => Some(byte),
        b'a' => Some(7),
        b'b' => Some(8),
        b'f' => Some(12),
        b'n' => Some(10),
        b'r' => Some(13),
        b't' => Some(9),
        b'v' => Some(11),
        _ => None,
    }
}
