//! Floating constants (C11 6.4.4.2).
ghost use Rattle.std.specs.Prelude.{◌≡◌, option_copied};
ghost use Rattle.c11_tokens.specs.Constants.{after_fraction, after_prefix, after_sign, ends_in_digits, has_exponent, is_exponent_letter, is_floating, is_floating_in, is_floating_suffix};

use crate::{after_digits, has_digit};
use c11_tokens::Base;
use sc_base::is_same;

/// Whether the bytes are a floating constant.
#[tactic(auto, unfolding(c11_tokens::specs::Constants::is_floating))]
pub fn is_floating(bytes: &[u8]) -> bool
    ensures { result ≡ is_floating bytes.now }
{
    match after_prefix(bytes) {
        Some(digits) => is_floating_in(Base::Hexadecimal, digits),
        None => is_floating_in(Base::Decimal, bytes),
    }
}

/// What stands after the mark of hexadecimal digits.
fn after_prefix(bytes: &[u8]) -> Option<&[u8]>
    ensures { option_copied result ≡ after_prefix bytes.now }
{
    match bytes {
        [b'0', b'x' | b'X', rest @ ..] => Some(rest),
        _ => None,
    }
}

fn is_floating_in(base: Base, bytes: &[u8]) -> bool
    ensures { result ≡ is_floating_in base bytes.now (after_fraction base bytes.now) }
{
    match after_fraction(base, bytes) {
        None => has_digit(base, bytes) && has_exponent(base, after_digits(base, bytes)),
        Some(rest) => match base {
            Base::Hexadecimal => has_exponent(base, rest),
            _ => is_floating_suffix(rest) || has_exponent(base, rest),
        },
    }
}

/// What stands after a fraction: digits, a period and digits, with a digit on one of its sides.
fn after_fraction(base: Base, bytes: &[u8]) -> Option<&[u8]>
    ensures { option_copied result ≡ after_fraction base bytes.now }
{
    match after_digits(base, bytes) {
        [b'.', rest @ ..] => {
            if has_digit(base, bytes) || has_digit(base, rest) {
                Some(after_digits(base, rest))
            } else {
                None
            }
        }
        _ => None,
    }
}

/// Whether the bytes are an exponent part with a floating constant's suffix.
fn has_exponent(base: Base, bytes: &[u8]) -> bool
    ensures { result ≡ has_exponent base bytes.now }
{
    match bytes {
        [first, rest @ ..] => {
            is_exponent_letter(base, *first) && ends_in_digits(after_sign(rest))
        }
        [] => false,
    }
}

/// Whether the letter begins an exponent part.
fn is_exponent_letter(base: Base, byte: u8) -> bool
    ensures { result ≡ is_exponent_letter base byte }
{
    match base {
        Base::Hexadecimal => byte == b'p' || byte == b'P',
        _ => byte == b'e' || byte == b'E',
    }
}

fn after_sign(bytes: &[u8]) -> &[u8]
    ensures { result.now ≡ after_sign bytes.now }
{
    match bytes {
        [b'+' | b'-', rest @ ..] => rest,
        _ => bytes,
    }
}

fn ends_in_digits(bytes: &[u8]) -> bool
    ensures { result ≡ ends_in_digits bytes.now }
{
    has_digit(Base::Decimal, bytes) && is_floating_suffix(after_digits(Base::Decimal, bytes))
}

fn is_floating_suffix(bytes: &[u8]) -> bool
    ensures { result ≡ is_floating_suffix bytes.now }
{
    match bytes {
        [letter, rest @ ..] => {
            matches!(*letter, b'f' | b'l' | b'F' | b'L') && is_same(rest, b"")
        }
        [] => true,
    }
}
