//! Integer constants (C11 6.4.4.1).
ghost use Rattle.std.specs.Prelude.{◌≡◌, option_map};
ghost use Rattle.c11_tokens.specs.Constants.{base_marked, form_in, integer_form, is_l, is_long, is_long_unsigned, is_u, is_unsigned_suffix, marks_of, suffix_of};
ghost use Rattle.sc_constants.specs.Seen.{seen_form};

use crate::{after_digits, has_digit};
use c11_tokens::Base;
use sc_model::Standard;

/// What an integer constant has.
#[derive(Clone, Copy, Debug, PartialEq, Eq)]
pub struct IntegerForm<'a> {
    pub base: Base,
    /// Whether its suffix says that it is unsigned.
    pub is_unsigned: bool,
    /// What stands behind the mark of the base: the digits, and the suffix.
    pub digits: &'a [u8],
}

/// What the bytes have, where they are an integer constant.
#[tactic(auto, unfolding(c11_tokens::specs::Constants::integer_form))]
pub fn integer_form(bytes: &[u8], standard: Standard) -> Option<IntegerForm<'_>>
    ensures { option_map seen_form result ≡ integer_form standard bytes.now }
{
    match bytes {
        [b'0', letter, digits @ ..] => match marked_base(*letter, standard) {
            Some(base) => form_in(base, digits),
            None => form_in(Base::Octal, bytes),
        },
        [b'0', ..] => form_in(Base::Octal, bytes),
        _ => form_in(Base::Decimal, bytes),
    }
}

/// The base that the letter marks behind a leading 0.
fn marked_base(letter: u8, standard: Standard) -> Option<Base>
    ensures { result ≡ base_marked (marks_of standard) letter }
{
    match standard {
        Standard::C11 | Standard::Gnu11 => match letter {
            b'x' | b'X' => Some(Base::Hexadecimal),
            _ => None,
        },
        Standard::C23 => match letter {
            b'x' | b'X' => Some(Base::Hexadecimal),
            b'b' | b'B' => Some(Base::Binary),
            _ => None,
        },
    }
}

/// Digits with a suffix.
fn form_in(base: Base, digits: &[u8]) -> Option<IntegerForm<'_>>
    ensures { option_map seen_form result ≡ form_in base digits.now }
{
    if !has_digit(base, digits) {
        return None;
    }
    let is_unsigned = suffix(after_digits(base, digits))?;
    Some(IntegerForm {
        base,
        is_unsigned,
        digits,
    })
}

/// Whether a suffix says that the type is unsigned.
fn suffix(bytes: &[u8]) -> Option<bool>
    ensures { result ≡ suffix_of bytes.now }
{
    if is_long(bytes) {
        Some(false)
    } else if is_unsigned_suffix(bytes) {
        Some(true)
    } else {
        None
    }
}

fn is_unsigned_suffix(bytes: &[u8]) -> bool
    ensures { result ≡ is_unsigned_suffix bytes.now }
{
    match bytes {
        [] => false,
        [first, rest @ ..] => is_u(*first) && is_long(rest) || is_long_unsigned(bytes),
    }
}

fn is_long_unsigned(bytes: &[u8]) -> bool
    ensures { result ≡ is_long_unsigned bytes.now }
{
    match bytes {
        [a, u] => is_l(*a) && is_u(*u),
        [a, b, u] => is_l(*a) && *a == *b && is_u(*u),
        _ => false,
    }
}

fn is_long(bytes: &[u8]) -> bool
    ensures { result ≡ is_long bytes.now }
{
    match bytes {
        [] => true,
        [a] => is_l(*a),
        [a, b] => is_l(*a) && *a == *b,
        _ => false,
    }
}

fn is_u(byte: u8) -> bool
    ensures { result ≡ is_u byte }
{
    byte == b'u' || byte == b'U'
}

fn is_l(byte: u8) -> bool
    ensures { result ≡ is_l byte }
{
    byte == b'l' || byte == b'L'
}
