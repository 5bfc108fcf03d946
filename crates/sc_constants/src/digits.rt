//! Digits of a base.
ghost use Rattle.std.specs.Prelude.{◌≡◌};
ghost use Rattle.c11_tokens.specs.Constants.{after_digits, has_digit, is_digit_in};

use c11_tokens::Base;

pub fn is_digit(base: Base, byte: u8) -> bool
    ensures { result ≡ is_digit_in base byte }
{
    match base {
        Base::Binary => matches!(byte, b'0'..=b'1'),
        Base::Octal => matches!(byte, b'0'..=b'7'),
        Base::Decimal => byte.is_ascii_digit(),
        Base::Hexadecimal => byte.is_ascii_hexdigit(),
    }
}

/// Whether a digit stands first.
pub fn has_digit(base: Base, bytes: &[u8]) -> bool
    ensures { result ≡ has_digit base bytes.now }
{
    match bytes {
        [first, ..] => is_digit(base, *first),
        [] => false,
    }
}

/// What stands after the digits.
#[tactic(auto, unfolding(c11_tokens::specs::Constants::after_digits))]
pub fn after_digits(base: Base, bytes: &[u8]) -> &[u8]
    ensures { result.now ≡ after_digits base bytes.now }
{
    for (i, byte) in bytes.iter().enumerate() {
        if !is_digit(base, *byte) {
            return &bytes[i..];
        }
    }
    &[]
}
