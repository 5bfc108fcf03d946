//! The values of integer constants (C11 6.4.4.1).
ghost use Rattle.std.specs.Prelude.{◌≡◌, ◌<◌, ◌+◌, ◌*◌, ◌^◌, option_map};
ghost use Rattle.std.specs.Option.{SomeIff};
ghost use Rattle.c11_expressions.specs.Constants.{digit_value, integer_of, integer_value, number_of, radix};
ghost use Rattle.sc_if.specs.Seen.{seen_value};

use crate::Value;
use c11_tokens::Base;
use sc_constants::{integer_form, is_digit};
use sc_model::Standard;

/// The value of an integer constant.
pub(crate) fn integer(bytes: &[u8], standard: Standard) -> Option<Value>
    ensures { option_map seen_value result ≡ integer_value standard bytes.now }
{
    let form = integer_form(bytes, standard)?;
    let number = number(form.base, form.digits)?;
    typed(form.base, form.is_unsigned, number)
}

/// The number in the first type that has it.
fn typed(base: Base, unsigned: bool, number: u64) -> Option<Value>
    ensures { option_map seen_value result ≡ integer_of base unsigned number }
{
    if unsigned {
        return Some(Value::Unsigned(number));
    }
    match i64::try_from(number) {
        Ok(number) => Some(Value::Signed(number)),
        Err(_) => match base {
            Base::Decimal => None,
            _ => Some(Value::Unsigned(number)),
        },
    }
}

fn radix(base: Base) -> u64
    ensures { result ≡ radix base }
{
    match base {
        Base::Binary => 2,
        Base::Octal => 8,
        Base::Decimal => 10,
        Base::Hexadecimal => 16,
    }
}

/// The number of the digits that stand first, where it has no more than 64 bits.
pub(crate) fn number(base: Base, bytes: &[u8]) -> Option<u64>
    ensures { SomeIff result (number_of base bytes.now < 2 ^ 64) (number_of base bytes.now) }
{
    let mut number: u64 = 0;
    for byte in bytes {
        if !is_digit(base, *byte) {
            break;
        }
        number = with_digit(base, number, *byte)?;
    }
    Some(number)
}

/// The number with one more digit behind it.
fn with_digit(base: Base, number: u64, byte: u8) -> Option<u64>
    ensures { SomeIff result (number * radix base + digit_value byte < 2 ^ 64) (number * radix base + digit_value byte) }
{
    let moved = number.checked_mul(radix(base))?;
    moved.checked_add(digit_value(byte))
}

/// What a hexadecimal digit stands for.
fn digit_value(byte: u8) -> u64
    ensures { result ≡ digit_value byte }
{
    let value = match byte {
        ..=b'9' => byte.saturating_sub(b'0'),
        ..=b'F' => byte.saturating_sub(b'A' - 10),
        _ => byte.saturating_sub(b'a' - 10),
    };
    u64::from(value)
}
