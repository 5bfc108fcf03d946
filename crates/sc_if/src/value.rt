//! Integers and the operators on them (C11 6.5).
ghost use Rattle.std.specs.Prelude.{◌≡◌, ◌<◌, ◌^◌, ◌||◌, pos, ◌*ℤ◌, false, ℕ, Ok, Result, IfOk, FitsSigned, ℤ, ok_or};
ghost use Rattle.std.specs.Int.{w64, int_shr};
ghost use Rattle.std.specs.Option.{SomeIff};
ghost use Rattle.c11_expressions.specs.Arithmetic.{binary_value, bits_of, converted, fitted, is_zero, shifted, truth, typed, unary_value, with_bits};
ghost use Rattle.c11_expressions.specs.declared.binary.Binary.TheVariants as binary;
ghost use Rattle.c11_expressions.specs.declared.unary.Unary.TheVariants as unary;
ghost use Rattle.c11_macros.specs.Results.{result_and_then, result_map};
ghost use Rattle.sc_model.specs.declared.cause.Cause.{Cause};
ghost use Rattle.sc_if.specs.Seen.{IsPairOf, seen_result, seen_value};

use crate::pair::Pair;
use c11_expressions::{Binary, Unary};
use sc_model::Cause;

/// An integer of `intmax_t` or of `uintmax_t`, which have 64 bits (C11 6.10.1p4).
#[derive(Clone, Copy, Debug, PartialEq, Eq)]
pub enum Value {
    Signed(i64),
    Unsigned(u64),
}

impl Value {
    /// Whether it is 0, which is false.
    pub fn is_zero(self) -> bool
        ensures { result ≡ is_zero (seen_value self).number }
    {
        match self {
            Value::Signed(n) => n == 0,
            Value::Unsigned(n) => n == 0,
        }
    }

    pub fn is_unsigned(self) -> bool
        ensures { result ≡ (seen_value self).unsigned }
    {
        matches!(self, Value::Unsigned(_))
    }

    /// What a comparison gives.
    pub fn truth(holds: bool) -> Value
        ensures { seen_value result ≡ typed false (truth holds) }
    {
        Value::Signed(i64::from(holds))
    }

    /// What the operator makes of it.
    pub fn unary(self, op: Unary) -> Result<Value, Cause>
        ensures { seen_result result ≡ unary_value op (seen_value self) }
    {
        match op {
            Unary::Plus => Ok(self),
            Unary::Minus => self.negative(),
            Unary::Complement => Ok(self.complement()),
            Unary::Not => Ok(self.negation()),
        }
    }

    /// What the operator makes of both.
    pub fn binary(self, op: Binary, other: Value) -> Result<Value, Cause>
        ensures { seen_result result ≡ binary_value op (seen_value self) (seen_value other) }
    {
        match op {
            Binary::Multiply => self.product(other),
            Binary::Divide => self.quotient(other),
            Binary::Remainder => self.remainder(other),
            Binary::Add => self.sum(other),
            Binary::Subtract => self.difference(other),
            Binary::ShiftLeft => self.shift_left(other),
            Binary::ShiftRight => self.shift_right(other),
            Binary::Less => Ok(self.less(other)),
            Binary::LessOrEqual => Ok(self.less_or_equal(other)),
            Binary::Greater => Ok(self.greater(other)),
            Binary::GreaterOrEqual => Ok(self.greater_or_equal(other)),
            Binary::Equal => Ok(self.equal(other)),
            Binary::NotEqual => Ok(self.not_equal(other)),
            Binary::BitAnd => Ok(self.bit_and(other)),
            Binary::BitXor => Ok(self.bit_xor(other)),
            Binary::BitOr => Ok(self.bit_or(other)),
            Binary::And => Ok(Value::truth(!self.is_zero() && !other.is_zero())),
            Binary::Or => Ok(Value::truth(!self.is_zero() || !other.is_zero())),
        }
    }

    /// The same bits as an unsigned number.
    fn bits(self) -> u64
        ensures { result ≡ bits_of (seen_value self).number }
    {
        match self {
            Value::Signed(n) => n.cast_unsigned(),
            Value::Unsigned(n) => n,
        }
    }

    /// The number in the unsigned type, where the other type is it.
    pub(crate) fn converted(self, other_unsigned: bool) -> Value
        ensures { seen_value result ≡ typed ((seen_value self).unsigned || other_unsigned) (converted ((seen_value self).unsigned || other_unsigned) (seen_value self).number) }
    {
        if other_unsigned {
            Value::Unsigned(self.bits())
        } else {
            self
        }
    }

    /// Both in their common type (C11 6.3.1.8).
    fn with(self, other: Value) -> Pair
        ensures { IsPairOf (seen_value self) (seen_value other) result }
    {
        match (self, other) {
            (Value::Signed(x), Value::Signed(y)) => Pair::Signed(x, y),
            _ => Pair::Unsigned(self.bits(), other.bits()),
        }
    }

    /// A signed result, or that there is none in 64 bits.
    fn fitted(number: Option<i64>) -> Result<Value, Cause>
        ensures fits { (z : ℤ) → SomeIff number (FitsSigned w64 z) z → seen_result result ≡ result_map (typed false) (fitted false z) }
        ensures exact { seen_result result ≡ result_map (typed false) (ok_or number Cause.IfOverflow) }
    {
        number.map(Value::Signed).ok_or(Cause::IfOverflow)
    }

    pub fn negative(self) -> Result<Value, Cause>
        ensures { seen_result result ≡ unary_value unary.Minus (seen_value self) }
    {
        match self {
            Value::Signed(n) => Value::fitted(n.checked_neg()),
            Value::Unsigned(n) => Ok(Value::Unsigned(n.wrapping_neg())),
        }
    }

    pub fn complement(self) -> Value
        ensures { Ok (seen_value result) ≡ unary_value unary.Complement (seen_value self) }
    {
        match self {
            Value::Signed(n) => Value::Signed(!n),
            Value::Unsigned(n) => Value::Unsigned(!n),
        }
    }

    pub fn negation(self) -> Value
        ensures { Ok (seen_value result) ≡ unary_value unary.Not (seen_value self) }
    {
        Value::truth(self.is_zero())
    }

    pub fn product(self, other: Value) -> Result<Value, Cause>
        ensures { seen_result result ≡ binary_value binary.Multiply (seen_value self) (seen_value other) }
    {
        match self.with(other) {
            Pair::Signed(x, y) => Value::fitted(x.checked_mul(y)),
            Pair::Unsigned(x, y) => Ok(Value::Unsigned(x.wrapping_mul(y))),
        }
    }

    pub fn quotient(self, other: Value) -> Result<Value, Cause>
        ensures { seen_result result ≡ binary_value binary.Divide (seen_value self) (seen_value other) }
    {
        if other.is_zero() {
            return Err(Cause::IfDivision);
        }
        match self.with(other) {
            Pair::Signed(x, y) => Value::fitted(x.checked_div(y)),
            Pair::Unsigned(x, y) => Ok(Value::Unsigned(x / y)),
        }
    }

    pub fn remainder(self, other: Value) -> Result<Value, Cause>
        ensures { seen_result result ≡ binary_value binary.Remainder (seen_value self) (seen_value other) }
    {
        if other.is_zero() {
            return Err(Cause::IfDivision);
        }
        match self.with(other) {
            Pair::Signed(x, y) => Value::fitted(x.checked_rem(y)),
            Pair::Unsigned(x, y) => Ok(Value::Unsigned(x % y)),
        }
    }

    pub fn sum(self, other: Value) -> Result<Value, Cause>
        ensures { seen_result result ≡ binary_value binary.Add (seen_value self) (seen_value other) }
    {
        match self.with(other) {
            Pair::Signed(x, y) => Value::fitted(x.checked_add(y)),
            Pair::Unsigned(x, y) => Ok(Value::Unsigned(x.wrapping_add(y))),
        }
    }

    pub fn difference(self, other: Value) -> Result<Value, Cause>
        ensures { seen_result result ≡ binary_value binary.Subtract (seen_value self) (seen_value other) }
    {
        match self.with(other) {
            Pair::Signed(x, y) => Value::fitted(x.checked_sub(y)),
            Pair::Unsigned(x, y) => Ok(Value::Unsigned(x.wrapping_sub(y))),
        }
    }

    /// The count of a shift by this.
    fn shift_count(self) -> Result<u32, Cause>
        ensures bound { IfOk result (λ k. k < 64) }
        ensures count { (f : ℕ → Result ℤ Cause) → shifted f (seen_value self).number ≡ result_and_then f result }
    {
        match self.bits() {
            n if n < 64 => Ok(n as u32),
            _ => Err(Cause::IfShift),
        }
    }

    /// The number times a power of two.
    fn times_power(self, count: u32) -> Result<Value, Cause>
        requires { count < 64 }
        ensures { seen_result result ≡ result_map (typed (seen_value self).unsigned) (fitted (seen_value self).unsigned ((seen_value self).number *ℤ pos (2 ^ count))) }
    {
        match self {
            Value::Signed(n) => Value::fitted(signed_product(n, 1 << count)),
            Value::Unsigned(n) => Ok(Value::Unsigned(n << count)),
        }
    }

    /// The number divided by a power of two, rounded down.
    fn over_power(self, count: u32) -> Value
        requires { count < 64 }
        ensures { seen_value result ≡ typed (seen_value self).unsigned (int_shr (seen_value self).number count) }
    {
        match self {
            Value::Signed(n) => Value::Signed(n >> count),
            Value::Unsigned(n) => Value::Unsigned(n >> count),
        }
    }

    pub fn shift_left(self, other: Value) -> Result<Value, Cause>
        ensures { seen_result result ≡ binary_value binary.ShiftLeft (seen_value self) (seen_value other) }
    {
        match other.shift_count() {
            Ok(count) => self.times_power(count),
            Err(cause) => Err(cause),
        }
    }

    pub fn shift_right(self, other: Value) -> Result<Value, Cause>
        ensures { seen_result result ≡ binary_value binary.ShiftRight (seen_value self) (seen_value other) }
    {
        match other.shift_count() {
            Ok(count) => Ok(self.over_power(count)),
            Err(cause) => Err(cause),
        }
    }

    pub fn less(self, other: Value) -> Value
        ensures { Ok (seen_value result) ≡ binary_value binary.Less (seen_value self) (seen_value other) }
    {
        Value::truth(self.with(other).is_less())
    }

    pub fn less_or_equal(self, other: Value) -> Value
        ensures { Ok (seen_value result) ≡ binary_value binary.LessOrEqual (seen_value self) (seen_value other) }
    {
        Value::truth(!self.with(other).is_greater())
    }

    pub fn greater(self, other: Value) -> Value
        ensures { Ok (seen_value result) ≡ binary_value binary.Greater (seen_value self) (seen_value other) }
    {
        Value::truth(self.with(other).is_greater())
    }

    pub fn greater_or_equal(self, other: Value) -> Value
        ensures { Ok (seen_value result) ≡ binary_value binary.GreaterOrEqual (seen_value self) (seen_value other) }
    {
        Value::truth(!self.with(other).is_less())
    }

    pub fn equal(self, other: Value) -> Value
        ensures { Ok (seen_value result) ≡ binary_value binary.Equal (seen_value self) (seen_value other) }
    {
        Value::truth(self.with(other).is_equal())
    }

    pub fn not_equal(self, other: Value) -> Value
        ensures { Ok (seen_value result) ≡ binary_value binary.NotEqual (seen_value self) (seen_value other) }
    {
        Value::truth(!self.with(other).is_equal())
    }

    pub fn bit_and(self, other: Value) -> Value
        ensures { Ok (seen_value result) ≡ binary_value binary.BitAnd (seen_value self) (seen_value other) }
    {
        self.with_bits(other, self.bits() & other.bits())
    }

    pub fn bit_xor(self, other: Value) -> Value
        ensures { Ok (seen_value result) ≡ binary_value binary.BitXor (seen_value self) (seen_value other) }
    {
        self.with_bits(other, self.bits() ^ other.bits())
    }

    pub fn bit_or(self, other: Value) -> Value
        ensures { Ok (seen_value result) ≡ binary_value binary.BitOr (seen_value self) (seen_value other) }
    {
        self.with_bits(other, self.bits() | other.bits())
    }

    /// These bits in the common type of both.
    fn with_bits(self, other: Value, bits: u64) -> Value
        ensures { seen_value result ≡ typed ((seen_value self).unsigned || (seen_value other).unsigned) (with_bits ((seen_value self).unsigned || (seen_value other).unsigned) bits) }
    {
        if self.is_unsigned() || other.is_unsigned() {
            Value::Unsigned(bits)
        } else {
            Value::Signed(bits.cast_signed())
        }
    }
}

/// The product, where it fits.
fn signed_product(x: i64, y: u64) -> Option<i64>
    ensures { SomeIff result (FitsSigned w64 (x *ℤ pos y)) (x *ℤ pos y) }
{
    i64::try_from(i128::from(x) * i128::from(y)).ok()
}
