//! Operands, and what operators make of them.
ghost use Rattle.std.specs.Prelude.{◌≡◌};
ghost use Rattle.c11_expressions.proofs.Reader.{binary_operand, conditional_operand, converted_operand, is_unsigned, operand_behind, result_of_operand, unary_operand};
ghost use Rattle.c11_expressions.specs.Arithmetic.{binary_unsigned, unary_unsigned};
ghost use Rattle.c11_expressions.specs.Expressions.{constant_outcome, is_decided};
ghost use Rattle.c11_expressions.specs.Waiting.{evaluated, operand_of};
ghost use Rattle.sc_if.specs.Operands.{seen_operand};
ghost use Rattle.sc_if.specs.Seen.{seen_result, seen_value};

use crate::Value;
use c11_expressions::{Binary, Unary};
use sc_model::Cause;

/// What is kept of a part that was read.
#[derive(Clone, Copy, Debug, PartialEq, Eq)]
pub(crate) enum Operand {
    Value(Value),
    /// Evaluating it gives this.
    Fault(Cause),
    /// It is not evaluated: its type alone counts.
    Unevaluated { unsigned: bool },
}

impl Operand {
    /// A constant in a part that is evaluated, or in one that is not.
    pub(crate) fn constant(value: Value, is_evaluated: bool) -> Operand
        ensures { seen_operand result ≡ operand_of is_evaluated (constant_outcome (seen_value value)) }
    {
        if is_evaluated {
            Operand::Value(value)
        } else {
            Operand::Unevaluated {
                unsigned: value.is_unsigned(),
            }
        }
    }

    fn is_unsigned(self) -> bool
        ensures { result ≡ is_unsigned (seen_operand self) }
    {
        match self {
            Operand::Value(value) => value.is_unsigned(),
            Operand::Fault(_) => false,
            Operand::Unevaluated { unsigned } => unsigned,
        }
    }

    /// The value, or the cause. What is not evaluated has neither.
    pub(crate) fn result(self) -> Result<Value, Cause>
        ensures { seen_result result ≡ result_of_operand (seen_operand self) }
    {
        match self {
            Operand::Value(value) => Ok(value),
            Operand::Fault(cause) => Err(cause),
            Operand::Unevaluated { unsigned: true } => Ok(Value::Unsigned(0)),
            Operand::Unevaluated { unsigned: false } => Ok(Value::Signed(0)),
        }
    }

    fn of(given: Result<Value, Cause>) -> Operand
        ensures { seen_operand result ≡ evaluated (seen_result given) }
    {
        match given {
            Ok(value) => Operand::Value(value),
            Err(cause) => Operand::Fault(cause),
        }
    }

    /// The number in the unsigned type, where the other type is it.
    fn converted(self, other_unsigned: bool) -> Operand
        ensures { seen_operand result ≡ converted_operand other_unsigned (seen_operand self) }
    {
        match self {
            Operand::Value(value) => Operand::Value(value.converted(other_unsigned)),
            Operand::Fault(cause) => Operand::Fault(cause),
            Operand::Unevaluated { unsigned } => Operand::Unevaluated {
                unsigned: unsigned || other_unsigned,
            },
        }
    }

    pub(crate) fn unary(self, op: Unary) -> Operand
        ensures { seen_operand result ≡ unary_operand op (seen_operand self) }
    {
        match self {
            Operand::Value(value) => Operand::of(value.unary(op)),
            Operand::Fault(cause) => Operand::Fault(cause),
            Operand::Unevaluated { unsigned } => Operand::Unevaluated {
                unsigned: unary_unsigned(op, unsigned),
            },
        }
    }

    pub(crate) fn binary(self, op: Binary, right: Operand) -> Operand
        ensures { seen_operand result ≡ binary_operand op (seen_operand self) (seen_operand right) }
    {
        match self {
            Operand::Value(left) if is_decided(op, left) => {
                Operand::Value(Value::truth(!left.is_zero()))
            }
            Operand::Value(left) => right.behind(op, left),
            Operand::Fault(cause) => Operand::Fault(cause),
            Operand::Unevaluated { unsigned } => Operand::Unevaluated {
                unsigned: binary_unsigned(op, unsigned, right.is_unsigned()),
            },
        }
    }

    /// What the operator makes of both, where the left operand does not decide.
    fn behind(self, op: Binary, left: Value) -> Operand
        ensures { seen_operand result ≡ operand_behind op (seen_value left) (seen_operand self) }
    {
        match self {
            Operand::Value(right) => Operand::of(left.binary(op, right)),
            Operand::Fault(cause) => Operand::Fault(cause),
            Operand::Unevaluated { unsigned } => Operand::Unevaluated { unsigned },
        }
    }

    pub(crate) fn conditional(self, then: Operand, otherwise: Operand) -> Operand
        ensures { seen_operand result ≡ conditional_operand (seen_operand self) (seen_operand then) (seen_operand otherwise) }
    {
        match self {
            Operand::Value(value) if value.is_zero() => otherwise.converted(then.is_unsigned()),
            Operand::Value(_) => then.converted(otherwise.is_unsigned()),
            Operand::Fault(cause) => Operand::Fault(cause),
            Operand::Unevaluated { .. } => Operand::Unevaluated {
                unsigned: then.is_unsigned() || otherwise.is_unsigned(),
            },
        }
    }
}

/// Whether the left operand leaves the right one unevaluated (C11 6.5.13p4, 6.5.14p4).
pub(crate) fn is_decided(op: Binary, left: Value) -> bool
    ensures { result ≡ is_decided op (seen_value left).number }
{
    match op {
        Binary::And => left.is_zero(),
        Binary::Or => !left.is_zero(),
        _ => false,
    }
}

/// Whether the result is unsigned.
fn unary_unsigned(op: Unary, operand: bool) -> bool
    ensures { result ≡ unary_unsigned op operand }
{
    match op {
        Unary::Not => false,
        _ => operand,
    }
}

/// Whether the result is unsigned, by the types of the operands.
fn binary_unsigned(op: Binary, left: bool, right: bool) -> bool
    ensures { result ≡ binary_unsigned op left right }
{
    match op {
        Binary::ShiftLeft | Binary::ShiftRight => left,
        Binary::Less
        | Binary::LessOrEqual
        | Binary::Greater
        | Binary::GreaterOrEqual
        | Binary::Equal
        | Binary::NotEqual
        | Binary::And
        | Binary::Or => false,
        _ => left || right,
    }
}
