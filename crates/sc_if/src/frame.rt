//! What waits while an expression is read.
ghost use Rattle.std.specs.Prelude.{◌≡◌, ◌+◌, ◌∷◌, [], IfNone, IfSome, vec_len};
ghost use Rattle.c11_expressions.specs.Grammar.{level_of};
ghost use Rattle.c11_expressions.proofs.Reader.{binds, closed, held, settled};
ghost use Rattle.c11_expressions.specs.Waiting.{is_evaluated};
ghost use Rattle.sc_if.specs.Frames.{IsLeft, Pops, seen_frame, stack_of, top_binds};
ghost use Rattle.sc_if.specs.Operands.{seen_operand};

use crate::operand::{Operand, is_decided};
use c11_expressions::{Binary, Unary};

/// What waits for an operand.
#[derive(Clone, Copy, Debug, PartialEq, Eq)]
pub(crate) enum Frame {
    Parenthesis,
    Prefix(Unary),
    /// The left operand of an operator.
    Left(Binary, Operand),
    /// What stands before `?`.
    Condition(Operand),
    /// What stands before `?`, and what before `:`.
    Branch(Operand, Operand),
}

impl Frame {
    /// Whether it leaves its last operand evaluated, by those before.
    fn goes_on(self) -> bool
        ensures { result ≡ is_evaluated (seen_frame self ∷ []) }
    {
        match self {
            Frame::Parenthesis | Frame::Prefix(_) => true,
            Frame::Left(op, Operand::Value(left)) => !is_decided(op, left),
            Frame::Condition(Operand::Value(value)) => !value.is_zero(),
            Frame::Branch(Operand::Value(value), _) => value.is_zero(),
            _ => false,
        }
    }

    /// Whether it takes an operand as its last before a symbol of this level.
    fn binds(self, level: u8) -> bool
        ensures { result ≡ binds level (seen_frame self) }
    {
        match self {
            Frame::Parenthesis | Frame::Condition(_) => false,
            Frame::Prefix(_) => true,
            Frame::Left(op, _) => level <= level_of(op),
            Frame::Branch(_, _) => level == 0,
        }
    }

    /// What it makes with its last operand.
    fn closed(self, last: Operand) -> Operand
        ensures { seen_operand result ≡ closed (seen_frame self) (seen_operand last) }
    {
        match self {
            Frame::Parenthesis | Frame::Condition(_) => last,
            Frame::Prefix(op) => last.unary(op),
            Frame::Left(op, left) => left.binary(op, last),
            Frame::Branch(condition, then) => condition.conditional(then, last),
        }
    }
}

/// Whether the operand behind these frames is evaluated (C11 6.5.13p4, 6.5.14p4, 6.5.15p4).
pub(crate) fn is_evaluated(frames: &[Frame]) -> bool
    ensures { result ≡ is_evaluated (stack_of frames.now) }
{
    let mut count = frames.len();
    while count > 0 {
        count -= 1;
        match frames[count] {
            Frame::Parenthesis | Frame::Prefix(_) => {}
            frame => return frame.goes_on(),
        }
    }
    true
}

/// How tightly an operator binds.
pub(crate) fn level_of(op: Binary) -> u8
    ensures { result ≡ level_of op }
{
    match op {
        Binary::Or => 1,
        Binary::And => 2,
        Binary::BitOr => 3,
        Binary::BitXor => 4,
        Binary::BitAnd => 5,
        Binary::Equal | Binary::NotEqual => 6,
        Binary::Less | Binary::LessOrEqual | Binary::Greater | Binary::GreaterOrEqual => 7,
        Binary::ShiftLeft | Binary::ShiftRight => 8,
        Binary::Add | Binary::Subtract => 9,
        Binary::Multiply | Binary::Divide | Binary::Remainder => 10,
    }
}

fn top_binds(frames: &[Frame], level: u8) -> bool
    ensures { result ≡ top_binds level (stack_of frames.now) }
{
    match frames {
        [] => false,
        [.., last] => last.binds(level),
    }
}

/// The innermost frame, where it binds at a level.
fn pop_binding(frames: &mut Vec<Frame>, level: u8) -> Option<Frame>
    ensures some { IfSome result (Pops level frames.old.items frames.new.items) }
    ensures none { IfNone result (IsLeft level frames.old.items frames.new.items) }
    ensures len { IfSome result (λ _. vec_len frames.new + 1 ≡ vec_len frames.old) }
{
    if top_binds(frames.as_slice(), level) {
        frames.pop()
    } else {
        None
    }
}

/// The operand that the innermost frames make which bind at a level.
pub(crate) fn settle(frames: &mut Vec<Frame>, level: u8, last: Operand) -> Operand
    ensures { held (stack_of frames.new.items) (seen_operand result) ≡ settled level (stack_of frames.old.items) (seen_operand last) }
{
    let mut operand = last;
    while let Some(frame) = pop_binding(frames, level) {
        operand = frame.closed(operand);
    }
    operand
}
