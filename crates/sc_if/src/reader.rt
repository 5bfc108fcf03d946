//! Reading an expression from left to right, with what waits on a list.
ghost use Rattle.std.specs.Prelude.{◌≡◌, ◌∷◌, Some, IfErr, IfOk, option_map};
ghost use Rattle.c11_expressions.proofs.Reader.{at_close, at_colon, begun, finished, gone_on, step, wanting};
ghost use Rattle.c11_expressions.specs.Grammar.{as_unary};
ghost use Rattle.sc_if.specs.Frames.{seen_frame, stack_of, state_of};
ghost use Rattle.sc_if.specs.Operands.{seen_operand};
ghost use Rattle.sc_if.specs.Stops.{IsRefusal};
ghost use Rattle.sc_if.specs.Symbols.{seen_symbol};

use crate::IfStop;
use crate::frame::{Frame, is_evaluated, level_of, settle};
use crate::operand::Operand;
use crate::symbol::Symbol;
use c11_expressions::{Binary, Punctuator, Unary};
use sc_base::Cause;

/// Reads a symbol behind the operand that was read last, unless one is wanted. The answer is what
/// is so behind it.
pub(crate) fn read(
    frames: &mut Vec<Frame>,
    last: Option<Operand>,
    symbol: Symbol,
) -> Result<Option<Operand>, IfStop>
    ensures ok { IfOk result (λ next. step (state_of frames.old.items last) (seen_symbol symbol) ≡ Some (state_of frames.new.items next)) }
    ensures err { IfErr result (λ stop. IsRefusal stop (step (state_of frames.old.items last) (seen_symbol symbol))) }
{
    match last {
        None => begin(frames, symbol),
        Some(operand) => go_on(frames, operand, symbol),
    }
}

/// Reads a symbol where an operand is wanted.
fn begin(frames: &mut Vec<Frame>, symbol: Symbol) -> Result<Option<Operand>, IfStop>
    ensures ok { IfOk result (λ next. begun (stack_of frames.old.items) (seen_symbol symbol) ≡ Some (state_of frames.new.items next)) }
    ensures err { IfErr result (λ stop. IsRefusal stop (begun (stack_of frames.old.items) (seen_symbol symbol))) }
{
    match symbol {
        Symbol::Operand(value) => Ok(Some(Operand::constant(value, is_evaluated(frames)))),
        Symbol::Mark(Punctuator::Open) => wait(frames, Frame::Parenthesis),
        Symbol::Mark(mark) => match as_unary(mark) {
            Some(op) => wait(frames, Frame::Prefix(op)),
            None => Err(IfStop::Fault(Cause::BadIf)),
        },
    }
}

/// Reads a symbol behind an operand.
fn go_on(frames: &mut Vec<Frame>, last: Operand, symbol: Symbol) -> Result<Option<Operand>, IfStop>
    ensures ok { IfOk result (λ next. gone_on (stack_of frames.old.items) (seen_operand last) (seen_symbol symbol) ≡ Some (state_of frames.new.items next)) }
    ensures err { IfErr result (λ stop. IsRefusal stop (gone_on (stack_of frames.old.items) (seen_operand last) (seen_symbol symbol))) }
{
    match symbol {
        Symbol::Mark(Punctuator::Binary(op)) => {
            let left = settle(frames, level_of(op), last);
            wait(frames, Frame::Left(op, left))
        }
        Symbol::Mark(Punctuator::Question) => {
            let condition = settle(frames, 1, last);
            wait(frames, Frame::Condition(condition))
        }
        Symbol::Mark(Punctuator::Colon) => {
            let then = settle(frames, 0, last);
            at_colon(frames, then)
        }
        Symbol::Mark(Punctuator::Close) => {
            let inner = settle(frames, 0, last);
            at_close(frames, inner)
        }
        _ => Err(IfStop::Fault(Cause::BadIf)),
    }
}

/// The frame wants an operand.
fn wait(frames: &mut Vec<Frame>, frame: Frame) -> Result<Option<Operand>, IfStop>
    ensures ok { IfOk result (λ next. state_of frames.new.items next ≡ wanting (seen_frame frame ∷ stack_of frames.old.items)) }
    ensures err { IfErr result (λ stop. stop ≡ IfStop.OutOfMemory) }
{
    frames.push(frame)?;
    Ok(None)
}

fn at_colon(frames: &mut Vec<Frame>, then: Operand) -> Result<Option<Operand>, IfStop>
    ensures ok { IfOk result (λ next. at_colon (stack_of frames.old.items) (seen_operand then) ≡ Some (state_of frames.new.items next)) }
    ensures err { IfErr result (λ stop. IsRefusal stop (at_colon (stack_of frames.old.items) (seen_operand then))) }
{
    match frames.pop() {
        Some(Frame::Condition(condition)) => wait(frames, Frame::Branch(condition, then)),
        _ => Err(IfStop::Fault(Cause::BadIf)),
    }
}

fn at_close(frames: &mut Vec<Frame>, inner: Operand) -> Result<Option<Operand>, IfStop>
    ensures ok { IfOk result (λ next. at_close (stack_of frames.old.items) (seen_operand inner) ≡ Some (state_of frames.new.items next)) }
    ensures err { IfErr result (λ stop. IsRefusal stop (at_close (stack_of frames.old.items) (seen_operand inner))) }
{
    match frames.pop() {
        Some(Frame::Parenthesis) => Ok(Some(inner)),
        _ => Err(IfStop::Fault(Cause::BadIf)),
    }
}

/// What was read, where it is an expression.
pub(crate) fn finish(frames: &mut Vec<Frame>, last: Option<Operand>) -> Option<Operand>
    ensures { option_map seen_operand result ≡ finished (state_of frames.old.items last) }
{
    let whole = settle(frames, 0, last?);
    if frames.is_empty() { Some(whole) } else { None }
}

/// The operator that a punctuator is before an operand.
fn as_unary(mark: Punctuator) -> Option<Unary>
    ensures { result ≡ as_unary mark }
{
    match mark {
        Punctuator::Unary(op) => Some(op),
        Punctuator::Binary(Binary::Add) => Some(Unary::Plus),
        Punctuator::Binary(Binary::Subtract) => Some(Unary::Minus),
        _ => None,
    }
}
