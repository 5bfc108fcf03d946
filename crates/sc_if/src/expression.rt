//! What the tokens of an `#if` come to.
ghost use Rattle.std.specs.Prelude.{◌≡◌, All, Err, IfErr, IfOk, Ok, Some, map};
ghost use Rattle.c11_expressions.proofs.Reader.{read_token, reading_tokens};
ghost use Rattle.c11_expressions.specs.Evaluates.{Evaluates};
ghost use Rattle.sc_base.specs.Seen.{IsHeld};
ghost use Rattle.sc_if.specs.Frames.{state_of};
ghost use Rattle.sc_if.specs.Operands.{seen_operand};
ghost use Rattle.sc_if.specs.Seen.{seen_value};
ghost use Rattle.sc_if.specs.Stops.{IsRefusal, OnFault};
ghost use Rattle.sc_if.specs.Symbols.{symbol_at};

use crate::frame::Frame;
use crate::operand::Operand;
use crate::reader::{finish, read};
use crate::symbol::symbol_of;
use crate::{IfStop, Value};
use sc_base::{Cause, Names, Token};
use sc_model::Standard;
use std::alloc::Global;

/// The value of the expression that the tokens are (C11 6.10.1p4), where macros are expanded and
/// `defined` is replaced.
pub fn evaluate(
    alloc: Global,
    tokens: &[Token],
    names: &Names,
    standard: Standard,
) -> Result<Value, IfStop>
    requires { All (IsHeld names.now) tokens.now }
    ensures ok { IfOk result (λ value. Evaluates (map (symbol_at standard names.now) tokens.now) (Ok (seen_value value))) }
    ensures err { IfErr result (λ stop. OnFault stop (λ cause. Evaluates (map (symbol_at standard names.now) tokens.now) (Err cause))) }
{
    match operand(alloc, tokens, names, standard)?.result() {
        Ok(value) => Ok(value),
        Err(cause) => Err(IfStop::Fault(cause)),
    }
}

/// What evaluating the expression gives.
fn operand(
    alloc: Global,
    tokens: &[Token],
    names: &Names,
    standard: Standard,
) -> Result<Operand, IfStop>
    requires { All (IsHeld names.now) tokens.now }
    ensures ok { IfOk result (λ whole. reading_tokens (map (symbol_at standard names.now) tokens.now) ≡ Some (seen_operand whole)) }
    ensures err { IfErr result (λ stop. IsRefusal stop (reading_tokens (map (symbol_at standard names.now) tokens.now))) }
{
    let mut frames = Vec::new(alloc);
    let mut last = None;
    for token in tokens {
        last = next(&mut frames, last, token, names, standard)?;
    }
    match finish(&mut frames, last) {
        Some(whole) => Ok(whole),
        None => Err(IfStop::Fault(Cause::BadIf)),
    }
}

/// Reads a token behind the operand that was read last, unless one is wanted.
fn next(
    frames: &mut Vec<Frame>,
    last: Option<Operand>,
    token: &Token,
    names: &Names,
    standard: Standard,
) -> Result<Option<Operand>, IfStop>
    requires { IsHeld names.now token.now }
    ensures ok { IfOk result (λ next. read_token (state_of frames.old.items last) (symbol_at standard names.now token.now) ≡ Some (state_of frames.new.items next)) }
    ensures err { IfErr result (λ stop. IsRefusal stop (read_token (state_of frames.old.items last) (symbol_at standard names.now token.now))) }
{
    match symbol_of(token.kind, names.text(token.spelling), standard) {
        Some(symbol) => read(frames, last, symbol),
        None => Err(IfStop::Fault(Cause::BadIf)),
    }
}
