//! What tokens are in an expression.
ghost use Rattle.std.specs.Prelude.{◌≡◌, option_map};
ghost use Rattle.c11_expressions.specs.Symbols.{named, punctuators, symbol_of};
ghost use Rattle.sc_if.specs.Symbols.{seen_symbol};

use crate::Value;
use crate::character::character;
use crate::integer::integer;
use c11_expressions::{Binary, Punctuator, Unary};
use sc_base::{Kind, is_same};
use sc_model::Standard;

/// What a token is in an expression.
#[derive(Clone, Copy, Debug, PartialEq, Eq)]
pub(crate) enum Symbol {
    Operand(Value),
    Mark(Punctuator),
}

/// What a token of this kind and spelling is. An identifier is 0.
pub(crate) fn symbol_of(kind: Kind, spelling: &[u8], standard: Standard) -> Option<Symbol>
    ensures { option_map seen_symbol result ≡ symbol_of standard kind spelling.now }
{
    match kind {
        Kind::Number => integer(spelling, standard).map(Symbol::Operand),
        Kind::Character => character(spelling).map(Symbol::Operand),
        Kind::Identifier => Some(Symbol::Operand(Value::Signed(0))),
        Kind::Punctuator => punctuator(spelling).map(Symbol::Mark),
        _ => None,
    }
}

fn punctuator(text: &[u8]) -> Option<Punctuator>
    ensures { result ≡ named punctuators text.now }
{
    if is_same(text, b"(") {
        Some(Punctuator::Open)
    } else if is_same(text, b")") {
        Some(Punctuator::Close)
    } else if is_same(text, b"?") {
        Some(Punctuator::Question)
    } else if is_same(text, b":") {
        Some(Punctuator::Colon)
    } else if is_same(text, b"~") {
        Some(Punctuator::Unary(Unary::Complement))
    } else if is_same(text, b"!") {
        Some(Punctuator::Unary(Unary::Not))
    } else if is_same(text, b"*") {
        Some(Punctuator::Binary(Binary::Multiply))
    } else if is_same(text, b"/") {
        Some(Punctuator::Binary(Binary::Divide))
    } else if is_same(text, b"%") {
        Some(Punctuator::Binary(Binary::Remainder))
    } else if is_same(text, b"+") {
        Some(Punctuator::Binary(Binary::Add))
    } else if is_same(text, b"-") {
        Some(Punctuator::Binary(Binary::Subtract))
    } else if is_same(text, b"<<") {
        Some(Punctuator::Binary(Binary::ShiftLeft))
    } else if is_same(text, b">>") {
        Some(Punctuator::Binary(Binary::ShiftRight))
    } else if is_same(text, b"<") {
        Some(Punctuator::Binary(Binary::Less))
    } else if is_same(text, b"<=") {
        Some(Punctuator::Binary(Binary::LessOrEqual))
    } else if is_same(text, b">") {
        Some(Punctuator::Binary(Binary::Greater))
    } else if is_same(text, b">=") {
        Some(Punctuator::Binary(Binary::GreaterOrEqual))
    } else if is_same(text, b"==") {
        Some(Punctuator::Binary(Binary::Equal))
    } else if is_same(text, b"!=") {
        Some(Punctuator::Binary(Binary::NotEqual))
    } else if is_same(text, b"&") {
        Some(Punctuator::Binary(Binary::BitAnd))
    } else if is_same(text, b"^") {
        Some(Punctuator::Binary(Binary::BitXor))
    } else if is_same(text, b"|") {
        Some(Punctuator::Binary(Binary::BitOr))
    } else if is_same(text, b"&&") {
        Some(Punctuator::Binary(Binary::And))
    } else if is_same(text, b"||") {
        Some(Punctuator::Binary(Binary::Or))
    } else {
        None
    }
}
