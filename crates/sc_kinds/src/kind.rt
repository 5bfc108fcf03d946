//! Which terminal a token is.
ghost use Rattle.std.specs.Prelude.{◌≡◌, ◌+◌, ◌-◌, ◌<◌, ◌||◌, Some, None, option_map, if◌then◌else◌};
ghost use Rattle.sc_grammar.specs.declared.TheConstants.{TERMINALS};
ghost use Rattle.sc_kinds.specs.Kinds.{is_constant, terminal_of, keyword, punctuator, terminal_written};
ghost use Rattle.sc_model.specs.Token.{name_of};

use lr_tables::Terminal;
use sc_base::is_same;
use sc_constants::{integer_form, is_floating};
use sc_grammar::{TERMINALS, terminal, terminal_name};
use sc_model::{Kind, Standard};

/// The first terminal of a token: an identifier that is no keyword is a name first, and after that
/// a type or a variable. Nothing that the grammar has no terminal for is one.
#[tactic(auto, unfolding(crate::specs::Kinds::terminal_of))]
pub fn terminal(kind: Kind, spelling: &[u8], standard: Standard) -> Option<Terminal>
    ensures { option_map (λ terminal. terminal.0) result ≡ terminal_of standard kind spelling.now }
{
    match kind {
        Kind::Identifier => Some(keyword(spelling).unwrap_or(terminal::NAME)),
        Kind::Number => number(spelling, standard),
        Kind::Character => Some(terminal::CONSTANT),
        Kind::Text => Some(terminal::STRING),
        Kind::Punctuator => punctuator(standard_spelling(spelling)),
        Kind::Header | Kind::Other | Kind::Newline => None,
    }
}

/// A number that is a constant.
fn number(spelling: &[u8], standard: Standard) -> Option<Terminal>
    ensures { option_map (λ terminal. terminal.0) result ≡ (if is_constant standard spelling.now then Some 3 else None) }
{
    if integer_form(spelling, standard).is_some() || is_floating(spelling) {
        Some(terminal::CONSTANT)
    } else {
        None
    }
}

fn keyword(spelling: &[u8]) -> Option<Terminal>
    ensures { option_map (λ terminal. terminal.0) result ≡ keyword spelling.now }
{
    terminal_written(terminal::AUTO, terminal::THREAD_LOCAL, spelling)
}

fn punctuator(spelling: &[u8]) -> Option<Terminal>
    ensures { option_map (λ terminal. terminal.0) result ≡ punctuator spelling.now }
{
    terminal_written(terminal::LEFT_BRACKET, terminal::COMMA, spelling)
}

/// Of the terminals from the first to the last, the one that is written so.
fn terminal_written(first: Terminal, last: Terminal, spelling: &[u8]) -> Option<Terminal>
    requires { last.0 < TERMINALS }
    ensures { option_map (λ terminal. terminal.0) result ≡ terminal_written first.0 (last.0 + 1 - first.0) spelling.now }
{
    for number in first.0..last.0 + 1 {
        if is_same(terminal_name(Terminal(number)).as_bytes(), spelling) {
            return Some(Terminal(number));
        }
    }
    None
}

/// The punctuator as which a digraph acts.
fn standard_spelling(spelling: &[u8]) -> &[u8]
    ensures { result.now ≡ name_of spelling.now }
{
    if is_same(spelling, b"<:") {
        b"["
    } else if is_same(spelling, b":>") {
        b"]"
    } else if is_same(spelling, b"<%") {
        b"{"
    } else if is_same(spelling, b"%>") {
        b"}"
    } else if is_same(spelling, b"%:") {
        b"#"
    } else if is_same(spelling, b"%:%:") {
        b"##"
    } else {
        spelling
    }
}
