ghost use Rattle.std.specs.Prelude.{◌≡◌, ◌+◌, ◌<◌, ◌^◌, [], Some, None, All, IfOk, IsTrue, drop, if◌then◌else◌, length, map};
ghost use Rattle.std.specs.List.{list_any};
ghost use Rattle.sc_model.specs.Bytes.{same_bytes};
ghost use Rattle.c11_tokens.specs.Lex.{is_identifier_kind};
ghost use Rattle.c11_macros.specs.Defines as model;
ghost use Rattle.c11_macros.specs.Macros as macros;
ghost use Rattle.sc_base.specs.Seen.{IsHeld, seen};
ghost use Rattle.sc_macro.specs.Seen.{AreHeld, text_of, texts_of};
ghost use Rattle.sc_macro.specs.Head.{Heads, turn_of};

use crate::{Form, Rest};
use indexmap::IndexSet;
use sc_base::{Kind, Name, Names, OutOfMemory, Token, is_same};
use sc_model::Standard;
use std::alloc::Global;

/// The form of a macro, which the first `length` tokens behind its name tell.
#[derive(Drop)]
pub struct Head {
    pub form: Form,
    pub length: usize,
}

/// What comes next in a list of parameters.
#[derive(Clone, Copy, Debug, PartialEq, Eq)]
pub enum Turn {
    /// A parameter and a comma.
    More,
    /// The last parameter.
    Last,
    /// The `...` at the end.
    Dots,
    /// A name for the rest, and `...`.
    Named,
    Wrong,
}

/// The form that the tokens behind a macro's name tell. A macro is function-like where `(` follows
/// with no white space before it.
pub fn read_head(
    alloc: Global,
    names: &Names,
    standard: Standard,
    line: &[Token],
) -> Result<Option<Head>, OutOfMemory>
    requires { All (IsHeld names.now) line.now }
    ensures { IfOk result (λ head. Heads names.now line.now 0 head (model.head_of standard (map (seen names.now []) line.now))) }
{
    if line.is_empty() || !is_spelled(names, &line[0], b"(") || line[0].space {
        return Ok(Some(Head {
            form: Form::Object,
            length: 0,
        }));
    }
    parameters(alloc, names, standard, &line[1..])
}

/// The form that the tokens behind the opening parenthesis tell.
fn parameters(
    alloc: Global,
    names: &Names,
    standard: Standard,
    line: &[Token],
) -> Result<Option<Head>, OutOfMemory>
    requires { All (IsHeld names.now) line.now }
    ensures { IfOk result (λ head. Heads names.now line.now 1 head (model.parameters standard (map (seen names.now []) line.now))) }
{
    if line.is_empty() {
        return Ok(None);
    }
    if is_spelled(names, &line[0], b")") {
        return Ok(Some(Head {
            form: Form::Function {
                parameters: IndexSet::new(alloc),
                rest: None,
            },
            length: 2,
        }));
    }
    listed_parameters(alloc, names, standard, line)
}

/// The same where something stands between the parentheses.
fn listed_parameters(
    alloc: Global,
    names: &Names,
    standard: Standard,
    line: &[Token],
) -> Result<Option<Head>, OutOfMemory>
    requires { All (IsHeld names.now) line.now }
    ensures { IfOk result (λ head. Heads names.now line.now 1 head (model.parameters_after standard [] (map (seen names.now []) line.now))) }
{
    names.one_to_one();
    let mut parameters = IndexSet::new(alloc);
    let mut at = 0;
    while at + 1 < line.len() {
        let word = line[at].spelling;
        let turn = next_turn(names, standard, &parameters, &line[at], &line[at + 1]);
        at += 2;
        match turn {
            Turn::More => {
                parameters.insert(word)?;
            }
            Turn::Last => {
                parameters.insert(word)?;
                return Ok(Some(function_like(parameters, None, at)));
            }
            Turn::Dots => {
                let rest = rest(standard, None);
                return Ok(Some(function_like(parameters, Some(rest), at)));
            }
            Turn::Named if closes(names, &line[at..]) => {
                let rest = rest(standard, Some(word));
                return Ok(Some(function_like(parameters, Some(rest), at + 1)));
            }
            Turn::Named => return Ok(None),
            Turn::Wrong => return Ok(None),
        }
    }
    Ok(None)
}

/// The rest under a standard, of this name or `__VA_ARGS__`.
fn rest(standard: Standard, name: Option<Name>) -> Rest
    ensures { result ≡ record { name = name; deletes_comma = model.deletes_comma standard } }
{
    Rest {
        name,
        deletes_comma: matches!(standard, Standard::Gnu11),
    }
}

/// Whether `)` stands first.
fn closes(names: &Names, line: &[Token]) -> bool
    requires { All (IsHeld names.now) line.now }
    ensures is { (form : macros.Form) → model.closed form (map (seen names.now []) line.now)
        ≡ (if result then Some (record { form = form; rest = map (seen names.now []) (drop 1 line.now) }) else None) }
    ensures some { IsTrue result → 0 < length line.now }
{
    match line {
        [] => false,
        [first, ..] => is_spelled(names, first, b")"),
    }
}

fn function_like(parameters: IndexSet<Name>, rest: Option<Rest>, length: usize) -> Head
    requires { length < 2 ^ 63 }
    ensures form { result.form ≡ Form.Function parameters rest }
    ensures length { result.length ≡ length + 1 }
{
    Head {
        form: Form::Function { parameters, rest },
        length: length + 1,
    }
}

/// What two tokens of a list of parameters are, behind these parameters.
fn next_turn(
    names: &Names,
    standard: Standard,
    parameters: &IndexSet<Name>,
    word: &Token,
    next: &Token,
) -> Turn
    requires parameters { AreHeld names.now parameters.now.keys }
    requires word { IsHeld names.now word.now }
    requires next { IsHeld names.now next.now }
    ensures { result ≡ turn_of standard (texts_of names.now parameters.now.keys) (seen names.now [] word.now) (seen names.now [] next.now) }
{
    let is_parameter = is_parameter(names, parameters, word);
    if is_parameter && is_spelled(names, next, b",") {
        Turn::More
    } else if is_parameter && is_spelled(names, next, b")") {
        Turn::Last
    } else if is_spelled(names, word, b"...") && is_spelled(names, next, b")") {
        Turn::Dots
    } else if names_rest(standard) && is_parameter && is_spelled(names, next, b"...") {
        Turn::Named
    } else {
        Turn::Wrong
    }
}

/// Whether a name may stand before `...`.
fn names_rest(standard: Standard) -> bool
    ensures { result ≡ model.names_rest standard }
{
    matches!(standard, Standard::Gnu11)
}

/// Whether a token may be the next parameter.
fn is_parameter(names: &Names, parameters: &IndexSet<Name>, word: &Token) -> bool
    requires parameters { AreHeld names.now parameters.now.keys }
    requires word { IsHeld names.now word.now }
    ensures { result ≡ model.is_parameter (texts_of names.now parameters.now.keys) (seen names.now [] word.now) }
{
    is_identifier(word.kind)
        && !is_spelled(names, word, b"__VA_ARGS__")
        && !contains(names, parameters, word.spelling)
}

fn contains(names: &Names, parameters: &IndexSet<Name>, name: Name) -> bool
    requires parameters { AreHeld names.now parameters.now.keys }
    requires name { name.0 < length names.now }
    ensures { result ≡ list_any (same_bytes (text_of names.now name)) (texts_of names.now parameters.now.keys) }
{
    names.one_to_one();
    parameters.contains(&name)
}

pub fn is_identifier(kind: Kind) -> bool
    ensures { result ≡ is_identifier_kind kind }
{
    matches!(kind, Kind::Identifier)
}

fn is_spelled(names: &Names, token: &Token, text: &[u8]) -> bool
    requires { IsHeld names.now token.now }
    ensures { result ≡ model.is_spelled text.now (seen names.now [] token.now) }
{
    is_same(names.text(token.spelling), text)
}
