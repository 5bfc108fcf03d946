ghost use Rattle.std.specs.Prelude.{◌≡◌, ◌+◌, ◌<◌, ◌≤◌, ◌∷◌, All, IfOk, length, take, drop};
ghost use Rattle.sc_base.specs.Seen.{IsHeld};
ghost use Rattle.c11_tokens.specs.Lex.{is_newline};
ghost use Rattle.c11_directives.specs.Lines.{c11_directive_names, c23_directive_names, directive_named, directives_of};
ghost use Rattle.sc_lines.specs.Split.{AreLines, directive_at, token_lines};

use crate::Line;
use c11_directives::{Conditional, Directive, Test};
use sc_base::{Kind, Names, OutOfMemory, Token, is_same};
use sc_model::Standard;
use std::alloc::Global;

/// The lines of a file's tokens.
pub fn lines(
    alloc: Global,
    names: &Names,
    tokens: &[Token],
    standard: Standard,
) -> Result<Vec<Line>, OutOfMemory>
    requires { All (IsHeld names.now) tokens.now }
    ensures { IfOk result (λ lines. AreLines standard names.now tokens.now lines.items) }
{
    let mut lines = Vec::new(alloc);
    let mut first = 0;
    while first < tokens.len() {
        let end = first + line_length(&tokens[first..]);
        lines.push(Line {
            first,
            end,
            directive: directive(names, &tokens[first..end], standard),
            branch: None,
        })?;
        first = end + 1;
    }
    Ok(lines)
}

/// How many tokens the first line has.
fn line_length(tokens: &[Token]) -> usize
    requires { 0 < length tokens.now }
    ensures within { result ≤ length tokens.now }
    ensures splits { token_lines tokens.now ≡ take result tokens.now ∷ token_lines (drop (result + 1) tokens.now) }
{
    for (i, token) in tokens.iter().enumerate() {
        if ends_line(token) {
            return i;
        }
    }
    tokens.len()
}

fn ends_line(token: &Token) -> bool
    ensures { result ≡ is_newline token.now.kind }
{
    matches!(token.kind, Kind::Newline)
}

/// The directive that a line is.
fn directive(names: &Names, line: &[Token], standard: Standard) -> Option<Directive>
    requires { All (IsHeld names.now) line.now }
    ensures { result ≡ directive_at standard names.now line.now }
{
    match line {
        [] => None,
        [hash, ..] if !is_same(names.text(hash.name), b"#") => None,
        [_] => Some(Directive::Null),
        [_, word, ..] => Some(named(names.text(word.spelling), standard)),
    }
}

/// The directive of a name.
fn named(word: &[u8], standard: Standard) -> Directive
    ensures { result ≡ directive_named (directives_of standard) word.now }
{
    match standard {
        Standard::C11 | Standard::Gnu11 => c11_named(word),
        Standard::C23 => c23_named(word),
    }
}

fn c23_named(word: &[u8]) -> Directive
    ensures { result ≡ directive_named c23_directive_names word.now }
{
    if is_same(word, b"elifdef") {
        Directive::Conditional(Conditional::Alternative(Test::Defined))
    } else if is_same(word, b"elifndef") {
        Directive::Conditional(Conditional::Alternative(Test::Undefined))
    } else {
        c11_named(word)
    }
}

fn c11_named(word: &[u8]) -> Directive
    ensures { result ≡ directive_named c11_directive_names word.now }
{
    if is_same(word, b"if") {
        Directive::Conditional(Conditional::Opening(Test::Expression))
    } else if is_same(word, b"ifdef") {
        Directive::Conditional(Conditional::Opening(Test::Defined))
    } else if is_same(word, b"ifndef") {
        Directive::Conditional(Conditional::Opening(Test::Undefined))
    } else if is_same(word, b"elif") {
        Directive::Conditional(Conditional::Alternative(Test::Expression))
    } else if is_same(word, b"else") {
        Directive::Conditional(Conditional::Else)
    } else if is_same(word, b"endif") {
        Directive::Conditional(Conditional::Endif)
    } else if is_same(word, b"include") {
        Directive::Include
    } else if is_same(word, b"define") {
        Directive::Define
    } else if is_same(word, b"undef") {
        Directive::Undef
    } else if is_same(word, b"line") {
        Directive::Line
    } else if is_same(word, b"error") {
        Directive::Error
    } else if is_same(word, b"pragma") {
        Directive::Pragma
    } else if is_same(word, b"warning") {
        Directive::Warning
    } else {
        Directive::Unknown
    }
}
