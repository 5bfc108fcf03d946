//! The header that an `#include` names.
ghost use Rattle.std.specs.Prelude.{◌≡◌, ℕ, ◌++◌, All, IfErr, IfNone, IfOk, IfSome, OnOk, List, Ok, Err, false, map, option_map, string_bytes, true};
ghost use Rattle.c11_headers.specs.Headers.{delimited, is_file_name, kind_of_name, spaced, up_to_angle, with_file_name, form_by};
ghost use Rattle.sc_base.specs.Seen.{IsHeld, seen, text_at};
ghost use Rattle.sc_include.specs.Seen.{HasForm, NamesHeader, NamesNone, OnBadInclude, seen_form, seen_header};
ghost use Rattle.sc_model.specs.declared.cause.Cause.TheVariants.{BadInclude};

use crate::{HeaderKind, IncludeStop};
use sc_base::{Kind, Names, OutOfMemory, Token, is_same};
use std::alloc::Global;

/// A name, and how it stands in the `#include`.
#[derive(Debug, Drop)]
pub struct Header {
    pub kind: HeaderKind,
    pub name: String,
}

/// A header as the tokens spell it, with a name that no file may be able to have.
#[derive(Drop)]
pub(crate) struct Form {
    kind: HeaderKind,
    name: Vec<u8>,
}

/// The header that the tokens behind `#include` name (C11 6.10.2): a header name, or what the line
/// expands to.
pub fn read_header(alloc: Global, tokens: &[Token], names: &Names) -> Result<Header, IncludeStop>
    requires { All (IsHeld names.now) tokens.now }
    ensures ok { IfOk result (NamesHeader names.now tokens.now) }
    ensures err { IfErr result (NamesNone names.now tokens.now) }
{
    with_file_name(read_form(alloc, tokens, names)?)
}

/// The header, if a file can have its name.
fn with_file_name(form: Option<Form>) -> Result<Header, IncludeStop>
    ensures ok { IfOk result (λ header. with_file_name (option_map seen_form form) ≡ Ok (seen_header header)) }
    ensures err { IfErr result (λ stop. with_file_name (option_map seen_form form) ≡ Err BadInclude) }
{
    let Some(form) = form else {
        return Err(IncludeStop::BadInclude);
    };
    match file_name(form.name) {
        Some(name) => Ok(Header {
            kind: form.kind,
            name,
        }),
        None => Err(IncludeStop::BadInclude),
    }
}

/// The bytes as a text, if a file can have this name.
fn file_name(bytes: Vec<u8>) -> Option<String>
    ensures some { IfSome result (λ name. (is_file_name bytes.items ≡ true) × (string_bytes name ≡ bytes.items)) }
    ensures none { IfNone result (is_file_name bytes.items ≡ false) }
{
    if bytes.is_empty() {
        return None;
    }
    String::from_utf8(bytes).ok()
}

/// The header that the tokens spell.
fn read_form(alloc: Global, tokens: &[Token], names: &Names) -> Result<Option<Form>, OutOfMemory>
    requires { All (IsHeld names.now) tokens.now }
    ensures { IfOk result (HasForm names.now tokens.now) }
{
    match tokens {
        [first, rest @ ..] => {
            let spelling = names.text(first.spelling);
            form_by(alloc, first.kind, spelling, rest, names)
        }
        [] => Ok(None),
    }
}

/// The form of a token of this kind and spelling, and of those after it.
fn form_by(
    alloc: Global,
    kind: Kind,
    spelling: &[u8],
    rest: &[Token],
    names: &Names,
) -> Result<Option<Form>, OutOfMemory>
    requires { All (IsHeld names.now) rest.now }
    ensures { IfOk result (λ found. (files : List (List ℕ)) → form_by kind spelling.now (map (seen names.now files) rest.now) ≡ option_map seen_form found) }
{
    match kind {
        Kind::Header => {
            let name = Vec::from_slice(alloc, delimited(spelling))?;
            let kind = kind_of_name(spelling);
            Ok(Some(Form { kind, name }))
        }
        Kind::Text if spelling.starts_with(b"\"") => {
            let name = Vec::from_slice(alloc, delimited(spelling))?;
            let kind = HeaderKind::Quoted;
            Ok(Some(Form { kind, name }))
        }
        Kind::Punctuator if is_same(spelling, b"<") => {
            let name = up_to_angle(alloc, rest, names)?;
            let kind = HeaderKind::Angle;
            Ok(name.map(|name| Form { kind, name }))
        }
        _ => Ok(None),
    }
}

fn kind_of_name(spelling: &[u8]) -> HeaderKind
    ensures { result ≡ kind_of_name spelling.now }
{
    if spelling.starts_with(b"<") {
        HeaderKind::Angle
    } else {
        HeaderKind::Quoted
    }
}

/// What stands between the delimiters.
fn delimited(spelling: &[u8]) -> &[u8]
    ensures { result.now ≡ delimited spelling.now }
{
    match spelling {
        [_, name @ .., _] => name,
        _ => &[],
    }
}

/// The spellings up to the first `>`, each after one space where white space stands before it.
fn up_to_angle(
    alloc: Global,
    tokens: &[Token],
    names: &Names,
) -> Result<Option<Vec<u8>>, OutOfMemory>
    requires { All (IsHeld names.now) tokens.now }
    ensures { IfOk result (λ found. (files : List (List ℕ)) → up_to_angle (map (seen names.now files) tokens.now) ≡ option_map (λ name. name.items) found) }
{
    let mut name = Vec::new(alloc);
    for token in tokens {
        if is_same(names.text(token.spelling), b">") {
            return Ok(Some(name));
        }
        push_spaced(&mut name, token, names)?;
    }
    Ok(None)
}

/// Adds the spelling, after one space where white space stands before it.
fn push_spaced(name: &mut Vec<u8>, token: &Token, names: &Names) -> Result<(), OutOfMemory>
    requires { IsHeld names.now token.now }
    ensures { OnOk result ((files : List (List ℕ)) → name.new.items ≡ name.old.items ++ spaced (seen names.now files token.now)) }
{
    if token.space {
        name.push(b' ')?;
    }
    name.extend_from_slice(names.text(token.spelling))?;
    Ok(())
}
