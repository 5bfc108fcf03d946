//! Texts that are options: replacement lists of macros without arguments (C11 6.10.3).
ghost use Rattle.std.specs.Prelude.{◌≡◌, ◌<◌, All, IfOk, List, Some, length, map, option_map};
ghost use Rattle.std.specs.List.{list_any};
ghost use Rattle.c11_tokens.specs.Lex.{is_newline};
ghost use Rattle.sc_base.specs.Seen.{IsHeld};
ghost use Rattle.sc_lex.specs.Spell.{lexeme_at};
ghost use Rattle.sc_macro.specs.Seen as macro;
ghost use Rattle.sc_model.specs.Token.{Lexeme};
ghost use Rattle.sc_space.specs.Seen.{seen_item};
ghost use Rattle.sc_space.specs.Texts.{AreTexts, Texts, define_line, line_defines, list_defined, list_of};

use crate::SpelledItem;
use sc_base::{FileId, Kind, Names, OutOfMemory, Token};
use sc_lex::{LexStop, tokens};
use sc_macro::{DefineStop, Item, Replacement, read_define};
use sc_model::Standard;
use std::alloc::Global;

/// The replacement list that a text is, if the text is an option of the name.
pub(crate) fn read_text(
    alloc: Global,
    name: &str,
    text: &str,
) -> Result<Option<Vec<SpelledItem>>, OutOfMemory>
    ensures { IfOk result (λ found. (texts : Texts) → AreTexts texts → option_map (λ v. map seen_item v.items) found ≡ texts name.now text.now) }
{
    let mut names = Names::new(alloc)?;
    let line = define_line(alloc, name, text)?;
    match tokens(alloc, FileId(0), &line, &mut names) {
        Ok(tokens) => line_defines(alloc, &names, &tokens),
        Err(LexStop::Comment(_)) => Ok(None),
        Err(LexStop::OutOfMemory) => Err(OutOfMemory),
    }
}

/// The line that defines the name as the text.
fn define_line(alloc: Global, name: &str, text: &str) -> Result<Vec<u8>, OutOfMemory>
    ensures { IfOk result (λ line. line.items ≡ define_line name.now text.now) }
{
    let mut line = Vec::from_slice(alloc, b"#define ")?;
    line.extend_from_slice(name.as_bytes())?;
    line.extend_from_slice(b" ")?;
    line.extend_from_slice(text.as_bytes())?;
    line.extend_from_slice(b"\n")?;
    Ok(line)
}

/// What tokens define that are one line with its newline.
fn line_defines(
    alloc: Global,
    names: &Names,
    tokens: &[Token],
) -> Result<Option<Vec<SpelledItem>>, OutOfMemory>
    requires { All (IsHeld names.now) tokens.now }
    ensures { IfOk result (λ found. (ts : List Lexeme) → map (lexeme_at names.now) tokens.now ≡ map Some ts → option_map (λ v. map seen_item v.items) found ≡ line_defines ts) }
{
    let line = &tokens[..tokens.len().saturating_sub(1)];
    if has_newline(line) {
        return Ok(None);
    }
    list_defined(alloc, names, line)
}

fn has_newline(line: &[Token]) -> bool
    ensures { result ≡ list_any (λ token. is_newline token.kind) line.now }
{
    line.iter().any(|token| is_newline(token.kind))
}

fn is_newline(kind: Kind) -> bool
    ensures { result ≡ is_newline kind }
{
    matches!(kind, Kind::Newline)
}

/// The replacement list of the definition that a line is.
fn list_defined(
    alloc: Global,
    names: &Names,
    line: &[Token],
) -> Result<Option<Vec<SpelledItem>>, OutOfMemory>
    requires { All (IsHeld names.now) line.now }
    ensures { IfOk result (λ found. (ts : List Lexeme) → map (lexeme_at names.now) line.now ≡ map Some ts → option_map (λ v. map seen_item v.items) found ≡ list_defined ts) }
{
    match read_define(alloc, names, Standard::C11, line) {
        Ok(definition) => spelled_list(alloc, names, &definition.replacement),
        Err(DefineStop::Fault(_)) => Ok(None),
        Err(DefineStop::OutOfMemory) => Err(OutOfMemory),
    }
}

fn spelled_list(
    alloc: Global,
    names: &Names,
    replacement: &Replacement,
) -> Result<Option<Vec<SpelledItem>>, OutOfMemory>
    requires { macro.IsHeldReplacement names.now replacement.now }
    ensures { IfOk result (λ found. option_map (λ v. map seen_item v.items) found ≡ list_of (macro.seen_replacement names.now replacement.now)) }
{
    match replacement {
        Replacement::Items(items) => Ok(Some(spelled_items(alloc, names, items)?)),
        Replacement::FileName | Replacement::LineNumber => Ok(None),
    }
}

fn spelled_items(
    alloc: Global,
    names: &Names,
    items: &[Item],
) -> Result<Vec<SpelledItem>, OutOfMemory>
    requires { All (macro.IsHeldItem names.now) items.now }
    ensures { IfOk result (λ list. map seen_item list.items ≡ map (macro.seen_item names.now) items.now) }
{
    let mut list = Vec::new(alloc);
    for item in items {
        list.push(spelled_item(alloc, names, *item)?)?;
    }
    Ok(list)
}

fn spelled_item(alloc: Global, names: &Names, item: Item) -> Result<SpelledItem, OutOfMemory>
    requires { item.spelling.0 < length names.now }
    ensures { IfOk result (λ spelled. seen_item spelled ≡ macro.seen_item names.now item) }
{
    let spelling = Vec::from_slice(alloc, names.text(item.spelling))?;
    Ok(SpelledItem {
        kind: item.kind,
        spelling,
        space: item.space,
    })
}
