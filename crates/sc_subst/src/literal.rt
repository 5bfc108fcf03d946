//! The string literal that `#` makes of an argument (C11 6.10.3.2).
ghost use Rattle.std.specs.Prelude.{◌≡◌, ◌++◌, ◌∷◌, [], if◌then◌else◌, List, Ok, Err, All, IfErr, IfOk, OnOk, map};
ghost use Rattle.c11_macros.specs.Hidden as model;
ghost use Rattle.c11_macros.specs.Hidden.{failure_at};
ghost use Rattle.c11_macros.specs.Macros.{escaped};
ghost use Rattle.c11_macros.specs.Substitution.{is_quoted_kind, is_text_kind, quoted_spelling, spellings, spellings_after, stringized};
ghost use Rattle.sc_base.specs.declared.id.Name as Name;
ghost use Rattle.sc_base.specs.declared.place.Place as declared;
ghost use Rattle.sc_base.specs.Seen.{IsHeld};
ghost use Rattle.sc_model.specs.Growth.{Extends};
ghost use Rattle.sc_subst.specs.Seen.{IsHeldHidden, Lasting, seen_hidden};
ghost use Rattle.sc_subst.specs.Stops.{OnFault};

use crate::{Hidden, HideSets, SubstStop};
use sc_base::{Cause, Kind, Names, Place};
use sc_lex::{relex_one, token};
use sc_macro::Item;
use std::alloc::{AllocError, Global};

/// The string literal that `#` makes of an argument (C11 6.10.3.2p2), where the macro's name
/// stands.
pub fn stringize(
    alloc: Global,
    sets: &HideSets,
    names: &mut Names,
    raw: &[Hidden],
    hash: &Item,
    place: Place,
) -> Result<Hidden, SubstStop>
    requires { All (IsHeldHidden names.old sets.now) raw.now }
    ensures ok { IfOk result (λ made. Lasting names.new sets.now (λ names sets. (head : model.Hidden declared.Place) → head.place ≡ place
        → stringized head hash.now.space (map (seen_hidden names sets) raw.now) ≡ Ok (seen_hidden names sets made))) }
    ensures own { IfOk result (IsHeldHidden names.new sets.now) }
    ensures err { IfErr result (λ stop. OnFault stop (λ cause. Lasting names.new sets.now (λ names sets. (head : model.Hidden declared.Place) → head.place ≡ place
        → stringized head hash.now.space (map (seen_hidden names sets) raw.now) ≡ Err (failure_at cause head)))) }

    // at every outcome
    ensures names { Extends names.old names.new }
{
    let spelling = quoted(alloc, names, raw)?;
    if !is_text(relex_one(&spelling)) {
        return Err(SubstStop::Fault(Cause::BadStringize));
    }
    let token = token(names, Kind::Text, &spelling, hash.space, place)?;
    Ok(Hidden {
        token,
        hide: sets.empty(),
    })
}

fn is_text(kind: Option<Kind>) -> bool
    ensures { result ≡ is_text_kind kind }
{
    matches!(kind, Some(Kind::Text))
}

/// The spellings between quotes, with one space for the white space between two.
fn quoted(alloc: Global, names: &Names, raw: &[Hidden]) -> Result<Vec<u8>, AllocError>
    requires { All (λ h. IsHeld names.now h.token) raw.now }
    ensures { IfOk result (λ bytes. (sets : List (List Name.Name)) → bytes.items ≡ 34 ∷ spellings (map (seen_hidden names.now sets) raw.now) ++ 34 ∷ []) }
{
    let mut bytes = vec![in alloc; b'"']?;
    push_all(&mut bytes, names, raw)?;
    bytes.push(b'"')?;
    Ok(bytes)
}

fn push_all(bytes: &mut Vec<u8>, names: &Names, raw: &[Hidden]) -> Result<(), AllocError>
    requires { All (λ h. IsHeld names.now h.token) raw.now }
    ensures { OnOk result ((sets : List (List Name.Name)) → bytes.new.items ≡ bytes.old.items ++ spellings (map (seen_hidden names.now sets) raw.now)) }
{
    if raw.is_empty() {
        return Ok(());
    }
    push_quoted(bytes, names, &raw[0])?;
    push_rest(bytes, names, &raw[1..])
}

/// What follows the first token.
fn push_rest(bytes: &mut Vec<u8>, names: &Names, rest: &[Hidden]) -> Result<(), AllocError>
    requires { All (λ h. IsHeld names.now h.token) rest.now }
    ensures { OnOk result ((sets : List (List Name.Name)) → bytes.new.items ≡ bytes.old.items ++ spellings_after (map (seen_hidden names.now sets) rest.now)) }
{
    for hidden in rest {
        bytes.extend_from_slice(white_space(hidden.token.space))?;
        push_quoted(bytes, names, hidden)?;
    }
    Ok(())
}

/// One space for white space of any length.
fn white_space(space: bool) -> &'static [u8]
    ensures { result.now ≡ (if space then 32 ∷ [] else []) }
{
    if space { b" " } else { b"" }
}

/// The spelling, with its quotes and backslashes escaped where it has quotes.
fn push_quoted(bytes: &mut Vec<u8>, names: &Names, hidden: &Hidden) -> Result<(), AllocError>
    requires { IsHeld names.now hidden.now.token }
    ensures { OnOk result ((sets : List (List Name.Name)) → bytes.new.items ≡ bytes.old.items ++ quoted_spelling (seen_hidden names.now sets hidden.now)) }
{
    let text = names.text(hidden.token.spelling);
    if is_quoted(hidden.token.kind) {
        push_escaped(bytes, text)?;
    } else {
        bytes.extend_from_slice(text)?;
    }
    Ok(())
}

fn is_quoted(kind: Kind) -> bool
    ensures { result ≡ is_quoted_kind kind }
{
    matches!(kind, Kind::Character | Kind::Text)
}

pub fn push_escaped(bytes: &mut Vec<u8>, text: &[u8]) -> Result<(), AllocError>
    ensures { OnOk result (bytes.new.items ≡ bytes.old.items ++ escaped text.now) }
{
    for b in text {
        if *b == b'"' || *b == b'\\' {
            bytes.push(b'\\')?;
        }
        bytes.push(*b)?;
    }
    Ok(())
}
