//! A template with its arguments put in (C11 6.10.3.1).
ghost use Rattle.std.specs.Prelude.{◌≡◌, ℕ, ◌++◌, ◌∷◌, [], List, All, IfOk, OnOk, map};
ghost use Rattle.c11_macros.specs.Hidden as model;
ghost use Rattle.c11_macros.specs.Hidden.{Provenance, union};
ghost use Rattle.c11_macros.specs.Substitution.{hiding, with_space};
ghost use Rattle.sc_base.specs.declared.id.Name as Name;
ghost use Rattle.sc_base.specs.declared.place.Place as declared;
ghost use Rattle.sc_model.specs.Growth.{Extends};
ghost use Rattle.sc_subst.specs.Parts.{AreHeldArguments, IsHeldPart, filled_in, first_spaced, seen_arguments, seen_part};
ghost use Rattle.sc_subst.specs.Seen.{IsHeldHidden, IsHeldSet, Lasting, hide_at, seen_hidden};

use crate::glue::spaced;
use crate::slots::argument;
use crate::{Hidden, Hide, HideSets, Part, Tokens};
use sc_base::{Names, OutOfMemory};
use std::alloc::{AllocError, Global};

/// The tokens of a template, each argument put in as it expands.
fn tokens_in(
    alloc: Global,
    template: &[Part],
    expanded: &[Tokens],
) -> Result<Vec<Hidden>, AllocError>
    ensures is { IfOk result (λ made. (names : List (List ℕ)) (sets : List (List Name.Name)) → map (seen_hidden names sets) made.items
        ≡ filled_in (seen_arguments names sets expanded.now) (map (seen_part names sets) template.now)) }
    ensures own { IfOk result (λ made. (names : List (List ℕ)) (sets : List (List Name.Name)) → All (IsHeldPart names sets) template.now
        → AreHeldArguments names sets expanded.now → All (IsHeldHidden names sets) made.items) }
{
    let mut made = Vec::new(alloc);
    for part in template {
        put(&mut made, part, expanded)?;
    }
    Ok(made)
}

fn put(made: &mut Vec<Hidden>, part: &Part, expanded: &[Tokens]) -> Result<(), AllocError>
    ensures is { OnOk result ((names : List (List ℕ)) (sets : List (List Name.Name)) → map (seen_hidden names sets) made.new.items
        ≡ map (seen_hidden names sets) made.old.items ++ filled_in (seen_arguments names sets expanded.now) (seen_part names sets part.now ∷ [])) }
    ensures own { OnOk result ((names : List (List ℕ)) (sets : List (List Name.Name)) → All (IsHeldHidden names sets) made.old.items → IsHeldPart names sets part.now
        → AreHeldArguments names sets expanded.now → All (IsHeldHidden names sets) made.new.items) }
{
    match *part {
        Part::Token(token) => {
            made.push(token)?;
            Ok(())
        }
        Part::Argument { parameter, space } => put_argument(
            made,
            argument(expanded, parameter),
            space,
        ),
    }
}

fn put_argument(made: &mut Vec<Hidden>, tokens: &[Hidden], space: bool) -> Result<(), AllocError>
    ensures is { OnOk result ((names : List (List ℕ)) (sets : List (List Name.Name)) → map (seen_hidden names sets) made.new.items
        ≡ map (seen_hidden names sets) made.old.items ++ with_space space (map (seen_hidden names sets) tokens.now)) }
    ensures own { OnOk result ((names : List (List ℕ)) (sets : List (List Name.Name)) → All (IsHeldHidden names sets) made.old.items → All (IsHeldHidden names sets) tokens.now
        → All (IsHeldHidden names sets) made.new.items) }
{
    if tokens.is_empty() {
        return Ok(());
    }
    made.push(spaced(tokens[0], space))?;
    made.extend_from_slice(&tokens[1..])?;
    Ok(())
}

/// The names of two sets.
fn both(sets: &mut HideSets, names: &Names, one: Hide, two: Hide) -> Result<Hide, OutOfMemory>
    requires one { IsHeldSet names.now sets.old one.0 }
    requires two { IsHeldSet names.now sets.old two.0 }
    ensures own { IfOk result (λ made. IsHeldSet names.now sets.new made.0) }
    ensures joins { IfOk result (λ made. hide_at names.now sets.new made.0 ≡ union (hide_at names.now sets.old one.0) (hide_at names.now sets.old two.0)) }

    // at every outcome
    ensures sets { Extends sets.old sets.new }
{
    sets.union(one, two)
}

fn with_first_space(tokens: Vec<Hidden>, space: bool) -> Vec<Hidden>
    ensures { result.items ≡ first_spaced space tokens.items }
{
    let mut tokens = tokens;
    set_first_space(&mut tokens, space);
    tokens
}

fn set_first_space(tokens: &mut [Hidden], space: bool)
    ensures { tokens.new ≡ first_spaced space tokens.old }
{
    if let [first, ..] = tokens {
        first.token.space = space;
    }
}

/// The tokens, which hide these names too.
pub fn hide_all(
    alloc: Global,
    sets: &mut HideSets,
    names: &Names,
    tokens: &[Hidden],
    hide: Hide,
) -> Result<Vec<Hidden>, OutOfMemory>
    requires tokens { All (IsHeldHidden names.now sets.old) tokens.now }
    requires hide { IsHeldSet names.now sets.old hide.0 }
    ensures is { IfOk result (λ made. Lasting names.now sets.new (λ names sets. (provenance : Provenance declared.Place) → ((p : declared.Place) → provenance.mark p ≡ p)
        → map (seen_hidden names sets) made.items ≡ hiding provenance (hide_at names sets hide.0) (map (seen_hidden names sets) tokens.now))) }
    ensures own { IfOk result (λ made. All (IsHeldHidden names.now sets.new) made.items) }

    // at every outcome
    ensures sets { Extends sets.old sets.new }
{
    let mut made = Vec::new(alloc);
    for token in tokens {
        let hide = both(sets, names, token.hide, hide)?;
        made.push(Hidden {
            token: token.token,
            hide,
        })?;
    }
    Ok(made)
}

/// What a template makes, once its arguments were expanded: the first token has the white space of
/// the macro's name, and all tokens hide these names. `expanded` has a list for each parameter, the
/// one for `...` last.
pub fn fill(
    alloc: Global,
    sets: &mut HideSets,
    names: &Names,
    template: &[Part],
    expanded: &[Tokens],
    space: bool,
    hide: Hide,
) -> Result<Vec<Hidden>, OutOfMemory>
    requires template { All (IsHeldPart names.now sets.old) template.now }
    requires expanded { AreHeldArguments names.now sets.old expanded.now }
    requires hide { IsHeldSet names.now sets.old hide.0 }
    ensures is { IfOk result (λ made. Lasting names.now sets.new (λ names sets. (provenance : Provenance declared.Place) → ((p : declared.Place) → provenance.mark p ≡ p)
        → map (seen_hidden names sets) made.items ≡ hiding provenance (hide_at names sets hide.0)
        (with_space space (filled_in (seen_arguments names sets expanded.now) (map (seen_part names sets) template.now))))) }
    ensures own { IfOk result (λ made. All (IsHeldHidden names.now sets.new) made.items) }

    // at every outcome
    ensures sets { Extends sets.old sets.new }
{
    let made = tokens_in(alloc, template, expanded)?;
    let tokens = with_first_space(made, space);
    hide_all(alloc, sets, names, &tokens, hide)
}
