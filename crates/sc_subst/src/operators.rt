//! What the operators `#` and `##` make (C11 6.10.3.2, 6.10.3.3).
ghost use Rattle.std.specs.Prelude.{◌≡◌, ◌<◌, ◌++◌, Ok, Err, All, IfErr, IfOk, map, length};
ghost use Rattle.c11_macros.specs.Hidden as model;
ghost use Rattle.c11_macros.specs.Hidden.{failure_at, meet};
ghost use Rattle.c11_macros.specs.Substitution.{pasted, piece, spellings, stringized};
ghost use Rattle.sc_base.specs.declared.place.Place as declared;
ghost use Rattle.sc_base.specs.Seen.{IsHeld};
ghost use Rattle.sc_macro.specs.Seen.{text_of};
ghost use Rattle.sc_model.specs.Growth.{Extends};
ghost use Rattle.sc_subst.specs.Seen.{IsHeldHidden, IsHeldSet, Lasting, hide_at, seen_hidden};
ghost use Rattle.sc_subst.specs.Stops.{OnFault};

use crate::{Hidden, Hide, HideSets, SubstStop};
use sc_base::{Cause, Kind, Names, OutOfMemory, Place};
use sc_lex::{relex_one, token};
use std::alloc::{AllocError, Global};

/// The token that `##` makes of two (C11 6.10.3.3p3).
pub fn paste(
    alloc: Global,
    sets: &mut HideSets,
    names: &mut Names,
    left: &Hidden,
    right: &Hidden,
) -> Result<Hidden, SubstStop>
    requires left { IsHeldHidden names.old sets.old left.now }
    requires right { IsHeldHidden names.old sets.old right.now }
    ensures ok { IfOk result (λ made. Lasting names.new sets.new (λ names sets. (head : model.Hidden declared.Place)
        → pasted head (seen_hidden names sets left.now) (seen_hidden names sets right.now) ≡ Ok (piece (seen_hidden names sets made)))) }
    ensures own { IfOk result (IsHeldHidden names.new sets.new) }
    ensures err { IfErr result (λ stop. OnFault stop (λ cause. Lasting names.new sets.new (λ names sets. (head : model.Hidden declared.Place)
        → pasted head (seen_hidden names sets left.now) (seen_hidden names sets right.now) ≡ Err (failure_at cause head)))) }

    // at every outcome
    ensures names { Extends names.old names.new }
    ensures sets { Extends sets.old sets.new }
{
    let spelling = joined(alloc, names, left, right)?;
    let Some(kind) = relex_one(&spelling) else {
        return Err(SubstStop::Fault(Cause::BadPaste));
    };
    let hide = common(sets, names, left.hide, right.hide)?;
    let token = token(names, kind, &spelling, left.token.space, left.token.place)?;
    Ok(Hidden { token, hide })
}

/// One spelling behind the other.
fn joined(
    alloc: Global,
    names: &Names,
    left: &Hidden,
    right: &Hidden,
) -> Result<Vec<u8>, AllocError>
    requires left { IsHeld names.now left.now.token }
    requires right { IsHeld names.now right.now.token }
    ensures { IfOk result (λ bytes. bytes.items ≡ text_of names.now left.now.token.spelling ++ text_of names.now right.now.token.spelling) }
{
    let mut bytes = Vec::from_slice(alloc, names.text(left.token.spelling))?;
    bytes.extend_from_slice(names.text(right.token.spelling))?;
    Ok(bytes)
}

/// The names that two sets have in common.
fn common(sets: &mut HideSets, names: &Names, one: Hide, two: Hide) -> Result<Hide, OutOfMemory>
    requires one { IsHeldSet names.now sets.old one.0 }
    requires two { IsHeldSet names.now sets.old two.0 }
    ensures own { IfOk result (λ made. IsHeldSet names.now sets.new made.0) }
    ensures meets { IfOk result (λ made. hide_at names.now sets.new made.0 ≡ meet (hide_at names.now sets.old one.0) (hide_at names.now sets.old two.0)) }

    // at every outcome
    ensures sets { Extends sets.old sets.new }
{
    names.one_to_one();
    sets.meet(one, two)
}
