//! What replaces a call, with arguments that differ by configuration.
ghost use Rattle.std.specs.Prelude.{◌≡◌, ℕ, ◌&&◌, ◌++◌, ◌∷◌, [], not, List, All, map, true, false, length, slice_index_or, if◌then◌else◌, OnOk, IfOk};
ghost use Rattle.c11_macros.specs.Substitution.{hiding, with_space};
ghost use Rattle.sc_base.specs.declared.id.Cond as base;
ghost use Rattle.sc_expand.specs.Alike.{IsAlikeCall};
ghost use Rattle.sc_hoist.specs.Alike.{AreAlike, IsAlike};
ghost use Rattle.sc_expand.specs.Filling.{Adds, AllHeld, first_spaced_if, part_at, parts_at, spaced as spaced_as};
ghost use Rattle.sc_expand.specs.Seen.{AreHeld, IsHeldCall, IsHeldPartIn, IsHeldToken, Stores, provenance_of, seen_at, stores};
ghost use Rattle.sc_guarded.specs.Items.{items_at};
ghost use Rattle.sc_model.specs.Growth.{Extends};
ghost use Rattle.sc_model.specs.Sets.{IsConfig, IsCond, Denotes, Keeps};
ghost use Rattle.sc_subst.specs.declared.hidden.Hidden as declared;
ghost use Rattle.sc_subst.specs.Parts.{IsHeldPart, filled_in, seen_part};
ghost use Rattle.sc_subst.specs.Seen.{IsHeldHidden, IsHeldSet, hide_at, seen_hidden};

use crate::call::Call;
use sc_base::{Cond, Names, OutOfMemory};
use sc_guarded::Guarded;
use sc_presence::Conditions;
use sc_subst::{Hidden, Hide, HideSets, Part, hide_all};
use std::alloc::Global;

/// Adds a token, which gets the white space in the configurations of `left`: those for which no
/// token came before it. The result are those for which none has come yet.
#[tactic(auto, using(sc_model::proofs::SetLemmas::conditions))]
fn put_spaced<C: Conditions>(
    conds: &mut C,
    made: &mut Guarded<Hidden>,
    left: Cond,
    has: Cond,
    token: Hidden,
    space: bool,
) -> Result<Cond, OutOfMemory>
    requires own { All (λ item. IsCond (C.sets conds.old) item.0.0) made.old }
    requires left_own { IsCond (C.sets conds.old) left.0 }
    requires has_own { IsCond (C.sets conds.old) has.0 }
    ensures adds { OnOk result (Adds (C.sets conds.old) (C.sets conds.new) made.old made.new
        (λ c. if (C.sets conds.old).has has.0 c then (if (C.sets conds.old).has left.0 c then spaced_as space token else token) ∷ [] else [])
        (λ st files. IsHeldToken st files token) (λ c d. IsAlike (C.sets conds.old) c d left × IsAlike (C.sets conds.old) c d has)) }
    ensures left { IfOk result (λ rest. Denotes (C.sets conds.new) rest.0 (λ c. (C.sets conds.old).has left.0 c && not ((C.sets conds.old).has has.0 c))) }

    // at every outcome
    ensures keeps { Keeps (C.sets conds.old) (C.sets conds.new) }
{
    let first = conds.apply_and(has, left)?;
    if conds.is_never(first) {
        made.push(has, token)?;
        return Ok(left);
    }
    let later = conds.apply_without(has, left)?;
    let rest = conds.apply_without(left, has)?;
    made.push(first, with_space_as(token, space))?;
    made.push(later, token)?;
    Ok(rest)
}

fn with_space_as(hidden: Hidden, space: bool) -> Hidden
    ensures { result ≡ spaced_as space hidden }
{
    let mut spaced = hidden;
    spaced.token.space = space;
    spaced
}

/// Adds the tokens of a list in the configurations of `cond`. The first one gets the white space.
#[tactic(auto, using(sc_model::proofs::SetLemmas::conditions))]
fn put_list<C: Conditions>(
    conds: &mut C,
    made: &mut Guarded<Hidden>,
    list: &Guarded<Hidden>,
    cond: Cond,
    space: bool,
) -> Result<(), OutOfMemory>
    requires own { All (λ item. IsCond (C.sets conds.old) item.0.0) made.old }
    requires list_own { All (λ item. IsCond (C.sets conds.old) item.0.0) list.now }
    requires cond_own { IsCond (C.sets conds.old) cond.0 }
    ensures adds { OnOk result (Adds (C.sets conds.old) (C.sets conds.new) made.old made.new
        (λ c. first_spaced_if ((C.sets conds.old).has cond.0 c) space (items_at (C.sets conds.old) list.now c))
        (λ st files. AllHeld st files list.now) (λ c d. AreAlike (C.sets conds.old) c d list.now × IsAlike (C.sets conds.old) c d cond)) }

    // at every outcome
    ensures keeps { Keeps (C.sets conds.old) (C.sets conds.new) }
{
    let mut left = cond;
    for index in 0..list.len() {
        let (has, token) = list.item(index);
        let met = conds.apply_and(has, cond)?;
        left = put_spaced(conds, made, left, met, *token, space)?;
    }
    Ok(())
}

/// Adds a part of the template of a call.
#[tactic(auto, using(sc_model::proofs::SetLemmas::conditions))]
fn put_part<C: Conditions>(
    conds: &mut C,
    made: &mut Guarded<Hidden>,
    part: Part,
    expanded: &[Guarded<Hidden>],
    cond: Cond,
) -> Result<(), OutOfMemory>
    requires own { All (λ item. IsCond (C.sets conds.old) item.0.0) made.old }
    requires expanded_own { All (All (λ item. IsCond (C.sets conds.old) item.0.0)) expanded.now }
    requires cond_own { IsCond (C.sets conds.old) cond.0 }
    ensures adds { OnOk result (Adds (C.sets conds.old) (C.sets conds.new) made.old made.new
        (λ c. part_at (C.sets conds.old) expanded.now ((C.sets conds.old).has cond.0 c) c part)
        (λ st files. IsHeldPartIn st files part × All (AllHeld st files) expanded.now)
        (λ c d. All (AreAlike (C.sets conds.old) c d) expanded.now × IsAlike (C.sets conds.old) c d cond)) }

    // at every outcome
    ensures keeps { Keeps (C.sets conds.old) (C.sets conds.new) }
{
    match part {
        Part::Token(token) => {
            made.push(cond, token)?;
            Ok(())
        }
        Part::Argument { parameter, space } => match expanded.get(parameter) {
            Some(list) => put_list(conds, made, list, cond, space),
            None => Ok(()),
        },
    }
}

/// The parts of the template of a call, one after the other.
#[tactic(auto, using(sc_model::proofs::SetLemmas::conditions))]
fn put_parts<C: Conditions>(
    alloc: Global,
    conds: &mut C,
    parts: &[Part],
    expanded: &[Guarded<Hidden>],
    cond: Cond,
) -> Result<Guarded<Hidden>, OutOfMemory>
    requires expanded_own { All (All (λ item. IsCond (C.sets conds.old) item.0.0)) expanded.now }
    requires cond_own { IsCond (C.sets conds.old) cond.0 }
    ensures adds { IfOk result (λ made. Adds (C.sets conds.old) (C.sets conds.new) [] made
        (λ c. parts_at (C.sets conds.old) expanded.now ((C.sets conds.old).has cond.0 c) c parts.now)
        (λ st files. All (IsHeldPartIn st files) parts.now × All (AllHeld st files) expanded.now)
        (λ c d. All (AreAlike (C.sets conds.old) c d) expanded.now × IsAlike (C.sets conds.old) c d cond)) }

    // at every outcome
    ensures keeps { Keeps (C.sets conds.old) (C.sets conds.new) }
{
    let mut made = Guarded::new(alloc)?;
    for part in parts {
        put_part(conds, &mut made, *part, expanded, cond)?;
    }
    Ok(made)
}

/// The tokens of a list, each of which hides these names too.
fn hide_in(
    alloc: Global,
    sets: &mut HideSets,
    names: &Names,
    list: &Guarded<Hidden>,
    hide: Hide,
) -> Result<Vec<(Cond, Hidden)>, OutOfMemory>
    requires held { All (λ item. IsHeldHidden names.now sets.old item.1) list.now }
    requires hide { IsHeldSet names.now sets.old hide.0 }
    ensures conditions { IfOk result (λ made. map (λ item. item.0) made.items ≡ map (λ item. item.0) list.now) }
    ensures is { IfOk result (λ made. map (λ item. seen_hidden names.now sets.new item.1) made.items
        ≡ hiding (provenance_of []) (hide_at names.now sets.new hide.0) (map (λ item. seen_hidden names.now sets.new item.1) list.now)) }
    ensures own { IfOk result (λ made. All (λ item. IsHeldHidden names.now sets.new item.1) made.items) }

    // at every outcome
    ensures sets { Extends sets.old sets.new }
{
    let tokens = tokens_of(alloc, list)?;
    let hidden = hide_all(alloc, sets, names, &tokens, hide)?;
    let made = paired(alloc, list, &hidden)?;
    Ok(made)
}

fn tokens_of(alloc: Global, list: &Guarded<Hidden>) -> Result<Vec<Hidden>, OutOfMemory>
    ensures { IfOk result (λ tokens. tokens.items ≡ map (λ item. item.1) list.now) }
{
    let mut tokens = Vec::new(alloc);
    for index in 0..list.len() {
        let (_, token) = list.item(index);
        tokens.push(*token)?;
    }
    Ok(tokens)
}

/// These tokens under the conditions of a list.
fn paired(
    alloc: Global,
    list: &Guarded<Hidden>,
    tokens: &[Hidden],
) -> Result<Vec<(Cond, Hidden)>, OutOfMemory>
    requires { length tokens.now ≡ length list.now }
    ensures conditions { IfOk result (λ made. map (λ item. item.0) made.items ≡ map (λ item. item.0) list.now) }
    ensures tokens { IfOk result (λ made. map (λ item. item.1) made.items ≡ tokens.now) }
{
    let mut made = Vec::new(alloc);
    for index in 0..list.len() {
        let (cond, _) = list.item(index);
        made.push((cond, tokens[index]))?;
    }
    Ok(made)
}

/// What replaces a call, once its arguments were expanded.
#[tactic(auto, using(sc_model::proofs::SetLemmas::conditions))]
pub fn fill<C: Conditions>(
    alloc: Global,
    conds: &mut C,
    sets: &mut HideSets,
    names: &Names,
    parts: &[Part],
    call: &Call,
) -> Result<Vec<(Cond, Hidden)>, OutOfMemory>
    requires held { (files : ℕ) × (All (IsHeldPartIn (stores (C.sets conds.old) names.now sets.old) files) parts.now
        × IsHeldCall (stores (C.sets conds.old) names.now sets.old) files call.now) }

    // In the configurations of the call the template with its arguments put in, elsewhere nothing.
    ensures is { IfOk result (λ made. (c : List ℕ) → IsConfig (C.sets conds.old).arities c → (C.sets conds.old).has call.now.cond.0 c ≡ true
        → seen_at (stores (C.sets conds.new) names.now sets.new) made.items c
        ≡ hiding (provenance_of []) (hide_at names.now sets.old call.now.hide.0) (with_space call.now.head.token.space
        (filled_in (map (λ list. seen_at (stores (C.sets conds.old) names.now sets.old) list c) call.now.expanded.items)
        (map (seen_part names.now sets.old) parts.now)))) }
    ensures none { IfOk result (λ made. (c : List ℕ) → IsConfig (C.sets conds.old).arities c → (C.sets conds.old).has call.now.cond.0 c ≡ false
        → seen_at (stores (C.sets conds.new) names.now sets.new) made.items c ≡ []) }
    ensures held { IfOk result (λ made. (files : ℕ) → All (IsHeldPartIn (stores (C.sets conds.old) names.now sets.old) files) parts.now
        → IsHeldCall (stores (C.sets conds.old) names.now sets.old) files call.now → AreHeld (stores (C.sets conds.new) names.now sets.new) files made.items) }
    ensures alike { IfOk result (λ made. (c d : List ℕ) → IsConfig (C.sets conds.old).arities c → IsConfig (C.sets conds.old).arities d
        → IsAlikeCall (C.sets conds.old) c d call.now → AreAlike (C.sets conds.new) c d made.items) }

    // at every outcome
    ensures keeps { Keeps (C.sets conds.old) (C.sets conds.new) }
    ensures sets { Extends sets.old sets.new }
{
    let filled = put_parts(alloc, conds, parts, &call.expanded, call.cond)?;
    let mut spaced = Guarded::new(alloc)?;
    put_list(
        conds,
        &mut spaced,
        &filled,
        call.cond,
        call.head.token.space,
    )?;
    let made = hide_in(alloc, sets, names, &spaced, call.hide)?;
    Ok(made)
}
