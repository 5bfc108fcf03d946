//! The different lists of tokens that the configurations have in one list.
ghost use Rattle.std.specs.Prelude.{◌≡◌, ℕ, ◌<◌, All, Bool, List, [], ◌∷◌, IfErr, IfOk, length, map, true, if◌then◌else◌};
ghost use Rattle.sc_base.specs.declared.token.Token as base;
ghost use Rattle.sc_base.specs.Seen.{IsHeld};
ghost use Rattle.sc_expand.specs.Stops.{StopsBy};
ghost use Rattle.sc_guarded.specs.Items.{items_at};
ghost use Rattle.sc_hoist.specs.Places.{places_at};
ghost use Rattle.sc_if.specs.Decided.{tokens_at};
ghost use Rattle.sc_model.specs.Sets.{IsCond, IsConfig, IsNever, Keeps};
ghost use Rattle.sc_prep.specs.Alternatives.{EachToken, OwnsEach, alternative_tokens, branch_tokens, tokens_in};
ghost use Rattle.sc_prep.specs.Footprints.{StopsByLists};

use sc_base::{Cond, OutOfMemory, Stop, Token};
use sc_guarded::Guarded;
use sc_hoist::{Branch, lines};
use sc_presence::Conditions;
use std::alloc::Global;

/// Configurations that have the same tokens.
#[derive(Drop)]
pub struct Alternative {
    pub cond: Cond,
    pub tokens: Vec<Token>,
}

/// Parts the configurations of `cond` by the tokens that they have in the list.
#[tactic(auto, using(sc_model::proofs::SetLemmas::conditions))]
pub fn alternatives<C: Conditions>(
    alloc: Global,
    conds: &mut C,
    list: &Guarded<Token>,
    cond: Cond,
    limit: usize,
) -> Result<Vec<Alternative>, Stop>
    requires list_own { All (λ item. IsCond (C.sets conds.old) item.0.0) list.now }
    requires cond_own { IsCond (C.sets conds.old) cond.0 }
    ensures at { IfOk result (λ r. (c : List ℕ) → IsConfig (C.sets conds.old).arities c → tokens_in (C.sets conds.new) r.items c
        ≡ (if (C.sets conds.old).has cond.0 c then items_at (C.sets conds.old) list.now c ∷ [] else [])) }
    ensures own { IfOk result (λ r. OwnsEach (C.sets conds.new) r.items) }
    ensures some { IfOk result (λ r. All (λ a. IsNever (C.sets conds.new) a.cond.0 → ⊥) r.items) }
    ensures held { IfOk result (λ r. (names : List (List ℕ)) → All (λ item. IsHeld names item.1) list.now → EachToken (IsHeld names) r.items) }
    ensures passed { IfOk result (λ r. (test : base.Token → Bool) → All (λ item. test item.1 ≡ true) list.now → EachToken (λ t. test t ≡ true) r.items) }
    ensures stops { IfErr result (StopsBy (C.sets conds.old).arities limit) }
    ensures lists { IfErr result (StopsByLists (C.sets conds.old).arities (λ c. (C.sets conds.old).has cond.0 c)
        (λ c. places_at (C.sets conds.old) list.now c) limit) }

    // at every outcome
    ensures keeps { Keeps (C.sets conds.old) (C.sets conds.new) }
{
    let branches = lines(alloc, conds, list, cond, limit)?;
    let alternatives = of_branches(alloc, list, &branches)?;
    Ok(alternatives)
}

/// The tokens of each branch of a list.
fn of_branches(
    alloc: Global,
    list: &Guarded<Token>,
    branches: &[Branch],
) -> Result<Vec<Alternative>, OutOfMemory>
    requires { All (λ branch. All (λ place. place < length list.now) branch.places.items) branches.now }
    ensures { IfOk result (λ r. map alternative_tokens r.items ≡ map (branch_tokens list.now) branches.now) }
{
    let mut alternatives = Vec::new(alloc);
    for branch in branches {
        let tokens = tokens_at(alloc, list, &branch.places)?;
        alternatives.push(Alternative {
            cond: branch.cond,
            tokens,
        })?;
    }
    Ok(alternatives)
}

/// The tokens of a list at these indexes.
fn tokens_at(
    alloc: Global,
    list: &Guarded<Token>,
    places: &[usize],
) -> Result<Vec<Token>, OutOfMemory>
    requires { All (λ place. place < length list.now) places.now }
    ensures { IfOk result (λ tokens. tokens.items ≡ tokens_at list.now places.now) }
{
    let mut tokens = Vec::new(alloc);
    for place in places {
        let (_, token) = list.item(*place);
        tokens.push(*token)?;
    }
    Ok(tokens)
}
