//! The calls of a name, read once where all configurations have the same items of it.
ghost use Rattle.std.specs.Prelude.{◌≡◌, ℕ, ◌+◌, ◌≤◌, ◌<◌, ◌&&◌, ◌∷◌, [], true, List, All, map, length, if◌then◌else◌, IfOk, IfErr, IfSome};
ghost use Rattle.sc_model.specs.Sets.{Sets, IsConfig, IsCond, Denotes, Keeps};
ghost use Rattle.sc_hoist.specs.Branches.{lists_at, AreBranches, Refuses};
ghost use Rattle.sc_hoist.specs.Calls.{IsClosedCall, call_end_at, call_places, closed, still, bare, alone, is_end};
ghost use Rattle.sc_hoist.specs.declared.branch.Ends.TheVariants.{Closed};
ghost use Rattle.sc_hoist.specs.Leaves.{Agree};

use crate::call_branches::calls;
use crate::ending::{CallEnds, call_ends};
use crate::state::{State, role_of};
use crate::{Branch, Ends, TokenList};
use sc_base::{Cond, Names, OutOfMemory, Stop};
use sc_presence::Conditions;
use std::alloc::Global;

/// How the calls of a name go on.
#[derive(Drop)]
pub struct FoundCalls {
    pub ends: CallEnds,
    /// The indexes of the name and of its call's items, where those that close it have the same.
    pub places: Option<Vec<usize>>,
}

/// Parts the configurations of `cond` as `call_ends` does. Where all of them have the same call,
/// its places are found on the way.
pub fn find_calls<C: Conditions, L: TokenList>(
    alloc: Global,
    conds: &mut C,
    names: &Names,
    list: &L,
    at: usize,
    cond: Cond,
) -> Result<FoundCalls, OutOfMemory>
    requires at { at < length (L.tokens list.now) }
    requires own { All (λ item. IsCond (C.sets conds.old) item.0.0) (L.tokens list.now) }
    requires held { All (λ item. item.1.spelling.0 < length names.now) (L.tokens list.now) }
    requires cond_own { IsCond (C.sets conds.old) cond.0 }
    ensures closed { IfOk result (λ r. Denotes (C.sets conds.new) r.ends.closed.0 (λ c. (C.sets conds.old).has cond.0 c
        && is_end closed (call_end_at (C.sets conds.old) names.now (L.tokens list.now) at c))) }
    ensures still { IfOk result (λ r. Denotes (C.sets conds.new) r.ends.still.0 (λ c. (C.sets conds.old).has cond.0 c
        && is_end still (call_end_at (C.sets conds.old) names.now (L.tokens list.now) at c))) }
    ensures bare { IfOk result (λ r. Denotes (C.sets conds.new) r.ends.bare.0 (λ c. (C.sets conds.old).has cond.0 c
        && is_end bare (call_end_at (C.sets conds.old) names.now (L.tokens list.now) at c))) }
    ensures alone { IfOk result (λ r. Denotes (C.sets conds.new) r.ends.alone.0 (λ c. (C.sets conds.old).has cond.0 c
        && is_end alone (call_end_at (C.sets conds.old) names.now (L.tokens list.now) at c))) }
    ensures places { IfOk result (λ r. IfSome r.places (λ places. (c : List ℕ) → (C.sets conds.new).has r.ends.closed.0 c ≡ true
        → call_places (C.sets conds.new) names.now (L.tokens list.now) at c ≡ places.items)) }

    // at every outcome
    ensures keeps { Keeps (C.sets conds.old) (C.sets conds.new) }
{
    match common_places(alloc, names, list, at, cond)? {
        Some(places) => {
            let never = conds.never();
            Ok(FoundCalls {
                ends: CallEnds {
                    closed: cond,
                    still: never,
                    bare: never,
                    alone: never,
                },
                places: Some(places),
            })
        }
        None => {
            let ends = call_ends(alloc, conds, names, list, at, cond)?;
            Ok(FoundCalls { ends, places: None })
        }
    }
}

/// The branches of the calls that were found closed, as `calls` parts them.
pub fn closed_calls<C: Conditions, L: TokenList>(
    alloc: Global,
    conds: &mut C,
    names: &Names,
    list: &L,
    at: usize,
    found: FoundCalls,
    limit: usize,
) -> Result<Vec<Branch>, Stop>
    requires at { at < length (L.tokens list.now) }
    requires own { All (λ item. IsCond (C.sets conds.old) item.0.0) (L.tokens list.now) }
    requires held { All (λ item. item.1.spelling.0 < length names.now) (L.tokens list.now) }
    requires closed_own { IsCond (C.sets conds.old) found.ends.closed.0 }
    requires places { IfSome found.places (λ places. (c : List ℕ) → (C.sets conds.old).has found.ends.closed.0 c ≡ true
        → call_places (C.sets conds.old) names.now (L.tokens list.now) at c ≡ places.items) }
    ensures lists { IfOk result (λ r. (c : List ℕ) → IsConfig (C.sets conds.old).arities c → lists_at (C.sets conds.new) r.items c
        ≡ (if (C.sets conds.old).has found.ends.closed.0 c then call_places (C.sets conds.old) names.now (L.tokens list.now) at c ∷ [] else [])) }
    ensures branches { IfOk result (λ r. AreBranches (C.sets conds.new) r.items) }

    // configurations with the same call are in one branch
    ensures agree { IfOk result (λ r. (c d : List ℕ) → IsConfig (C.sets conds.old).arities c → IsConfig (C.sets conds.old).arities d
        → (C.sets conds.old).has found.ends.closed.0 c ≡ (C.sets conds.old).has found.ends.closed.0 d
        → call_places (C.sets conds.old) names.now (L.tokens list.now) at c ≡ call_places (C.sets conds.old) names.now (L.tokens list.now) at d
        → Agree (C.sets conds.new) r.items c d) }

    // the limit, exactly
    ensures few { IfOk result (λ r. length r.items ≤ limit) }
    ensures refused { IfErr result (λ stop. Refuses (C.sets conds.old) found.ends.closed.0 (λ c. call_places (C.sets conds.old) names.now (L.tokens list.now) at c) limit stop) }

    // at every outcome
    ensures keeps { Keeps (C.sets conds.old) (C.sets conds.new) }
{
    let closed = found.ends.closed;
    match found.places {
        Some(places) if limit > 0 && !conds.is_never(closed) => {
            let branches = one_branch(alloc, closed, places)?;
            Ok(branches)
        }
        _ => calls(alloc, conds, names, list, at, closed, limit),
    }
}

/// The only branch of a condition.
fn one_branch(alloc: Global, cond: Cond, places: Vec<usize>) -> Result<Vec<Branch>, OutOfMemory>
    ensures { IfOk result (λ r. r.items ≡ record { cond = cond; places = places; ends = Closed } ∷ []) }
{
    let mut branches = Vec::new(alloc);
    branches.push(Branch {
        cond,
        places,
        ends: Ends::Closed,
    })?;
    Ok(branches)
}

/// The indexes of the name that is item `at` and of its call's items, where each of these stands
/// under `cond` itself and the call is closed.
fn common_places<L: TokenList>(
    alloc: Global,
    names: &Names,
    list: &L,
    at: usize,
    cond: Cond,
) -> Result<Option<Vec<usize>>, OutOfMemory>
    requires at { at < length (L.tokens list.now) }
    requires held { All (λ item. item.1.spelling.0 < length names.now) (L.tokens list.now) }
    ensures { IfOk result (λ found. IfSome found (λ places. (s : Sets) (c : List ℕ) → s.has cond.0 c ≡ true
        → IsClosedCall s names.now (L.tokens list.now) at places.items c)) }
{
    let mut places = Vec::new(alloc);
    places.push(at)?;
    let mut state = State::Alone;
    let count = list.len();
    for index in at + 1..count {
        let item = list.item(index);
        if item.0 != cond {
            return Ok(None);
        }
        state = state.after(role_of(names, item.1));
        places.push(index)?;
        if state.is_final() {
            return Ok(where_closed(state, places));
        }
    }
    Ok(None)
}

/// The places of a call that was read to this state, where it is closed.
fn where_closed(state: State, places: Vec<usize>) -> Option<Vec<usize>>
    ensures is { IfSome result (λ r. r ≡ places) }
    ensures closed { IfSome result (λ r. state ≡ State.Closed) }
{
    match state {
        State::Closed => Some(places),
        _ => None,
    }
}
