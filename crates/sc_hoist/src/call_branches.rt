ghost use Rattle.std.specs.Prelude.{◌≡◌, ℕ, ◌+◌, ◌^◌, ◌<◌, ◌≤◌, ◌∷◌, [], ◌++◌, Bool, true, List, All, map, length, if◌then◌else◌, IfOk, IfErr, OnOk};
ghost use Rattle.sc_model.specs.Sets.{IsConfig, IsCond, Keeps};
ghost use Rattle.sc_hoist.specs.Added.{Adds};
ghost use Rattle.sc_hoist.specs.Branches.{lists_at, AreBranches, Refuses};
ghost use Rattle.sc_hoist.specs.Calls.{call_end_at, call_places, ends_at, ends_of, with_ends};
ghost use Rattle.sc_hoist.specs.Leaves.{Agree, AreMet};
ghost use Rattle.sc_hoist.specs.Places.{places_from};
ghost use Rattle.sc_hoist.specs.Reading.{AreEntries, in_states, passes};

use crate::call_items::{CallItems, call_items};
use crate::partition::{branches_of, is_full};
use crate::state::Test;
use crate::states::passing;
use crate::{Branch, Ends, TokenList};
use sc_base::{Cond, Names, OutOfMemory, Stop};
use sc_presence::Conditions;
use std::alloc::Global;

/// Parts the configurations of `cond` by the call of the name that is item `at`: a branch for each
/// different list of the indexes of the name and of its call's items, but no more than `limit`.
pub fn calls<C: Conditions, L: TokenList>(
    alloc: Global,
    conds: &mut C,
    names: &Names,
    list: &L,
    at: usize,
    cond: Cond,
    limit: usize,
) -> Result<Vec<Branch>, Stop>
    requires at { at < length (L.tokens list.now) }
    requires own { All (λ item. IsCond (C.sets conds.old) item.0.0) (L.tokens list.now) }
    requires held { All (λ item. item.1.spelling.0 < length names.now) (L.tokens list.now) }
    requires cond_own { IsCond (C.sets conds.old) cond.0 }

    // At each configuration of `cond` one branch has its list and its end, and elsewhere none has.
    ensures lists { IfOk result (λ r. (c : List ℕ) → IsConfig (C.sets conds.old).arities c → lists_at (C.sets conds.new) r.items c
        ≡ (if (C.sets conds.old).has cond.0 c then call_places (C.sets conds.old) names.now (L.tokens list.now) at c ∷ [] else [])) }
    ensures ends { IfOk result (λ r. (c : List ℕ) → IsConfig (C.sets conds.old).arities c → ends_at (C.sets conds.new) r.items c
        ≡ (if (C.sets conds.old).has cond.0 c then ends_of (call_end_at (C.sets conds.old) names.now (L.tokens list.now) at c) ∷ [] else [])) }
    ensures branches { IfOk result (λ r. AreBranches (C.sets conds.new) r.items) }

    // configurations with the same call are in one branch
    ensures agree { IfOk result (λ r. (c d : List ℕ) → IsConfig (C.sets conds.old).arities c → IsConfig (C.sets conds.old).arities d
        → (C.sets conds.old).has cond.0 c ≡ (C.sets conds.old).has cond.0 d
        → call_places (C.sets conds.old) names.now (L.tokens list.now) at c ≡ call_places (C.sets conds.old) names.now (L.tokens list.now) at d
        → Agree (C.sets conds.new) r.items c d) }

    // the limit, exactly
    ensures few { IfOk result (λ r. length r.items ≤ limit) }
    ensures refused { IfErr result (λ stop. Refuses (C.sets conds.old) cond.0 (λ c. call_places (C.sets conds.old) names.now (L.tokens list.now) at c) limit stop) }

    // at every outcome
    ensures keeps { Keeps (C.sets conds.old) (C.sets conds.new) }
{
    conds.has_options();
    let read = call_items(alloc, conds, names, list, at, cond)?;
    let mut branches = Vec::new(alloc);
    add_branches(
        alloc,
        conds,
        &mut branches,
        &read,
        at,
        Test::IsClosed,
        Ends::Closed,
        limit,
    )?;
    add_branches(
        alloc,
        conds,
        &mut branches,
        &read,
        at,
        Test::IsStill,
        Ends::Still,
        limit,
    )?;
    add_branches(
        alloc,
        conds,
        &mut branches,
        &read,
        at,
        Test::IsNoCall,
        Ends::NoCall,
        limit,
    )?;
    if is_full(&branches, limit) {
        return Err(Stop::BranchesFull { count: limit + 1 });
    }
    Ok(branches)
}

/// Adds the branches of the configurations whose state passes a test, with these ends.
fn add_branches<C: Conditions>(
    alloc: Global,
    conds: &mut C,
    branches: &mut Vec<Branch>,
    read: &CallItems,
    at: usize,
    test: Test,
    ends: Ends,
    limit: usize,
) -> Result<(), Stop>
    requires places { at + length read.now.conds.items < 2 ^ 64 }
    requires own { All (λ item. IsCond (C.sets conds.old) item.0) read.now.conds.items }
    requires states_own { AreEntries (C.sets conds.old) read.now.states.items }
    requires met { AreMet (C.sets conds.old) branches.old.items }
    ensures added { OnOk result (Adds (C.sets conds.old) (C.sets conds.new) read.now.states.items (passes test) at read.now.conds.items ends branches.old.items branches.new.items) }
    ensures refused { IfErr result (λ stop. (cond : ℕ) → ((c : List ℕ) → IsConfig (C.sets conds.old).arities c
        → in_states (C.sets conds.old) read.now.states.items (passes test) c ≡ true → (C.sets conds.old).has cond c ≡ true)
        → Refuses (C.sets conds.old) cond (λ c. places_from (C.sets conds.old) at read.now.conds.items c) limit stop) }

    // at every outcome
    ensures keeps { Keeps (C.sets conds.old) (C.sets conds.new) }
{
    let cond = passing(conds, &read.states, test)?;
    let found = branches_of(alloc, conds, &read.conds, at, cond, limit)?;
    push_all(branches, found, ends)?;
    Ok(())
}

/// Adds the branches, whose calls end in this way.
fn push_all(branches: &mut Vec<Branch>, found: Vec<Branch>, ends: Ends) -> Result<(), OutOfMemory>
    ensures { OnOk result (branches.new.items ≡ branches.old.items ++ map (with_ends ends) found.items) }
{
    for branch in found {
        let Branch { cond, places, .. } = branch;
        branches.push(Branch { cond, places, ends })?;
    }
    Ok(())
}
