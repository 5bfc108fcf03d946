ghost use Rattle.std.specs.Prelude.{◌≡◌, ℕ, ◌≤◌, ◌∷◌, [], List, All, map, length, if◌then◌else◌, IfOk, IfErr};
ghost use Rattle.sc_model.specs.Sets.{IsConfig, IsCond, Keeps};
ghost use Rattle.sc_hoist.specs.declared.branch.Ends.TheVariants.{NoCall};
ghost use Rattle.sc_hoist.specs.Branches.{lists_at, AreBranches, Refuses};
ghost use Rattle.sc_hoist.specs.Places.{places_at};

use crate::partition::branches_of;
use crate::{Branch, TokenList};
use sc_base::{Cond, OutOfMemory, Stop};
use sc_presence::Conditions;
use std::alloc::Global;

/// Parts the configurations of `cond` by which items of the list they have: a branch for each
/// different list of indexes, but no more than `limit`.
pub fn lines<C: Conditions, L: TokenList>(
    alloc: Global,
    conds: &mut C,
    list: &L,
    cond: Cond,
    limit: usize,
) -> Result<Vec<Branch>, Stop>
    requires own { All (λ item. IsCond (C.sets conds.old) item.0.0) (L.tokens list.now) }
    requires cond_own { IsCond (C.sets conds.old) cond.0 }

    // At each configuration of `cond` the branches have one list, and elsewhere none.
    ensures lists { IfOk result (λ r. (c : List ℕ) → IsConfig (C.sets conds.old).arities c → lists_at (C.sets conds.new) r.items c
        ≡ (if (C.sets conds.old).has cond.0 c then places_at (C.sets conds.old) (L.tokens list.now) c ∷ [] else [])) }
    ensures branches { IfOk result (λ r. AreBranches (C.sets conds.new) r.items) }
    ensures ends { IfOk result (λ r. All (λ branch. branch.ends ≡ NoCall) r.items) }

    // the limit, exactly
    ensures few { IfOk result (λ r. length r.items ≤ limit) }
    ensures refused { IfErr result (λ stop. Refuses (C.sets conds.old) cond.0 (λ c. places_at (C.sets conds.old) (L.tokens list.now) c) limit stop) }

    // at every outcome
    ensures keeps { Keeps (C.sets conds.old) (C.sets conds.new) }
{
    let items = conditions(alloc, list)?;
    branches_of(alloc, conds, &items, 0, cond, limit)
}

/// The conditions of the items.
fn conditions<L: TokenList>(alloc: Global, list: &L) -> Result<Vec<Cond>, OutOfMemory>
    ensures { IfOk result (λ r. r.items ≡ map (λ item. item.0) (L.tokens list.now)) }
{
    let mut found = Vec::new(alloc);
    for index in 0..list.len() {
        let item = list.item(index);
        found.push(item.0)?;
    }
    Ok(found)
}
