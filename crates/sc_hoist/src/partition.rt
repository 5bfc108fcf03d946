ghost use Rattle.std.specs.Prelude.{◌≡◌, ℕ, ◌+◌, ◌^◌, ◌<◌, ◌≤◌, ◌↔◌, ◌∷◌, [], List, All, length, if◌then◌else◌, IsTrue, IfOk, IfErr};
ghost use Rattle.sc_model.specs.Sets.{IsConfig, IsCond, Keeps};
ghost use Rattle.sc_hoist.specs.declared.branch.Ends.TheVariants.{NoCall};
ghost use Rattle.sc_hoist.specs.Branches.{lists_at, AreBranches, Refuses};
ghost use Rattle.sc_hoist.specs.Leaves.{Agree};
ghost use Rattle.sc_hoist.specs.Places.{places_from};

use crate::Branch;
use crate::division::{divide_all, undivided};
use sc_base::{Cond, Stop};
use sc_presence::Conditions;
use std::alloc::Global;

/// Parts the configurations of `cond` by which of the items with these conditions they have. The
/// first item's place is `from`.
pub fn branches_of<C: Conditions>(
    alloc: Global,
    conds: &mut C,
    items: &[Cond],
    from: usize,
    cond: Cond,
    limit: usize,
) -> Result<Vec<Branch>, Stop>
    requires own { All (λ item. IsCond (C.sets conds.old) item.0) items.now }
    requires cond_own { IsCond (C.sets conds.old) cond.0 }
    requires places { from + length items.now < 2 ^ 64 }
    ensures lists { IfOk result (λ r. (c : List ℕ) → IsConfig (C.sets conds.old).arities c → lists_at (C.sets conds.new) r.items c
        ≡ (if (C.sets conds.old).has cond.0 c then places_from (C.sets conds.old) from items.now c ∷ [] else [])) }
    ensures branches { IfOk result (λ r. AreBranches (C.sets conds.new) r.items) }
    ensures ends { IfOk result (λ r. All (λ branch. branch.ends ≡ NoCall) r.items) }
    ensures agree { IfOk result (λ r. (c d : List ℕ) → IsConfig (C.sets conds.old).arities c → IsConfig (C.sets conds.old).arities d
        → (C.sets conds.old).has cond.0 c ≡ (C.sets conds.old).has cond.0 d
        → places_from (C.sets conds.old) from items.now c ≡ places_from (C.sets conds.old) from items.now d → Agree (C.sets conds.new) r.items c d) }
    ensures few { IfOk result (λ r. length r.items ≤ limit) }
    ensures refused { IfErr result (λ stop. Refuses (C.sets conds.old) cond.0 (λ c. places_from (C.sets conds.old) from items.now c) limit stop) }

    // at every outcome
    ensures keeps { Keeps (C.sets conds.old) (C.sets conds.new) }
{
    conds.has_options();
    let mut branches = undivided(alloc, conds, cond)?;
    for index in 0..items.len() {
        if is_full(&branches, limit) {
            return Err(Stop::BranchesFull { count: limit + 1 });
        }
        branches = divide_all(alloc, conds, branches, items[index], from + index)?;
    }
    if is_full(&branches, limit) {
        return Err(Stop::BranchesFull { count: limit + 1 });
    }
    Ok(branches)
}

/// Whether there are more branches than the limit.
pub fn is_full(branches: &[Branch], limit: usize) -> bool
    ensures { IsTrue result ↔ limit < length branches.now }
{
    branches.len() > limit
}
