ghost use Rattle.std.specs.Prelude.{◌≡◌, ℕ, ◌++◌, ◌∷◌, [], List, All, map, if◌then◌else◌, IfOk, OnOk};
ghost use Rattle.sc_model.specs.Sets.{IsConfig, IsCond, Keeps, IsNever};
ghost use Rattle.sc_hoist.specs.Branches.{lists_at};
ghost use Rattle.sc_hoist.specs.declared.branch.Ends.TheVariants.{NoCall};
ghost use Rattle.sc_hoist.specs.Leaves.{AreLeaves, Agree, placed};

use crate::{Branch, Ends};
use sc_base::{Cond, OutOfMemory};
use sc_presence::Conditions;
use std::alloc::Global;

/// Parts each branch by an item: the configurations that have it get its place.
pub fn divide_all<C: Conditions>(
    alloc: Global,
    conds: &mut C,
    branches: Vec<Branch>,
    item: Cond,
    place: usize,
) -> Result<Vec<Branch>, OutOfMemory>
    requires leaves { AreLeaves (C.sets conds.old) branches.items }
    requires item_own { IsCond (C.sets conds.old) item.0 }
    ensures leaves { IfOk result (λ r. AreLeaves (C.sets conds.new) r.items) }
    ensures lists { IfOk result (λ r. (c : List ℕ) → IsConfig (C.sets conds.old).arities c
        → lists_at (C.sets conds.new) r.items c ≡ map (placed ((C.sets conds.old).has item.0 c) place) (lists_at (C.sets conds.old) branches.items c)) }
    ensures agree { IfOk result (λ r. (c d : List ℕ) → IsConfig (C.sets conds.old).arities c → IsConfig (C.sets conds.old).arities d
        → (C.sets conds.old).has item.0 c ≡ (C.sets conds.old).has item.0 d
        → Agree (C.sets conds.old) branches.items c d → Agree (C.sets conds.new) r.items c d) }

    // at every outcome
    ensures keeps { Keeps (C.sets conds.old) (C.sets conds.new) }
{
    let mut divided = Vec::new(alloc);
    for branch in branches {
        divide(conds, &mut divided, branch, item, place)?;
    }
    Ok(divided)
}

/// Adds the configurations of a branch that lack an item, and those that have it with its place.
fn divide<C: Conditions>(
    conds: &mut C,
    divided: &mut Vec<Branch>,
    branch: Branch,
    item: Cond,
    place: usize,
) -> Result<(), OutOfMemory>
    requires leaves { AreLeaves (C.sets conds.old) divided.old.items }
    requires branch { AreLeaves (C.sets conds.old) (branch ∷ []) }
    requires item_own { IsCond (C.sets conds.old) item.0 }
    ensures leaves { OnOk result (AreLeaves (C.sets conds.new) divided.new.items) }
    ensures lists { OnOk result ((c : List ℕ) → IsConfig (C.sets conds.old).arities c
        → lists_at (C.sets conds.new) divided.new.items c ≡ lists_at (C.sets conds.old) divided.old.items c
        ++ map (placed ((C.sets conds.old).has item.0 c) place) (lists_at (C.sets conds.old) (branch ∷ []) c)) }
    ensures agree { OnOk result ((c d : List ℕ) → IsConfig (C.sets conds.old).arities c → IsConfig (C.sets conds.old).arities d
        → (C.sets conds.old).has item.0 c ≡ (C.sets conds.old).has item.0 d
        → Agree (C.sets conds.old) (branch ∷ []) c d
        → Agree (C.sets conds.old) divided.old.items c d → Agree (C.sets conds.new) divided.new.items c d) }

    // at every outcome
    ensures keeps { Keeps (C.sets conds.old) (C.sets conds.new) }
{
    let Branch {
        cond,
        mut places,
        ..
    } = branch;
    let having = conds.apply_and(cond, item)?;
    if conds.is_never(having) {
        divided.push(without_call(cond, places))?;
        return Ok(());
    }
    let lacking = conds.apply_without(cond, item)?;
    add_branch(conds, divided, lacking, &places)?;
    places.push(place)?;
    divided.push(without_call(having, places))?;
    Ok(())
}

fn without_call(cond: Cond, places: Vec<usize>) -> Branch
    ensures cond { result.cond ≡ cond }
    ensures places { result.places ≡ places }
    ensures ends { result.ends ≡ NoCall }
{
    Branch {
        cond,
        places,
        ends: Ends::NoCall,
    }
}

/// Adds a branch with a copy of the places, unless no configuration has the condition.
fn add_branch<C: Conditions>(
    conds: &C,
    divided: &mut Vec<Branch>,
    cond: Cond,
    places: &[usize],
) -> Result<(), OutOfMemory>
    requires leaves { AreLeaves (C.sets conds.now) divided.old.items }
    requires own { IsCond (C.sets conds.now) cond.0 }
    ensures leaves { OnOk result (AreLeaves (C.sets conds.now) divided.new.items) }
    ensures lists { OnOk result ((c : List ℕ) → IsConfig (C.sets conds.now).arities c
        → lists_at (C.sets conds.now) divided.new.items c ≡ lists_at (C.sets conds.now) divided.old.items c
        ++ (if (C.sets conds.now).has cond.0 c then places.now ∷ [] else [])) }
    ensures agree { OnOk result ((c d : List ℕ) → (C.sets conds.now).has cond.0 c ≡ (C.sets conds.now).has cond.0 d
        → Agree (C.sets conds.now) divided.old.items c d → Agree (C.sets conds.now) divided.new.items c d) }
{
    if conds.is_never(cond) {
        return Ok(());
    }
    let copy = Vec::from_slice(*divided.allocator(), places)?;
    divided.push(without_call(cond, copy))?;
    Ok(())
}

/// The one branch of a condition before any item was looked at, or none where nothing has it.
pub fn undivided<C: Conditions>(
    alloc: Global,
    conds: &C,
    cond: Cond,
) -> Result<Vec<Branch>, OutOfMemory>
    requires { IsCond (C.sets conds.now) cond.0 }
    ensures leaves { IfOk result (λ r. AreLeaves (C.sets conds.now) r.items) }
    ensures lists { IfOk result (λ r. (c : List ℕ) → IsConfig (C.sets conds.now).arities c
        → lists_at (C.sets conds.now) r.items c ≡ (if (C.sets conds.now).has cond.0 c then [] ∷ [] else [])) }
    ensures agree { IfOk result (λ r. (c d : List ℕ) → (C.sets conds.now).has cond.0 c ≡ (C.sets conds.now).has cond.0 d
        → Agree (C.sets conds.now) r.items c d) }
{
    let mut branches = Vec::new(alloc);
    add_branch(conds, &mut branches, cond, &[])?;
    Ok(branches)
}
