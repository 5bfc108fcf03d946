ghost use Rattle.std.specs.Prelude.{◌≡◌, ℕ, ◌+◌, ◌≤◌, ◌&&◌, ◌++◌, List, All, map, take, drop, length, IfOk};
ghost use Rattle.sc_model.specs.Sets.{IsConfig, IsCond, Keeps};

use sc_base::{Cond, OutOfMemory};
use sc_presence::Conditions;
use std::alloc::Global;

/// The conditions of the items from an index on, each met with `by`.
#[tactic(auto, using(sc_model::proofs::SetLemmas::conditions))]
pub fn meets<C: Conditions, T>(
    alloc: Global,
    conds: &mut C,
    items: &[(Cond, T)],
    from: usize,
    by: Cond,
) -> Result<Vec<Cond>, OutOfMemory>
    requires from { from ≤ length items.now }
    requires own { All (λ item. IsCond (C.sets conds.old) item.0.0) items.now }
    requires by_own { IsCond (C.sets conds.old) by.0 }
    ensures long { IfOk result (λ met. from + length met.items ≡ length items.now) }
    ensures own { IfOk result (λ met. All (λ cond. IsCond (C.sets conds.new) cond.0) met.items) }
    ensures meaning { IfOk result (λ met. (c : List ℕ) → IsConfig (C.sets conds.old).arities c
        → map (λ cond. (C.sets conds.new).has cond.0 c) met.items
        ≡ map (λ item. (C.sets conds.old).has item.0.0 c && (C.sets conds.old).has by.0 c) (drop from items.now)) }

    // at every outcome
    ensures keeps { Keeps (C.sets conds.old) (C.sets conds.new) }
{
    let mut met = Vec::new(alloc);
    for index in from..items.len() {
        let item = &items[index];
        met.push(conds.apply_and(item.0, by)?)?;
    }
    Ok(met)
}

/// Gives the items from an index on these conditions.
pub fn set_conditions<T>(items: &mut Vec<(Cond, T)>, from: usize, conds: &[Cond])
    requires { from + length conds.now ≡ length items.old.items }
    ensures conditions { map (λ item. item.0) items.new.items ≡ take from (map (λ item. item.0) items.old.items) ++ conds.now }
    ensures items { map (λ item. item.1) items.new.items ≡ map (λ item. item.1) items.old.items }
{
    for index in from..items.len() {
        items[index].0 = conds[index - from];
    }
}
