ghost use Rattle.std.specs.Prelude.{◌≡◌, ℕ, ◌+◌, ◌≤◌, ◌&&◌, ◌++◌, ◌∷◌, [], not, List, All, drop, length, if◌then◌else◌, IfOk, OnOk};
ghost use Rattle.sc_model.specs.Sets.{IsConfig, IsCond, Keeps};
ghost use Rattle.sc_guarded.specs.Blocks.{AreBlocks, heads};
ghost use Rattle.sc_guarded.specs.Items.{items_at};
ghost use Rattle.sc_guarded.specs.Next.{next_at, ArePartsBelow};

use crate::steps::Steps;
use sc_base::{Cond, OutOfMemory};
use sc_presence::Conditions;
use std::alloc::Global;
use std::sync::ledger::Ledger;

/// The parts of a condition by the next item of index `from` on, each with the item's index, and
/// with the length where there is none.
#[tactic(auto, using(sc_model::proofs::SetLemmas::conditions))]
pub fn next_parts<C: Conditions, T>(
    alloc: Global,
    conds: &mut C,
    items: &[(Cond, T)],
    from: usize,
    cond: Cond,
) -> Result<Vec<(Cond, usize)>, OutOfMemory>
    requires from { from ≤ length items.now }
    requires own { All (λ item. IsCond (C.sets conds.old) item.0.0) items.now }
    requires cond_own { IsCond (C.sets conds.old) cond.0 }
    ensures parts { IfOk result (λ parts. ArePartsBelow (C.sets conds.new) (length items.now + 1) parts.items) }
    ensures next { IfOk result (λ parts. (c : List ℕ) → IsConfig (C.sets conds.old).arities c
        → items_at (C.sets conds.new) parts.items c
        ≡ (if (C.sets conds.old).has cond.0 c then (from + next_at (C.sets conds.old) (drop from items.now) c) ∷ [] else [])) }

    // at every outcome
    ensures keeps { Keeps (C.sets conds.old) (C.sets conds.new) }
{
    let mut parts = Vec::new(alloc);
    let mut left = cond;
    for index in from..items.len() {
        if conds.is_never(left) {
            return Ok(parts);
        }
        let item = &items[index];
        left = take_part(conds, &mut parts, left, item.0, index)?;
    }
    if conds.is_never(left) {
        return Ok(parts);
    }
    parts.push((left, items.len()))?;
    Ok(parts)
}

/// The same parts, where the block of each item is known: a block is looked at once, since its
/// items have no configuration that its first one hasn't.
#[tactic(auto, using(sc_model::proofs::SetLemmas::conditions))]
pub fn counted_parts<C: Conditions, T, L: Ledger>(
    alloc: Global,
    conds: &mut C,
    items: &[(Cond, T)],
    ends: &[usize],
    from: usize,
    cond: Cond,
    steps: &mut Steps<L>,
) -> Result<Vec<(Cond, usize)>, OutOfMemory>
    requires from { from ≤ length items.now }
    requires own { All (λ item. IsCond (C.sets conds.old) item.0.0) items.now }
    requires cond_own { IsCond (C.sets conds.old) cond.0 }
    requires blocks { AreBlocks (C.sets conds.old) items.now ends.now }
    ensures parts { IfOk result (λ parts. ArePartsBelow (C.sets conds.new) (length items.now + 1) parts.items) }
    ensures next { IfOk result (λ parts. (c : List ℕ) → IsConfig (C.sets conds.old).arities c
        → items_at (C.sets conds.new) parts.items c
        ≡ (if (C.sets conds.old).has cond.0 c then (from + next_at (C.sets conds.old) (drop from items.now) c) ∷ [] else [])) }
    ensures counted { IfOk result (λ parts. steps.new ≡ steps.old + length (heads ends.now from parts.items)) }

    // at every outcome
    ensures keeps { Keeps (C.sets conds.old) (C.sets conds.new) }
{
    let mut parts = Vec::new(alloc);
    let mut left = cond;
    let mut index = from;
    while index < items.len() {
        if conds.is_never(left) {
            return Ok(parts);
        }
        steps.tick();
        let item = &items[index];
        left = take_part(conds, &mut parts, left, item.0, index)?;
        index = ends[index];
    }
    if conds.is_never(left) {
        return Ok(parts);
    }
    parts.push((left, items.len()))?;
    Ok(parts)
}

/// Adds the part of `left` that the item of an index takes, and gives the configurations of `left`
/// that it doesn't take.
#[tactic(auto, using(sc_model::proofs::SetLemmas::conditions))]
fn take_part<C: Conditions>(
    conds: &mut C,
    parts: &mut Vec<(Cond, usize)>,
    left: Cond,
    item: Cond,
    index: usize,
) -> Result<Cond, OutOfMemory>
    requires parts { ArePartsBelow (C.sets conds.old) index parts.old.items }
    requires left_own { IsCond (C.sets conds.old) left.0 }
    requires item_own { IsCond (C.sets conds.old) item.0 }
    ensures parts { OnOk result (ArePartsBelow (C.sets conds.new) (index + 1) parts.new.items) }
    ensures taken { OnOk result ((c : List ℕ) → IsConfig (C.sets conds.old).arities c
        → items_at (C.sets conds.new) parts.new.items c ≡ items_at (C.sets conds.old) parts.old.items c
        ++ (if (C.sets conds.old).has left.0 c && (C.sets conds.old).has item.0 c then index ∷ [] else [])) }
    ensures own { IfOk result (λ rest. IsCond (C.sets conds.new) rest.0) }
    ensures rest { IfOk result (λ rest. (c : List ℕ) → IsConfig (C.sets conds.old).arities c
        → (C.sets conds.new).has rest.0 c ≡ ((C.sets conds.old).has left.0 c && not ((C.sets conds.old).has item.0 c))) }

    // at every outcome
    ensures keeps { Keeps (C.sets conds.old) (C.sets conds.new) }
{
    let part = conds.apply_and(left, item)?;
    if conds.is_never(part) {
        return Ok(left);
    }
    parts.push((part, index))?;
    let rest = conds.apply_without(left, item)?;
    Ok(rest)
}
