ghost use Rattle.std.specs.Prelude.{◌≡◌, ℕ, ◌<◌, List, All, length, slice_index, IfOk};
ghost use Rattle.sc_guarded.specs.Blocks.{IsBlock, AreBlocks};
ghost use Rattle.sc_model.specs.Sets.{IsCond, Keeps};

use sc_base::{Cond, OutOfMemory};
use sc_presence::Conditions;
use std::alloc::Global;
use std::marker::Model;

/// Where the block of each item of a list ends. The block that an item heads has the items from it
/// on, up to the first one whose condition doesn't lie within the item's own.
#[derive(Drop)]
pub struct Blocks {
    pub(crate) ends: Vec<usize>,
}

impl Model for Blocks {
    ghost use Rattle.std.specs.Prelude.{ℕ, List};

    ghost Value = { List ℕ };

    ghost view = { λ b. b.ends.items };
}

/// Where the block of each item ends.
#[tactic(auto, using(sc_model::proofs::SetLemmas::conditions))]
pub fn block_ends<C: Conditions, T>(
    alloc: Global,
    conds: &mut C,
    items: &[(Cond, T)],
) -> Result<Vec<usize>, OutOfMemory>
    requires { All (λ item. IsCond (C.sets conds.old) item.0.0) items.now }
    ensures blocks { IfOk result (λ ends. AreBlocks (C.sets conds.new) items.now ends.items) }

    // at every outcome
    ensures keeps { Keeps (C.sets conds.old) (C.sets conds.new) }
{
    let mut ends = vec![in alloc; 0; items.len()]?;
    for index in (0..items.len()).rev() {
        let end = block_end(conds, items, &ends, index)?;
        ends[index] = end;
    }
    Ok(ends)
}

/// Where the block of an item ends, by the ends of the blocks behind it.
#[tactic(auto, using(sc_model::proofs::SetLemmas::conditions))]
fn block_end<C: Conditions, T>(
    conds: &mut C,
    items: &[(Cond, T)],
    ends: &[usize],
    head: usize,
) -> Result<usize, OutOfMemory>
    requires head { head < length items.now }
    requires own { All (λ item. IsCond (C.sets conds.old) item.0.0) items.now }
    requires long { length ends.now ≡ length items.now }
    requires behind { (i : ℕ) → head < i → i < length items.now → IsBlock (C.sets conds.old) items.now i (slice_index ends.now i) }
    ensures block { IfOk result (λ end. IsBlock (C.sets conds.new) items.now head end) }

    // at every outcome
    ensures keeps { Keeps (C.sets conds.old) (C.sets conds.new) }
{
    let cond = items[head].0;
    let mut end = head + 1;
    while end < items.len() {
        let next = items[end].0;
        if next == cond {
            return Ok(ends[end]);
        }
        let outside = conds.apply_without(next, cond)?;
        if !conds.is_never(outside) {
            return Ok(end);
        }
        end = ends[end];
    }
    Ok(end)
}
