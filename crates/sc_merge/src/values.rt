ghost use Rattle.std.specs.Prelude.{◌≡◌, ◌<◌, Some, length, map, is_some, IfOk, IfSome};
ghost use Rattle.sc_merge.specs.Merges.{AddsChoices, KeepsValue, KeepValues, OwnsValues};
ghost use Rattle.sc_model.specs.Growth.{Extends};

use sc_base::{Cond, OutOfMemory, TreeId};
use sc_tree::Trees;
use std::alloc::Global;

/// For each frame the tree on both sides, where there is one: a choice if the two differ.
pub(crate) fn merged_values(
    alloc: Global,
    trees: &mut Trees,
    here: Cond,
    left: &[Option<TreeId>],
    there: Cond,
    right: &[Option<TreeId>],
) -> Result<Vec<Option<TreeId>>, OutOfMemory>
    requires left_own { OwnsValues (length trees.old) left.now }
    requires right_own { OwnsValues (length trees.old) right.now }
    requires silent { map is_some left.now ≡ map is_some right.now }
    ensures own { IfOk result (λ merged. OwnsValues (length trees.new) merged.items) }
    ensures left { IfOk result (λ merged. KeepValues trees.old trees.new here there left.now merged.items) }
    ensures right { IfOk result (λ merged. KeepValues trees.old trees.new there here right.now merged.items) }

    // at every outcome
    ensures adds { AddsChoices here there trees.old trees.new }
    ensures grows { Extends trees.old trees.new }
{
    let mut merged = Vec::new(alloc);
    for (i, value) in left.iter().enumerate() {
        merged.push(merged_value(trees, here, *value, there, right[i])?)?;
    }
    Ok(merged)
}

fn merged_value(
    trees: &mut Trees,
    here: Cond,
    left: Option<TreeId>,
    there: Cond,
    right: Option<TreeId>,
) -> Result<Option<TreeId>, OutOfMemory>
    requires left_own { IfSome left (λ id. id.0 < length trees.old) }
    requires right_own { IfSome right (λ id. id.0 < length trees.old) }
    requires silent { is_some left ≡ is_some right }
    ensures own { IfOk result (λ merged. IfSome merged (λ id. id.0 < length trees.new)) }
    ensures left { IfOk result (λ merged. KeepsValue trees.old trees.new here there left merged) }
    ensures right { IfOk result (λ merged. KeepsValue trees.old trees.new there here right merged) }

    // at every outcome
    ensures adds { AddsChoices here there trees.old trees.new }
    ensures grows { Extends trees.old trees.new }
{
    match left {
        None => Ok(None),
        Some(left) => match right {
            None => Ok(Some(left)),
            Some(right) => Ok(Some(merged_tree(trees, here, left, there, right)?)),
        },
    }
}

fn merged_tree(
    trees: &mut Trees,
    here: Cond,
    left: TreeId,
    there: Cond,
    right: TreeId,
) -> Result<TreeId, OutOfMemory>
    requires left_own { left.0 < length trees.old }
    requires right_own { right.0 < length trees.old }
    ensures own { IfOk result (λ merged. merged.0 < length trees.new) }
    ensures left { IfOk result (λ merged. KeepsValue trees.old trees.new here there (Some left) (Some merged)) }
    ensures right { IfOk result (λ merged. KeepsValue trees.old trees.new there here (Some right) (Some merged)) }

    // at every outcome
    ensures adds { AddsChoices here there trees.old trees.new }
    ensures grows { Extends trees.old trees.new }
{
    if left == right {
        return Ok(left);
    }
    trees.choice(&[(here, left), (there, right)])
}
