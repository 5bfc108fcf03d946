//! Walks down trees, in all configurations at once: a tree that several branches share is visited
//! once.
ghost use Rattle.std.specs.Prelude.{◌≡◌, ℕ, ◌<◌, ◌==◌, ◌&&◌, ◌||◌, List, [], Some, All, IsSome, length, map, reverse, IfOk, OnOk};
ghost use Rattle.std.specs.BTreeMap.{get, keys};
ghost use Rattle.std.specs.Ordering.{nat_cmp};
ghost use Rattle.sc_base.specs.declared.id.Cond.{Cond};
ghost use Rattle.sc_base.specs.declared.id.TreeId.{TreeId};
ghost use Rattle.sc_guarded.specs.Items.{items_at};
ghost use Rattle.sc_model.specs.Sets.{IsConfig, IsCond, Keeps};
ghost use Rattle.sc_tree.specs.Lines.{children_of, branches_of, ChildrenFirst, OwnsBranches};
ghost use Rattle.sc_tree.specs.Views.{line_of};
ghost use Rattle.sc_tree.specs.Walks.{child_by, child_of, has_at, is_among, Walked, Visits, OwnsWaiting};

use crate::line::Line;
use crate::production::{Route, child};
use sc_base::{Cond, OutOfMemory, TreeId};
use sc_presence::Conditions;
use std::alloc::Global;
use std::collections::BTreeMap;

/// The trees that walks from the starts pass, in order, each with the configurations whose walk
/// does. At each configuration there is one start or none.
pub(crate) fn walk<C: Conditions>(
    alloc: Global,
    conds: &mut C,
    lines: &[Line],
    route: Route,
    starts: &[(Cond, TreeId)],
) -> Result<Vec<(Cond, TreeId)>, OutOfMemory>
    requires first { ChildrenFirst (map line_of lines.now) }
    requires branches { OwnsBranches (C.sets conds.old) (map line_of lines.now) }
    requires own { All (λ start. IsCond (C.sets conds.old) start.0.0) starts.now }
    requires within { All (λ start. start.1.0 < length lines.now) starts.now }
    ensures passed { IfOk result (λ passed. (c : List ℕ) → IsConfig (C.sets conds.old).arities c → (path : List TreeId)
        → Walked (child_by route) (C.sets conds.old) (map line_of lines.now) c (items_at (C.sets conds.old) starts.now c) path
        → items_at (C.sets conds.new) passed.items c ≡ path) }
    ensures own { IfOk result (λ passed. All (λ tree. IsCond (C.sets conds.new) tree.0.0) passed.items) }
    ensures within { IfOk result (λ passed. All (λ tree. tree.1.0 < length lines.now) passed.items) }

    // at every outcome
    ensures keeps { Keeps (C.sets conds.old) (C.sets conds.new) }
{
    let mut waiting = BTreeMap::new(alloc);
    let always = conds.always();
    open_branches(conds, &mut waiting, always, starts)?;
    let mut passed = Vec::new(alloc);
    while let Some((id, cond)) = waiting.pop_last() {
        let line = &lines[id];
        visit(
            conds,
            &mut waiting,
            &mut passed,
            route,
            line,
            cond,
            TreeId(id),
        )?;
    }
    Ok(passed)
}

/// The trees that walks from the starts pass, as `walk` has them, but the last one first.
pub(crate) fn walk_back<C: Conditions>(
    alloc: Global,
    conds: &mut C,
    lines: &[Line],
    route: Route,
    starts: &[(Cond, TreeId)],
) -> Result<Vec<(Cond, TreeId)>, OutOfMemory>
    requires first { ChildrenFirst (map line_of lines.now) }
    requires branches { OwnsBranches (C.sets conds.old) (map line_of lines.now) }
    requires own { All (λ start. IsCond (C.sets conds.old) start.0.0) starts.now }
    requires within { All (λ start. start.1.0 < length lines.now) starts.now }
    ensures passed { IfOk result (λ passed. (c : List ℕ) → IsConfig (C.sets conds.old).arities c → (path : List TreeId)
        → Walked (child_by route) (C.sets conds.old) (map line_of lines.now) c (items_at (C.sets conds.old) starts.now c) path
        → items_at (C.sets conds.new) passed.items c ≡ reverse path) }
    ensures own { IfOk result (λ passed. All (λ tree. IsCond (C.sets conds.new) tree.0.0) passed.items) }
    ensures within { IfOk result (λ passed. All (λ tree. tree.1.0 < length lines.now) passed.items) }

    // at every outcome
    ensures keeps { Keeps (C.sets conds.old) (C.sets conds.new) }
{
    let mut passed = walk(alloc, conds, lines, route, starts)?;
    passed.reverse();
    Ok(passed)
}

/// The configurations of the condition have come to a tree, and walk on from it.
fn visit<C: Conditions>(
    conds: &mut C,
    waiting: &mut BTreeMap<usize, Cond>,
    passed: &mut Vec<(Cond, TreeId)>,
    route: Route,
    line: &Line,
    cond: Cond,
    id: TreeId,
) -> Result<(), OutOfMemory>
    requires own { IsCond (C.sets conds.old) cond.0 }
    requires branches { All (λ branch. IsCond (C.sets conds.old) branch.0.0) (branches_of (line_of line.now)) }
    requires waiting { OwnsWaiting (C.sets conds.old) (get nat_cmp waiting.old) }
    requires passed { All (λ tree. IsCond (C.sets conds.old) tree.0.0) passed.old.items }
    ensures visits { OnOk result ((c : List ℕ) → IsConfig (C.sets conds.old).arities c
        → Visits (child_by route) (C.sets conds.old) (C.sets conds.new) (line_of line.now) cond id (get nat_cmp waiting.old) (get nat_cmp waiting.new) passed.old.items passed.new.items c) }
    ensures own { OnOk result (OwnsWaiting (C.sets conds.new) (get nat_cmp waiting.new)) }
    ensures below { OnOk result ((bound : ℕ) → All (λ n. n < bound) (keys waiting.old) → All (λ child. child.0 < bound) (children_of (line_of line.now))
        → All (λ n. n < bound) (keys waiting.new)) }
    ensures passed_own { OnOk result (All (λ tree. IsCond (C.sets conds.new) tree.0.0) passed.new.items) }
    ensures passed_within { OnOk result ((bound : ℕ) → All (λ tree. tree.1.0 < bound) passed.old.items → id.0 < bound → All (λ tree. tree.1.0 < bound) passed.new.items) }

    // at every outcome
    ensures keeps { Keeps (C.sets conds.old) (C.sets conds.new) }
{
    if let Line::Choice(branches) = line {
        return open_branches(conds, waiting, cond, branches);
    }
    passed.push((cond, id))?;
    match child_of(route, line) {
        Some(child) => open_tree(conds, waiting, cond, child),
        None => Ok(()),
    }
}

/// The child to which the walk goes on.
fn child_of(route: Route, line: &Line) -> Option<TreeId>
    ensures { result ≡ child_of (child_by route) (line_of line.now) }
{
    let Line::Node(production, children) = line else {
        return None;
    };
    let next = child(route, *production)?;
    children.get(next).copied()
}

/// The configurations of the condition walk on to their branches.
fn open_branches<C: Conditions>(
    conds: &mut C,
    waiting: &mut BTreeMap<usize, Cond>,
    cond: Cond,
    branches: &[(Cond, TreeId)],
) -> Result<(), OutOfMemory>
    requires own { IsCond (C.sets conds.old) cond.0 }
    requires branches { All (λ branch. IsCond (C.sets conds.old) branch.0.0) branches.now }
    requires waiting { OwnsWaiting (C.sets conds.old) (get nat_cmp waiting.old) }
    ensures opens { OnOk result ((c : List ℕ) → IsConfig (C.sets conds.old).arities c → (n : ℕ)
        → has_at (C.sets conds.new) (get nat_cmp waiting.new n) c
        ≡ (has_at (C.sets conds.old) (get nat_cmp waiting.old n) c
        || ((C.sets conds.old).has cond.0 c && is_among n (items_at (C.sets conds.old) branches.now c)))) }
    ensures own { OnOk result (OwnsWaiting (C.sets conds.new) (get nat_cmp waiting.new)) }
    ensures below { OnOk result ((bound : ℕ) → All (λ n. n < bound) (keys waiting.old) → All (λ branch. branch.1.0 < bound) branches.now
        → All (λ n. n < bound) (keys waiting.new)) }

    // at every outcome
    ensures keeps { Keeps (C.sets conds.old) (C.sets conds.new) }
{
    for branch in branches {
        let part = conds.apply_and(cond, branch.0)?;
        open_tree(conds, waiting, part, branch.1)?;
    }
    Ok(())
}

/// The configurations of the condition walk on to the tree.
fn open_tree<C: Conditions>(
    conds: &mut C,
    waiting: &mut BTreeMap<usize, Cond>,
    cond: Cond,
    id: TreeId,
) -> Result<(), OutOfMemory>
    requires own { IsCond (C.sets conds.old) cond.0 }
    requires waiting { OwnsWaiting (C.sets conds.old) (get nat_cmp waiting.old) }
    ensures opens { OnOk result ((c : List ℕ) → IsConfig (C.sets conds.old).arities c → (n : ℕ)
        → has_at (C.sets conds.new) (get nat_cmp waiting.new n) c
        ≡ (has_at (C.sets conds.old) (get nat_cmp waiting.old n) c || (n == id.0 && (C.sets conds.old).has cond.0 c))) }
    ensures own { OnOk result (OwnsWaiting (C.sets conds.new) (get nat_cmp waiting.new)) }
    ensures below { OnOk result ((bound : ℕ) → All (λ n. n < bound) (keys waiting.old) → id.0 < bound → All (λ n. n < bound) (keys waiting.new)) }

    // at every outcome
    ensures keeps { Keeps (C.sets conds.old) (C.sets conds.new) }
{
    let others = waiting.get(&id.0).copied();
    let all = joined(conds, others, cond)?;
    waiting.insert(id.0, all)?;
    Ok(())
}

/// The configurations of both conditions, where there are two.
fn joined<C: Conditions>(
    conds: &mut C,
    others: Option<Cond>,
    cond: Cond,
) -> Result<Cond, OutOfMemory>
    requires own { IsCond (C.sets conds.old) cond.0 }
    requires others { (other : Cond) → others ≡ Some other → IsCond (C.sets conds.old) other.0 }
    ensures own { IfOk result (λ r. IsCond (C.sets conds.new) r.0) }
    ensures has { IfOk result (λ r. (c : List ℕ) → IsConfig (C.sets conds.old).arities c
        → (C.sets conds.new).has r.0 c ≡ (has_at (C.sets conds.old) others c || (C.sets conds.old).has cond.0 c)) }

    // at every outcome
    ensures keeps { Keeps (C.sets conds.old) (C.sets conds.new) }
{
    match others {
        Some(other) => conds.apply_or(other, cond),
        None => Ok(cond),
    }
}
