ghost use Rattle.std.specs.Prelude.{◌≡◌, ℕ, ◌<◌, List, All, IfOk, OnOk, length};
ghost use Rattle.sc_fork.specs.Roots.{AddsChoice, AddsRoot, AreRoots, IsRoot, faults_of, root_at, trees_of};
ghost use Rattle.sc_model.specs.Growth.{Extends};
ghost use Rattle.sc_model.specs.Sets.{IsCond, Keeps};

use crate::piece::{Answer, Ended};
use sc_base::{Cond, Fault, OutOfMemory, TreeId};
use sc_presence::Conditions;
use sc_tree::Trees;
use std::alloc::Global;

/// One tree with choices for all configurations that are not refused, and why the others are.
#[derive(Drop)]
pub struct Outcome {
    pub root: Option<TreeId>,
    pub faults: Vec<Fault>,
}

/// Why the parts without a tree have none.
pub(crate) fn faults_of(alloc: Global, ended: &[Ended]) -> Result<Vec<Fault>, OutOfMemory>
    ensures { IfOk result (λ faults. faults.items ≡ faults_of ended.now) }
{
    let mut faults = Vec::new(alloc);
    for part in ended {
        let Answer::Refused(cause, place) = part.answer else {
            continue;
        };
        let cond = part.cond;
        faults.push(Fault { cond, cause, place })?;
    }
    Ok(faults)
}

/// The trees of the parts that have one, each tree once.
pub(crate) fn roots_of<C: Conditions>(
    alloc: Global,
    conds: &mut C,
    ended: &[Ended],
) -> Result<Vec<(Cond, TreeId)>, OutOfMemory>
    requires { All (λ part. IsCond (C.sets conds.old) part.cond.0) ended.now }
    ensures roots { IfOk result (λ roots. AreRoots (C.sets conds.old) (C.sets conds.new) (trees_of ended.now) roots.items) }

    // at every outcome
    ensures keeps { Keeps (C.sets conds.old) (C.sets conds.new) }
{
    let mut roots = Vec::new(alloc);
    for part in ended {
        let Answer::Root(tree) = part.answer else {
            continue;
        };
        add_root(conds, &mut roots, part.cond, tree)?;
    }
    Ok(roots)
}

/// The tree of more configurations, once.
fn add_root<C: Conditions>(
    conds: &mut C,
    roots: &mut Vec<(Cond, TreeId)>,
    cond: Cond,
    tree: TreeId,
) -> Result<(), OutOfMemory>
    requires own { IsCond (C.sets conds.old) cond.0 }
    requires roots { All (λ root. IsCond (C.sets conds.old) root.0.0) roots.old.items }
    ensures adds { OnOk result (AddsRoot (C.sets conds.old) (C.sets conds.new) cond tree roots.old.items roots.new.items) }

    // at every outcome
    ensures keeps { Keeps (C.sets conds.old) (C.sets conds.new) }
{
    match root_at(roots, tree) {
        Some(index) => {
            roots[index].0 = conds.apply_or(roots[index].0, cond)?;
            Ok(())
        }
        None => Ok(roots.push((cond, tree))?),
    }
}

/// Where the root with the tree stands.
fn root_at(roots: &[(Cond, TreeId)], tree: TreeId) -> Option<usize>
    ensures { result ≡ root_at roots.now tree.0 }
{
    roots.iter().position(|root| root.1.0 == tree.0)
}

/// The one tree, or a choice of the trees.
pub(crate) fn root_of(
    trees: &mut Trees,
    roots: &[(Cond, TreeId)],
) -> Result<Option<TreeId>, OutOfMemory>
    requires { All (λ root. root.1.0 < length trees.old) roots.now }
    ensures root { IfOk result (IsRoot trees.new roots.now) }

    // at every outcome
    ensures adds { AddsChoice roots.now trees.old trees.new }
    ensures grows { Extends trees.old trees.new }
{
    match roots {
        [] => Ok(None),
        [(_, tree)] => Ok(Some(*tree)),
        branches => Ok(Some(trees.choice(branches)?)),
    }
}
