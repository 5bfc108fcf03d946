//! The tree of one configuration, in a store of its own.
ghost use Rattle.std.specs.Prelude.{◌≡◌, ℕ, ◌+◌, List, [], ◌∷◌, ◌++◌, map, reverse, All, length, false, IfOk, OnOk};
ghost use Rattle.c11_parsing.specs.Trees.{Tree};
ghost use Rattle.sc_base.specs.declared.id.TreeId.{TreeId};
ghost use Rattle.sc_guarded.specs.Items.{items_at};
ghost use Rattle.sc_model.specs.Sets.{Sets, IsConfig, IsCond};
ghost use Rattle.sc_tree.specs.Reads.{Reads};
ghost use Rattle.sc_tree.specs.Walks.{is_choice};
ghost use Rattle.sc_project.specs.Layout.{HasTree, LaysOut};

use sc_base::{Cond, OutOfMemory, TreeId};
use sc_presence::Conditions;
use sc_tree::{TreeView, Trees};
use std::alloc::Global;

/// What is laid out next.
#[derive(Clone, Copy)]
enum Task {
    /// A tree, with all that is below it.
    Tree(TreeId),
    /// The node of a production, above the roots from this index on.
    Node(usize, usize),
}

/// The tree of one configuration, in a store of its own that has each node once for each place
/// where it occurs, children first and from left to right. At the configuration each choice that is
/// met has exactly one branch.
pub fn project_tree<C: Conditions>(
    alloc: Global,
    conds: &C,
    trees: &Trees,
    root: TreeId,
    config: &[usize],
) -> Result<(Trees, TreeId), OutOfMemory>
    requires config { IsConfig (C.sets conds.now).arities config.now }
    requires tree { HasTree (C.sets conds.now) trees.now config.now root.0 }
    ensures laid { IfOk result (λ projected. LaysOut (C.sets conds.now) trees.now config.now root.0 0 projected.0 projected.1.0) }

    // so the root is last, there are no choices, and at every configuration the tree is the same
    ensures last { IfOk result (λ projected. projected.1.0 + 1 ≡ length projected.0) }
    ensures plain { IfOk result (λ projected. All (λ line. is_choice line ≡ false) projected.0) }
    ensures reads { IfOk result (λ projected. (sets : Sets) (names files : List (List ℕ)) (c : List ℕ) (tree : Tree)
        → Reads (record { sets = C.sets conds.now; names = names; files = files; lines = trees.now }) config.now root.0 tree
        → Reads (record { sets = sets; names = names; files = files; lines = projected.0 }) c projected.1.0 tree) }
{
    trees.children_first();
    let mut laid = Trees::new(alloc);
    // the number of lines, which is the id of the next
    let mut count: usize = 0;
    let mut roots = Vec::new(alloc);
    let mut tasks = Vec::new(alloc);
    tasks.push(Task::Tree(root))?;
    while let Some(task) = tasks.pop() {
        match task {
            Task::Tree(id) => match trees.read(id) {
                TreeView::Leaf(place, spelling) => {
                    laid.leaf(place, spelling)?;
                    roots.push(TreeId(count))?;
                    count = one_more(count)?;
                }
                TreeView::Node(production, children) => {
                    tasks.push(Task::Node(production, roots.len()))?;
                    push_trees(&mut tasks, children)?;
                }
                TreeView::Choice(branches) => {
                    tasks.push(Task::Tree(chosen(conds, branches, config)))?;
                }
            },
            Task::Node(production, first) => {
                laid.node(production, &roots[first..])?;
                roots.truncate(first);
                roots.push(TreeId(count))?;
                count = one_more(count)?;
            }
        }
    }
    Ok((laid, roots[0]))
}

/// A number that can't be given is want of memory.
pub fn one_more(count: usize) -> Result<usize, OutOfMemory>
    ensures { IfOk result (λ more. more ≡ count + 1) }
{
    count.checked_add(1).ok_or(OutOfMemory)
}

/// Puts trees on the tasks, the first on top.
fn push_trees(tasks: &mut Vec<Task>, trees: &[TreeId]) -> Result<(), OutOfMemory>
    ensures { OnOk result (reverse tasks.new.items ≡ map (λ id. Task.Tree id) trees.now ++ reverse tasks.old.items) }
{
    for i in (0..trees.len()).rev() {
        tasks.push(Task::Tree(trees[i]))?;
    }
    Ok(())
}

/// The one branch whose condition has the configuration.
fn chosen<C: Conditions>(conds: &C, branches: &[(Cond, TreeId)], config: &[usize]) -> TreeId
    requires own { All (λ branch. IsCond (C.sets conds.now) branch.0.0) branches.now }
    requires config { IsConfig (C.sets conds.now).arities config.now }
    requires one { (child : TreeId) × (items_at (C.sets conds.now) branches.now config.now ≡ child ∷ []) }
    ensures { items_at (C.sets conds.now) branches.now config.now ≡ result ∷ [] }
{
    let mut i = 0;
    while !conds.holds(branches[i].0, config) {
        i += 1;
    }
    branches[i].1
}
