//! How large the tree of one configuration is.
ghost use Rattle.std.specs.Prelude.{◌≡◌, ◌≤◌, ◌+◌, ℕ, List, IfOk, length, take};
ghost use Rattle.c11_parsing.specs.Trees.{Tree};
ghost use Rattle.sc_model.specs.Sets.{IsConfig};
ghost use Rattle.sc_project.specs.Layout.{HasTree};
ghost use Rattle.sc_project.specs.Leaves.{leaves_in};
ghost use Rattle.sc_project.specs.Size.{size_of};
ghost use Rattle.sc_tree.specs.Reads.{Reads};

use crate::tree::{one_more, project_tree};
use sc_base::{OutOfMemory, TreeId};
use sc_presence::Conditions;
use sc_tree::{TreeView, Trees};
use std::alloc::Global;

/// How many leaves a tree has, and how many other nodes.
#[derive(Clone, Copy, Debug, PartialEq, Eq)]
pub struct TreeSize {
    pub leaves: usize,
    pub nodes: usize,
}

/// The size of the tree of one configuration. At the configuration each choice that is met has
/// exactly one branch.
pub fn tree_size<C: Conditions>(
    alloc: Global,
    conds: &C,
    trees: &Trees,
    root: TreeId,
    config: &[usize],
) -> Result<TreeSize, OutOfMemory>
    requires config { IsConfig (C.sets conds.now).arities config.now }
    requires tree { HasTree (C.sets conds.now) trees.now config.now root.0 }
    ensures { IfOk result (λ size. (names files : List (List ℕ)) (tree : Tree)
        → Reads (record { sets = C.sets conds.now; names = names; files = files; lines = trees.now }) config.now root.0 tree → size ≡ size_of tree) }
{
    let (laid, root) = project_tree(alloc, conds, trees, root, config)?;
    Ok(first_lines(&laid, one_more(root.0)?))
}

/// How many of the first trees of a store are leaves, and how many are none.
fn first_lines(trees: &Trees, count: usize) -> TreeSize
    requires { count ≤ length trees.now }
    ensures leaves { result.leaves ≡ leaves_in (take count trees.now) }
    ensures all { result.leaves + result.nodes ≡ count }
{
    let mut leaves: usize = 0;
    let mut nodes: usize = 0;
    for id in 0..count {
        match trees.read(TreeId(id)) {
            TreeView::Leaf(_, _) => leaves += 1,
            TreeView::Node(_, _) | TreeView::Choice(_) => nodes += 1,
        }
    }
    TreeSize { leaves, nodes }
}
