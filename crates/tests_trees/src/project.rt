ghost use Rattle.std.specs.Prelude.{◌≡◌, ℕ, ◌+◌, not, List, [], ◌∷◌, length, IfOk};
ghost use Rattle.sc_model.specs.Sets.{Sets, IsCond};
ghost use Rattle.sc_project.specs.Layout.{HasTree};

use sc_base::{Cond, FileId, Name, OutOfMemory, Place, TreeId};
use sc_presence::{Conditions, PlainSets};
use sc_project::project_tree;
use sc_tree::{TreeView, Trees};
use std::alloc::Global;
use std::process::Abort;
use std::test::Fail;

const PLACE: Place = Place {
    file: FileId(0),
    line: 3,
    column: 5,
};

const ONCE: TreeView<'static> = TreeView::Leaf(PLACE, Name(1));

const TWICE: TreeView<'static> = TreeView::Leaf(PLACE, Name(2));

/// A node whose first child is a leaf under one condition, and under the other a node that has
/// another leaf twice. That leaf is its second child too.
fn trees_with_choice(
    alloc: Global,
    first: Cond,
    second: Cond,
) -> Result<(Trees, TreeId), OutOfMemory>
    ensures { IfOk result (λ made. (sets : Sets) (c : List ℕ) → IsCond sets first.0 → IsCond sets second.0
        → sets.has first.0 c ≡ not (sets.has second.0 c) → HasTree sets made.0 c made.1.0) }
{
    let mut trees = Trees::new(alloc);
    let once = trees.leaf(PLACE, Name(1))?;
    let twice = trees.leaf(PLACE, Name(2))?;
    let pair = trees.node(7, &[twice, twice])?;
    let either = trees.choice(&[(first, once), (second, pair)])?;
    let root = trees.node(9, &[either, twice])?;
    Ok((trees, root))
}

/// The store has these lines, of which the last is the root.
fn checks_lines(rt: &impl Abort, trees: &Trees, root: TreeId, lines: &[TreeView<'_>])
    requires { root.0 + 1 ≡ length trees.now }
{
    assert_eq!(rt; lines.len().checked_sub(1), Some(root.0));
    for (i, line) in lines.iter().enumerate() {
        assert_eq!(rt; trees.read(TreeId(i)), *line);
    }
}

/// At either option the other branch is gone, and each leaf stands once for each place.
fn checks_projections<C: Conditions>(
    rt: &impl Abort,
    alloc: Global,
    conds: &mut C,
) -> Result<(), Fail>
    requires { (C.sets conds.old).arities ≡ 2 ∷ [] }
{
    let second = conds.choose(0, 1)?;
    let first = conds.negate(second)?;
    let (trees, root) = trees_with_choice(alloc, first, second)?;
    let (one, top) = project_tree(alloc, conds, &trees, root, &[0])?;
    let node = TreeView::Node(9, &[TreeId(0), TreeId(1)]);
    checks_lines(rt, &one, top, &[ONCE, TWICE, node]);
    let (other, top) = project_tree(alloc, conds, &trees, root, &[1])?;
    let pair = TreeView::Node(7, &[TreeId(0), TreeId(1)]);
    let node = TreeView::Node(9, &[TreeId(2), TreeId(3)]);
    checks_lines(rt, &other, top, &[TWICE, TWICE, pair, TWICE, node]);
    Ok(())
}

#[test]
fn trees_of_two_configurations(rt: HostRuntime) -> Result<(), Fail> {
    checks_projections(&rt, rt.alloc(), &mut PlainSets::new(rt.alloc(), &[2])?)
}
