ghost use Rattle.std.specs.Prelude.{◌≡◌, ◌∷◌, []};

use sc_base::{Cond, FileId, Name, Place};
use sc_presence::{Conditions, PlainSets};
use sc_tree::{TreeView, Trees};
use std::alloc::Global;
use std::process::Abort;
use std::test::Fail;

const PLACE: Place = Place {
    file: FileId(0),
    line: 3,
    column: 5,
};

/// An array declarator, whose first child is a declarator (C11 6.7.6).
const ARRAY_DECLARATOR: usize = 161;

#[test]
fn a_node_has_its_production_and_children(rt: HostRuntime) -> Result<(), Fail> {
    let mut trees = Trees::new(rt.alloc());
    let left = trees.leaf(PLACE, Name(2))?;
    let right = trees.leaf(PLACE, Name(1))?;
    let node = trees.node(7, &[right, left])?;
    assert_eq!(rt; trees.read(left), TreeView::Leaf(PLACE, Name(2)));
    assert_eq!(rt; trees.read(node), TreeView::Node(7, &[right, left]));
    Ok(())
}

#[test]
fn a_choice_has_its_branches(rt: HostRuntime) -> Result<(), Fail> {
    let mut trees = Trees::new(rt.alloc());
    let one = trees.leaf(PLACE, Name(2))?;
    let two = trees.node(7, &[])?;
    let branches = [(Cond(3), two), (Cond(2), one)];
    let choice = trees.choice(&branches)?;
    assert_eq!(rt; trees.read(choice), TreeView::Choice(&branches));
    Ok(())
}

#[test]
fn equal_trees_are_shared(rt: HostRuntime) -> Result<(), Fail> {
    let mut trees = Trees::new(rt.alloc());
    let leaf = trees.shared_leaf(PLACE, Name(2))?;
    let node = trees.shared_node(7, &[leaf])?;
    assert_eq!(rt; trees.shared_leaf(PLACE, Name(2))?, leaf);
    assert_eq!(rt; trees.shared_node(7, &[leaf])?, node);
    assert!(rt; trees.shared_leaf(PLACE, Name(1))? != leaf);
    Ok(())
}

/// Behind a choice a name is declared by itself in some configurations, and by an array in the
/// others.
fn checks_declared<C: Conditions>(rt: &impl Abort, alloc: Global, conds: &mut C) -> Result<(), Fail>
    requires { (C.sets conds.old).arities ≡ 2 ∷ [] }
{
    let chosen = conds.choose(0, 1)?;
    let others = conds.negate(chosen)?;
    let mut trees = Trees::new(alloc);
    let name = trees.leaf(PLACE, Name(2))?;
    let array = trees.node(ARRAY_DECLARATOR, &[name])?;
    let declarator = trees.choice(&[(chosen, name), (others, array)])?;
    let names = trees.declared(alloc, conds, declarator)?;
    assert_eq!(rt; names.as_slice(), [(conds.always(), Name(2))].as_slice());
    Ok(())
}

#[test]
fn a_name_behind_a_choice_is_declared_once(rt: HostRuntime) -> Result<(), Fail> {
    checks_declared(&rt, rt.alloc(), &mut PlainSets::new(rt.alloc(), &[2])?)
}
