//! The names that trees declare, in all configurations at once.
ghost use Rattle.std.specs.Prelude.{◌≡◌, ◌<◌, ◌++◌, ℕ, List, [], Some, All, length, map, IfOk, OnOk};
ghost use Rattle.c11_parsing.specs.Bindings.{declared};
ghost use Rattle.c11_parsing.specs.C11.{c11_declarators, declarator_child};
ghost use Rattle.c11_parsing.specs.Trees.{Tree};
ghost use Rattle.sc_base.specs.declared.id.TreeId.{TreeId};
ghost use Rattle.sc_guarded.specs.Items.{items_at};
ghost use Rattle.sc_model.specs.Sets.{IsConfig, IsCond, Keeps};
ghost use Rattle.sc_tree.specs.Lines.{ChildrenFirst, OwnsBranches};
ghost use Rattle.sc_tree.specs.Reads.{Reads, Spells};
ghost use Rattle.sc_tree.specs.Views.{line_of};
ghost use Rattle.sc_tree.specs.Walks.{leaf_items, leaf_names, name_in, under, Walked};

use crate::line::Line;
use crate::production::Route;
use crate::walk::walk;
use sc_base::{Cond, Name, OutOfMemory, TreeId};
use sc_presence::Conditions;
use std::alloc::Global;

/// The names that the tree declares, each with the configurations in which it does.
pub(crate) fn declared<C: Conditions>(
    alloc: Global,
    conds: &mut C,
    lines: &[Line],
    id: TreeId,
) -> Result<Vec<(Cond, Name)>, OutOfMemory>
    requires first { ChildrenFirst (map line_of lines.now) }
    requires branches { OwnsBranches (C.sets conds.old) (map line_of lines.now) }
    requires id { id.0 < length lines.now }
    ensures names { IfOk result (λ found. (names files : List (List ℕ)) (c : List ℕ) (tree : Tree) → IsConfig (C.sets conds.old).arities c
        → Reads (record { sets = C.sets conds.old; names = names; files = files; lines = map line_of lines.now }) c id.0 tree
        → Spells names (items_at (C.sets conds.new) found.items c) (declared c11_declarators tree)) }
    ensures own { IfOk result (λ found. All (λ name. IsCond (C.sets conds.new) name.0.0) found.items) }

    // at every outcome
    ensures keeps { Keeps (C.sets conds.old) (C.sets conds.new) }
{
    let start = [(conds.always(), id)];
    declared_names(alloc, conds, lines, &start)
}

/// The names that the trees declare, each with the configurations in which one declares it. At each
/// configuration there is one tree or none.
pub(crate) fn declared_names<C: Conditions>(
    alloc: Global,
    conds: &mut C,
    lines: &[Line],
    trees: &[(Cond, TreeId)],
) -> Result<Vec<(Cond, Name)>, OutOfMemory>
    requires first { ChildrenFirst (map line_of lines.now) }
    requires branches { OwnsBranches (C.sets conds.old) (map line_of lines.now) }
    requires own { All (λ tree. IsCond (C.sets conds.old) tree.0.0) trees.now }
    requires within { All (λ tree. tree.1.0 < length lines.now) trees.now }
    ensures names { IfOk result (λ names. (c : List ℕ) → IsConfig (C.sets conds.old).arities c → (path : List TreeId)
        → Walked declarator_child (C.sets conds.old) (map line_of lines.now) c (items_at (C.sets conds.old) trees.now c) path
        → items_at (C.sets conds.new) names.items c ≡ leaf_names (map line_of lines.now) path) }
    ensures own { IfOk result (λ names. All (λ name. IsCond (C.sets conds.new) name.0.0) names.items) }

    // at every outcome
    ensures keeps { Keeps (C.sets conds.old) (C.sets conds.new) }
{
    let passed = walk(alloc, conds, lines, Route::Declarator, trees)?;
    leaves(alloc, lines, &passed)
}

/// The names of the trees that are leaves.
fn leaves(
    alloc: Global,
    lines: &[Line],
    trees: &[(Cond, TreeId)],
) -> Result<Vec<(Cond, Name)>, OutOfMemory>
    requires { All (λ tree. tree.1.0 < length lines.now) trees.now }
    ensures { IfOk result (λ names. names.items ≡ leaf_items (map line_of lines.now) trees.now) }
{
    let mut names = Vec::new(alloc);
    for tree in trees {
        let line = &lines[tree.1.0];
        note_leaf(&mut names, tree.0, line)?;
    }
    Ok(names)
}

fn note_leaf(names: &mut Vec<(Cond, Name)>, cond: Cond, line: &Line) -> Result<(), OutOfMemory>
    ensures { OnOk result (names.new.items ≡ names.old.items ++ under cond (name_in (Some (line_of line.now)))) }
{
    let Line::Leaf(_, spelling) = line else {
        return Ok(());
    };
    names.push((cond, *spelling))?;
    Ok(())
}
