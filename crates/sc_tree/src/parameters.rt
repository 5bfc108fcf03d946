//! The names of a function's parameters, in all configurations at once.
ghost use Rattle.std.specs.Prelude.{◌≡◌, ◌<◌, ◌++◌, true, false, ℕ, List, [], Some, All, length, map, slice_get, if◌then◌else◌, IfOk, OnOk};
ghost use Rattle.std.specs.List.{filter};
ghost use Rattle.c11_parsing.specs.Bindings.{parameter, parameters_below};
ghost use Rattle.c11_parsing.specs.C11.{c11_declarators};
ghost use Rattle.c11_parsing.specs.Trees.{Tree};
ghost use Rattle.sc_base.specs.declared.id.TreeId.{TreeId};
ghost use Rattle.sc_guarded.specs.Items.{items_at};
ghost use Rattle.sc_model.specs.Sets.{IsConfig, IsCond, Keeps};
ghost use Rattle.sc_tree.specs.Lines.{children_of, ChildrenFirst, OwnsBranches};
ghost use Rattle.sc_tree.specs.Parameters.{first_list, is_named, last_of, last_parameter, list_of, AreParameters, IsNoChoice};
ghost use Rattle.sc_tree.specs.Reads.{Reads, Spells};
ghost use Rattle.sc_tree.specs.Views.{line_of};

use crate::declared::declared_names;
use crate::line::Line;
use crate::production::{Route, is_parameter, last_child, parameters_child};
use crate::walk::{walk, walk_back};
use sc_base::{Cond, Name, OutOfMemory, TreeId};
use sc_presence::Conditions;
use std::alloc::Global;

/// The names of the parameters of the function that the tree declares, at each configuration in
/// their order.
pub(crate) fn parameters<C: Conditions>(
    alloc: Global,
    conds: &mut C,
    lines: &[Line],
    id: TreeId,
) -> Result<Vec<(Cond, Name)>, OutOfMemory>
    requires first { ChildrenFirst (map line_of lines.now) }
    requires branches { OwnsBranches (C.sets conds.old) (map line_of lines.now) }
    requires id { id.0 < length lines.now }
    ensures names { IfOk result (λ found. (names files : List (List ℕ)) (c : List ℕ) (tree : Tree) → IsConfig (C.sets conds.old).arities c
        → Reads (record { sets = C.sets conds.old; names = names; files = files; lines = map line_of lines.now }) c id.0 tree
        → Spells names (items_at (C.sets conds.new) found.items c) (parameters_below c11_declarators tree [])) }
    ensures own { IfOk result (λ found. All (λ name. IsCond (C.sets conds.new) name.0.0) found.items) }

    // at every outcome
    ensures keeps { Keeps (C.sets conds.old) (C.sets conds.new) }
{
    let start = [(conds.always(), id)];
    let way = walk_back(alloc, conds, lines, Route::Declarator, &start)?;
    let lists = first_lists(alloc, conds, lines, &way)?;
    // a list has the earlier parameters below the last one
    let parts = walk_back(alloc, conds, lines, Route::EarlierParameters, &lists)?;
    parameter_names(alloc, conds, lines, &parts)
}

/// The parameters of the trees that declare functions, at each configuration those of the first
/// such tree.
fn first_lists<C: Conditions>(
    alloc: Global,
    conds: &mut C,
    lines: &[Line],
    trees: &[(Cond, TreeId)],
) -> Result<Vec<(Cond, TreeId)>, OutOfMemory>
    requires first { ChildrenFirst (map line_of lines.now) }
    requires own { All (λ tree. IsCond (C.sets conds.old) tree.0.0) trees.now }
    requires within { All (λ tree. tree.1.0 < length lines.now) trees.now }
    ensures lists { IfOk result (λ lists. (c : List ℕ) → IsConfig (C.sets conds.old).arities c
        → items_at (C.sets conds.new) lists.items c ≡ first_list (map line_of lines.now) (items_at (C.sets conds.old) trees.now c) []) }
    ensures own { IfOk result (λ lists. All (λ list. IsCond (C.sets conds.new) list.0.0) lists.items) }
    ensures within { IfOk result (λ lists. All (λ list. list.1.0 < length lines.now) lists.items) }

    // at every outcome
    ensures keeps { Keeps (C.sets conds.old) (C.sets conds.new) }
{
    let mut lists = Vec::new(alloc);
    let mut left = conds.always();
    for tree in trees {
        let line = &lines[tree.1.0];
        left = note_list(conds, &mut lists, left, tree.0, line)?;
    }
    Ok(lists)
}

/// Of the configurations that are left, those of the condition have the tree: where it declares a
/// function its parameters are theirs, and the others are left.
fn note_list<C: Conditions>(
    conds: &mut C,
    lists: &mut Vec<(Cond, TreeId)>,
    left: Cond,
    cond: Cond,
    line: &Line,
) -> Result<Cond, OutOfMemory>
    requires left { IsCond (C.sets conds.old) left.0 }
    requires own { IsCond (C.sets conds.old) cond.0 }
    requires lists { All (λ list. IsCond (C.sets conds.old) list.0.0) lists.old.items }
    ensures notes { IfOk result (λ rest. (c : List ℕ) → IsConfig (C.sets conds.old).arities c → (met : List TreeId)
        → items_at (C.sets conds.new) lists.new.items c ++ (if (C.sets conds.new).has rest.0 c then met else [])
        ≡ items_at (C.sets conds.old) lists.old.items c ++ (if (C.sets conds.old).has left.0 c
        then (if (C.sets conds.old).has cond.0 c then list_of (Some (line_of line.now)) met else met) else [])) }
    ensures rest { IfOk result (λ rest. IsCond (C.sets conds.new) rest.0) }
    ensures own { OnOk result (All (λ list. IsCond (C.sets conds.new) list.0.0) lists.new.items) }
    ensures within { OnOk result ((bound : ℕ) → All (λ child. child.0 < bound) (children_of (line_of line.now)) → All (λ list. list.1.0 < bound) lists.old.items
        → All (λ list. list.1.0 < bound) lists.new.items) }

    // at every outcome
    ensures keeps { Keeps (C.sets conds.old) (C.sets conds.new) }
{
    let Line::Node(production, children) = line else {
        return Ok(left);
    };
    let Some(place) = parameters_child(*production) else {
        return Ok(left);
    };
    let part = conds.apply_and(left, cond)?;
    let rest = conds.apply_without(left, cond)?;
    let Some(list) = child_at(children, place) else {
        return Ok(rest);
    };
    lists.push((part, list))?;
    Ok(rest)
}

/// The child at this place, where there is one.
fn child_at(children: &[TreeId], place: usize) -> Option<TreeId>
    ensures { result ≡ slice_get children.now place }
{
    children.get(place).copied()
}

/// The names of the last parameters of the lists, in order.
fn parameter_names<C: Conditions>(
    alloc: Global,
    conds: &mut C,
    lines: &[Line],
    lists: &[(Cond, TreeId)],
) -> Result<Vec<(Cond, Name)>, OutOfMemory>
    requires first { ChildrenFirst (map line_of lines.now) }
    requires branches { OwnsBranches (C.sets conds.old) (map line_of lines.now) }
    requires own { All (λ list. IsCond (C.sets conds.old) list.0.0) lists.now }
    requires within { All (λ list. list.1.0 < length lines.now) lists.now }
    ensures names { IfOk result (λ found. (names files : List (List ℕ)) (c : List ℕ) (texts : List (List ℕ)) → IsConfig (C.sets conds.old).arities c
        → AreParameters (record { sets = C.sets conds.old; names = names; files = files; lines = map line_of lines.now }) c (items_at (C.sets conds.old) lists.now c) texts
        → Spells names (items_at (C.sets conds.new) found.items c) texts) }
    ensures own { IfOk result (λ found. All (λ name. IsCond (C.sets conds.new) name.0.0) found.items) }

    // at every outcome
    ensures keeps { Keeps (C.sets conds.old) (C.sets conds.new) }
{
    let mut names = Vec::new(alloc);
    for list in lists {
        let mut found = last_name(alloc, conds, lines, list.0, list.1)?;
        names.append(&mut found)?;
    }
    Ok(names)
}

/// The name of the last parameter of a list, or of the tree itself where it is a parameter, in the
/// configurations of the condition.
fn last_name<C: Conditions>(
    alloc: Global,
    conds: &mut C,
    lines: &[Line],
    cond: Cond,
    id: TreeId,
) -> Result<Vec<(Cond, Name)>, OutOfMemory>
    requires first { ChildrenFirst (map line_of lines.now) }
    requires branches { OwnsBranches (C.sets conds.old) (map line_of lines.now) }
    requires own { IsCond (C.sets conds.old) cond.0 }
    requires id { id.0 < length lines.now }
    ensures named { IfOk result (λ found. (names files : List (List ℕ)) (c : List ℕ) (tree : Tree) → IsConfig (C.sets conds.old).arities c
        → (C.sets conds.old).has cond.0 c ≡ true → IsNoChoice (map line_of lines.now) id
        → Reads (record { sets = C.sets conds.old; names = names; files = files; lines = map line_of lines.now }) c id.0 tree
        → Spells names (items_at (C.sets conds.new) found.items c) (last_parameter tree)) }
    ensures none { IfOk result (λ found. (c : List ℕ) → IsConfig (C.sets conds.old).arities c → (C.sets conds.old).has cond.0 c ≡ false
        → items_at (C.sets conds.new) found.items c ≡ []) }
    ensures own { IfOk result (λ found. All (λ name. IsCond (C.sets conds.new) name.0.0) found.items) }

    // at every outcome
    ensures keeps { Keeps (C.sets conds.old) (C.sets conds.new) }
{
    let Some(last) = last_of(&lines[id.0], id) else {
        return Ok(Vec::new(alloc));
    };
    parameter_name(alloc, conds, lines, cond, last)
}

/// The last parameter of a list, or the tree itself where it is one.
fn last_of(line: &Line, id: TreeId) -> Option<TreeId>
    ensures { result ≡ last_of (line_of line.now) id }
{
    let Line::Node(production, children) = line else {
        return None;
    };
    if is_parameter(*production) {
        return Some(id);
    }
    let last = last_child(*production)?;
    children.get(last).copied()
}

/// The name of the tree, where it is a parameter, in the configurations of the condition.
fn parameter_name<C: Conditions>(
    alloc: Global,
    conds: &mut C,
    lines: &[Line],
    cond: Cond,
    id: TreeId,
) -> Result<Vec<(Cond, Name)>, OutOfMemory>
    requires first { ChildrenFirst (map line_of lines.now) }
    requires branches { OwnsBranches (C.sets conds.old) (map line_of lines.now) }
    requires own { IsCond (C.sets conds.old) cond.0 }
    requires id { id.0 < length lines.now }
    ensures named { IfOk result (λ found. (names files : List (List ℕ)) (c : List ℕ) (tree : Tree) → IsConfig (C.sets conds.old).arities c
        → (C.sets conds.old).has cond.0 c ≡ true
        → Reads (record { sets = C.sets conds.old; names = names; files = files; lines = map line_of lines.now }) c id.0 tree
        → Spells names (items_at (C.sets conds.new) found.items c) (parameter c11_declarators tree)) }
    ensures none { IfOk result (λ found. (c : List ℕ) → IsConfig (C.sets conds.old).arities c → (C.sets conds.old).has cond.0 c ≡ false
        → items_at (C.sets conds.new) found.items c ≡ []) }
    ensures own { IfOk result (λ found. All (λ name. IsCond (C.sets conds.new) name.0.0) found.items) }

    // at every outcome
    ensures keeps { Keeps (C.sets conds.old) (C.sets conds.new) }
{
    let start = [(cond, id)];
    let trees = walk(alloc, conds, lines, Route::Choices, &start)?;
    let named = named_trees(alloc, lines, &trees)?;
    declared_names(alloc, conds, lines, &named)
}

/// The trees that are parameters with names.
fn named_trees(
    alloc: Global,
    lines: &[Line],
    trees: &[(Cond, TreeId)],
) -> Result<Vec<(Cond, TreeId)>, OutOfMemory>
    requires { All (λ tree. tree.1.0 < length lines.now) trees.now }
    ensures { IfOk result (λ named. named.items ≡ filter (λ tree. is_named (slice_get (map line_of lines.now) tree.1.0)) trees.now) }
{
    let mut named = Vec::new(alloc);
    for tree in trees {
        if is_named(&lines[tree.1.0]) {
            named.push(*tree)?;
        }
    }
    Ok(named)
}

fn is_named(line: &Line) -> bool
    ensures { result ≡ is_named (Some (line_of line.now)) }
{
    match line {
        Line::Node(production, _) => is_parameter(*production),
        _ => false,
    }
}
