//! The text of a tree with choices.
ghost use Rattle.std.specs.Prelude.{◌≡◌, ◌<◌, ◌++◌, ◌∷◌, [], true, All, IfSome, IfOk, OnOk, length, map, reverse};
ghost use Rattle.std.specs.List.{Contains};
ghost use Rattle.std.specs.Option.{option_to_list};
ghost use Rattle.sc_guarded.specs.Printable.{IsShowableFault, AreApart};
ghost use Rattle.sc_model.specs.Bytes.{has_no_newline};
ghost use Rattle.sc_model.specs.Sets.{Keeps};
ghost use Rattle.sc_model.specs.Space.{arities_of};
ghost use Rattle.sc_show.specs.Prints.{HasWordNames, IsTable};
ghost use Rattle.sc_show.specs.TreeRules.{IsReady, LaidOutTree, PrintedTree};
ghost use Rattle.sc_show.specs.TreeShows.{AreShowableLeaves, ShowsTree};
ghost use Rattle.sc_space.specs.Seen.{seen_space};
ghost use Rattle.sc_tree.specs.Lines.{children_of, OwnsBranches};
ghost use Rattle.sc_tree.specs.Views.{line_seen};

use crate::merge::merged;
use crate::printer::Printer;
use crate::tokens::print_faults;
use sc_base::{Cond, Fault, Files, Names, OutOfMemory, TreeId};
use sc_presence::Conditions;
use sc_space::Space;
use sc_tree::{TreeView, Trees};
use std::alloc::Global;

/// What is left to do, the last first.
#[derive(Clone, Copy)]
enum Task {
    /// To print a tree with all below it, where it isn't printed yet.
    Tree(TreeId),
    /// To print the line of a tree alone.
    Line(TreeId),
}

/// The text of a tree with choices and its faults.
pub fn show_tree<C: Conditions>(
    alloc: Global,
    conds: &mut C,
    space: &Space,
    names: &Names,
    files: &Files,
    trees: &Trees,
    root: Option<TreeId>,
    faults: &[Fault],
) -> Result<Vec<u8>, OutOfMemory>
    requires space { (C.sets conds.old).arities ≡ arities_of (seen_space space.now) }
    requires sound { HasWordNames (seen_space space.now) }
    requires files { All (λ name. has_no_newline name ≡ true) files.now }
    requires leaves { AreShowableLeaves names.now files.now trees.now }
    requires branches { OwnsBranches (C.sets conds.old) trees.now }
    requires root { IfSome root (λ id. id.0 < length trees.now) }
    requires faults { All (IsShowableFault (C.sets conds.old) files.now) faults.now }
    requires apart { AreApart (C.sets conds.old) faults.now }
    ensures text { IfOk result (λ text. ShowsTree (seen_space space.now) (C.sets conds.new) names.now files.now trees.now root faults.now text.items) }
    ensures keeps { Keeps (C.sets conds.old) (C.sets conds.new) }
{
    let merged = merged(alloc, conds, files, faults)?;
    let mut printer = Printer::new(alloc, conds)?;
    print_whole(alloc, &mut printer, conds, space, names, files, trees, root)?;
    printer.print_root(root)?;
    print_faults(&mut printer, conds, space, files, &merged)?;
    conds.canonical();
    files.one_to_one();
    printer.one_to_one();
    printer.print_end()?;
    Ok(printer.text)
}

/// Prints the tree, if there is one.
fn print_whole<C: Conditions>(
    alloc: Global,
    printer: &mut Printer,
    conds: &mut C,
    space: &Space,
    names: &Names,
    files: &Files,
    trees: &Trees,
    root: Option<TreeId>,
) -> Result<(), OutOfMemory>
    requires arities { (C.sets conds.old).arities ≡ arities_of (seen_space space.now) }
    requires names { HasWordNames (seen_space space.now) }
    requires one_line { All (λ name. has_no_newline name ≡ true) files.now }
    requires leaves { AreShowableLeaves names.now files.now trees.now }
    requires branches { OwnsBranches (C.sets conds.old) trees.now }
    requires root { IfSome root (λ id. id.0 < length trees.now) }
    requires table { IsTable (C.sets conds.old) printer.old.conditions.keys }
    ensures lines { OnOk result (PrintedTree (seen_space space.now) (C.sets conds.old) (C.sets conds.new) names.now files.now trees.now printer.old printer.new (option_to_list root)) }

    // at every outcome
    ensures keeps { Keeps (C.sets conds.old) (C.sets conds.new) }
{
    match root {
        Some(tree) => print_tree(alloc, printer, conds, space, names, files, trees, tree),
        None => Ok(()),
    }
}

/// Prints a tree, each line below those of the trees that it names.
fn print_tree<C: Conditions>(
    alloc: Global,
    printer: &mut Printer,
    conds: &mut C,
    space: &Space,
    names: &Names,
    files: &Files,
    trees: &Trees,
    root: TreeId,
) -> Result<(), OutOfMemory>
    requires arities { (C.sets conds.old).arities ≡ arities_of (seen_space space.now) }
    requires names { HasWordNames (seen_space space.now) }
    requires one_line { All (λ name. has_no_newline name ≡ true) files.now }
    requires leaves { AreShowableLeaves names.now files.now trees.now }
    requires branches { OwnsBranches (C.sets conds.old) trees.now }
    requires root { root.0 < length trees.now }
    requires table { IsTable (C.sets conds.old) printer.old.conditions.keys }
    ensures lines { OnOk result (PrintedTree (seen_space space.now) (C.sets conds.old) (C.sets conds.new) names.now files.now trees.now printer.old printer.new (root ∷ [])) }

    // at every outcome
    ensures keeps { Keeps (C.sets conds.old) (C.sets conds.new) }
{
    trees.children_first();
    let mut tasks = vec![in alloc; Task::Tree(root)]?;
    while let Some(task) = tasks.pop() {
        match task {
            Task::Tree(id) => {
                if !printer.is_printed(id) {
                    tasks.push(Task::Line(id))?;
                    push_children(&mut tasks, trees.read(id))?;
                }
            }
            Task::Line(id) => {
                print_line(printer, conds, space, names, files, id, trees.read(id))?;
            }
        }
    }
    Ok(())
}

/// Leaves the trees to be printed that a line names, the first of them next.
fn push_children(tasks: &mut Vec<Task>, view: TreeView<'_>) -> Result<(), OutOfMemory>
    ensures { OnOk result (reverse tasks.new.items ≡ map (λ id. Task.Tree id) (children_of (line_seen view.entry)) ++ reverse tasks.old.items) }
{
    match view {
        TreeView::Leaf(_, _) => Ok(()),
        TreeView::Node(_, children) => push_trees(tasks, children),
        TreeView::Choice(branches) => push_branches(tasks, branches),
    }
}

fn push_trees(tasks: &mut Vec<Task>, children: &[TreeId]) -> Result<(), OutOfMemory>
    ensures { OnOk result (reverse tasks.new.items ≡ map (λ id. Task.Tree id) children.now ++ reverse tasks.old.items) }
{
    for i in (0..children.len()).rev() {
        tasks.push(Task::Tree(children[i]))?;
    }
    Ok(())
}

fn push_branches(tasks: &mut Vec<Task>, branches: &[(Cond, TreeId)]) -> Result<(), OutOfMemory>
    ensures { OnOk result (reverse tasks.new.items ≡ map (λ id. Task.Tree id) (map (λ branch. branch.1) branches.now) ++ reverse tasks.old.items) }
{
    for i in (0..branches.len()).rev() {
        tasks.push(Task::Tree(branches[i].1))?;
    }
    Ok(())
}

/// Prints the line of a tree, after the lines of conditions and files that it needs.
fn print_line<C: Conditions>(
    printer: &mut Printer,
    conds: &mut C,
    space: &Space,
    names: &Names,
    files: &Files,
    id: TreeId,
    view: TreeView<'_>,
) -> Result<(), OutOfMemory>
    requires arities { (C.sets conds.old).arities ≡ arities_of (seen_space space.now) }
    requires names { HasWordNames (seen_space space.now) }
    requires one_line { All (λ name. has_no_newline name ≡ true) files.now }
    requires ready { IsReady (C.sets conds.old) names.now files.now printer.old.trees.keys (line_seen view) }
    requires fresh { Contains printer.old.trees.keys id → ⊥ }
    requires table { IsTable (C.sets conds.old) printer.old.conditions.keys }
    ensures lines { OnOk result (LaidOutTree (seen_space space.now) (C.sets conds.old) (C.sets conds.new) names.now files.now printer.old printer.new ((id, line_seen view.entry) ∷ [])) }

    // at every outcome
    ensures keeps { Keeps (C.sets conds.old) (C.sets conds.new) }
{
    match view {
        TreeView::Leaf(place, spelling) => { printer.print_leaf(names, files, id, place, spelling) }
        TreeView::Node(production, children) => printer.print_node(id, production, children),
        TreeView::Choice(branches) => printer.print_choice(conds, space, id, branches),
    }
}
