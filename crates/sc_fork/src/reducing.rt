//! A subparser reduces by a production.
ghost use Rattle.std.specs.Prelude.{◌≡◌, ◌≤◌, ◌<◌, [], ◌∷◌, List, Some, All, length, IfOk, IfSome, OnOk};
ghost use Rattle.c11_parsing.specs.Bindings.{variable, bind_all, declared_by, marked, parameters_by};
ghost use Rattle.c11_parsing.specs.C11.{c11_declarators};
ghost use Rattle.c11_parsing.specs.Core as core;
ghost use Rattle.lr_tables.specs.declared.grammar.Action.TheVariants.{Reduce};
ghost use Rattle.sc_base.specs.declared.id.Cond.{Cond};
ghost use Rattle.sc_base.specs.declared.token.Token.{Token};
ghost use Rattle.sc_fork.specs.Choices.{AddsLeaves, AddsNoChoices};
ghost use Rattle.sc_fork.specs.Nodes.{AddsOnce, IsNodeBy};
ghost use Rattle.sc_fork.specs.Owns.{IsNumbered, IsSource, OwnsPiece, OwnsRow};
ghost use Rattle.sc_fork.specs.Pieces.{IfGoing, IsReducedBy};
ghost use Rattle.sc_fork.specs.Reducing.{BindsUnder, IsValueOf, Rebinds};
ghost use Rattle.sc_fork.specs.Seen.{Events, action_in};
ghost use Rattle.sc_grammar.specs.Production.{symbols_of};
ghost use Rattle.sc_merge.specs.declared.subparser.Phase.TheVariants.{At};
ghost use Rattle.sc_model.specs.Growth.{Extends};
ghost use Rattle.sc_model.specs.Sets.{IsCond, Keeps};
ghost use Rattle.sc_scope.specs.Numbered.{levels_made, HasNumbers};
ghost use Rattle.sc_scope.specs.Search.{OwnsLevels};
ghost use Rattle.sc_scope.specs.Seen.{levels_in};
ghost use Rattle.sc_scope.specs.Shows.{kind_of};
ghost use Rattle.sc_tree.specs.Lines.{Line, OwnsBranches, node};
ghost use Rattle.std.specs.List.{filter_map};

use crate::piece::Piece;
use crate::shifting::{present, refused};
use crate::source::Source;
use lr_tables::{Entry, Mark};
use sc_base::{Cause, Cond, Name, OutOfMemory, TreeId};
use sc_grammar::production;
use sc_merge::{Head, Subparser};
use sc_presence::Conditions;
use sc_scope::{NameKind, Numbers, Scopes};
use sc_tree::Trees;
use std::alloc::Global;

/// Reduces by the production `number`, and does to the scopes what the production's mark says.
pub(crate) fn reduce<C: Conditions>(
    alloc: Global,
    conds: &mut C,
    trees: &mut Trees,
    numbers: &mut Numbers,
    source: &Source<'_>,
    parent: &Head<'_>,
    at: usize,
    number: usize,
) -> Result<Piece, OutOfMemory>
    requires phase { parent.now.phase ≡ At at }
    requires at { at ≤ length source.now.list.now }
    requires source { IsSource source.now }
    requires action { action_in source.now parent.now at ≡ Some (Reduce number) }
    requires own { OwnsRow (C.sets conds.old) (length trees.old) source.now parent.now }
    requires numbered { HasNumbers numbers.old parent.now.scopes }
    requires branches { OwnsBranches (C.sets conds.old) trees.old }
    ensures piece { IfOk result (λ piece. Events (C.sets conds.old) (C.sets conds.new) trees.old trees.new source.now parent.now core.reduce (piece ∷ [])) }
    ensures own { IfOk result (OwnsPiece (C.sets conds.new) (length trees.new) source.now) }
    ensures reduced { IfOk result (IfGoing (IsReducedBy source.now at number parent.now)) }
    ensures numbered { IfOk result (IsNumbered numbers.new) }

    // at every outcome
    ensures adds { (line : Line) → IsNodeBy number parent.now.stack line → AddsOnce trees.old trees.new line }
    ensures choices { AddsNoChoices trees.old trees.new }
    ensures leaves { (list : List (Cond × Token)) → AddsLeaves list trees.old trees.new }
    ensures keeps { Keeps (C.sets conds.old) (C.sets conds.new) }
    ensures grows { Extends trees.old trees.new }
    ensures branches { OwnsBranches (C.sets conds.new) trees.new }
    ensures numbers { Extends (levels_made numbers.old) (levels_made numbers.new) }
{
    let rule = production(number);
    let mut stack = parent.stack.share()?;
    let values = stack.pop(size(rule.right))?;
    let Some(state) = source.tables.goto(stack.state(), rule.left) else {
        return Ok(refused(parent, Cause::Syntax, source.place(at)));
    };
    let value = value_of(alloc, trees, number, &values)?;
    stack.push(state, value)?;
    let scopes = marked_scopes(alloc, conds, trees, numbers, parent, rule.mark, value)?;
    let subparser = Subparser {
        cond: parent.cond,
        stack,
        scopes,
        phase: parent.phase,
    };
    Piece::going(alloc, subparser)
}

/// How many symbols the right side has.
fn size(right: &[Entry]) -> usize
    ensures { result ≡ length (symbols_of right.now) }
{
    let mut count = 0;
    for entry in right {
        if let Entry::Right(_) = entry {
            count += 1;
        }
    }
    count
}

/// The tree of the left side: that of the one symbol on the right side, or a node.
fn value_of(
    alloc: Global,
    trees: &mut Trees,
    number: usize,
    values: &[Option<TreeId>],
) -> Result<Option<TreeId>, OutOfMemory>
    requires { All (λ value. IfSome value (λ id. id.0 < length trees.old)) values.now }
    ensures value { IfOk result (IsValueOf trees.new number values.now) }
    ensures own { IfOk result (λ value. IfSome value (λ id. id.0 < length trees.new)) }

    // at every outcome
    ensures adds { AddsOnce trees.old trees.new (node number (filter_map (λ value. value) values.now)) }
    ensures choices { AddsNoChoices trees.old trees.new }
    ensures leaves { (list : List (Cond × Token)) → AddsLeaves list trees.old trees.new }
    ensures grows { Extends trees.old trees.new }
{
    if values.len() == 1 {
        return Ok(values[0]);
    }
    let children = present(alloc, values)?;
    let node = trees.shared_node(number, &children)?;
    Ok(Some(node))
}

/// The parent's scopes after a reduction that made the tree, by a production with the mark.
fn marked_scopes<C: Conditions>(
    alloc: Global,
    conds: &mut C,
    trees: &Trees,
    numbers: &mut Numbers,
    parent: &Head<'_>,
    mark: Option<Mark>,
    tree: Option<TreeId>,
) -> Result<Scopes, OutOfMemory>
    requires tree { IfSome tree (λ id. id.0 < length trees.now) }
    requires branches { OwnsBranches (C.sets conds.old) trees.now }
    requires cond { IsCond (C.sets conds.old) parent.now.cond.0 }
    requires own { OwnsLevels (C.sets conds.old) (levels_in parent.now.scopes) }
    requires numbered { HasNumbers numbers.old parent.now.scopes }
    ensures levels { IfOk result (λ scopes. Rebinds (C.sets conds.old) (C.sets conds.new) trees.now parent.now.cond tree (marked c11_declarators mark)
        (levels_in parent.now.scopes) (levels_in scopes)) }
    ensures own { IfOk result (λ scopes. OwnsLevels (C.sets conds.new) (levels_in scopes)) }
    ensures numbered { IfOk result (λ scopes. HasNumbers numbers.new scopes) }

    // at every outcome
    ensures keeps { Keeps (C.sets conds.old) (C.sets conds.new) }
    ensures numbers { Extends (levels_made numbers.old) (levels_made numbers.new) }
{
    let mut scopes = parent.scopes.share()?;
    let Some(mark) = mark else { return Ok(scopes) };
    change_scopes(
        alloc,
        conds,
        trees,
        numbers,
        &mut scopes,
        parent.cond,
        mark,
        tree,
    )?;
    Ok(scopes)
}

/// What the mark does to the scopes in the configurations of the condition (C11 6.2.1p7).
fn change_scopes<C: Conditions>(
    alloc: Global,
    conds: &mut C,
    trees: &Trees,
    numbers: &mut Numbers,
    scopes: &mut Scopes,
    cond: Cond,
    mark: Mark,
    tree: Option<TreeId>,
) -> Result<(), OutOfMemory>
    requires tree { IfSome tree (λ id. id.0 < length trees.now) }
    requires branches { OwnsBranches (C.sets conds.old) trees.now }
    requires cond { IsCond (C.sets conds.old) cond.0 }
    requires own { OwnsLevels (C.sets conds.old) (levels_in scopes.old) }
    requires numbered { HasNumbers numbers.old scopes.old }
    ensures levels { OnOk result (Rebinds (C.sets conds.old) (C.sets conds.new) trees.now cond tree (marked c11_declarators (Some mark))
        (levels_in scopes.old) (levels_in scopes.new)) }

    // at every outcome
    ensures own { OwnsLevels (C.sets conds.new) (levels_in scopes.new) }
    ensures keeps { Keeps (C.sets conds.old) (C.sets conds.new) }
    ensures numbered { HasNumbers numbers.new scopes.new }
    ensures numbers { Extends (levels_made numbers.old) (levels_made numbers.new) }
{
    match mark {
        Mark::Push => scopes.push()?,
        Mark::Pop => scopes.pop()?,
        Mark::Join => scopes.join(numbers)?,
        Mark::PushParameters => {
            scopes.push()?;
            bind_parameters(alloc, conds, trees, numbers, scopes, cond, tree)?;
        }
        Mark::BindVariable => {
            let kind = NameKind::Variable;
            bind_declared(alloc, conds, trees, numbers, scopes, cond, kind, tree)?;
        }
        Mark::BindTypedef => {
            let kind = NameKind::Typedef;
            bind_declared(alloc, conds, trees, numbers, scopes, cond, kind, tree)?;
        }
    }
    Ok(())
}

/// Binds the parameters of the function that the tree declares.
fn bind_parameters<C: Conditions>(
    alloc: Global,
    conds: &mut C,
    trees: &Trees,
    numbers: &mut Numbers,
    scopes: &mut Scopes,
    cond: Cond,
    tree: Option<TreeId>,
) -> Result<(), OutOfMemory>
    requires tree { IfSome tree (λ id. id.0 < length trees.now) }
    requires branches { OwnsBranches (C.sets conds.old) trees.now }
    requires cond { IsCond (C.sets conds.old) cond.0 }
    requires own { OwnsLevels (C.sets conds.old) (levels_in scopes.old) }
    requires numbered { HasNumbers numbers.old scopes.old }
    ensures levels { OnOk result (Rebinds (C.sets conds.old) (C.sets conds.new) trees.now cond tree (λ tree. bind_all variable (parameters_by c11_declarators tree))
        (levels_in scopes.old) (levels_in scopes.new)) }

    // at every outcome
    ensures own { OwnsLevels (C.sets conds.new) (levels_in scopes.new) }
    ensures keeps { Keeps (C.sets conds.old) (C.sets conds.new) }
    ensures numbered { HasNumbers numbers.new scopes.new }
    ensures numbers { Extends (levels_made numbers.old) (levels_made numbers.new) }
{
    let Some(tree) = tree else { return Ok(()) };
    let Ok(names) = trees.parameters(alloc, conds, tree) else {
        return Err(OutOfMemory);
    };
    bind_under(conds, numbers, scopes, cond, NameKind::Variable, &names)?;
    Ok(())
}

/// Binds the names that the tree declares.
fn bind_declared<C: Conditions>(
    alloc: Global,
    conds: &mut C,
    trees: &Trees,
    numbers: &mut Numbers,
    scopes: &mut Scopes,
    cond: Cond,
    kind: NameKind,
    tree: Option<TreeId>,
) -> Result<(), OutOfMemory>
    requires tree { IfSome tree (λ id. id.0 < length trees.now) }
    requires branches { OwnsBranches (C.sets conds.old) trees.now }
    requires cond { IsCond (C.sets conds.old) cond.0 }
    requires own { OwnsLevels (C.sets conds.old) (levels_in scopes.old) }
    requires numbered { HasNumbers numbers.old scopes.old }
    ensures levels { OnOk result (Rebinds (C.sets conds.old) (C.sets conds.new) trees.now cond tree (λ tree. bind_all (kind_of kind) (declared_by c11_declarators tree))
        (levels_in scopes.old) (levels_in scopes.new)) }

    // at every outcome
    ensures own { OwnsLevels (C.sets conds.new) (levels_in scopes.new) }
    ensures keeps { Keeps (C.sets conds.old) (C.sets conds.new) }
    ensures numbered { HasNumbers numbers.new scopes.new }
    ensures numbers { Extends (levels_made numbers.old) (levels_made numbers.new) }
{
    let Some(tree) = tree else { return Ok(()) };
    let Ok(names) = trees.declared(alloc, conds, tree) else {
        return Err(OutOfMemory);
    };
    bind_under(conds, numbers, scopes, cond, kind, &names)?;
    Ok(())
}

/// Binds each name in the configurations that both conditions have, where there are any.
fn bind_under<C: Conditions>(
    conds: &mut C,
    numbers: &mut Numbers,
    scopes: &mut Scopes,
    cond: Cond,
    kind: NameKind,
    names: &[(Cond, Name)],
) -> Result<(), OutOfMemory>
    requires cond { IsCond (C.sets conds.old) cond.0 }
    requires names { All (λ name. IsCond (C.sets conds.old) name.0.0) names.now }
    requires own { OwnsLevels (C.sets conds.old) (levels_in scopes.old) }
    requires numbered { HasNumbers numbers.old scopes.old }
    ensures binds { OnOk result (BindsUnder (C.sets conds.old) (C.sets conds.new) cond kind names.now (levels_in scopes.old) (levels_in scopes.new)) }

    // at every outcome
    ensures own { OwnsLevels (C.sets conds.new) (levels_in scopes.new) }
    ensures keeps { Keeps (C.sets conds.old) (C.sets conds.new) }
    ensures numbered { HasNumbers numbers.new scopes.new }
    ensures numbers { Extends (levels_made numbers.old) (levels_made numbers.new) }
{
    for name in names {
        bind_one(conds, numbers, scopes, cond, kind, *name)?;
    }
    Ok(())
}

/// Binds the name in the configurations that both conditions have, where there are any.
fn bind_one<C: Conditions>(
    conds: &mut C,
    numbers: &mut Numbers,
    scopes: &mut Scopes,
    cond: Cond,
    kind: NameKind,
    name: (Cond, Name),
) -> Result<(), OutOfMemory>
    requires cond { IsCond (C.sets conds.old) cond.0 }
    requires name { IsCond (C.sets conds.old) name.0.0 }
    requires own { OwnsLevels (C.sets conds.old) (levels_in scopes.old) }
    requires numbered { HasNumbers numbers.old scopes.old }
    ensures binds { OnOk result (BindsUnder (C.sets conds.old) (C.sets conds.new) cond kind (name ∷ []) (levels_in scopes.old) (levels_in scopes.new)) }

    // at every outcome
    ensures own { OwnsLevels (C.sets conds.new) (levels_in scopes.new) }
    ensures keeps { Keeps (C.sets conds.old) (C.sets conds.new) }
    ensures numbered { HasNumbers numbers.new scopes.new }
    ensures numbers { Extends (levels_made numbers.old) (levels_made numbers.new) }
{
    let part = conds.apply_and(cond, name.0)?;
    if conds.is_never(part) {
        return Ok(());
    }
    scopes.bind(numbers, name.1, kind, part)?;
    Ok(())
}
