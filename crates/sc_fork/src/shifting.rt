//! A subparser shifts what comes next.
ghost use Rattle.std.specs.Prelude.{◌≡◌, ◌≤◌, ◌<◌, ◌^◌, ℕ, [], ◌∷◌, List, Some, length, slice_get, IfOk};
ghost use Rattle.std.specs.List.{filter_map};
ghost use Rattle.c11_parsing.specs.Core as core;
ghost use Rattle.lr_tables.specs.declared.grammar.Action.TheVariants.{Reduce};
ghost use Rattle.sc_base.specs.declared.id.Cond.{Cond};
ghost use Rattle.sc_base.specs.declared.token.Token.{Token};
ghost use Rattle.sc_fork.specs.Choices.{AddsLeaves, AddsNoChoices};
ghost use Rattle.sc_fork.specs.declared.source.Source.{Source};
ghost use Rattle.sc_fork.specs.Owns.{IsNumbered, IsSource, OwnsAnswer, OwnsPiece, OwnsRow};
ghost use Rattle.sc_fork.specs.Pieces.{IfGoing, IsPast};
ghost use Rattle.sc_fork.specs.Seen.{Events, action_in};
ghost use Rattle.sc_fork.specs.Shifts.{IsShifted, IsAccepted};
ghost use Rattle.sc_merge.specs.Merges.{OwnsValues};
ghost use Rattle.sc_model.specs.Growth.{Extends};
ghost use Rattle.sc_model.specs.Sets.{Sets};
ghost use Rattle.sc_scope.specs.declared.numbers.Numbers.{Numbers};
ghost use Rattle.sc_scope.specs.Numbered.{HasNumbers};
ghost use Rattle.sc_stack.specs.Entries.{values_of};
ghost use Rattle.sc_tree.specs.Lines.{OwnsBranches};

use crate::piece::{Answer, Ended, Piece};
use crate::source::Source;
use lr_tables::Terminal;
use sc_base::{Cause, OutOfMemory, Place, TreeId};
use sc_grammar::terminal;
use sc_merge::{Head, Phase, Subparser};
use sc_tree::Trees;
use std::alloc::Global;

/// Shifts the terminal that comes next, where its action is no reduction. At the end that is the
/// tree of the whole text; without a terminal or an action parsing ends there.
pub(crate) fn shift(
    alloc: Global,
    trees: &mut Trees,
    source: &Source<'_>,
    parent: &Head<'_>,
    at: usize,
) -> Result<Piece, OutOfMemory>
    requires phase { parent.now.phase ≡ Phase.At at }
    requires at { at ≤ length source.now.list.now }
    requires source { IsSource source.now }
    requires values { OwnsValues (length trees.old) (values_of parent.now.stack) }
    requires no_reduction { (p : ℕ) → action_in source.now parent.now at ≡ Some (Reduce p) → ⊥ }
    ensures piece { IfOk result (λ piece. (sets : Sets) → Events sets sets trees.old trees.new source.now parent.now core.shift (piece ∷ [])) }
    ensures own { (sets : Sets) → OwnsRow sets (length trees.old) source.now parent.now → IfOk result (OwnsPiece sets (length trees.new) source.now) }
    ensures numbered { (numbers : Numbers) → HasNumbers numbers parent.now.scopes → IfOk result (IsNumbered numbers) }
    ensures phase { IfOk result (IfGoing (IsPast source.now at)) }

    // at every outcome
    ensures choices { AddsNoChoices trees.old trees.new }
    ensures leaves { AddsLeaves source.now.list.now trees.old trees.new }
    ensures grows { Extends trees.old trees.new }
    ensures branches { (sets : Sets) → OwnsBranches sets trees.old → OwnsBranches sets trees.new }
{
    let Some(terminal) = source.terminal(at) else {
        return Ok(refused(parent, Cause::BadToken, source.place(at)));
    };
    let Some(state) = source.state_after(parent, terminal) else {
        return Ok(refused(parent, Cause::Syntax, source.place(at)));
    };
    if at < source.list.len() {
        let shifted = shift_token(trees, source, parent, at, terminal, state)?;
        Piece::going(alloc, shifted)
    } else {
        Ok(Piece::Over(accept(alloc, trees, parent)?))
    }
}

/// What parsing comes to for a subparser that ends for this cause at this place.
pub(crate) fn refused(parent: &Head<'_>, cause: Cause, place: Place) -> Piece
    ensures { result ≡ Piece.Over (record { cond = parent.now.cond; answer = Answer.Refused cause place }) }
{
    Piece::Over(Ended {
        cond: parent.cond,
        answer: Answer::Refused(cause, place),
    })
}

/// The leaf of the element's token is put on the stack.
fn shift_token(
    trees: &mut Trees,
    source: &Source<'_>,
    parent: &Head<'_>,
    at: usize,
    terminal: Terminal,
    state: usize,
) -> Result<Subparser, OutOfMemory>
    requires at { at < length source.now.list.now }
    requires fits { length source.now.list.now < 2 ^ 64 }
    ensures shifted { (item : Cond × Token) → slice_get source.now.list.now at ≡ Some item
        → IfOk result (IsShifted trees.new item at terminal.0 state parent.now) }

    // at every outcome
    ensures choices { AddsNoChoices trees.old trees.new }
    ensures leaves { AddsLeaves source.now.list.now trees.old trees.new }
    ensures grows { Extends trees.old trees.new }
{
    let token = source.list.item(at).1;
    let leaf = trees.shared_leaf(token.place, token.spelling)?;
    let mut stack = parent.stack.share()?;
    stack.push(state, Some(leaf))?;
    let phase = if terminal == terminal::NAME {
        Phase::Named(at)
    } else {
        Phase::Between(at + 1)
    };
    Ok(Subparser {
        cond: parent.cond,
        stack,
        scopes: parent.scopes.share()?,
        phase,
    })
}

/// The production of a unit with declarations, and that of an empty one.
const UNIT: usize = 1;

const EMPTY_UNIT: usize = 2;

/// The text is a whole one: its tree has all trees of the stack.
fn accept(alloc: Global, trees: &mut Trees, parent: &Head<'_>) -> Result<Ended, OutOfMemory>
    requires { OwnsValues (length trees.old) (values_of parent.now.stack) }
    ensures accepted { IfOk result (IsAccepted trees.new parent.now) }
    ensures own { (source : Source) → IfOk result (λ ended. OwnsAnswer (length trees.new) source ended.answer) }

    // at every outcome
    ensures choices { AddsNoChoices trees.old trees.new }
    ensures leaves { (list : List (Cond × Token)) → AddsLeaves list trees.old trees.new }
    ensures grows { Extends trees.old trees.new }
{
    let values = parent.stack.values()?;
    let children = present(alloc, &values)?;
    let production = if values.is_empty() { EMPTY_UNIT } else { UNIT };
    let root = trees.shared_node(production, &children)?;
    Ok(Ended {
        cond: parent.cond,
        answer: Answer::Root(root),
    })
}

/// The values that are trees.
pub(crate) fn present(alloc: Global, values: &[Option<TreeId>]) -> Result<Vec<TreeId>, OutOfMemory>
    ensures { IfOk result (λ trees. trees.items ≡ filter_map (λ value. value) values.now) }
{
    let mut trees = Vec::new(alloc);
    for value in values {
        if let Some(tree) = value {
            trees.push(*tree)?;
        }
    }
    Ok(trees)
}
