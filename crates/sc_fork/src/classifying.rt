//! The kind of a name is shifted behind it, in each configuration that which the name has there.
ghost use Rattle.std.specs.Prelude.{◌≡◌, ◌<◌, ◌&&◌, ◌+◌, ℕ, All, List, length, IfOk, OnOk};
ghost use Rattle.c11_parsing.specs.Core as core;
ghost use Rattle.sc_fork.specs.Kinds.{AddsKind, is_type_at};
ghost use Rattle.sc_fork.specs.Owns.{IsNumbered, OwnsPiece, OwnsRow};
ghost use Rattle.sc_fork.specs.Pieces.{IfGoing};
ghost use Rattle.sc_fork.specs.Seen.{Events};
ghost use Rattle.sc_model.specs.Sets.{Denotes, IsCond, Keeps};
ghost use Rattle.sc_scope.specs.declared.numbers.Numbers.{Numbers};
ghost use Rattle.sc_scope.specs.Numbered.{HasNumbers};
ghost use Rattle.sc_scope.specs.Search.{OwnsLevels};
ghost use Rattle.sc_scope.specs.Seen.{levels_in};
ghost use Rattle.sc_tree.specs.Lines.{Line};

use crate::piece::{Answer, Ended, Piece};
use crate::source::Source;
use lr_tables::Terminal;
use sc_base::{Cause, Cond, OutOfMemory};
use sc_grammar::terminal;
use sc_merge::{Head, Phase, Subparser};
use sc_presence::Conditions;
use std::alloc::Global;

/// The part in which the name is a typedef, then that in which it is a variable. A part that no
/// configuration has is left out.
pub(crate) fn classify<C: Conditions>(
    alloc: Global,
    conds: &mut C,
    source: &Source<'_>,
    parent: &Head<'_>,
    at: usize,
) -> Result<Vec<Piece>, OutOfMemory>
    requires phase { parent.now.phase ≡ Phase.Named at }
    requires at { at < length source.now.list.now }
    requires own { IsCond (C.sets conds.old) parent.now.cond.0 }
    requires levels { OwnsLevels (C.sets conds.old) (levels_in parent.now.scopes) }
    ensures pieces { IfOk result (λ pieces. (lines : List Line)
        → Events (C.sets conds.old) (C.sets conds.new) lines lines source.now parent.now core.classify pieces.items) }
    ensures own { (count : ℕ) → OwnsRow (C.sets conds.old) count source.now parent.now
        → IfOk result (λ pieces. All (OwnsPiece (C.sets conds.new) count source.now) pieces.items) }
    ensures numbered { (numbers : Numbers) → HasNumbers numbers parent.now.scopes → IfOk result (λ pieces. All (IsNumbered numbers) pieces.items) }
    ensures phases { IfOk result (λ pieces. All (IfGoing (λ next. next.phase ≡ Phase.Between (at + 1))) pieces.items) }

    // at every outcome
    ensures keeps { Keeps (C.sets conds.old) (C.sets conds.new) }
{
    let types = typedefs(conds, source, parent, at)?;
    let variables = conds.apply_without(parent.cond, types)?;
    let mut pieces = Vec::new(alloc);
    add_kind(
        alloc,
        conds,
        &mut pieces,
        source,
        parent,
        at,
        types,
        terminal::TYPE,
    )?;
    add_kind(
        alloc,
        conds,
        &mut pieces,
        source,
        parent,
        at,
        variables,
        terminal::VARIABLE,
    )?;
    Ok(pieces)
}

/// The configurations in which the name is a typedef, where the state accepts one.
fn typedefs<C: Conditions>(
    conds: &mut C,
    source: &Source<'_>,
    parent: &Head<'_>,
    at: usize,
) -> Result<Cond, OutOfMemory>
    requires at { at < length source.now.list.now }
    requires own { IsCond (C.sets conds.old) parent.now.cond.0 }
    requires levels { OwnsLevels (C.sets conds.old) (levels_in parent.now.scopes) }
    ensures meaning { IfOk result (λ types. Denotes (C.sets conds.new) types.0
        (λ c. (C.sets conds.old).has parent.now.cond.0 c && is_type_at (C.sets conds.old) source.now parent.now at c)) }

    // at every outcome
    ensures keeps { Keeps (C.sets conds.old) (C.sets conds.new) }
{
    if source
        .tables
        .action(parent.stack.state(), terminal::TYPE)
        .is_none()
    {
        return Ok(conds.never());
    }
    let name = source.list.item(at).1.spelling;
    parent.scopes.typedef_under(conds, name, parent.cond)
}

/// The part of the configurations for which the kind is shifted, where there are any.
fn add_kind<C: Conditions>(
    alloc: Global,
    conds: &C,
    pieces: &mut Vec<Piece>,
    source: &Source<'_>,
    parent: &Head<'_>,
    at: usize,
    cond: Cond,
    kind: Terminal,
) -> Result<(), OutOfMemory>
    requires at { at < length source.now.list.now }
    requires own { IsCond (C.sets conds.now) cond.0 }
    ensures { OnOk result (AddsKind (C.sets conds.now) source.now parent.now at cond kind.0 pieces.old.items pieces.new.items) }
{
    // so the next index fits its type
    prove!(at < source.list.len());
    if conds.is_never(cond) {
        return Ok(());
    }
    let Some(state) = source.state_after(parent, kind) else {
        let place = source.list.item(at).1.place;
        let answer = Answer::Refused(Cause::Syntax, place);
        pieces.push(Piece::Over(Ended { cond, answer }))?;
        return Ok(());
    };
    let mut stack = parent.stack.share()?;
    stack.push(state, None)?;
    let subparser = Subparser {
        cond,
        stack,
        scopes: parent.scopes.share()?,
        phase: Phase::Between(at + 1),
    };
    let piece = Piece::going(alloc, subparser)?;
    pieces.push(piece)?;
    Ok(())
}
