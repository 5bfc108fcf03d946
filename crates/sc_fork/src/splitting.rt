//! A subparser is parted by the next element of its configurations.
ghost use Rattle.std.specs.Prelude.{◌≡◌, ◌+◌, ◌<◌, ◌≤◌, ◌∷◌, [], ℕ, List, All, AllPairs, drop, length, if◌then◌else◌, IfOk};
ghost use Rattle.c11_parsing.specs.Core as core;
ghost use Rattle.sc_fork.specs.Owns.{IsNumbered, OwnsPiece, OwnsRow};
ghost use Rattle.sc_fork.specs.Pieces.{IfGoing, LooksBefore, LooksFrom};
ghost use Rattle.sc_fork.specs.Seen.{Events};
ghost use Rattle.sc_guarded.specs.Blocks.{AreBlocks};
ghost use Rattle.sc_guarded.specs.Items.{items_at};
ghost use Rattle.sc_guarded.specs.Next.{next_at};
ghost use Rattle.sc_model.specs.Sets.{IsConfig, IsCond, Keeps, IsNever};
ghost use Rattle.sc_scope.specs.declared.numbers.Numbers.{Numbers};
ghost use Rattle.sc_scope.specs.Numbered.{HasNumbers};
ghost use Rattle.sc_tree.specs.Lines.{Line};

use crate::held::Lent;
use crate::piece::Piece;
use crate::source::Source;
use sc_base::{Cond, OutOfMemory};
use sc_guarded::Steps;
use sc_merge::Phase;
use sc_presence::Conditions;
use std::alloc::Global;
use std::marker::Brand;
use std::sync::ledger::{Blank, Ledger};

/// A part for each element that comes next, in order, or for the end.
pub(crate) fn split<C: Conditions>(
    alloc: Global,
    conds: &mut C,
    source: &Source<'_>,
    parent: &Lent<'_>,
    from: usize,
) -> Result<Vec<Piece>, OutOfMemory>
    requires phase { parent.now.phase ≡ Phase.Between from }
    requires from { from ≤ length source.now.list.now }
    requires own { IsCond (C.sets conds.old) parent.now.cond.0 }
    requires items { All (λ item. IsCond (C.sets conds.old) item.0.0) source.now.list.now }
    requires blocks { AreBlocks (C.sets conds.old) source.now.list.now source.now.blocks }
    ensures pieces { IfOk result (λ pieces. (lines : List Line)
        → Events (C.sets conds.old) (C.sets conds.new) lines lines source.now parent.now core.split pieces.items) }
    ensures own { (count : ℕ) → OwnsRow (C.sets conds.old) count source.now parent.now
        → IfOk result (λ pieces. All (OwnsPiece (C.sets conds.new) count source.now) pieces.items) }
    ensures numbered { (numbers : Numbers) → HasNumbers numbers parent.now.scopes → IfOk result (λ pieces. All (IsNumbered numbers) pieces.items) }
    ensures phases { IfOk result (λ pieces. All (IfGoing (LooksFrom from (length source.now.list.now))) pieces.items) }
    ensures order { IfOk result (λ pieces. AllPairs LooksBefore pieces.items) }

    // at every outcome
    ensures keeps { Keeps (C.sets conds.old) (C.sets conds.new) }
{
    let whole = parent.head();
    let parts = next_parts::<C, Brand>(alloc, conds, source, from, whole.cond, Blank::new(1))?;
    let mut pieces = Vec::new(alloc);
    for part in &parts {
        let held = parent.part(part.0, Phase::At(part.1))?;
        pieces.push(Piece::Going(held))?;
    }
    Ok(pieces)
}

/// The parts of a condition by the next element. No step of it is counted.
fn next_parts<C: Conditions, L: Ledger>(
    alloc: Global,
    conds: &mut C,
    source: &Source<'_>,
    from: usize,
    cond: Cond,
    blank: Blank,
) -> Result<Vec<(Cond, usize)>, OutOfMemory>
    requires from { from ≤ length source.now.list.now }
    requires own { IsCond (C.sets conds.old) cond.0 }
    requires items { All (λ item. IsCond (C.sets conds.old) item.0.0) source.now.list.now }
    requires blocks { AreBlocks (C.sets conds.old) source.now.list.now source.now.blocks }
    requires name { blank.name ≡ L.name }
    requires parts { blank.parts ≡ L.parts }
    requires some { 0 < blank.parts }
    ensures next { IfOk result (λ parts. (c : List ℕ) → IsConfig (C.sets conds.old).arities c
        → items_at (C.sets conds.new) parts.items c
        ≡ (if (C.sets conds.old).has cond.0 c then (from + next_at (C.sets conds.old) (drop from source.now.list.now) c) ∷ [] else [])) }
    ensures some { IfOk result (λ parts. All (λ part. IsNever (C.sets conds.new) part.0.0 → ⊥) parts.items) }
    ensures rising { IfOk result (λ parts. AllPairs (λ a b. a.1 < b.1) parts.items) }
    ensures own { IfOk result (λ parts. All (λ part. IsCond (C.sets conds.new) part.0.0) parts.items) }

    // at every outcome
    ensures keeps { Keeps (C.sets conds.old) (C.sets conds.new) }
{
    let mut steps = Steps::<L>::new(blank);
    let blocks = &source.blocks;
    match source
        .list
        .follow_counted(alloc, conds, blocks, from, cond, &mut steps)
    {
        Ok(parts) => Ok(parts),
        Err(_) => Err(OutOfMemory),
    }
}
