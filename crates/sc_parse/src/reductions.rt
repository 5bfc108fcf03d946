//! The reductions that one element causes, in an order in which subparsers that become alike meet.
ghost use Rattle.std.specs.Prelude.{◌≡◌, ◌<◌, ◌≤◌, ◌+◌, ◌∷◌, ◌++◌, [], ℕ, All, None, Some, IfOk, IfSome, length, take};
ghost use Rattle.lr_tables.specs.declared.grammar.Action.TheVariants.{Reduce};
ghost use Rattle.sc_fork.specs.Enabled.{Has, LooksAt};
ghost use Rattle.sc_fork.specs.Seen.{action_in};
ghost use Rattle.sc_fork.specs.View.{states_in};
ghost use Rattle.sc_merge.specs.declared.subparser.Subparser.{Subparser};
ghost use Rattle.sc_model.specs.Growth.{Extends};
ghost use Rattle.sc_model.specs.Sets.{Keeps};
ghost use Rattle.sc_parse.specs.Numbers.{AreNumbers, Each, IsAt, IsReady, Replaces};
ghost use Rattle.sc_parse.specs.Runs.{GoesOn, OwnsSteps};
ghost use Rattle.sc_parse.specs.Weights.{ActsBy, AreBelow, AreReducing, AreWeighed, HasWeight, IsRanked, Moves, number_of, numbers_of};
ghost use Rattle.sc_parse.specs.declared.reductions.Weight.{Weight};
ghost use Rattle.sc_tree.specs.Lines.{OwnsBranches};

use crate::steps::Steps;
use lr_tables::Action;
use sc_base::OutOfMemory;
use sc_fork::Kind;
use sc_grammar::{NONTERMINALS, production};
use sc_presence::Conditions;
use sc_tree::Trees;
use std::alloc::Global;
use std::collections::BTreeMap;

/// A reduction makes a stack less high, or, where the right side is one symbol, it makes the symbol
/// on top one of lower rank. So each stack that comes of one is below it in this order, and of two
/// subparsers that become alike the one that is there first waits for the other.
#[derive(Clone, Copy, PartialEq, Eq, PartialOrd, Ord)]
struct Weight {
    height: usize,
    /// Of the symbol on top: a nonterminal's number, and for each terminal the number of
    /// nonterminals.
    rank: usize,
}

/// The subparsers that come of these by all reductions at the element that comes next. These are
/// no two alike, have shifted one element since their last reduction, and so have a terminal on
/// top.
pub(crate) fn reduced<C: Conditions>(
    alloc: Global,
    conds: &mut C,
    trees: &mut Trees,
    steps: &mut Steps<'_>,
    row: Vec<usize>,
) -> Result<Vec<usize>, OutOfMemory>
    requires own { OwnsSteps (C.sets conds.old) (length trees.old) steps.old }
    requires branches { OwnsBranches (C.sets conds.old) trees.old }
    requires numbers { AreNumbers steps.old.core.subparsers row.items }
    requires at { (j : ℕ) × Each (IsAt j) steps.old.core.subparsers row.items }
    ensures goes_on { IfOk result (λ ready. (j : ℕ) → Each (IsAt j) steps.old.core.subparsers row.items
        → GoesOn (C.sets conds.old) (C.sets conds.new) trees.old trees.new (j + 1) steps.old steps.new) }
    ensures replaces { IfOk result (λ ready. Replaces steps.old.core.subparsers steps.new.core.subparsers row.items ready.items) }
    ensures ready { IfOk result (λ ready. (j : ℕ) → Each (IsAt j) steps.old.core.subparsers row.items → Each (IsReady steps.new.core.source j) steps.new.core.subparsers ready.items) }

    // at every outcome
    ensures keeps { Keeps (C.sets conds.old) (C.sets conds.new) }
    ensures grows { Extends trees.old trees.new }
    ensures owns { OwnsBranches (C.sets conds.new) trees.new }
{
    if let [number] = row.as_slice() {
        return reduced_alone(alloc, conds, trees, steps, *number);
    }
    let mut ready = Vec::new(alloc);
    let mut waiting = BTreeMap::new(alloc);
    for number in row {
        wait(
            alloc,
            conds,
            trees,
            steps,
            &mut waiting,
            NONTERMINALS,
            number,
        )?;
    }
    while let Some((_, heaviest)) = waiting.pop_last() {
        reduce_each(
            alloc,
            conds,
            trees,
            steps,
            &mut waiting,
            &mut ready,
            heaviest,
        )?;
    }
    Ok(ready)
}

/// Reduces each of these once, neighbours by one rule together. Those whose action is no reduction
/// are ready.
fn reduce_each<C: Conditions>(
    alloc: Global,
    conds: &mut C,
    trees: &mut Trees,
    steps: &mut Steps<'_>,
    waiting: &mut BTreeMap<Weight, Vec<usize>>,
    ready: &mut Vec<usize>,
    heaviest: Vec<usize>,
) -> Result<(), OutOfMemory>
    requires own { OwnsSteps (C.sets conds.old) (length trees.old) steps.old }
    requires branches { OwnsBranches (C.sets conds.old) trees.old }
    requires numbers { AreNumbers steps.old.core.subparsers (ready.old.items ++ (heaviest.items ++ numbers_of waiting.old.entries)) }
    requires at { (j : ℕ) × Each (IsAt j) steps.old.core.subparsers (ready.old.items ++ (heaviest.items ++ numbers_of waiting.old.entries)) }
    requires weighed { AreWeighed steps.old.core.source steps.old.core.subparsers waiting.old.entries }
    ensures moves { IfOk result (λ u. (j : ℕ) → Each (IsAt j) steps.old.core.subparsers (ready.old.items ++ (heaviest.items ++ numbers_of waiting.old.entries))
        → Moves (C.sets conds.old) (C.sets conds.new) trees.old trees.new j steps.old steps.new
        (ready.old.items ++ (heaviest.items ++ numbers_of waiting.old.entries)) (ready.new.items ++ numbers_of waiting.new.entries)) }
    ensures ready { IfOk result (λ u. (j : ℕ) → Each (IsAt j) steps.old.core.subparsers (ready.old.items ++ (heaviest.items ++ numbers_of waiting.old.entries))
        → Each (IsReady steps.old.core.source j) steps.old.core.subparsers ready.old.items → Each (IsReady steps.new.core.source j) steps.new.core.subparsers ready.new.items) }
    ensures weighed { IfOk result (λ u. AreWeighed steps.new.core.source steps.new.core.subparsers waiting.new.entries) }
    ensures below { IfOk result (λ u. (w : Weight) → Each (HasWeight steps.old.core.source w) steps.old.core.subparsers heaviest.items
        → AreBelow (number_of w) waiting.old.entries → AreBelow (number_of w) waiting.new.entries) }

    // at every outcome
    ensures keeps { Keeps (C.sets conds.old) (C.sets conds.new) }
    ensures grows { Extends trees.old trees.new }
    ensures owns { OwnsBranches (C.sets conds.new) trees.new }
{
    let mut left = heaviest.as_slice();
    while left.len() > 0 {
        let number = left[0];
        match reduction(steps, number) {
            Some(rule) => {
                let (group, rest) = left.split_at(reducing(steps, left, rule));
                reduce_group(alloc, conds, trees, steps, waiting, group, rule)?;
                left = rest;
            }
            None => {
                ready.push(number)?;
                left = &left[1..];
            }
        }
    }
    Ok(())
}

/// How many of these, from the first on, are reduced by the rule of the first.
fn reducing(steps: &Steps<'_>, numbers: &[usize], rule: usize) -> usize
    requires some { 0 < length numbers.now }
    requires first { All (ActsBy steps.now.core.source rule steps.now.core.subparsers) (take 1 numbers.now) }
    ensures some { 0 < result }
    ensures within { result ≤ length numbers.now }
    ensures by { All (ActsBy steps.now.core.source rule steps.now.core.subparsers) (take result numbers.now) }
{
    for at in 1..numbers.len() {
        let Some(other) = reduction(steps, numbers[at]) else {
            return at;
        };
        if other != rule {
            return at;
        }
    }
    numbers.len()
}

/// Reduces each of these once by their rule. What comes of them waits.
fn reduce_group<C: Conditions>(
    alloc: Global,
    conds: &mut C,
    trees: &mut Trees,
    steps: &mut Steps<'_>,
    waiting: &mut BTreeMap<Weight, Vec<usize>>,
    group: &[usize],
    rule: usize,
) -> Result<(), OutOfMemory>
    requires own { OwnsSteps (C.sets conds.old) (length trees.old) steps.old }
    requires branches { OwnsBranches (C.sets conds.old) trees.old }
    requires numbers { AreNumbers steps.old.core.subparsers (group.now ++ numbers_of waiting.old.entries) }
    requires at { (j : ℕ) × Each (IsAt j) steps.old.core.subparsers (group.now ++ numbers_of waiting.old.entries) }
    requires weighed { AreWeighed steps.old.core.source steps.old.core.subparsers waiting.old.entries }
    requires reduces { AreReducing steps.old.core.source rule steps.old.core.subparsers group.now }
    ensures moves { IfOk result (λ u. (j : ℕ) → Each (IsAt j) steps.old.core.subparsers (group.now ++ numbers_of waiting.old.entries)
        → Moves (C.sets conds.old) (C.sets conds.new) trees.old trees.new j steps.old steps.new (group.now ++ numbers_of waiting.old.entries) (numbers_of waiting.new.entries)) }
    ensures weighed { IfOk result (λ u. AreWeighed steps.new.core.source steps.new.core.subparsers waiting.new.entries) }
    ensures below { IfOk result (λ u. (w : Weight) → Each (HasWeight steps.old.core.source w) steps.old.core.subparsers group.now
        → AreBelow (number_of w) waiting.old.entries → AreBelow (number_of w) waiting.new.entries) }

    // at every outcome
    ensures keeps { Keeps (C.sets conds.old) (C.sets conds.new) }
    ensures grows { Extends trees.old trees.new }
    ensures owns { OwnsBranches (C.sets conds.new) trees.new }
{
    let rank = production(rule).left.0;
    for made in steps.apply_all(alloc, conds, trees, Kind::Reduce, group)? {
        wait(alloc, conds, trees, steps, waiting, rank, made)?;
    }
    Ok(())
}

/// The subparser that comes of one where there is no other.
fn reduced_alone<C: Conditions>(
    alloc: Global,
    conds: &mut C,
    trees: &mut Trees,
    steps: &mut Steps<'_>,
    number: usize,
) -> Result<Vec<usize>, OutOfMemory>
    requires own { OwnsSteps (C.sets conds.old) (length trees.old) steps.old }
    requires branches { OwnsBranches (C.sets conds.old) trees.old }
    requires numbers { AreNumbers steps.old.core.subparsers (number ∷ []) }
    requires at { (j : ℕ) × Each (IsAt j) steps.old.core.subparsers (number ∷ []) }
    ensures goes_on { IfOk result (λ ready. (j : ℕ) → Each (IsAt j) steps.old.core.subparsers (number ∷ [])
        → GoesOn (C.sets conds.old) (C.sets conds.new) trees.old trees.new (j + 1) steps.old steps.new) }
    ensures replaces { IfOk result (λ ready. Replaces steps.old.core.subparsers steps.new.core.subparsers (number ∷ []) ready.items) }
    ensures ready { IfOk result (λ ready. (j : ℕ) → Each (IsAt j) steps.old.core.subparsers (number ∷ []) → Each (IsReady steps.new.core.source j) steps.new.core.subparsers ready.items) }

    // at every outcome
    ensures keeps { Keeps (C.sets conds.old) (C.sets conds.new) }
    ensures grows { Extends trees.old trees.new }
    ensures owns { OwnsBranches (C.sets conds.new) trees.new }
{
    let mut number = number;
    let mut rank = NONTERMINALS;
    while let Some(rule) = reduction(steps, number) {
        let production = production(rule);
        prove!(production.right.len() > 1 || production.left.0 < rank);
        let made = steps.reduce(alloc, conds, trees, number)?;
        let Some(next) = made else {
            return Ok(Vec::new(alloc));
        };
        number = next;
        rank = production.left.0;
    }
    Ok(vec![in alloc; number]?)
}

/// The production by which the subparser is reduced at the element that comes next.
fn reduction(steps: &Steps<'_>, number: usize) -> Option<usize>
    ensures some { IfSome result (λ rule. (s : Subparser) (at : ℕ) → LooksAt steps.now.core.subparsers number s at → action_in steps.now.core.source s at ≡ Some (Reduce rule)) }
    ensures none { result ≡ None → (s : Subparser) (at : ℕ) → LooksAt steps.now.core.subparsers number s at
        → (p : ℕ) → action_in steps.now.core.source s at ≡ Some (Reduce p) → ⊥ }
{
    match steps.core.action(number)? {
        Action::Reduce(rule) => Some(rule),
        Action::Shift(_) => None,
    }
}

/// Puts a subparser to those of its weight.
fn wait<C: Conditions>(
    alloc: Global,
    conds: &mut C,
    trees: &mut Trees,
    steps: &mut Steps<'_>,
    waiting: &mut BTreeMap<Weight, Vec<usize>>,
    rank: usize,
    number: usize,
) -> Result<(), OutOfMemory>
    requires own { OwnsSteps (C.sets conds.old) (length trees.old) steps.old }
    requires branches { OwnsBranches (C.sets conds.old) trees.old }
    requires numbers { AreNumbers steps.old.core.subparsers (number ∷ numbers_of waiting.old.entries) }
    requires weighed { AreWeighed steps.old.core.source steps.old.core.subparsers waiting.old.entries }
    requires ranked { (s : Subparser) → Has steps.old.core.subparsers number s → IsRanked steps.old.core.source rank s }
    requires low { rank ≤ 100 }
    ensures goes_on { IfOk result (λ u. (place : ℕ) → GoesOn (C.sets conds.old) (C.sets conds.new) trees.old trees.new place steps.old steps.new) }
    ensures replaces { IfOk result (λ u. Replaces steps.old.core.subparsers steps.new.core.subparsers (number ∷ numbers_of waiting.old.entries) (numbers_of waiting.new.entries)) }
    ensures weighed { IfOk result (λ u. AreWeighed steps.new.core.source steps.new.core.subparsers waiting.new.entries) }
    ensures at { IfOk result (λ u. (j : ℕ) → Each (IsAt j) steps.old.core.subparsers (number ∷ numbers_of waiting.old.entries)
        → Each (IsAt j) steps.new.core.subparsers (numbers_of waiting.new.entries)) }
    ensures below { IfOk result (λ u. (bound : ℕ) (s : Subparser) → Has steps.old.core.subparsers number s → AreBelow bound waiting.old.entries
        → number_of (record { height = length (states_in s); rank = rank }) < bound → AreBelow bound waiting.new.entries) }

    // at every outcome
    ensures keeps { Keeps (C.sets conds.old) (C.sets conds.new) }
    ensures grows { Extends trees.old trees.new }
    ensures owns { OwnsBranches (C.sets conds.new) trees.new }
{
    let weight = Weight {
        height: steps.key(number).height(),
        rank,
    };
    let mut alike = match waiting.remove(&weight) {
        Some(others) => others,
        None => Vec::new(alloc),
    };
    steps.join(alloc, conds, trees, &mut alike, number)?;
    waiting.insert(weight, alike)?;
    Ok(())
}
