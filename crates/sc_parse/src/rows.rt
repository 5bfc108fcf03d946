//! The subparsers by the element that comes next for them.
ghost use Rattle.std.specs.Prelude.{◌≡◌, ◌<◌, ◌≤◌, ◌+◌, ◌∷◌, [], ℕ, false, IfErr, IfOk, List, Option, length};
ghost use Rattle.c11_parsing.specs.Classes.{Input};
ghost use Rattle.c11_parsing.specs.Core as core;
ghost use Rattle.sc_fork.specs.Enabled.{Has};
ghost use Rattle.sc_merge.specs.declared.subparser.Subparser.{Subparser};
ghost use Rattle.sc_merge.specs.Merges.{tables_with};
ghost use Rattle.sc_model.specs.Growth.{Extends};
ghost use Rattle.sc_model.specs.Sets.{Keeps};
ghost use Rattle.sc_parse.specs.Filed.{AreFiled, HasNoneBefore, numbers_in};
ghost use Rattle.sc_parse.specs.Numbers.{AreApart, AreNumbers, Each, IsAt, IsBetween, Replaces, times};
ghost use Rattle.sc_parse.specs.Parses.{StopsFor};
ghost use Rattle.sc_parse.specs.Runs.{AreWaiting, GoesOn, IsRun, OwnsSteps};
ghost use Rattle.sc_tree.specs.Lines.{OwnsBranches};

use crate::steps::Steps;
use sc_base::{OutOfMemory, Stop};
use sc_fork::Event;
use sc_merge::Phase;
use sc_presence::Conditions;
use sc_tree::Trees;
use std::alloc::Global;
use std::mem;

/// For each element, and for the end, the numbers of the subparsers for which it comes next. No two
/// of one row are alike, so there are as many in all rows as there are classes of configurations.
#[derive(Drop)]
pub(crate) struct Rows {
    pub rows: Vec<Vec<usize>>,
    /// How many subparsers there are in all rows.
    pub count: usize,
    /// How many there may be.
    pub branches: usize,
}

impl Rows {
    /// Empty rows for a list of so many elements.
    pub(crate) fn new(alloc: Global, elements: usize, branches: usize) -> Result<Rows, OutOfMemory>
        ensures numbers { IfOk result (λ r. numbers_in r ≡ []) }
        ensures filed { IfOk result (λ r. (subparsers : List (Option Subparser)) → AreFiled subparsers r) }
        ensures long { IfOk result (λ r. length r.rows.items ≡ elements + 1) }
        ensures branches { IfOk result (λ r. r.branches ≡ branches) }
    {
        let mut rows = Vec::new(alloc);
        for _ in 0..elements {
            rows.push(Vec::new(alloc))?;
        }
        rows.push(Vec::new(alloc))?;
        Ok(Rows {
            rows,
            count: 0,
            branches,
        })
    }

    /// Takes the subparsers for which the element comes next.
    pub(crate) fn take(&mut self, alloc: Global, at: usize) -> Vec<usize>
        requires at { at < length self.old.rows.items }
        requires count { self.old.count ≡ length (numbers_in self.old) }
        ensures numbers { (n : ℕ) → times n (numbers_in self.new) + times n result.items ≡ times n (numbers_in self.old) }
        ensures filed { (subparsers : List (Option Subparser)) → AreFiled subparsers self.old → AreFiled subparsers self.new }
        ensures taken { (subparsers : List (Option Subparser)) → AreFiled subparsers self.old → Each (IsAt at) subparsers result.items }
        ensures done { HasNoneBefore self.old at → HasNoneBefore self.new (at + 1) }
        ensures long { length self.new.rows.items ≡ length self.old.rows.items }
        ensures branches { self.new.branches ≡ self.old.branches }
    {
        let row = mem::replace(&mut self.rows[at], Vec::new(alloc));
        self.count -= row.len();
        row
    }

    /// Parts a subparser by what comes next, and puts each part into its row.
    pub(crate) fn part<C: Conditions>(
        &mut self,
        alloc: Global,
        conds: &mut C,
        trees: &mut Trees,
        steps: &mut Steps<'_>,
        number: usize,
    ) -> Result<(), Stop>
        requires own { OwnsSteps (C.sets conds.old) (length trees.old) steps.old }
        requires branches { OwnsBranches (C.sets conds.old) trees.old }
        requires numbers { AreNumbers steps.old.core.subparsers (number ∷ numbers_in self.old) }
        requires between { (i : ℕ) × Each (IsBetween i) steps.old.core.subparsers (number ∷ []) }
        requires filed { AreFiled steps.old.core.subparsers self.old }
        requires long { length self.old.rows.items ≡ length steps.old.core.source.list.now + 1 }
        ensures goes_on { IfOk result (λ u. (place : ℕ) → GoesOn (C.sets conds.old) (C.sets conds.new) trees.old trees.new place steps.old steps.new) }
        ensures replaces { IfOk result (λ u. Replaces steps.old.core.subparsers steps.new.core.subparsers (number ∷ numbers_in self.old) (numbers_in self.new)) }
        ensures filed { IfOk result (λ u. AreFiled steps.new.core.subparsers self.new) }
        ensures done { IfOk result (λ u. (i : ℕ) → Each (IsBetween i) steps.old.core.subparsers (number ∷ []) → HasNoneBefore self.old i → HasNoneBefore self.new i) }
        ensures long { IfOk result (λ u. length self.new.rows.items ≡ length self.old.rows.items) }
        ensures limit { IfOk result (λ u. self.new.branches ≡ self.old.branches) }
        ensures waiting { IfOk result (λ u. (names files : List (List ℕ)) (input : Input) (first : core.Core) (place : ℕ) → IsRun (tables_with (C.sets conds.old) trees.old names files) input first steps.old
            → Each (IsBetween place) steps.old.core.subparsers (number ∷ []) → AreWaiting (C.sets conds.old) input place steps.old.core.subparsers (numbers_in self.old)
            → AreWaiting (C.sets conds.new) input place steps.new.core.subparsers (numbers_in self.new)) }
        ensures stops { IfErr result (λ stop. (names files : List (List ℕ)) (input : Input) (first : core.Core) (place : ℕ) → IsRun (tables_with (C.sets conds.old) trees.old names files) input first steps.old
            → Each (IsBetween place) steps.old.core.subparsers (number ∷ []) → AreWaiting (C.sets conds.old) input place steps.old.core.subparsers (numbers_in self.old)
            → StopsFor input self.old.branches stop) }

        // at every outcome
        ensures keeps { Keeps (C.sets conds.old) (C.sets conds.new) }
        ensures grows { Extends trees.old trees.new }
        ensures owns { OwnsBranches (C.sets conds.new) trees.new }
    {
        for part in steps.apply(alloc, conds, trees, Event::Split(number))? {
            self.put(alloc, conds, trees, steps, part)?;
        }
        Ok(())
    }

    /// Puts a subparser into its row, where it is merged with the one that is like it.
    fn put<C: Conditions>(
        &mut self,
        alloc: Global,
        conds: &mut C,
        trees: &mut Trees,
        steps: &mut Steps<'_>,
        number: usize,
    ) -> Result<(), Stop>
        requires own { OwnsSteps (C.sets conds.old) (length trees.old) steps.old }
        requires branches { OwnsBranches (C.sets conds.old) trees.old }
        requires numbers { AreNumbers steps.old.core.subparsers (number ∷ numbers_in self.old) }
        requires at { (k : ℕ) × (Each (IsAt k) steps.old.core.subparsers (number ∷ []) × k < length self.old.rows.items) }
        requires filed { AreFiled steps.old.core.subparsers self.old }
        ensures goes_on { IfOk result (λ u. (place : ℕ) → GoesOn (C.sets conds.old) (C.sets conds.new) trees.old trees.new place steps.old steps.new) }
        ensures replaces { IfOk result (λ u. Replaces steps.old.core.subparsers steps.new.core.subparsers (number ∷ numbers_in self.old) (numbers_in self.new)) }
        ensures filed { IfOk result (λ u. AreFiled steps.new.core.subparsers self.new) }
        ensures done { IfOk result (λ u. (i k : ℕ) → Each (IsAt k) steps.old.core.subparsers (number ∷ []) → i ≤ k → HasNoneBefore self.old i → HasNoneBefore self.new i) }
        ensures long { IfOk result (λ u. length self.new.rows.items ≡ length self.old.rows.items) }
        ensures limit { IfOk result (λ u. self.new.branches ≡ self.old.branches) }
        ensures waiting { IfOk result (λ u. (names files : List (List ℕ)) (input : Input) (first : core.Core) (place : ℕ) → IsRun (tables_with (C.sets conds.old) trees.old names files) input first steps.old
            → AreWaiting (C.sets conds.old) input place steps.old.core.subparsers (number ∷ numbers_in self.old)
            → AreWaiting (C.sets conds.new) input place steps.new.core.subparsers (numbers_in self.new)) }
        ensures stops { IfErr result (λ stop. (names files : List (List ℕ)) (input : Input) (first : core.Core) (place : ℕ) → IsRun (tables_with (C.sets conds.old) trees.old names files) input first steps.old
            → AreWaiting (C.sets conds.old) input place steps.old.core.subparsers (number ∷ numbers_in self.old) → place < length input.items + 1
            → StopsFor input self.old.branches stop) }

        // at every outcome
        ensures keeps { Keeps (C.sets conds.old) (C.sets conds.new) }
        ensures grows { Extends trees.old trees.new }
        ensures owns { OwnsBranches (C.sets conds.new) trees.new }
    {
        let Phase::At(next) = steps.key(number).phase() else {
            unreachable!()
        };
        let row = &mut self.rows[next];
        if !steps.join(alloc, conds, trees, row, number)? {
            return Ok(());
        }
        // no more can be held than can be counted
        let Some(count) = self.count.checked_add(1) else {
            return Err(Stop::OutOfMemory);
        };
        if self.count == self.branches {
            return Err(Stop::BranchesFull { count });
        }
        self.count = count;
        Ok(())
    }
}
