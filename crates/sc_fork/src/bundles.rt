//! An event of several subparsers, one after the other.
ghost use Rattle.std.specs.Prelude.{◌≡◌, ◌↔◌, ◌⊎◌, ℕ, true, false, All, Err, List, IfErr, IfOk, OnErr, length};
ghost use Rattle.c11_parsing.specs.Classes.{Input};
ghost use Rattle.c11_parsing.specs.Core as core;
ghost use Rattle.c11_parsing.specs.Core.{Stands};
ghost use Rattle.sc_fork.specs.declared.enabled.Enabled.{Enabled};
ghost use Rattle.sc_fork.specs.declared.event.Fact.{Fact};
ghost use Rattle.sc_fork.specs.Bundles.{AreApplied, AreDone, IsDone, IsFirstRefused, KeepsSound, Leads, event_by, events_of};
ghost use Rattle.sc_fork.specs.Choices.{AddsLeaves, AreSound};
ghost use Rattle.sc_fork.specs.Cores.{IsCore};
ghost use Rattle.sc_fork.specs.Enabled.{IsEnabled};
ghost use Rattle.sc_fork.specs.Nodes.{AddsNode, IsNodeBy, ReducesBy};
ghost use Rattle.sc_fork.specs.Owns.{OwnsCore};
ghost use Rattle.sc_merge.specs.Merges.{tables_with};
ghost use Rattle.sc_model.specs.Growth.{Extends};
ghost use Rattle.sc_model.specs.Sets.{Keeps};
ghost use Rattle.sc_stack.specs.Entries.{Entry};
ghost use Rattle.sc_tree.specs.Lines.{AddsAtMost, Line, OwnsBranches};

use crate::event::{Applied, CoreStop, Kind};
use crate::fork::Core;
use sc_base::OutOfMemory;
use sc_presence::Conditions;
use sc_tree::Trees;
use std::alloc::Global;

impl Core<'_> {
    /// Does the event of each of these subparsers, one after the other. All are tested against the
    /// core as it is given.
    pub fn apply_all<C: Conditions>(
        &mut self,
        alloc: Global,
        conds: &mut C,
        trees: &mut Trees,
        kind: Kind,
        members: &[usize],
    ) -> Result<Applied, CoreStop>
        requires own { OwnsCore (C.sets conds.old) (length trees.old) self.old }
        requires branches { OwnsBranches (C.sets conds.old) trees.old }
        ensures applied { IfOk result (λ applied. (names files : List (List ℕ)) (input : Input) (seen : core.Core)
            → IsCore (tables_with (C.sets conds.old) trees.old names files) input self.old seen → Stands input seen
            → AreApplied (tables_with (C.sets conds.old) trees.old names files) (tables_with (C.sets conds.new) trees.new names files)
            input self.old (events_of kind members.now) self.new applied.made.items seen) }
        ensures each { IfOk result (λ applied. AreDone (C.sets conds.old) trees.old self.old (events_of kind members.now)
            (C.sets conds.new) trees.new self.new applied.made.items) }
        ensures not_enabled { (fact : Fact) → result ≡ Err (CoreStop.NotEnabled fact)
            → IsFirstRefused self.old.source self.old.subparsers kind members.now fact }
        ensures given_up { (result ≡ Err CoreStop.GivenUp) ↔ (self.old.is_given_up ≡ true) }
        ensures memory { (self.new.is_given_up ≡ true) ↔ ((result ≡ Err CoreStop.OutOfMemory) ⊎ (self.old.is_given_up ≡ true)) }
        ensures unchanged { IfErr result (λ stop. (stop ≡ CoreStop.OutOfMemory → ⊥) → self.new ≡ self.old) }

        // at every outcome
        ensures one_node { (p : ℕ) (stack : List Entry) (line : Line) → kind ≡ Kind.Reduce
            → All (ReducesBy self.old.source self.old.subparsers p stack) members.now → IsNodeBy p stack line → AddsAtMost trees.old trees.new line }
        ensures choices { KeepsSound (C.sets conds.old) (C.sets conds.new) trees.old trees.new self.old }
        ensures leads { Leads (C.sets conds.old) (C.sets conds.new) trees.old trees.new self.old self.new }
        ensures own { OwnsCore (C.sets conds.new) (length trees.new) self.new }
        ensures branches { OwnsBranches (C.sets conds.new) trees.new }
    {
        self.can_do_all(kind, members)?;
        let mut made = Vec::new(alloc);
        for number in members {
            let Ok(mut more) = self.do_one(alloc, conds, trees, kind, *number) else {
                return Err(CoreStop::OutOfMemory);
            };
            let Ok(()) = made.append(&mut more) else {
                self.give_up();
                return Err(CoreStop::OutOfMemory);
            };
        }
        Ok(Applied { made })
    }

    /// Does the event of a subparser that can do it.
    fn do_one<C: Conditions>(
        &mut self,
        alloc: Global,
        conds: &mut C,
        trees: &mut Trees,
        kind: Kind,
        number: usize,
    ) -> Result<Vec<usize>, OutOfMemory>
        requires own { OwnsCore (C.sets conds.old) (length trees.old) self.old }
        requires branches { OwnsBranches (C.sets conds.old) trees.old }
        requires usable { self.old.is_given_up ≡ false }
        requires can { (e : Enabled) × IsEnabled self.old.source self.old.subparsers (event_by kind number) e }
        ensures done { IfOk result (λ made. IsDone (C.sets conds.old) (C.sets conds.new) trees.old trees.new self.old (event_by kind number)
            self.new made.items) }
        ensures given_up { OnErr result (self.new.is_given_up ≡ true) }

        // at every outcome
        ensures adds { kind ≡ Kind.Reduce → AddsNode self.old number trees.old trees.new }
        ensures choices { KeepsSound (C.sets conds.old) (C.sets conds.new) trees.old trees.new self.old }
        ensures leads { Leads (C.sets conds.old) (C.sets conds.new) trees.old trees.new self.old self.new }
        ensures own { OwnsCore (C.sets conds.new) (length trees.new) self.new }
        ensures branches { OwnsBranches (C.sets conds.new) trees.new }
    {
        match self.apply(alloc, conds, trees, kind.event(number)) {
            Ok(applied) => Ok(applied.made),
            Err(_) => Err(OutOfMemory),
        }
    }
}
