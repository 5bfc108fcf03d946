//! The events of a core, one after the other.
ghost use Rattle.std.specs.Prelude.{◌≡◌, ◌<◌, ◌+◌, ◌++◌, ◌∷◌, [], ℕ, false, All, IfOk, IfSome, List, None, OnOk, get_or, length, if◌then◌else◌};
ghost use Rattle.c11_parsing.specs.Classes.{Input};
ghost use Rattle.c11_parsing.specs.Core as core;
ghost use Rattle.sc_fork.specs.declared.event.Fact.{Fact};
ghost use Rattle.sc_fork.specs.Bundles.{AreDone, AreEnabled, event_by, events_of};
ghost use Rattle.sc_fork.specs.Enabled.{Has, IsRefused};
ghost use Rattle.sc_fork.specs.Pieces.{HasMade};
ghost use Rattle.sc_merge.specs.declared.subparser.Subparser.{Subparser};
ghost use Rattle.sc_merge.specs.Keys.{AreAlike, IsKeyOf};
ghost use Rattle.sc_merge.specs.Merges.{tables_with};
ghost use Rattle.sc_model.specs.Growth.{Extends};
ghost use Rattle.sc_model.specs.Sets.{Keeps};
ghost use Rattle.sc_parse.specs.Numbers.{AreApart, AreLike, AreNumbers, Each, Replaces, given};
ghost use Rattle.sc_parse.specs.Runs.{AreWaiting, GoesOn, IsBefore, StandsBefore, IsRun, IsStepTo, OwnsSteps};
ghost use Rattle.sc_tree.specs.Lines.{OwnsBranches};

use crate::packed::PackedEvent;
use sc_base::OutOfMemory;
use sc_fork::{Core, CoreStop, Event, Kind};
use sc_merge::Key;
use sc_presence::Conditions;
use sc_tree::Trees;
use std::alloc::Global;

/// A core with the events that it did.
#[derive(Drop)]
pub(crate) struct Steps<'a> {
    pub core: Core<'a>,
    pub events: Vec<PackedEvent>,
}

impl Steps<'_> {
    /// Does an event that the core can do. The answer is the numbers of the new subparsers.
    pub(crate) fn apply<C: Conditions>(
        &mut self,
        alloc: Global,
        conds: &mut C,
        trees: &mut Trees,
        event: Event,
    ) -> Result<Vec<usize>, OutOfMemory>
        requires own { OwnsSteps (C.sets conds.old) (length trees.old) self.old }
        requires branches { OwnsBranches (C.sets conds.old) trees.old }
        requires enabled { (fact : Fact) → IsRefused self.old.core.source self.old.core.subparsers event fact → ⊥ }
        ensures made { IfOk result (λ made. HasMade self.old.core event self.new.core made.items) }
        ensures step { IfOk result (λ made. (names files : List (List ℕ)) (input : Input) (first : core.Core) → IsRun (tables_with (C.sets conds.old) trees.old names files) input first self.old
            → IsStepTo (tables_with (C.sets conds.old) trees.old names files) (tables_with (C.sets conds.new) trees.new names files) input self.old.core event self.new.core) }
        ensures goes_on { IfOk result (λ made. (place : ℕ) → IsBefore self.old.core.subparsers place event
            → GoesOn (C.sets conds.old) (C.sets conds.new) trees.old trees.new place self.old self.new) }

        // at every outcome
        ensures keeps { Keeps (C.sets conds.old) (C.sets conds.new) }
        ensures grows { Extends trees.old trees.new }
        ensures owns { OwnsBranches (C.sets conds.new) trees.new }
    {
        match self.core.apply(alloc, conds, trees, event) {
            Ok(applied) => {
                let packed = PackedEvent::new(event)?;
                self.events.push(packed)?;
                Ok(applied.made)
            }
            Err(CoreStop::OutOfMemory) => Err(OutOfMemory),
            Err(CoreStop::NotEnabled { fact: _ }) => unreachable!(),
            Err(CoreStop::GivenUp) => unreachable!(),
        }
    }

    /// Does a reduction that the core can do, in place where that is possible. The answer is the
    /// number of what comes of it, where that goes on.
    pub(crate) fn reduce<C: Conditions>(
        &mut self,
        alloc: Global,
        conds: &mut C,
        trees: &mut Trees,
        number: usize,
    ) -> Result<Option<usize>, OutOfMemory>
        requires own { OwnsSteps (C.sets conds.old) (length trees.old) self.old }
        requires branches { OwnsBranches (C.sets conds.old) trees.old }
        requires there { (s : Subparser) × Has self.old.core.subparsers number s }
        requires enabled { (fact : Fact) → IsRefused self.old.core.source self.old.core.subparsers (Event.Reduce number) fact → ⊥ }
        ensures made { IfOk result (λ made. HasMade self.old.core (Event.Reduce number) self.new.core (given made)) }
        ensures goes_on { IfOk result (λ made. (place : ℕ) → IsBefore self.old.core.subparsers place (Event.Reduce number)
            → GoesOn (C.sets conds.old) (C.sets conds.new) trees.old trees.new place self.old self.new) }

        // at every outcome
        ensures keeps { Keeps (C.sets conds.old) (C.sets conds.new) }
        ensures grows { Extends trees.old trees.new }
        ensures owns { OwnsBranches (C.sets conds.new) trees.new }
    {
        let Some(made) = self.core.pass_on(number)? else {
            let numbers = self.apply(alloc, conds, trees, Event::Reduce(number))?;
            return Ok(numbers.first().copied());
        };
        let packed = PackedEvent::new(Event::Reduce(number))?;
        self.events.push(packed)?;
        Ok(Some(made))
    }

    /// Does the event of each of these subparsers, which the core can all do. The answer is the
    /// numbers of the new subparsers.
    pub(crate) fn apply_all<C: Conditions>(
        &mut self,
        alloc: Global,
        conds: &mut C,
        trees: &mut Trees,
        kind: Kind,
        members: &[usize],
    ) -> Result<Vec<usize>, OutOfMemory>
        requires own { OwnsSteps (C.sets conds.old) (length trees.old) self.old }
        requires branches { OwnsBranches (C.sets conds.old) trees.old }
        requires enabled { AreEnabled self.old.core.source self.old.core.subparsers kind members.now }
        ensures done { IfOk result (λ made. AreDone (C.sets conds.old) trees.old self.old.core (events_of kind members.now)
            (C.sets conds.new) trees.new self.new.core made.items) }
        ensures goes_on { IfOk result (λ made. (place : ℕ) → AreNumbers self.old.core.subparsers members.now → Each (StandsBefore place) self.old.core.subparsers members.now
            → GoesOn (C.sets conds.old) (C.sets conds.new) trees.old trees.new place self.old self.new) }

        // at every outcome
        ensures keeps { Keeps (C.sets conds.old) (C.sets conds.new) }
        ensures grows { Extends trees.old trees.new }
        ensures owns { OwnsBranches (C.sets conds.new) trees.new }
    {
        match self.core.apply_all(alloc, conds, trees, kind, members) {
            Ok(applied) => {
                push_events(&mut self.events, kind, members)?;
                Ok(applied.made)
            }
            Err(CoreStop::OutOfMemory) => Err(OutOfMemory),
            Err(CoreStop::NotEnabled { fact: _ }) => unreachable!(),
            Err(CoreStop::GivenUp) => unreachable!(),
        }
    }

    /// Puts a subparser to others, no two of which are alike: it is merged with the one that is
    /// like it. The answer is whether it is one more.
    pub(crate) fn join<C: Conditions>(
        &mut self,
        alloc: Global,
        conds: &mut C,
        trees: &mut Trees,
        others: &mut Vec<usize>,
        number: usize,
    ) -> Result<bool, OutOfMemory>
        requires own { OwnsSteps (C.sets conds.old) (length trees.old) self.old }
        requires branches { OwnsBranches (C.sets conds.old) trees.old }
        requires numbers { AreNumbers self.old.core.subparsers (number ∷ others.old.items) }
        ensures goes_on { IfOk result (λ more. (place : ℕ) → GoesOn (C.sets conds.old) (C.sets conds.new) trees.old trees.new place self.old self.new) }
        ensures replaces { IfOk result (λ more. Replaces self.old.core.subparsers self.new.core.subparsers (number ∷ others.old.items) others.new.items) }
        ensures alike { IfOk result (λ more. AreLike self.old.core.subparsers (number ∷ others.old.items) self.new.core.subparsers others.new.items) }
        ensures count { IfOk result (λ more. length others.new.items ≡ length others.old.items + (if more then 1 else 0)) }
        ensures apart { IfOk result (λ more. AreApart self.old.core.subparsers others.old.items → AreApart self.new.core.subparsers others.new.items) }
        ensures waiting { IfOk result (λ more. (names files : List (List ℕ)) (input : Input) (first : core.Core) (place : ℕ) → IsRun (tables_with (C.sets conds.old) trees.old names files) input first self.old
            → AreWaiting (C.sets conds.old) input place self.old.core.subparsers (number ∷ others.old.items)
            → AreWaiting (C.sets conds.new) input place self.new.core.subparsers others.new.items) }

        // at every outcome
        ensures keeps { Keeps (C.sets conds.old) (C.sets conds.new) }
        ensures grows { Extends trees.old trees.new }
        ensures owns { OwnsBranches (C.sets conds.new) trees.new }
    {
        let Some(place) = self.place_of_like(others, number) else {
            others.push(number)?;
            return Ok(true);
        };
        others[place] = self.merge(alloc, conds, trees, others[place], number)?;
        Ok(false)
    }

    /// Where the one that is like the subparser stands.
    fn place_of_like(&self, others: &[usize], number: usize) -> Option<usize>
        requires usable { self.now.core.is_given_up ≡ false }
        requires numbers { AreNumbers self.now.core.subparsers (number ∷ others.now) }
        ensures some { IfSome result (λ place. place < length others.now
            × ((s t : Subparser) → Has self.now.core.subparsers (get_or others.now place 0) s → Has self.now.core.subparsers number t → AreAlike s t)) }
        ensures none { result ≡ None → All (λ other. (s t : Subparser) → Has self.now.core.subparsers other s → Has self.now.core.subparsers number t → AreAlike s t → ⊥) others.now }
    {
        let key = self.key(number);
        for place in 0..others.len() {
            if self.key(others[place]) == key {
                return Some(place);
            }
        }
        None
    }

    /// Merges two subparsers that are alike. The answer is the number of the one that comes of it.
    fn merge<C: Conditions>(
        &mut self,
        alloc: Global,
        conds: &mut C,
        trees: &mut Trees,
        number: usize,
        other: usize,
    ) -> Result<usize, OutOfMemory>
        requires own { OwnsSteps (C.sets conds.old) (length trees.old) self.old }
        requires branches { OwnsBranches (C.sets conds.old) trees.old }
        requires numbers { AreNumbers self.old.core.subparsers (number ∷ (other ∷ [])) }
        requires alike { (s t : Subparser) → Has self.old.core.subparsers number s → Has self.old.core.subparsers other t → AreAlike s t }
        ensures goes_on { IfOk result (λ merged. (place : ℕ) → GoesOn (C.sets conds.old) (C.sets conds.new) trees.old trees.new place self.old self.new) }
        ensures replaces { IfOk result (λ merged. Replaces self.old.core.subparsers self.new.core.subparsers (number ∷ (other ∷ [])) (merged ∷ [])) }
        ensures merged { IfOk result (λ merged. (s : Subparser) → Has self.old.core.subparsers number s → (u : Subparser) × (Has self.new.core.subparsers merged u × AreAlike s u)) }
        ensures waiting { IfOk result (λ merged. (names files : List (List ℕ)) (input : Input) (first : core.Core) (place : ℕ) → IsRun (tables_with (C.sets conds.old) trees.old names files) input first self.old
            → AreWaiting (C.sets conds.old) input place self.old.core.subparsers (number ∷ (other ∷ []))
            → AreWaiting (C.sets conds.new) input place self.new.core.subparsers (merged ∷ [])) }

        // at every outcome
        ensures keeps { Keeps (C.sets conds.old) (C.sets conds.new) }
        ensures grows { Extends trees.old trees.new }
        ensures owns { OwnsBranches (C.sets conds.new) trees.new }
    {
        let made = self.apply(alloc, conds, trees, Event::Merge(number, other))?;
        match made.first() {
            Some(merged) => Ok(*merged),
            None => unreachable!(),
        }
    }

    /// The key of a subparser that is not gone.
    pub(crate) fn key(&self, number: usize) -> Key<'_>
        requires usable { self.now.core.is_given_up ≡ false }
        requires there { (s : Subparser) × Has self.now.core.subparsers number s }
        ensures { (s : Subparser) × (Has self.now.core.subparsers number s × IsKeyOf result s) }
    {
        match self.core.look(number) {
            Some((_, key)) => key,
            None => unreachable!(),
        }
    }
}

/// Adds the events of these subparsers, in turn.
fn push_events(
    events: &mut Vec<PackedEvent>,
    kind: Kind,
    members: &[usize],
) -> Result<(), OutOfMemory>
    ensures { OnOk result (events.new.items ≡ events.old.items ++ events_of kind members.now) }
{
    for number in members {
        let packed = PackedEvent::new(event_of(kind, *number))?;
        events.push(packed)?;
    }
    Ok(())
}

fn event_of(kind: Kind, number: usize) -> Event
    ensures { result ≡ event_by kind number }
{
    match kind {
        Kind::Reduce => Event::Reduce(number),
        Kind::Shift => Event::Shift(number),
    }
}
