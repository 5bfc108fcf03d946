//! A parser of all configurations at once, one event at a time.
ghost use Rattle.std.specs.Prelude.{[], ◌∷◌, ◌≡◌, ◌↔◌, ◌⊎◌, ℕ, ◌<◌, true, false, Err, Ok, List, None, Option, All, IfErr, IfOk, IfSome, IsTrue, OnErr, OnOk, length};
ghost use Rattle.c11_parsing.specs.Classes.{Input};
ghost use Rattle.c11_parsing.specs.Core as core;
ghost use Rattle.c11_parsing.specs.Core.{Stands};
ghost use Rattle.sc_base.specs.Seen.{IsHeld};
ghost use Rattle.sc_fork.specs.declared.event.Event.{Event};
ghost use Rattle.sc_fork.specs.declared.event.Fact.{Fact};
ghost use Rattle.sc_fork.specs.Bundles.{AreEnabled, IsDone, IsFirstRefused};
ghost use Rattle.sc_fork.specs.Choices.{AddsLeaves, AreSound};
ghost use Rattle.sc_fork.specs.Cores.{IsApplied, IsCore, IsFinished, Starts};
ghost use Rattle.sc_fork.specs.Enabled.{Has, HasNone, IsEnabled, IsRefused, LooksAt};
ghost use Rattle.sc_fork.specs.Nodes.{AddsNode, AddsOwnNode};
ghost use Rattle.sc_fork.specs.Outcomes.{IsOutcome, OwnsOutcome};
ghost use Rattle.sc_fork.specs.Owns.{HasC11Tables, AreNumbered, AreTerminals, IsFirst, IsNumbered, OwnsCore, OwnsEnabled, OwnsPiece, IsSource};
ghost use Rattle.sc_fork.specs.Pieces.{AddsOwnChoices, AreInOrder, AreMade, HasMade, InNextPhase, IsPlaced, numbers_of, without};
ghost use Rattle.sc_fork.specs.Seen.{action_in};
ghost use Rattle.sc_fork.specs.Starts.{AreFirst};
ghost use Rattle.sc_guarded.specs.Blocks.{AreBlocks};
ghost use Rattle.sc_merge.specs.declared.subparser.Subparser.{Subparser};
ghost use Rattle.sc_merge.specs.Keys.{IsKeyOf};
ghost use Rattle.sc_merge.specs.Merges.{tables_with};
ghost use Rattle.sc_model.specs.Growth.{Extends};
ghost use Rattle.sc_model.specs.Sets.{IsCond, Keeps, Sets};
ghost use Rattle.sc_scope.specs.Numbered.{levels_made};
ghost use Rattle.sc_tree.specs.Lines.{Line, OwnsBranches};

use crate::classifying::classify;
use crate::enabled::{Enabled, all_enabled, enabled_event, looking};
use crate::event::{Applied, CoreStop, Event, Kind};
use crate::held::Held;
use crate::outcome::{Outcome, faults_of, root_of, roots_of};
use crate::passing::{passed_state, renumber};
use crate::piece::{Ended, Piece};
use crate::reducing::reduce;
use crate::row::Row;
use crate::shifting::shift;
use crate::source::Source;
use crate::splitting::split;
use lr_tables::{Action, Terminal};
use sc_base::{Cond, Names, OutOfMemory, Place, Token};
use sc_guarded::Guarded;
use sc_lalr::Tables;
use sc_merge::{Key, Phase, Subparser, key, merge};
use sc_model::Standard;
use sc_presence::Conditions;
use sc_scope::{Numbers, Scopes};
use sc_stack::Stack;
use sc_tree::Trees;
use std::alloc::Global;
use std::marker::Model;

/// The subparsers by their numbers, and what has ended. A number stays with its subparser; the
/// next one that is unused goes to the next subparser.
#[derive(Drop)]
pub struct Core<'a> {
    source: Source<'a>,
    rows: Vec<Row>,
    ended: Vec<Ended>,
    scope_numbers: Numbers,
    is_given_up: bool,
}

impl<'a> Model for Core<'a> {
    ghost use Rattle.std.specs.Prelude.{◌≡◌, false};
    ghost use Rattle.std.specs.Coded.{codes};
    ghost use Rattle.sc_fork.specs.Owns.{AllNumbered};
    ghost use Rattle.sc_fork.specs.View.{View};
    ghost use Rattle.sc_merge.specs.contracts.subparser.Subparser as held;

    ghost Value = { View };

    ghost coded = { Prim.hlevel (codes, held.the_row.coded) };

    ghost view = { λ c. record { source = c.source; subparsers = c.rows.items; ended = c.ended.items; is_given_up = c.is_given_up } };

    ghost invariant = { λ c. c.is_given_up ≡ false → AllNumbered c.scope_numbers c.rows.items };
}

impl<'a> Core<'a> {
    /// One subparser, number 0, for the live configurations, where there are any.
    pub fn start<C: Conditions>(
        alloc: Global,
        conds: &mut C,
        names: &Names,
        list: &'a Guarded<Token>,
        live: Cond,
        end: Place,
        tables: &'a Tables,
        standard: Standard,
    ) -> Result<Core<'a>, OutOfMemory>
        requires tables { HasC11Tables tables.now }
        requires live { IsCond (C.sets conds.old) live.0 }
        requires items { All (λ item. IsCond (C.sets conds.old) item.0.0) list.now }
        requires held { All (λ item. IsHeld names.now item.1) list.now }
        ensures list { IfOk result (λ core. core.source.list.now ≡ list.now) }
        ensures tables { IfOk result (λ core. core.source.tables.now ≡ tables.now) }
        ensures end { IfOk result (λ core. core.source.end ≡ end) }
        ensures terminals { IfOk result (λ core. AreTerminals standard names.now list.now core.source.terminals.items) }
        ensures start { IfOk result (λ core. (lines : List Line) (files : List (List ℕ)) → Starts (tables_with (C.sets conds.new) lines names.now files) core live) }
        ensures own { IfOk result (λ core. (count : ℕ) → OwnsCore (C.sets conds.new) count core) }
        ensures usable { IfOk result (λ core. core.is_given_up ≡ false) }
        ensures first { IfOk result (λ core. AreFirst (C.sets conds.new) live core.subparsers) }
        ensures ended { IfOk result (λ core. core.ended ≡ []) }

        // at every outcome
        ensures keeps { Keeps (C.sets conds.old) (C.sets conds.new) }
    {
        let source = Source::new(alloc, conds, names, list, end, tables, standard)?;
        let rows = first_rows(alloc, conds, live)?;
        Ok(Core {
            source,
            rows,
            ended: Vec::new(alloc),
            scope_numbers: Numbers::new(),
            is_given_up: false,
        })
    }

    /// Does an event. Want of memory, and nothing else, gives the core up.
    pub fn apply<C: Conditions>(
        &mut self,
        alloc: Global,
        conds: &mut C,
        trees: &mut Trees,
        event: Event,
    ) -> Result<Applied, CoreStop>
        requires own { OwnsCore (C.sets conds.old) (length trees.old) self.old }
        requires branches { OwnsBranches (C.sets conds.old) trees.old }
        ensures applied { IfOk result (λ applied. (names files : List (List ℕ)) (input : Input) (seen : core.Core)
            → IsCore (tables_with (C.sets conds.old) trees.old names files) input self.old seen → Stands input seen
            → IsApplied (tables_with (C.sets conds.old) trees.old names files) (tables_with (C.sets conds.new) trees.new names files) input self.old event self.new applied.made.items seen) }
        ensures rows { IfOk result (λ applied. HasMade self.old event self.new applied.made.items) }
        ensures not_enabled { (fact : Fact) → result ≡ Err (CoreStop.NotEnabled fact) → IsRefused self.old.source self.old.subparsers event fact }
        ensures given_up { (result ≡ Err CoreStop.GivenUp) ↔ (self.old.is_given_up ≡ true) }
        ensures memory { (self.new.is_given_up ≡ true) ↔ ((result ≡ Err CoreStop.OutOfMemory) ⊎ (self.old.is_given_up ≡ true)) }
        ensures unchanged { IfErr result (λ stop. (stop ≡ CoreStop.OutOfMemory → ⊥) → self.new ≡ self.old) }
        ensures choices { (names files : List (List ℕ)) (input : Input) (seen : core.Core) → IsCore (tables_with (C.sets conds.old) trees.old names files) input self.old seen
            → Stands input seen → AreSound (C.sets conds.old) trees.old → AreSound (C.sets conds.new) trees.new }

        // at every outcome
        ensures adds { (number : ℕ) → event ≡ Event.Reduce number → AddsNode self.old number trees.old trees.new }
        ensures leaves { AddsLeaves self.old.source.list.now trees.old trees.new }
        ensures source { self.new.source ≡ self.old.source }
        ensures own { OwnsCore (C.sets conds.new) (length trees.new) self.new }
        ensures keeps { Keeps (C.sets conds.old) (C.sets conds.new) }
        ensures grows { Extends trees.old trees.new }
        ensures branches { OwnsBranches (C.sets conds.new) trees.new }
    {
        if self.is_given_up {
            return Err(CoreStop::GivenUp);
        }
        let pieces = match enabled_event(&self.source, &self.rows, event) {
            Ok(enabled) => {
                let numbers = &mut self.scope_numbers;
                pieces_of(alloc, conds, trees, numbers, &self.source, enabled)
            }
            Err(fact) => return Err(CoreStop::NotEnabled { fact }),
        };
        let Ok(pieces) = pieces else {
            self.is_given_up = true;
            return Err(CoreStop::OutOfMemory);
        };
        let Ok(made) = replace(alloc, &mut self.rows, &mut self.ended, event, pieces) else {
            self.is_given_up = true;
            return Err(CoreStop::OutOfMemory);
        };
        Ok(Applied { made })
    }

    /// Reduces the subparser by a production that passes one tree on, where that is its action and
    /// no other has its stack: only the state on top becomes another one. The answer is the number
    /// that it has then.
    pub fn pass_on(&mut self, number: usize) -> Result<Option<usize>, OutOfMemory>
        requires own { (sets : Sets) × ((count : ℕ) × OwnsCore sets count self.old) }
        ensures done { IfOk result (λ passed. IfSome passed (λ made. (sets : Sets) (lines : List Line) → OwnsCore sets (length lines) self.old → OwnsBranches sets lines
            → IsDone sets sets lines lines self.old (Event.Reduce number) self.new (made ∷ []))) }
        ensures not_done { result ≡ Ok None → self.new ≡ self.old }
        ensures memory { OnErr result (self.new.is_given_up ≡ true) }
    {
        if self.is_given_up {
            return Ok(None);
        }
        let Some(state) = passed_state(&self.source, &self.rows, number) else {
            return Ok(None);
        };
        match renumber(&mut self.rows, number, state) {
            Ok(made) => Ok(made),
            Err(_) => {
                self.is_given_up = true;
                Err(OutOfMemory)
            }
        }
    }

    /// The condition and the key of the subparser that has the number now.
    pub fn look(&self, number: usize) -> Option<(Cond, Key<'_>)>
        ensures some { IfSome result (λ found. (s : Subparser) × (Has self.now.subparsers number s × (found.0 ≡ s.cond) × IsKeyOf found.1 s)) }
        ensures none { result ≡ None → self.now.is_given_up ≡ false → HasNone self.now.subparsers number }
        ensures usable { IfSome result (λ found. self.now.is_given_up ≡ false) }
    {
        if self.is_given_up {
            return None;
        }
        let subparser = self.rows.get(number)?.lent()?.head();
        Some((subparser.cond, key(&subparser)))
    }

    /// What the subparser of the number does at the element that comes next for it, where one does.
    pub fn action(&self, number: usize) -> Option<Action>
        ensures looks { (s : Subparser) (at : ℕ) → LooksAt self.now.subparsers number s at → result ≡ action_in self.now.source s at }
        ensures other { ((s : Subparser) (at : ℕ) → LooksAt self.now.subparsers number s at → ⊥) → result ≡ None }
    {
        let Ok((head, at)) = looking(&self.rows, number) else {
            return None;
        };
        self.source.action(&head, at)
    }

    /// Whether no subparser is left, and the core is not given up.
    pub fn finished(&self) -> bool
        ensures { IsTrue result ↔ IsFinished self.now }
    {
        !self.is_given_up && self.rows.iter().all(|row| row.is_gone())
    }

    /// Whether the core can do these events, in the order of what stands against one.
    pub(crate) fn can_do_all(&self, kind: Kind, members: &[usize]) -> Result<(), CoreStop>
        ensures ok { OnOk result ((self.now.is_given_up ≡ false) × AreEnabled self.now.source self.now.subparsers kind members.now) }
        ensures not_enabled { (fact : Fact) → result ≡ Err (CoreStop.NotEnabled fact)
            → IsFirstRefused self.now.source self.now.subparsers kind members.now fact }
        ensures given_up { (result ≡ Err CoreStop.GivenUp) ↔ (self.now.is_given_up ≡ true) }
        ensures memory { result ≡ Err CoreStop.OutOfMemory → ⊥ }
    {
        if self.is_given_up {
            return Err(CoreStop::GivenUp);
        }
        match all_enabled(&self.source, &self.rows, kind, members) {
            Ok(()) => Ok(()),
            Err(fact) => Err(CoreStop::NotEnabled { fact }),
        }
    }

    /// Nothing is kept by the core any more.
    pub(crate) fn give_up(&mut self)
        ensures { self.new ≡ record self.old { is_given_up = true } }
    {
        self.is_given_up = true;
    }

    /// What a finished core has come to: one tree with choices, and the faults.
    pub fn result<C: Conditions>(
        &self,
        alloc: Global,
        conds: &mut C,
        trees: &mut Trees,
    ) -> Result<Outcome, OutOfMemory>
        requires own { OwnsCore (C.sets conds.old) (length trees.old) self.now }
        requires branches { OwnsBranches (C.sets conds.old) trees.old }
        requires finished { IsFinished self.now }
        ensures outcome { IfOk result (λ outcome. (names files : List (List ℕ)) (input : Input) (seen : core.Core)
            → IsCore (tables_with (C.sets conds.old) trees.old names files) input self.now seen → Stands input seen
            → IsOutcome (tables_with (C.sets conds.new) trees.new names files) seen outcome) }
        ensures own { IfOk result (OwnsOutcome (C.sets conds.new) (length trees.new) self.now.source) }
        ensures choices { (names files : List (List ℕ)) (input : Input) (seen : core.Core) → IsCore (tables_with (C.sets conds.old) trees.old names files) input self.now seen
            → Stands input seen → AreSound (C.sets conds.old) trees.old → AreSound (C.sets conds.new) trees.new }

        // at every outcome
        ensures leaves { AddsLeaves self.now.source.list.now trees.old trees.new }
        ensures branches { OwnsBranches (C.sets conds.new) trees.new }
        ensures keeps { Keeps (C.sets conds.old) (C.sets conds.new) }
        ensures grows { Extends trees.old trees.new }
    {
        let faults = faults_of(alloc, &self.ended)?;
        let roots = roots_of(alloc, conds, &self.ended)?;
        let root = root_of(trees, &roots)?;
        Ok(Outcome { root, faults })
    }
}

/// The first subparser, for the live configurations, where there are any.
fn first_rows<C: Conditions>(alloc: Global, conds: &C, live: Cond) -> Result<Vec<Row>, OutOfMemory>
    requires { IsCond (C.sets conds.now) live.0 }
    ensures { IfOk result (λ rows. AreFirst (C.sets conds.now) live rows.items) }
{
    if conds.is_never(live) {
        return Ok(Vec::new(alloc));
    }
    let subparser = first(alloc, live)?;
    let held = Held::new(alloc, subparser)?;
    let row = Row::new(alloc, held)?;
    Ok(vec![in alloc; row]?)
}

/// The subparser before the first element, with one level of scopes.
fn first(alloc: Global, live: Cond) -> Result<Subparser, OutOfMemory>
    ensures { IfOk result (IsFirst live) }
{
    let mut scopes = Scopes::new(alloc);
    scopes.push()?;
    Ok(Subparser {
        cond: live,
        stack: Stack::new(alloc),
        scopes,
        phase: Phase::Between(0),
    })
}

/// Puts the pieces in the place of the event's subparsers. The answer is the new numbers.
fn replace(
    alloc: Global,
    rows: &mut Vec<Row>,
    ended: &mut Vec<Ended>,
    event: Event,
    pieces: Vec<Piece>,
) -> Result<Vec<usize>, OutOfMemory>
    requires { All (λ number. number < length rows.old.items) (numbers_of event) }
    ensures { IfOk result (λ made. IsPlaced (without (numbers_of event) rows.old.items) ended.old.items pieces.items rows.new.items ended.new.items made.items) }
{
    remove(rows, event);
    let mut made = Vec::new(alloc);
    for piece in pieces {
        match piece {
            Piece::Going(held) => {
                made.push(rows.len())?;
                let row = Row::new(alloc, held)?;
                rows.push(row)?;
            }
            Piece::Over(part) => ended.push(part)?,
        }
    }
    Ok(made)
}

/// The event's subparsers are gone.
fn remove(rows: &mut Vec<Row>, event: Event)
    requires { All (λ number. number < length rows.old.items) (numbers_of event) }
    ensures { rows.new.items ≡ without (numbers_of event) rows.old.items }
{
    match event {
        Event::Merge(number, other) => {
            rows[number] = Row::gone();
            rows[other] = Row::gone();
        }
        Event::Split(number)
        | Event::Reduce(number)
        | Event::Shift(number)
        | Event::Classify(number) => rows[number] = Row::gone(),
    }
}

/// What the event makes of its subparsers.
fn pieces_of<C: Conditions>(
    alloc: Global,
    conds: &mut C,
    trees: &mut Trees,
    numbers: &mut Numbers,
    source: &Source<'_>,
    enabled: Enabled<'_>,
) -> Result<Vec<Piece>, OutOfMemory>
    requires source { IsSource source.now }
    requires items { All (λ item. IsCond (C.sets conds.old) item.0.0) source.now.list.now }
    requires blocks { AreBlocks (C.sets conds.old) source.now.list.now source.now.blocks }
    requires event { (rows : List (Option Subparser)) × ((event : Event) × IsEnabled source.now rows event enabled) }
    requires own { OwnsEnabled (C.sets conds.old) (length trees.old) source.now enabled }
    requires numbered { AreNumbered numbers.old enabled }
    requires branches { OwnsBranches (C.sets conds.old) trees.old }
    ensures pieces { IfOk result (λ pieces. AreMade (C.sets conds.old) (C.sets conds.new) trees.old trees.new source.now enabled.entry pieces.items) }
    ensures own { IfOk result (λ pieces. All (OwnsPiece (C.sets conds.new) (length trees.new) source.now) pieces.items) }
    ensures numbered { IfOk result (λ pieces. All (IsNumbered numbers.new) pieces.items) }
    ensures phases { IfOk result (λ pieces. All (InNextPhase source.now enabled.entry) pieces.items) }
    ensures order { IfOk result (λ pieces. AreInOrder enabled.entry pieces.items) }

    // at every outcome
    ensures choices { AddsOwnChoices (C.sets conds.new) trees.old trees.new enabled.entry }
    ensures adds { AddsOwnNode trees.old trees.new enabled.entry }
    ensures leaves { AddsLeaves source.now.list.now trees.old trees.new }
    ensures keeps { Keeps (C.sets conds.old) (C.sets conds.new) }
    ensures grows { Extends trees.old trees.new }
    ensures branches { OwnsBranches (C.sets conds.new) trees.new }
    ensures numbers { Extends (levels_made numbers.old) (levels_made numbers.new) }
{
    match enabled {
        Enabled::Split(parent, from) => split(alloc, conds, source, &parent, from),
        Enabled::Reduce(parent, at, production) => {
            let piece = reduce(
                alloc, conds, trees, numbers, source, &parent, at, production,
            )?;
            Ok(vec![in alloc; piece]?)
        }
        Enabled::Shift(parent, at) => {
            let piece = shift(alloc, trees, source, &parent, at)?;
            Ok(vec![in alloc; piece]?)
        }
        Enabled::Classify(parent, at) => classify(alloc, conds, source, &parent, at),
        Enabled::Merge(left, right) => {
            let merged = merge(alloc, conds, trees, numbers, &left, &right)?;
            let piece = Piece::going(alloc, merged)?;
            Ok(vec![in alloc; piece]?)
        }
    }
}
