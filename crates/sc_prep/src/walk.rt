ghost use Rattle.std.specs.Prelude.{◌≡◌, ℕ, ◌<◌, ◌&&◌, Bool, List, length, OnOk, [], IfOk, is_none, true};
ghost use Rattle.sc_base.specs.declared.token.Token as base;
ghost use Rattle.sc_model.specs.declared.standard.Standard.{Standard};
ghost use Rattle.sc_model.specs.Growth.{Extends};
ghost use Rattle.sc_model.specs.Space.{arities_of};
ghost use Rattle.sc_model.specs.Sets.{Sets, IsCond, IsNever, Denotes, Keeps, IsConfig};
ghost use Rattle.c11_directives.specs.Pre.{State, with_text};
ghost use Rattle.sc_prep.specs.Machine.{Machine, acting, acts, opened, next_branch, ended, refusing, refusing_if, start};
ghost use Rattle.sc_prep.specs.Simulates.{IsBegun, Owns, SimulatesStep, Simulates};
ghost use Rattle.sc_prep.specs.Apart.{GathersFrom, StandApart};
ghost use Rattle.sc_prep.specs.New.{IsNew};
ghost use Rattle.sc_prep.specs.Pragmas.{HasNoPragma};
ghost use Rattle.sc_prep.specs.Preprocesses.{OwnsList};
ghost use Rattle.sc_lines.specs.Nests.{seen_line};
ghost use Rattle.sc_prep.specs.Printable.{StaysHeld};
ghost use Rattle.sc_prep.specs.Thin.{KeepsShares, TextShares};
ghost use Rattle.sc_space.specs.Seen.{seen_space};
ghost use Rattle.sc_space.specs.Sound.{IsSound};

use crate::once::OnceFile;
use crate::open_runs::OpenRuns;
use crate::prepared::Prepared;
use sc_base::{Cause, Cond, Fault, Names, OutOfMemory, Place, Token};
use sc_guarded::Guarded;
use sc_presence::Conditions;
use sc_space::Space;
use sc_subst::Hidden;
use sc_table::MacroTable;
use std::alloc::Global;

/// A section that is open.
#[derive(Clone, Copy)]
pub struct Section {
    /// The configurations that take the lines around it.
    pub around: Cond,
    /// Those of them that took none of its branches yet.
    pub untaken: Cond,
}

/// A walk over a file's lines under all configurations at once.
#[derive(Drop)]
pub struct Walk {
    /// The configurations that take the lines from here on, those refused among them.
    pub group: Cond,
    /// Those of them that were not refused: the lines do something there.
    pub acting: Cond,
    /// The innermost last.
    pub sections: Vec<Section>,
    /// The macros that are defined.
    pub table: MacroTable,
    /// Runs of configurations that have not ended.
    pub runs: OpenRuns,
    /// The files that `#pragma once` keeps from being entered again, each once.
    pub once: Vec<OnceFile>,
    /// What was put out and refused so far.
    pub prepared: Prepared,
}

impl Walk {
    /// The walk before the first line.
    pub fn new<C: Conditions>(
        alloc: Global,
        conds: &C,
        table: MacroTable,
        end: Place,
    ) -> Result<Walk, OutOfMemory>
        ensures owns { IfOk result (λ walk. Owns (C.sets conds.now) walk) }
        ensures empty { IfOk result (λ walk. (walk.runs.gathered ≡ []) × (walk.runs.held.items ≡ []) × (HasNoPragma (C.sets conds.now) walk.runs.pragmas)
            × (walk.runs.read ≡ []) × (walk.once.items ≡ []) × (walk.prepared.list ≡ []) × (walk.prepared.faults.items ≡ [])) }
        ensures table { IfOk result (λ walk. walk.table ≡ table) }
        ensures end { IfOk result (λ walk. walk.prepared.end ≡ end) }
        ensures starts { IfOk result (λ walk. (names files : List (List ℕ)) (config : List ℕ) (first : State) → IsConfig (C.sets conds.now).arities config
            → IsBegun (C.sets conds.now) names table config first → Simulates (C.sets conds.now) names files walk config (start first)) }
    {
        Ok(Walk {
            group: conds.always(),
            acting: conds.always(),
            sections: Vec::new(alloc),
            table,
            runs: OpenRuns::new(alloc, conds)?,
            once: Vec::new(alloc),
            prepared: Prepared {
                list: Guarded::new(alloc)?,
                faults: Vec::new(alloc),
                live: conds.always(),
                end,
            },
        })
    }

    /// The walk before a text, which knows the macros alone that no file defines.
    pub fn before_text<C: Conditions>(
        alloc: Global,
        conds: &C,
        space: &Space,
        names: &mut Names,
        end: Place,
    ) -> Result<Walk, OutOfMemory>
        requires space { (C.sets conds.now).arities ≡ arities_of (seen_space space.now) }
        requires sound { IsSound (seen_space space.now) }
        ensures begins { IfOk result (IsNew (C.sets conds.now) (seen_space space.now) names.new) }
        ensures end { IfOk result (λ walk. walk.prepared.end ≡ end) }

        // at every outcome
        ensures names { Extends names.old names.new }
    {
        let table = MacroTable::start(alloc, space, names)?;
        let walk = Walk::new(alloc, conds, table, end)?;
        Ok(walk)
    }

    /// What was put out and refused.
    pub fn into_prepared(self) -> Prepared
        ensures { result ≡ self.prepared }
    {
        self.prepared
    }

    /// A section begins, whose first branch is taken under a condition.
    #[tactic(auto, using(sc_model::proofs::SetLemmas::conditions))]
    pub fn begin_section<C: Conditions>(
        &mut self,
        conds: &mut C,
        test: Cond,
    ) -> Result<(), OutOfMemory>
        requires owns { Owns (C.sets conds.old) self.old }
        requires own { IsCond (C.sets conds.old) test.0 }
        ensures printable { OnOk result ((names : List (List ℕ)) (line : List base.Token) → StaysHeld names line self.old self.new) }
        ensures list { OnOk result (self.new.prepared.list ≡ self.old.prepared.list) }
        ensures opened { OnOk result ((names : List (List ℕ)) (t : List ℕ → Bool) → Denotes (C.sets conds.old) test.0 t
            → SimulatesStep names (C.sets conds.old) self.old (C.sets conds.new) self.new (λ files config m. opened m (t config))) }
        ensures runs { OnOk result (self.new.runs ≡ self.old.runs) }
        ensures keeps { Keeps (C.sets conds.old) (C.sets conds.new) }
    {
        let untaken = conds.apply_without(self.group, test)?;
        let group = conds.apply_and(self.group, test)?;
        let acting = conds.apply_and(group, self.prepared.live)?;
        self.sections.push(Section {
            around: self.group,
            untaken,
        })?;
        self.group = group;
        self.acting = acting;
        Ok(())
    }

    /// The next branch of the innermost section begins, which is taken under a condition where none
    /// was yet.
    #[tactic(auto, using(sc_model::proofs::SetLemmas::conditions))]
    pub fn begin_branch<C: Conditions>(
        &mut self,
        conds: &mut C,
        test: Cond,
    ) -> Result<(), OutOfMemory>
        requires owns { Owns (C.sets conds.old) self.old }
        requires own { IsCond (C.sets conds.old) test.0 }
        ensures printable { OnOk result ((names : List (List ℕ)) (line : List base.Token) → StaysHeld names line self.old self.new) }
        ensures moved { OnOk result ((names : List (List ℕ)) (t : List ℕ → Bool) → Denotes (C.sets conds.old) test.0 t
            → SimulatesStep names (C.sets conds.old) self.old (C.sets conds.new) self.new (λ files config m. next_branch m (t config) m.sections)) }
        ensures list { OnOk result (self.new.prepared.list ≡ self.old.prepared.list) }
        ensures runs { OnOk result (self.new.runs ≡ self.old.runs) }
        ensures keeps { Keeps (C.sets conds.old) (C.sets conds.new) }
    {
        let Some(section) = self.sections.pop() else {
            return Ok(());
        };
        let untaken = conds.apply_without(section.untaken, test)?;
        let group = conds.apply_and(section.untaken, test)?;
        let acting = conds.apply_and(group, self.prepared.live)?;
        self.sections.push_reserved(Section {
            around: section.around,
            untaken,
        });
        self.group = group;
        self.acting = acting;
        Ok(())
    }

    /// The configurations that take no branch of the innermost section yet, those refused among
    /// them.
    pub fn untaken(&self) -> Cond
        ensures own { (s : Sets) → Owns s self.now → IsCond s result.0 }
        ensures at { (s : Sets) (names files : List (List ℕ)) (config : List ℕ) (m : Machine) → Simulates s names files self.now config m
            → (s.has result.0 config && is_none m.fault) ≡ acts (next_branch m true m.sections) }
    {
        match self.sections.last() {
            None => self.acting,
            Some(section) => section.untaken,
        }
    }

    /// The innermost section ends.
    #[tactic(auto, using(sc_model::proofs::SetLemmas::conditions))]
    pub fn end_section<C: Conditions>(&mut self, conds: &mut C) -> Result<(), OutOfMemory>
        requires { Owns (C.sets conds.old) self.old }
        ensures printable { OnOk result ((names : List (List ℕ)) (line : List base.Token) → StaysHeld names line self.old self.new) }
        ensures moved { OnOk result ((names : List (List ℕ)) → SimulatesStep names (C.sets conds.old) self.old (C.sets conds.new) self.new
            (λ files config m. ended m m.sections)) }
        ensures list { OnOk result (self.new.prepared.list ≡ self.old.prepared.list) }
        ensures runs { OnOk result (self.new.runs ≡ self.old.runs) }
        ensures keeps { Keeps (C.sets conds.old) (C.sets conds.new) }
    {
        let Some(section) = self.sections.pop() else {
            return Ok(());
        };
        let acting = conds.apply_and(section.around, self.prepared.live)?;
        self.group = section.around;
        self.acting = acting;
        Ok(())
    }

    /// A part of the configurations that take the line is refused at its first token, where it has
    /// some.
    #[tactic(auto, using(sc_model::proofs::SetLemmas::conditions))]
    pub fn refuse<C: Conditions>(
        &mut self,
        conds: &mut C,
        part: Cond,
        cause: Cause,
        line: &[Token],
    ) -> Result<(), OutOfMemory>
        requires owns { Owns (C.sets conds.old) self.old }
        requires own { IsCond (C.sets conds.old) part.0 }
        requires line { 0 < length line.now }
        ensures printable { OnOk result ((names : List (List ℕ)) → StaysHeld names line.now self.old self.new) }
        ensures moved { OnOk result ((standard : Standard) (names : List (List ℕ)) (t : List ℕ → Bool)
            → Denotes (C.sets conds.old) part.0 (λ c. t c && (C.sets conds.old).has self.old.acting.0 c)
            → SimulatesStep names (C.sets conds.old) self.old (C.sets conds.new) self.new
            (λ files config m. refusing_if (t config) m (seen_line standard names files line.now) cause)) }
        ensures list { OnOk result (self.new.prepared.list ≡ self.old.prepared.list) }
        ensures runs { OnOk result (self.new.runs ≡ self.old.runs) }
        ensures keeps { Keeps (C.sets conds.old) (C.sets conds.new) }
    {
        if conds.is_never(part) {
            return Ok(());
        }
        let fault = Fault {
            cond: part,
            cause,
            place: line[0].place,
        };
        self.refuse_at(conds, fault)
    }

    /// The configurations that take the line are refused at its first token.
    #[tactic(auto, using(sc_model::proofs::SetLemmas::conditions))]
    pub fn refuse_all<C: Conditions>(
        &mut self,
        conds: &mut C,
        cause: Cause,
        line: &[Token],
    ) -> Result<(), OutOfMemory>
        requires owns { Owns (C.sets conds.old) self.old }
        requires line { 0 < length line.now }
        ensures printable { OnOk result ((names : List (List ℕ)) → StaysHeld names line.now self.old self.new) }
        ensures moved { OnOk result ((standard : Standard) (names : List (List ℕ)) → SimulatesStep names (C.sets conds.old) self.old (C.sets conds.new) self.new
            (λ files config m. refusing m (seen_line standard names files line.now) cause)) }
        ensures list { OnOk result (self.new.prepared.list ≡ self.old.prepared.list) }
        ensures runs { OnOk result (self.new.runs ≡ self.old.runs) }
        ensures keeps { Keeps (C.sets conds.old) (C.sets conds.new) }
    {
        self.refuse(conds, self.acting, cause, line)
    }

    /// The tokens of a line are gathered, where some configuration takes them.
    pub fn put<C: Conditions>(&mut self, conds: &C, line: &[Token]) -> Result<(), OutOfMemory>
        requires { Owns (C.sets conds.now) self.old }
        ensures printable { OnOk result ((names : List (List ℕ)) → StaysHeld names line.now self.old self.new) }
        ensures moved { OnOk result ((standard : Standard) (names : List (List ℕ)) → SimulatesStep names (C.sets conds.now) self.old (C.sets conds.now) self.new
            (λ files config m. acting m (λ state. with_text state (seen_line standard names files line.now)))) }
        ensures none { IsNever (C.sets conds.now) self.old.acting.0 → self.new ≡ self.old }
        ensures gathers { OnOk result (GathersFrom line.now self.old self.new) }
        ensures shares { OnOk result ((names files : List (List ℕ)) → KeepsShares files names (C.sets conds.now) self.old files names (C.sets conds.now) self.new) }
        ensures text { OnOk result ((standard : Standard) (names files : List (List ℕ)) → StandApart line.now
            → TextShares files names (C.sets conds.now) self.old (seen_line standard names files line.now) names (C.sets conds.now) self.new) }
    {
        if conds.is_never(self.acting) {
            return Ok(());
        }
        let hide = self.runs.sets.empty();
        for token in line {
            let hidden = Hidden {
                token: *token,
                hide,
            };
            self.runs.gathered.push(self.acting, hidden)?;
            self.runs.read.push(self.acting, Some(*token))?;
        }
        Ok(())
    }
}
