//! The loop of an expansion.
ghost use Rattle.std.specs.Prelude.{All, [], false, ◌≡◌, ◌<◌, ℕ, List, Some, length, true, IfErr, IfOk, IsSome, OnOk};
ghost use Rattle.std.specs.Bool.{OnFalse, OnTrue};
ghost use Rattle.sc_expand.specs.Alike.{DefineAlike, IsAlikeExpansion, TakesName, no_others};
ghost use Rattle.sc_expand.specs.Machine.{IsExpansion, IsHeldExpansion};
ghost use Rattle.sc_expand.specs.Running.{IsDone, IsDropped, IsReady, IsRested, IsTurned, IsUntouched, PutsOut, next_of, put_out, weight};
ghost use Rattle.sc_expand.specs.Seen.{Grows, failures_at, provenance_of, seen_at, stores};
ghost use Rattle.sc_expand.specs.CallStops.{StopsAt};
ghost use Rattle.sc_expand.specs.Spans.{Becomes, StopsApart};
ghost use Rattle.sc_hoist.specs.Alike.{AreAlike};
ghost use Rattle.sc_model.specs.Growth.{Extends};
ghost use Rattle.sc_model.specs.Sets.{IsCond, IsConfig, Keeps};
ghost use Rattle.sc_subst.specs.Seen.{seen_hidden};
ghost use Rattle.sc_table.specs.Table.{IsTable, macros_at};

use crate::expansion::Expansion;
use crate::waiting::is_whole;
use sc_base::{Cond, Files, Names, OutOfMemory, Stop};
use sc_presence::Conditions;
use sc_table::MacroTable;

impl Expansion {
    /// Goes on until nothing is left to be expanded.
    pub fn run<C: Conditions>(
        &mut self,
        conds: &mut C,
        table: &MacroTable,
        names: &mut Names,
        files: &Files,
        limit: usize,
    ) -> Result<(), Stop>
        requires held { IsHeldExpansion (stores (C.sets conds.old) names.old self.old.sets) (length files.now) self.old }
        requires untouched { IsUntouched (C.sets conds.old) self.old }
        requires table { IsTable (C.sets conds.old) names.old table.now }
        ensures held { OnOk result (IsHeldExpansion (stores (C.sets conds.new) names.new self.new.sets) (length files.now) self.new) }
        ensures done { OnOk result ((c : List ℕ) → IsConfig (C.sets conds.old).arities c
            → IsDone (provenance_of files.now) (macros_at (C.sets conds.old) names.old table.now c)
            (seen_at (stores (C.sets conds.old) names.old self.old.sets) self.old.top.work c)
            (seen_at (stores (C.sets conds.new) names.new self.new.sets) self.new.top.out c)
            (seen_at (stores (C.sets conds.new) names.new self.new.sets) self.new.rest c) (failures_at (C.sets conds.new) self.new.refusals.faults.items c)
            ((C.sets conds.old).has self.old.refusals.live.0 c)
            × ((C.sets conds.new).has self.new.refusals.waiting.0 c ≡ false → seen_at (stores (C.sets conds.new) names.new self.new.sets) self.new.rest c ≡ [])) }
        ensures segments { OnOk result (Becomes (seen_hidden names.old self.old.sets) (provenance_of files.now)
            (macros_at (C.sets conds.old) names.old table.now) (C.sets conds.old) self.old.top.work self.old.refusals.live.0
            (C.sets conds.new) (seen_hidden names.new self.new.sets) self.new.top.out self.new.rest) }
        ensures out { OnOk result (PutsOut (stores (C.sets conds.old) names.old self.old.sets)
            (stores (C.sets conds.new) names.new self.new.sets) self.old.refusals.live.0 self.old.top.out self.new.top.out) }
        ensures stops { IfErr result (StopsApart (seen_hidden names.old self.old.sets) (provenance_of files.now)
            (macros_at (C.sets conds.old) names.old table.now) (C.sets conds.old)
            self.old.refusals.live.0 self.old.top.work limit) }
        ensures alike { OnOk result ((c d : List ℕ) → IsConfig (C.sets conds.old).arities c → IsConfig (C.sets conds.old).arities d
            → (C.sets conds.old).has self.old.refusals.live.0 c ≡ true
            → DefineAlike (provenance_of files.now) (macros_at (C.sets conds.old) names.old table.now c) (macros_at (C.sets conds.old) names.old table.now d)
            (seen_at (stores (C.sets conds.old) names.old self.old.sets) self.old.top.work c)
            → IsAlikeExpansion (C.sets conds.old) c d no_others self.old
            → IsAlikeExpansion (C.sets conds.new) c d no_others self.new × AreAlike (C.sets conds.new) c d self.new.rest) }

        // at every outcome
        ensures grows { Grows (stores (C.sets conds.old) names.old self.old.sets) (stores (C.sets conds.new) names.new self.new.sets) }
    {
        loop {
            self.drop_refused(conds)?;
            let went = self.turn(conds, table, names, files, limit)?;
            if !went {
                return Ok(());
            }
        }
    }

    /// Takes a turn, and says whether anything was left for one.
    fn turn<C: Conditions>(
        &mut self,
        conds: &mut C,
        table: &MacroTable,
        names: &mut Names,
        files: &Files,
        limit: usize,
    ) -> Result<bool, Stop>
        requires is { IsExpansion (stores (C.sets conds.old) names.old self.old.sets) (length files.now) self.old }
        requires table { IsTable (C.sets conds.old) names.old table.now }
        requires ready { IsReady (C.sets conds.old) self.old }
        ensures turned { IfOk result (IsTurned files.now (macros_at (C.sets conds.old) names.old table.now)
            (stores (C.sets conds.old) names.old self.old.sets) (stores (C.sets conds.new) names.new self.new.sets) self.old self.new) }
        ensures stops { IfErr result (StopsAt (C.sets conds.old) names.old
            (λ c. TakesName (stores (C.sets conds.old) names.old self.old.sets)
            (macros_at (C.sets conds.old) names.old table.now c) self.old c) self.old.top.work limit) }

        // at every outcome
        ensures keeps { Keeps (C.sets conds.old) (C.sets conds.new) }
        ensures names { Extends names.old names.new }
        ensures sets { Extends self.old.sets self.new.sets }
    {
        if let Some(call) = self.top.calls.pop() {
            self.go_on(conds, names, call)?;
            return Ok(true);
        }
        if let Some((has, token)) = self.top.work.first() {
            self.take(conds, table, names, files, has, token, limit)?;
            return Ok(true);
        }
        if let Some(enclosing) = self.below.pop() {
            self.leave(enclosing)?;
            return Ok(true);
        }
        Ok(false)
    }

    /// Drops the first tokens, calls and finished arguments of no configuration that goes on, first
    /// tokens also where calls wait: those of a call that has left the list are such, and no list
    /// is kept with them while the call's arguments expand.
    fn drop_refused<C: Conditions>(&mut self, conds: &mut C) -> Result<(), OutOfMemory>
        requires held { (names : List (List ℕ)) × ((files : ℕ) × IsHeldExpansion (stores (C.sets conds.old) names self.old.sets) files self.old) }
        ensures rested { OnOk result ((names : List (List ℕ))
            → IsRested (stores (C.sets conds.old) names self.old.sets) (stores (C.sets conds.new) names self.new.sets) self.old self.new) }
        ensures ready { OnOk result (IsReady (C.sets conds.new) self.new) }

        // at every outcome
        ensures keeps { Keeps (C.sets conds.old) (C.sets conds.new) }
        ensures sets { self.new.sets ≡ self.old.sets }
    {
        loop {
            let first = self.drop_first_token(conds)?;
            if first {
                continue;
            }
            let dropped = self.drop_one(conds)?;
            if !dropped {
                return Ok(());
            }
        }
    }

    /// Drops the first token if no configuration that goes on has it, with those that were
    /// restricted with it, and says whether it did.
    fn drop_first_token<C: Conditions>(&mut self, conds: &mut C) -> Result<bool, OutOfMemory>
        requires held { (names : List (List ℕ)) × ((files : ℕ) × IsHeldExpansion (stores (C.sets conds.old) names self.old.sets) files self.old) }
        ensures rested { OnOk result ((names : List (List ℕ))
            → IsRested (stores (C.sets conds.old) names self.old.sets) (stores (C.sets conds.new) names self.new.sets) self.old self.new) }
        ensures less { IfOk result (λ dropped. OnTrue dropped (weight self.new < weight self.old)) }
        ensures same { IfOk result (λ dropped. OnFalse dropped (self.new ≡ self.old)) }

        // at every outcome
        ensures keeps { Keeps (C.sets conds.old) (C.sets conds.new) }
        ensures sets { self.new.sets ≡ self.old.sets }
    {
        let (has, _) = match self.top.work.first() {
            Some(first) => first,
            None => return Ok(false),
        };
        let cond = conds.apply_and(has, self.refusals.live)?;
        if !conds.is_never(cond) {
            return Ok(false);
        }
        if is_whole(&self.below) {
            self.drop_first(conds)?;
        } else {
            self.top.work.drop_alike();
        }
        Ok(true)
    }

    /// Drops what the next turn would take, if no configuration that goes on has it, and says
    /// whether it did.
    fn drop_one<C: Conditions>(&mut self, conds: &mut C) -> Result<bool, OutOfMemory>
        requires held { (names : List (List ℕ)) × ((files : ℕ) × IsHeldExpansion (stores (C.sets conds.old) names self.old.sets) files self.old) }
        ensures rested { OnOk result ((names : List (List ℕ))
            → IsRested (stores (C.sets conds.old) names self.old.sets) (stores (C.sets conds.new) names self.new.sets) self.old self.new) }
        ensures less { IfOk result (λ dropped. OnTrue dropped (weight self.new < weight self.old)) }
        ensures ready { IfOk result (λ dropped. OnFalse dropped (IsReady (C.sets conds.new) self.new)) }

        // at every outcome
        ensures keeps { Keeps (C.sets conds.old) (C.sets conds.new) }
        ensures sets { self.new.sets ≡ self.old.sets }
    {
        let next = match self.next_cond() {
            Some(cond) => cond,
            None => return Ok(false),
        };
        let cond = conds.apply_and(next, self.refusals.live)?;
        if !conds.is_never(cond) {
            return Ok(false);
        }
        self.drop_next(conds)?;
        Ok(true)
    }

    /// The configurations that have what the next turn takes.
    fn next_cond(&self) -> Option<Cond>
        ensures { result ≡ next_of self.now }
    {
        if let Some(call) = self.top.calls.last() {
            return Some(call.cond);
        }
        if let Some((has, _)) = self.top.work.first() {
            return Some(has);
        }
        self.below.last().map(|enclosing| enclosing.call.cond)
    }

    /// Drops what the next turn would take.
    fn drop_next<C: Conditions>(&mut self, conds: &mut C) -> Result<(), OutOfMemory>
        requires some { IsSome (next_of self.old) }
        requires waiting { IsCond (C.sets conds.old) self.old.refusals.waiting.0 }
        requires work { All (λ item. IsCond (C.sets conds.old) item.0.0) self.old.top.work }
        ensures dropped { OnOk result (IsDropped (C.sets conds.old) (C.sets conds.new) self.old self.new) }
        ensures refusals { OnOk result (self.new.refusals ≡ self.old.refusals) }

        // at every outcome
        ensures keeps { Keeps (C.sets conds.old) (C.sets conds.new) }
        ensures sets { self.new.sets ≡ self.old.sets }
    {
        if self.top.calls.pop().is_some() {
            return Ok(());
        }
        if self.top.work.first().is_some() {
            return self.drop_first(conds);
        }
        if let Some(enclosing) = self.below.pop() {
            self.top = enclosing.frame;
        }
        Ok(())
    }
}
