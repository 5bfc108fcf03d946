//! What is put out of runs that have not come to their ends yet.
ghost use Rattle.std.specs.Prelude.{◌≡◌, ℕ, ◌+◌, ◌&&◌, ◌++◌, List, All, Ok, [], true, false, IfErr, IfOk, OnOk, length};
ghost use Rattle.c11_directives.specs.Footprints.{NameHas};
ghost use Rattle.sc_expand.specs.Stops.{HasConfigs};
ghost use Rattle.sc_guarded.specs.Items.{items_at};
ghost use Rattle.sc_model.specs.Growth.{Extends};
ghost use Rattle.sc_model.specs.Sets.{IsCond, IsConfig, Denotes, Keeps};
ghost use Rattle.sc_prep.specs.Closes.{has_none};
ghost use Rattle.sc_prep.specs.Pragmas.{OwnsPragmas};
ghost use Rattle.sc_prep.specs.Machine.{acts};
ghost use Rattle.sc_prep.specs.Read.{tokens_read};
ghost use Rattle.sc_prep.specs.Settles.{AllHaveSettled, HasSettled, IsAsked, KeepsSettled, OwnsSettled};
ghost use Rattle.sc_prep.specs.Stages.{IsStored, LineStage, StopsStage};
ghost use Rattle.sc_prep.specs.Thin.{KeepsShares, SharesWithin};

use crate::closing::{append, is_met, within};
use crate::walk::Walk;
use sc_base::{Cond, Fault, Files, Names, OutOfMemory, Stop};
use sc_expand::{Settled, expand, settle};
use sc_guarded::Guarded;
use sc_presence::Conditions;
use sc_subst::Hidden;
use std::alloc::Global;

impl Walk {
    /// Where some configuration that acts has gathered anything, what was gathered is put out in
    /// each, also in those that do not act, as far as it becomes the same whatever follows it. What
    /// waits for that stays gathered, and who is refused whatever follows is held by its fault.
    /// Where more configurations that act than the limit differ in a name of what is gathered,
    /// their runs decide.
    #[tactic(auto, using(sc_model::proofs::SetLemmas::conditions))]
    pub fn settle_runs<C: Conditions>(
        &mut self,
        alloc: Global,
        conds: &mut C,
        names: &mut Names,
        files: &Files,
        limit: usize,
    ) -> Result<(), Stop>
        requires stored { IsStored (C.sets conds.old) names.old (length files.now) self.old }
        ensures stays { OnOk result (LineStage files.now names.old (C.sets conds.old) self.old [] names.new (C.sets conds.new) self.new (λ config m n. n ≡ m)) }
        ensures ends { OnOk result (HasSettled (C.sets conds.new) names.new files.now self.new) }
        ensures early { OnOk result ((HasConfigs (C.sets conds.old).arities (limit + 1) → ⊥) → (c : List ℕ) → IsConfig (C.sets conds.old).arities c
            → (C.sets conds.old).has self.old.acting.0 c ≡ true → (items_at (C.sets conds.old) self.old.runs.gathered c ≡ [] → ⊥)
            → AllHaveSettled (C.sets conds.new) names.new files.now self.new) }
        ensures shares { OnOk result (SharesWithin limit files.now names.old (C.sets conds.old) self.old files.now names.new (C.sets conds.new) self.new) }
        ensures stops { IfErr result (StopsStage (C.sets conds.old) names.old files.now self.old (tokens_read self.old.runs.read)
            (λ config m f. (acts m ≡ true) × NameHas m.state.macros m.state.run f) limit) }

        // at every outcome
        ensures keeps { Keeps (C.sets conds.old) (C.sets conds.new) }
        ensures names { Extends names.old names.new }
    {
        let met = is_met(conds, &self.runs.gathered, self.acting)?;
        if !met {
            return Ok(());
        }
        let within = self.settle_within(alloc, conds, names, files, limit)?;
        if within {
            return Ok(());
        }
        self.judge_runs(alloc, conds, names, files, limit)?;
        let settled = self.settle_within(alloc, conds, names, files, usize::MAX)?;
        if settled {
            return Ok(());
        }
        Err(Stop::OutOfMemory)
    }

    /// Before so many tokens more are gathered, what was gathered settles where that is due, and
    /// what was read of it is forgotten if nothing waits. Where more configurations than the limit
    /// differ in a name, it stays gathered until runs end.
    #[tactic(auto, using(sc_model::proofs::SetLemmas::conditions))]
    pub fn settle_if_due<C: Conditions>(
        &mut self,
        alloc: Global,
        conds: &mut C,
        names: &mut Names,
        files: &Files,
        limit: usize,
        more: usize,
    ) -> Result<(), OutOfMemory>
        requires stored { IsStored (C.sets conds.old) names.old (length files.now) self.old }
        ensures stays { OnOk result (LineStage files.now names.old (C.sets conds.old) self.old [] names.new (C.sets conds.new) self.new (λ config m n. n ≡ m)) }
        ensures shares { OnOk result (SharesWithin limit files.now names.old (C.sets conds.old) self.old files.now names.new (C.sets conds.new) self.new) }

        // at every outcome
        ensures keeps { Keeps (C.sets conds.old) (C.sets conds.new) }
        ensures names { Extends names.old names.new }
    {
        let read = self.runs.read.len();
        if is_due(read, more, self.runs.gathered.len()) {
            self.settle_within(alloc, conds, names, files, limit)?;
            self.runs.forget(alloc)?;
        }
        Ok(())
    }

    /// Stops where more configurations that act than the limit differ in a name of their runs.
    #[tactic(auto, using(sc_model::proofs::SetLemmas::conditions))]
    fn judge_runs<C: Conditions>(
        &self,
        alloc: Global,
        conds: &mut C,
        names: &mut Names,
        files: &Files,
        limit: usize,
    ) -> Result<(), Stop>
        requires stored { IsStored (C.sets conds.old) names.old (length files.now) self.now }
        ensures stops { IfErr result (StopsStage (C.sets conds.old) names.old files.now self.now (tokens_read self.now.runs.read)
            (λ config m f. (acts m ≡ true) × NameHas m.state.macros m.state.run f) limit) }

        // at every outcome
        ensures keeps { Keeps (C.sets conds.old) (C.sets conds.new) }
        ensures names { Extends names.old names.new }
    {
        let acting = self.acting;
        let text = self.runs.text_of(alloc, conds, acting)?;
        expand(
            alloc,
            conds,
            &self.table,
            &text,
            acting,
            limit,
            names,
            files,
        )?;
        Ok(())
    }

    /// What was gathered settles, unless more configurations that act than the limit differ in a
    /// name. Where more of all do, it settles in those that act alone.
    #[tactic(auto, using(sc_model::proofs::SetLemmas::conditions))]
    fn settle_within<C: Conditions>(
        &mut self,
        alloc: Global,
        conds: &mut C,
        names: &mut Names,
        files: &Files,
        limit: usize,
    ) -> Result<bool, OutOfMemory>
        requires stored { IsStored (C.sets conds.old) names.old (length files.now) self.old }
        ensures stays { OnOk result (LineStage files.now names.old (C.sets conds.old) self.old [] names.new (C.sets conds.new) self.new (λ config m n. n ≡ m)) }
        ensures ends { result ≡ Ok true → HasSettled (C.sets conds.new) names.new files.now self.new }
        ensures early { OnOk result ((HasConfigs (C.sets conds.old).arities (limit + 1) → ⊥) → AllHaveSettled (C.sets conds.new) names.new files.now self.new) }
        ensures full { result ≡ Ok false → HasConfigs (C.sets conds.old).arities (limit + 1) }
        ensures shares { OnOk result (SharesWithin limit files.now names.old (C.sets conds.old) self.old files.now names.new (C.sets conds.new) self.new) }

        // at every outcome
        ensures keeps { Keeps (C.sets conds.old) (C.sets conds.new) }
        ensures names { Extends names.old names.new }
    {
        let live = without_faults(conds, self.prepared.live, &self.runs.held)?;
        let acting = conds.apply_and(live, self.acting)?;
        let all = self.settle_in(alloc, conds, live, live, names, files, limit)?;
        if all {
            return Ok(true);
        }
        let some = self.settle_in(alloc, conds, live, acting, names, files, limit)?;
        Ok(some)
    }

    /// What was gathered settles in some of the configurations that have no fault, unless more of
    /// them than the limit differ in a name.
    #[tactic(auto, using(sc_model::proofs::SetLemmas::conditions))]
    fn settle_in<C: Conditions>(
        &mut self,
        alloc: Global,
        conds: &mut C,
        live: Cond,
        asked: Cond,
        names: &mut Names,
        files: &Files,
        limit: usize,
    ) -> Result<bool, OutOfMemory>
        requires stored { IsStored (C.sets conds.old) names.old (length files.now) self.old }
        requires asked { IsAsked (C.sets conds.old) self.old live.0 asked.0 }
        ensures stays { OnOk result (LineStage files.now names.old (C.sets conds.old) self.old [] names.new (C.sets conds.new) self.new (λ config m n. n ≡ m)) }
        ensures ends { result ≡ Ok true → HasSettled (C.sets conds.new) names.new files.now self.new
            × (asked.0 ≡ live.0 → AllHaveSettled (C.sets conds.new) names.new files.now self.new) }
        ensures full { result ≡ Ok false → (self.new ≡ record self.old { runs = record self.old.runs { sets = self.new.runs.sets } })
            × HasConfigs (C.sets conds.old).arities (limit + 1) }
        ensures shares { result ≡ Ok true → asked.0 ≡ live.0 → KeepsShares files.now names.old (C.sets conds.old) self.old files.now names.new (C.sets conds.new) self.new }

        // at every outcome
        ensures keeps { Keeps (C.sets conds.old) (C.sets conds.new) }
        ensures names { Extends names.old names.new }
    {
        let list = copied(alloc, &self.runs.gathered)?;
        let table = &self.table;
        let sets = &mut self.runs.sets;
        match settle(alloc, conds, table, sets, list, asked, limit, names, files) {
            Ok(settled) => {
                self.keep_settled(alloc, conds, names, live, asked, settled)?;
                Ok(true)
            }
            Err(Stop::BranchesFull { .. }) => Ok(false),
            Err(Stop::ReadFault | Stop::OutOfMemory) => Err(OutOfMemory),
        }
    }

    /// What the configurations of `asked` have settled to is kept. The others of `live` keep what
    /// they have gathered.
    #[tactic(auto, using(sc_model::proofs::SetLemmas::conditions))]
    fn keep_settled<C: Conditions>(
        &mut self,
        alloc: Global,
        conds: &mut C,
        names: &Names,
        live: Cond,
        asked: Cond,
        settled: Settled,
    ) -> Result<(), OutOfMemory>
        requires own { All (λ item. IsCond (C.sets conds.old) item.0.0) self.old.runs.gathered }
        requires pragmas { OwnsPragmas (C.sets conds.old) self.old.runs.pragmas }
        requires settled { OwnsSettled (C.sets conds.old) names.now settled }
        requires live { IsCond (C.sets conds.old) live.0 }
        requires asked { IsCond (C.sets conds.old) asked.0 }
        ensures puts { OnOk result (KeepsSettled names.now (C.sets conds.old) self.old live.0 asked.0 settled (C.sets conds.new) self.new) }

        // at every outcome
        ensures keeps { Keeps (C.sets conds.old) (C.sets conds.new) }
    {
        let free = without_faults(conds, asked, &settled.held)?;
        let others = conds.apply_without(live, asked)?;
        let left = within(alloc, conds, &self.runs.gathered, others)?;
        let list = &mut self.prepared.list;
        let pragmas = &mut self.runs.pragmas;
        pragmas.put_outside(alloc, conds, names, &settled.done, free, list)?;
        hold(&mut self.runs.held, &settled.held)?;
        self.runs.gathered = settled.rest;
        append(&mut self.runs.gathered, &left)?;
        Ok(())
    }
}

/// Whether what was gathered is to settle before so many tokens more are read: each time that their
/// number comes to a multiple of 4,096, or of a power of two in proportion to what is gathered, so
/// that what waits is not looked at again for each line.
fn is_due(read: usize, more: usize, gathered: usize) -> bool {
    let mut step = 4096;
    while step <= gathered / 2 {
        step *= 2;
    }
    more >= step - read % step
}

/// The items of a list.
fn copied(alloc: Global, list: &Guarded<Hidden>) -> Result<Guarded<Hidden>, OutOfMemory>
    ensures { IfOk result (λ copy. copy ≡ list.now) }
{
    let mut copy = Guarded::new(alloc)?;
    for index in 0..list.len() {
        let (cond, hidden) = list.item(index);
        copy.push(cond, *hidden)?;
    }
    Ok(copy)
}

/// Puts faults behind others.
pub fn hold(held: &mut Vec<Fault>, more: &[Fault]) -> Result<(), OutOfMemory>
    ensures { OnOk result (held.new.items ≡ held.old.items ++ more.now) }
{
    for fault in more {
        held.push(*fault)?;
    }
    Ok(())
}

/// The configurations of `all` that have none of the faults.
#[tactic(auto, using(sc_model::proofs::SetLemmas::conditions))]
pub fn without_faults<C: Conditions>(
    conds: &mut C,
    all: Cond,
    faults: &[Fault],
) -> Result<Cond, OutOfMemory>
    requires own { IsCond (C.sets conds.old) all.0 }
    requires faults { All (λ fault. IsCond (C.sets conds.old) fault.cond.0) faults.now }
    ensures without { IfOk result (λ left. Denotes (C.sets conds.new) left.0
        (λ c. (C.sets conds.old).has all.0 c && has_none (C.sets conds.old) faults.now c)) }

    // at every outcome
    ensures keeps { Keeps (C.sets conds.old) (C.sets conds.new) }
{
    let mut left = all;
    for fault in faults {
        left = conds.apply_without(left, fault.cond)?;
    }
    Ok(left)
}
