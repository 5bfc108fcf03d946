ghost use Rattle.std.specs.Prelude.{◌≡◌, ℕ, ◌++◌, ◌∷◌, [], List, All, Ok, true, false, length, IfErr, IfOk, OnOk};
ghost use Rattle.c11_directives.specs.Footprints.{NameHas};
ghost use Rattle.sc_guarded.specs.Items.{items_at};
ghost use Rattle.sc_model.specs.Growth.{Extends};
ghost use Rattle.sc_model.specs.Sets.{IsCond, IsConfig, Keeps};
ghost use Rattle.sc_prep.specs.Closes.{IsWithin, RefusesEach};
ghost use Rattle.sc_prep.specs.Machine.{acts};
ghost use Rattle.sc_prep.specs.Read.{tokens_read};
ghost use Rattle.sc_prep.specs.Simulates.{Closed, Owns};
ghost use Rattle.sc_prep.specs.Settles.{EndsRuns, HasSettled, TakesEnded, fault_items};
ghost use Rattle.sc_subst.specs.Seen.{IsHeldHidden};
ghost use Rattle.sc_prep.specs.Stages.{IsStored, LineStage, StopsStage};
ghost use Rattle.sc_prep.specs.Thin.{KeepsShares, SharesWithin};

use crate::settling::hold;
use crate::walk::Walk;
use sc_base::{Cond, Fault, Files, Names, OutOfMemory, Stop};
use sc_expand::close;
use sc_guarded::{Expanded, Guarded};
use sc_presence::Conditions;
use sc_subst::Hidden;
use std::alloc::Global;

impl Walk {
    /// The runs end of the configurations that act. They are put out as what they expand to.
    #[tactic(auto, using(sc_model::proofs::SetLemmas::conditions))]
    pub fn close_runs<C: Conditions>(
        &mut self,
        alloc: Global,
        conds: &mut C,
        names: &mut Names,
        files: &Files,
        limit: usize,
    ) -> Result<(), Stop>
        requires stored { IsStored (C.sets conds.old) names.old (length files.now) self.old }
        ensures closes { OnOk result (LineStage files.now names.old (C.sets conds.old) self.old [] names.new (C.sets conds.new) self.new
            (λ config m n. Closed m n)) }
        ensures shares { OnOk result (SharesWithin limit files.now names.old (C.sets conds.old) self.old files.now names.new (C.sets conds.new) self.new) }
        ensures stops { IfErr result (StopsStage (C.sets conds.old) names.old files.now self.old (tokens_read self.old.runs.read)
            (λ config m f. (acts m ≡ true) × NameHas m.state.macros m.state.run f) limit) }

        // at every outcome
        ensures keeps { Keeps (C.sets conds.old) (C.sets conds.new) }
        ensures names { Extends names.old names.new }
    {
        if conds.is_never(self.acting) {
            return Ok(());
        }
        self.settle_runs(alloc, conds, names, files, limit)?;
        self.end_runs(alloc, conds, names)?;
        Ok(())
    }

    /// The runs of the configurations that act end where their text has settled: nothing follows
    /// what waits of it, and what holds them becomes their fault.
    #[tactic(auto, using(sc_model::proofs::SetLemmas::conditions))]
    fn end_runs<C: Conditions>(
        &mut self,
        alloc: Global,
        conds: &mut C,
        names: &Names,
    ) -> Result<(), OutOfMemory>
        requires owns { Owns (C.sets conds.old) self.old }
        requires held { All (λ item. IsHeldHidden names.now self.old.runs.sets item.1) self.old.runs.gathered }
        ensures ends { OnOk result (EndsRuns names.now (C.sets conds.old) self.old (C.sets conds.new) self.new) }
        ensures shares { OnOk result ((files : List (List ℕ)) → IsStored (C.sets conds.old) names.now (length files) self.old
            → HasSettled (C.sets conds.old) names.now files self.old
            → KeepsShares files names.now (C.sets conds.old) self.old files names.now (C.sets conds.new) self.new) }

        // at every outcome
        ensures keeps { Keeps (C.sets conds.old) (C.sets conds.new) }
    {
        let acting = self.acting;
        let ended = self.take_ended(alloc, conds)?;
        let mut faults = ended.faults;
        let list = &mut self.prepared.list;
        let pragmas = &mut self.runs.pragmas;
        pragmas.finish(alloc, conds, names, &ended.list, acting, list, &mut faults)?;
        self.refuse_each(conds, &faults)?;
        Ok(())
    }

    /// Takes out what waits for the configurations that act, as what it is where nothing follows
    /// it, with the faults that hold them.
    #[tactic(auto, using(sc_model::proofs::SetLemmas::conditions))]
    fn take_ended<C: Conditions>(
        &mut self,
        alloc: Global,
        conds: &mut C,
    ) -> Result<Expanded, OutOfMemory>
        requires { Owns (C.sets conds.old) self.old }
        ensures takes { IfOk result (TakesEnded (C.sets conds.old) self.old (C.sets conds.new) self.new) }

        // at every outcome
        ensures keeps { Keeps (C.sets conds.old) (C.sets conds.new) }
    {
        let acting = self.acting;
        let mut ended = close(alloc, conds, &self.runs.gathered, acting)?;
        let others = conds.negate(acting)?;
        let gathered = within(alloc, conds, &self.runs.gathered, others)?;
        let holding = faults_within(alloc, conds, &self.runs.held, acting)?;
        let held = faults_within(alloc, conds, &self.runs.held, others)?;
        self.runs.gathered = gathered;
        self.runs.held = held;
        self.runs.end(alloc, conds, acting, self.prepared.live)?;
        hold(&mut ended.faults, &holding)?;
        Ok(ended)
    }

    /// The configurations of these faults are refused.
    #[tactic(auto, using(sc_model::proofs::SetLemmas::conditions))]
    pub fn refuse_each<C: Conditions>(
        &mut self,
        conds: &mut C,
        faults: &[Fault],
    ) -> Result<(), OutOfMemory>
        requires live { IsCond (C.sets conds.old) self.old.prepared.live.0 }
        requires acting { IsCond (C.sets conds.old) self.old.acting.0 }
        requires faults { All (λ fault. IsCond (C.sets conds.old) fault.cond.0) faults.now }
        ensures refuses { OnOk result (RefusesEach (C.sets conds.old) self.old faults.now (C.sets conds.new) self.new) }

        // at every outcome
        ensures keeps { Keeps (C.sets conds.old) (C.sets conds.new) }
    {
        for fault in faults {
            self.refuse_at(conds, *fault)?;
        }
        Ok(())
    }

    /// The configurations of a fault are refused.
    #[tactic(auto, using(sc_model::proofs::SetLemmas::conditions))]
    pub fn refuse_at<C: Conditions>(
        &mut self,
        conds: &mut C,
        fault: Fault,
    ) -> Result<(), OutOfMemory>
        requires live { IsCond (C.sets conds.old) self.old.prepared.live.0 }
        requires acting { IsCond (C.sets conds.old) self.old.acting.0 }
        requires own { IsCond (C.sets conds.old) fault.cond.0 }
        ensures refuses { OnOk result (RefusesEach (C.sets conds.old) self.old (fault ∷ []) (C.sets conds.new) self.new) }

        // at every outcome
        ensures keeps { Keeps (C.sets conds.old) (C.sets conds.new) }
    {
        let live = conds.apply_without(self.prepared.live, fault.cond)?;
        let acting = conds.apply_without(self.acting, fault.cond)?;
        self.prepared.faults.push(fault)?;
        self.prepared.live = live;
        self.acting = acting;
        Ok(())
    }
}

/// Whether a configuration of `by` has an item.
#[tactic(auto, using(sc_model::proofs::SetLemmas::conditions))]
pub fn is_met<C: Conditions>(
    conds: &mut C,
    items: &Guarded<Hidden>,
    by: Cond,
) -> Result<bool, OutOfMemory>
    requires own { All (λ item. IsCond (C.sets conds.old) item.0.0) items.now }
    requires by_own { IsCond (C.sets conds.old) by.0 }
    ensures none { result ≡ Ok false → (c : List ℕ) → IsConfig (C.sets conds.old).arities c → (C.sets conds.old).has by.0 c ≡ true
        → items_at (C.sets conds.old) items.now c ≡ [] }

    // at every outcome
    ensures keeps { Keeps (C.sets conds.old) (C.sets conds.new) }
{
    for index in 0..items.len() {
        let (has, _) = items.item(index);
        let part = conds.apply_and(has, by)?;
        if !conds.is_never(part) {
            return Ok(true);
        }
    }
    Ok(false)
}

/// The items that a configuration of `by` has, each in those configurations.
#[tactic(auto, using(sc_model::proofs::SetLemmas::conditions))]
pub fn within<C: Conditions, T: Copy + Drop>(
    alloc: Global,
    conds: &mut C,
    items: &Guarded<T>,
    by: Cond,
) -> Result<Guarded<T>, OutOfMemory>
    requires own { All (λ item. IsCond (C.sets conds.old) item.0.0) items.now }
    requires by_own { IsCond (C.sets conds.old) by.0 }
    ensures within { IfOk result (λ kept. IsWithin (C.sets conds.old) items.now ((C.sets conds.old).has by.0) (C.sets conds.new) kept) }

    // at every outcome
    ensures keeps { Keeps (C.sets conds.old) (C.sets conds.new) }
{
    let mut kept = Guarded::new(alloc)?;
    for index in 0..items.len() {
        let item = items.item(index);
        let part = conds.apply_and(item.0, by)?;
        if !conds.is_never(part) {
            kept.push(part, *item.1)?;
        }
    }
    Ok(kept)
}

/// The faults that a configuration of `by` has, each in those configurations.
#[tactic(auto, using(sc_model::proofs::SetLemmas::conditions))]
pub fn faults_within<C: Conditions>(
    alloc: Global,
    conds: &mut C,
    faults: &[Fault],
    by: Cond,
) -> Result<Vec<Fault>, OutOfMemory>
    requires own { All (λ fault. IsCond (C.sets conds.old) fault.cond.0) faults.now }
    requires by_own { IsCond (C.sets conds.old) by.0 }
    ensures within { IfOk result (λ kept. IsWithin (C.sets conds.old) (fault_items faults.now) ((C.sets conds.old).has by.0) (C.sets conds.new) (fault_items
        kept.items)) }

    // at every outcome
    ensures keeps { Keeps (C.sets conds.old) (C.sets conds.new) }
{
    let mut kept = Vec::new(alloc);
    for fault in faults {
        let part = conds.apply_and(fault.cond, by)?;
        if !conds.is_never(part) {
            kept.push(Fault {
                cond: part,
                cause: fault.cause,
                place: fault.place,
            })?;
        }
    }
    Ok(kept)
}

/// Puts the items of a list at the end of another.
pub fn append<T: Copy + Drop>(list: &mut Guarded<T>, items: &Guarded<T>) -> Result<(), OutOfMemory>
    ensures { OnOk result (list.new ≡ list.old ++ items.now) }
{
    for index in 0..items.len() {
        let item = items.item(index);
        list.push(item.0, *item.1)?;
    }
    Ok(())
}
