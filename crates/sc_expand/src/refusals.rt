ghost use Rattle.std.specs.Prelude.{IfOk, OnOk};
ghost use Rattle.sc_expand.specs.Refusing.{BeginsToWait, LeavesOpen, Refuses};
ghost use Rattle.sc_model.specs.declared.cause.Cause.TheVariants.{UnterminatedCall};
ghost use Rattle.sc_model.specs.Sets.{IsCond, Keeps};

use sc_base::{Cause, Cond, Fault, OutOfMemory, Place};
use sc_hoist::CallEnds;
use sc_presence::Conditions;

/// The configurations that go on, those that wait for what follows the whole list, and the faults
/// of the others.
#[derive(Drop)]
pub struct Refusals {
    pub live: Cond,
    pub waiting: Cond,
    pub faults: Vec<Fault>,
}

impl Refusals {
    /// Refuses configurations, none of which was refused before.
    #[tactic(auto, using(sc_model::proofs::SetLemmas::conditions))]
    pub fn refuse<C: Conditions>(
        &mut self,
        conds: &mut C,
        cond: Cond,
        cause: Cause,
        place: Place,
    ) -> Result<(), OutOfMemory>
        requires live { IsCond (C.sets conds.old) self.old.live.0 }
        requires own { IsCond (C.sets conds.old) cond.0 }
        ensures refuses { OnOk result (Refuses (C.sets conds.old) (C.sets conds.new) cond.0 (record { cause = cause; place = place }) self.old self.new) }

        // at every outcome
        ensures keeps { Keeps (C.sets conds.old) (C.sets conds.new) }
    {
        if conds.is_never(cond) {
            return Ok(());
        }
        let live = conds.apply_without(self.live, cond)?;
        self.faults.push(Fault { cond, cause, place })?;
        self.live = live;
        Ok(())
    }

    /// Configurations that went on begin to wait.
    #[tactic(auto, using(sc_model::proofs::SetLemmas::conditions))]
    pub fn wait<C: Conditions>(&mut self, conds: &mut C, cond: Cond) -> Result<(), OutOfMemory>
        requires live { IsCond (C.sets conds.old) self.old.live.0 }
        requires waiting { IsCond (C.sets conds.old) self.old.waiting.0 }
        requires own { IsCond (C.sets conds.old) cond.0 }
        ensures waits { OnOk result (BeginsToWait (C.sets conds.old) (C.sets conds.new) cond.0 self.old self.new) }

        // at every outcome
        ensures keeps { Keeps (C.sets conds.old) (C.sets conds.new) }
    {
        if conds.is_never(cond) {
            return Ok(());
        }
        let live = conds.apply_without(self.live, cond)?;
        let waiting = conds.apply_or(self.waiting, cond)?;
        self.live = live;
        self.waiting = waiting;
        Ok(())
    }

    /// What follows the whole list may close a call there, or call a name that stands alone: these
    /// wait. Nothing follows an argument. The result are the configurations in which the name is
    /// not called.
    pub fn leave_open<C: Conditions>(
        &mut self,
        conds: &mut C,
        whole: bool,
        ends: &CallEnds,
        place: Place,
    ) -> Result<Cond, OutOfMemory>
        requires live { IsCond (C.sets conds.old) self.old.live.0 }
        requires waiting { IsCond (C.sets conds.old) self.old.waiting.0 }
        requires still { IsCond (C.sets conds.old) ends.now.still.0 }
        requires bare { IsCond (C.sets conds.old) ends.now.bare.0 }
        requires alone { IsCond (C.sets conds.old) ends.now.alone.0 }
        ensures leaves { IfOk result (λ uncalled. LeavesOpen (C.sets conds.old) (C.sets conds.new) whole
            ends.now.still.0 ends.now.bare.0 ends.now.alone.0 uncalled.0 (record { cause = UnterminatedCall; place = place }) self.old self.new) }

        // at every outcome
        ensures keeps { Keeps (C.sets conds.old) (C.sets conds.new) }
    {
        if whole {
            let left = conds.apply_or(ends.still, ends.alone)?;
            self.wait(conds, left)?;
            return Ok(ends.bare);
        }
        let uncalled = conds.apply_or(ends.bare, ends.alone)?;
        self.refuse(conds, ends.still, Cause::UnterminatedCall, place)?;
        Ok(uncalled)
    }
}
