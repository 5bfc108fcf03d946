//! Runs that have not ended: their text as it was read, and what has become of it.
ghost use Rattle.std.specs.Prelude.{◌≡◌, ℕ, ◌++◌, ◌∷◌, [], List, All, None, Option, Some, reverse, IfOk, OnOk, if◌then◌else◌};
ghost use Rattle.sc_guarded.specs.Items.{items_at};
ghost use Rattle.sc_model.specs.Sets.{IsCond, IsConfig, Keeps, Sets};
ghost use Rattle.sc_prep.specs.Apart.{tokens_in};
ghost use Rattle.sc_prep.specs.Gathered.{Forgets};
ghost use Rattle.sc_prep.specs.Pragmas.{HasNoPragma};
ghost use Rattle.sc_prep.specs.Read.{EndsRead, TakesOut, run_at, tokens_read};
ghost use Rattle.sc_base.specs.declared.id.Cond.{Cond};
ghost use Rattle.sc_base.specs.declared.token.Token as base;

use crate::pragmas::Pragmas;
use sc_base::{Cond, Fault, OutOfMemory, Token};
use sc_guarded::Guarded;
use sc_presence::Conditions;
use sc_subst::{Hidden, HideSets};
use std::alloc::Global;

/// Runs that have not ended.
#[derive(Drop)]
pub struct OpenRuns {
    /// The names that gathered tokens hide.
    pub sets: HideSets,
    /// Their text as far as it is not put out: a name that waits for what follows, and what stands
    /// behind it.
    pub gathered: Guarded<Hidden>,
    /// The faults that they have whatever follows.
    pub held: Vec<Fault>,
    /// The `_Pragma` operators in what was put out of them.
    pub pragmas: Pragmas,
    /// All that was read since none was open, or all of it had settled: in order, each token with
    /// the configurations that have it, and where runs ended the configurations whose they were.
    pub read: Guarded<Option<Token>>,
}

impl OpenRuns {
    /// No run is open.
    pub fn new<C: Conditions>(alloc: Global, conds: &C) -> Result<OpenRuns, OutOfMemory>
        ensures gathered { IfOk result (λ runs. runs.gathered ≡ []) }
        ensures held { IfOk result (λ runs. runs.held.items ≡ []) }
        ensures pragmas { IfOk result (λ runs. HasNoPragma (C.sets conds.now) runs.pragmas) }
        ensures read { IfOk result (λ runs. runs.read ≡ []) }
    {
        Ok(OpenRuns {
            sets: HideSets::new(alloc)?,
            gathered: Guarded::new(alloc)?,
            held: Vec::new(alloc),
            pragmas: Pragmas::new(alloc, conds),
            read: Guarded::new(alloc)?,
        })
    }

    /// The runs of the configurations of `acting` end. Where none of `live` goes on, nothing is
    /// kept.
    #[tactic(auto, using(sc_model::proofs::SetLemmas::conditions))]
    pub fn end<C: Conditions>(
        &mut self,
        alloc: Global,
        conds: &mut C,
        acting: Cond,
        live: Cond,
    ) -> Result<(), OutOfMemory>
        requires own { All (λ item. IsCond (C.sets conds.old) item.0.0) self.old.read }
        requires acting { IsCond (C.sets conds.old) acting.0 }
        requires live { IsCond (C.sets conds.old) live.0 }
        ensures ends { OnOk result (EndsRead (C.sets conds.old) self.old.read acting.0 live.0 (C.sets conds.new) self.new.read) }
        ensures same { self.new ≡ record self.old { read = self.new.read } }

        // at every outcome
        ensures keeps { Keeps (C.sets conds.old) (C.sets conds.new) }
    {
        if self.read.len() == 0 {
            return Ok(());
        }
        let going = conds.apply_without(live, acting)?;
        if conds.is_never(going) {
            self.read = Guarded::new(alloc)?;
            return Ok(());
        }
        self.read.push(acting, None)?;
        Ok(())
    }

    /// What was read is forgotten where all of it has settled and no fault holds a run.
    pub fn forget(&mut self, alloc: Global) -> Result<(), OutOfMemory>
        ensures { OnOk result (Forgets self.old self.new) }
    {
        if self.gathered.len() == 0 && self.held.as_slice().len() == 0 {
            self.read = Guarded::new(alloc)?;
        }
        Ok(())
    }

    /// The text of each run of the configurations of `under`.
    #[tactic(auto, using(sc_model::proofs::SetLemmas::conditions))]
    pub fn text_of<C: Conditions>(
        &self,
        alloc: Global,
        conds: &mut C,
        under: Cond,
    ) -> Result<Guarded<Token>, OutOfMemory>
        requires own { All (λ item. IsCond (C.sets conds.old) item.0.0) self.now.read }
        requires under { IsCond (C.sets conds.old) under.0 }
        ensures tokens { IfOk result (λ text. tokens_in text ≡ tokens_read self.now.read) }
        ensures own { IfOk result (λ text. All (λ item. IsCond (C.sets conds.new) item.0.0) text) }
        ensures at { IfOk result (λ text. (c : List ℕ) → IsConfig (C.sets conds.old).arities c → items_at (C.sets conds.new) text c
            ≡ (if (C.sets conds.old).has under.0 c then run_at (C.sets conds.old) self.now.read c else [])) }

        // at every outcome
        ensures keeps { Keeps (C.sets conds.old) (C.sets conds.new) }
    {
        let mut text = Guarded::new(alloc)?;
        let mut left = under;
        for index in (0..self.read.len()).rev() {
            let (cond, read) = self.read.item(index);
            left = taken(conds, &mut text, left, cond, *read)?;
        }
        let in_order = reversed(alloc, &text)?;
        Ok(in_order)
    }
}

/// What stands last of what was read is taken out, in the configurations of `left` that have it.
/// Those are left for which it does not begin their run.
#[tactic(auto, using(sc_model::proofs::SetLemmas::conditions))]
fn taken<C: Conditions>(
    conds: &mut C,
    text: &mut Guarded<Token>,
    left: Cond,
    cond: Cond,
    read: Option<Token>,
) -> Result<Cond, OutOfMemory>
    requires left { IsCond (C.sets conds.old) left.0 }
    requires cond { IsCond (C.sets conds.old) cond.0 }
    ensures takes { IfOk result (λ fewer. (first : Sets) (all front : List (Cond × Option base.Token)) (under : ℕ) → Keeps first (C.sets conds.old)
        → IsCond first cond.0
        → TakesOut first all under (C.sets conds.old) left.0 text.old (front ++ (cond, read) ∷ [])
        → TakesOut first all under (C.sets conds.new) fewer.0 text.new front) }

    // at every outcome
    ensures keeps { Keeps (C.sets conds.old) (C.sets conds.new) }
{
    match read {
        Some(token) => {
            let part = conds.apply_and(cond, left)?;
            text.push(part, token)?;
            Ok(left)
        }
        None => {
            let fewer = conds.apply_without(left, cond)?;
            Ok(fewer)
        }
    }
}

/// The items of a list, the last one first.
fn reversed(alloc: Global, list: &Guarded<Token>) -> Result<Guarded<Token>, OutOfMemory>
    ensures { IfOk result (λ back. back ≡ reverse list.now) }
{
    let mut back = Guarded::new(alloc)?;
    for index in (0..list.len()).rev() {
        let (cond, token) = list.item(index);
        back.push(cond, *token)?;
    }
    Ok(back)
}
