//! What configurations that wait keep of the whole list.
ghost use Rattle.std.specs.Prelude.{◌≡◌, All, OnOk};
ghost use Rattle.sc_expand.specs.Machine as machine;
ghost use Rattle.sc_expand.specs.Restricted.{IsPushed};
ghost use Rattle.sc_expand.specs.Waiting.{DropsFirst, KeepsFirst};
ghost use Rattle.sc_model.specs.Sets.{IsCond, Keeps};

use crate::expansion::Expansion;
use crate::frame::Enclosing;
use sc_base::{Cond, OutOfMemory};
use sc_guarded::Guarded;
use sc_presence::Conditions;
use sc_subst::Hidden;

impl Expansion {
    /// Takes the first token of the list on top away. Where that is the whole list, those that
    /// wait keep it.
    pub fn drop_first<C: Conditions>(&mut self, conds: &mut C) -> Result<(), OutOfMemory>
        requires waiting { IsCond (C.sets conds.old) self.old.refusals.waiting.0 }
        requires work { All (λ item. IsCond (C.sets conds.old) item.0.0) self.old.top.work }
        ensures drops { OnOk result (DropsFirst (C.sets conds.old) (C.sets conds.new) self.old self.new) }

        // at every outcome
        ensures keeps { Keeps (C.sets conds.old) (C.sets conds.new) }
        ensures sets { self.new.sets ≡ self.old.sets }
    {
        self.keep_first(conds)?;
        self.top.work.drop_first();
        Ok(())
    }

    /// Puts the first token of the whole list behind what those that wait have kept, where they
    /// have it.
    fn keep_first<C: Conditions>(&mut self, conds: &mut C) -> Result<(), OutOfMemory>
        requires waiting { IsCond (C.sets conds.old) self.old.refusals.waiting.0 }
        requires work { All (λ item. IsCond (C.sets conds.old) item.0.0) self.old.top.work }
        ensures keeps_first { OnOk result (KeepsFirst (C.sets conds.old) (C.sets conds.new) self.old.refusals.waiting.0
            self.old.below.items self.old.top.work self.old.rest self.new.rest) }
        ensures others { OnOk result (self.new ≡ record self.old { rest = self.new.rest }) }

        // at every outcome
        ensures keeps { Keeps (C.sets conds.old) (C.sets conds.new) }
        ensures sets { self.new.sets ≡ self.old.sets }
    {
        if !is_whole(&self.below) {
            return Ok(());
        }
        if let Some((has, token)) = self.top.work.first() {
            let cond = conds.apply_and(has, self.refusals.waiting)?;
            push_token(conds, &mut self.rest, cond, token)?;
        }
        Ok(())
    }
}

/// Adds a token, unless no configuration has it.
pub fn push_token<C: Conditions>(
    conds: &C,
    list: &mut Guarded<Hidden>,
    cond: Cond,
    token: Hidden,
) -> Result<(), OutOfMemory>
    requires { IsCond (C.sets conds.now) cond.0 }
    ensures { OnOk result (IsPushed (C.sets conds.now) cond token list.old list.new) }
{
    if conds.is_never(cond) {
        return Ok(());
    }
    list.push(cond, token)?;
    Ok(())
}

/// Whether the list on top is the whole list, where these lie below it.
pub fn is_whole(below: &[Enclosing]) -> bool
    ensures { result ≡ machine.is_whole below.now }
{
    match below {
        [] => true,
        _ => false,
    }
}
