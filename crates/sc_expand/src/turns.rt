//! The turns of an expansion at a call that waits: an argument is entered, or left.
ghost use Rattle.std.specs.Prelude.{◌≡◌, ℕ, [], List, true, map, slice_set, IfOk, OnOk};
ghost use Rattle.sc_expand.specs.Machine.{HasEntered, IsHeldExpansion, IsResumed};
ghost use Rattle.sc_expand.specs.Running.{GoesOn, IsReplaced};
ghost use Rattle.sc_expand.specs.Seen.{IsHeldCall, calls_at, stores};
ghost use Rattle.sc_model.specs.Growth.{Extends};
ghost use Rattle.sc_model.specs.Sets.{IsConfig, Keeps};

use crate::call::{Call, Template, Wanted};
use crate::expansion::Expansion;
use crate::filling::fill;
use crate::frame::{Enclosing, Frame};
use crate::work_list::WorkList;
use sc_base::{Cond, Names, OutOfMemory};
use sc_guarded::Guarded;
use sc_presence::Conditions;
use sc_subst::{Hidden, Tokens};
use std::alloc::Global;
use std::mem;

impl Expansion {
    /// An argument of a call that has left the list on top is expanded alone.
    pub fn enter(&mut self, call: Call, wanted: Wanted) -> Result<(), OutOfMemory>
        ensures entered { OnOk result (HasEntered self.old self.new call wanted) }

        // at every outcome
        ensures refusals { self.new.refusals ≡ self.old.refusals }
        ensures sets { self.new.sets ≡ self.old.sets }
    {
        let Wanted { parameter, tokens } = wanted;
        let argument = argument_frame(self.alloc, call.cond, tokens)?;
        let frame = mem::replace(&mut self.top, argument);
        self.below.push(Enclosing {
            frame,
            call,
            parameter,
        })?;
        Ok(())
    }

    /// An argument has been expanded, and its call waits again, in the list that it left.
    pub fn leave(&mut self, enclosing: Enclosing) -> Result<(), OutOfMemory>
        ensures work { OnOk result (self.new.top.work ≡ enclosing.frame.work) }
        ensures out { OnOk result (self.new.top.out ≡ enclosing.frame.out) }
        ensures calls { OnOk result (IsResumed enclosing self.old.top.out self.new.top.calls.items) }

        // at every outcome
        ensures below { self.new.below ≡ self.old.below }
        ensures rest { self.new.rest ≡ self.old.rest }
        ensures refusals { self.new.refusals ≡ self.old.refusals }
        ensures sets { self.new.sets ≡ self.old.sets }
    {
        let Enclosing {
            frame,
            call,
            parameter,
        } = enclosing;
        let argument = mem::replace(&mut self.top, frame);
        let mut call = call;
        put_expanded(&mut call.expanded, parameter, argument.out);
        self.top.calls.push(call)?;
        Ok(())
    }

    /// A call that was taken from the list on top, and all arguments of which were expanded, is
    /// replaced, or refused for what a `##` in its replacement cannot make.
    pub fn replace<C: Conditions>(
        &mut self,
        conds: &mut C,
        names: &Names,
        call: Call,
    ) -> Result<(), OutOfMemory>
        requires held { (files : ℕ) × (IsHeldExpansion (stores (C.sets conds.old) names.now self.old.sets) files self.old
            × IsHeldCall (stores (C.sets conds.old) names.now self.old.sets) files call) }
        requires wanted { call.wanted.items ≡ [] }
        requires live { (c : List ℕ) → IsConfig (C.sets conds.old).arities c → (C.sets conds.old).has call.cond.0 c ≡ true
            → (C.sets conds.old).has self.old.refusals.live.0 c ≡ true }
        requires calls { (c : List ℕ) → IsConfig (C.sets conds.old).arities c → (C.sets conds.old).has call.cond.0 c ≡ true
            → calls_at (stores (C.sets conds.old) names.now self.old.sets) self.old.top.calls.items c ≡ [] }
        ensures replaced { OnOk result (IsReplaced (stores (C.sets conds.old) names.now self.old.sets)
            (stores (C.sets conds.new) names.now self.new.sets) self.old self.new call) }

        // at every outcome
        ensures keeps { Keeps (C.sets conds.old) (C.sets conds.new) }
        ensures sets { Extends self.old.sets self.new.sets }
    {
        match &call.template {
            Template::Parts(parts) => {
                let made = fill(self.alloc, conds, &mut self.sets, names, parts, &call)?;
                self.top.work.put_first(&made)?;
                Ok(())
            }
            Template::Refused(cause) => {
                self.refusals
                    .refuse(conds, call.cond, *cause, call.head.token.place)
            }
        }
    }
}

impl Expansion {
    /// A call that was taken from the list on top goes on, in the configurations that were not
    /// refused: its next argument is entered, or it is replaced.
    pub fn go_on<C: Conditions>(
        &mut self,
        conds: &mut C,
        names: &Names,
        call: Call,
    ) -> Result<(), OutOfMemory>
        requires held { (files : ℕ) × (IsHeldExpansion (stores (C.sets conds.old) names.now self.old.sets) files self.old
            × IsHeldCall (stores (C.sets conds.old) names.now self.old.sets) files call) }
        requires calls { (c : List ℕ) → IsConfig (C.sets conds.old).arities c → (C.sets conds.old).has call.cond.0 c ≡ true
            → (C.sets conds.old).has self.old.refusals.live.0 c ≡ true
            → calls_at (stores (C.sets conds.old) names.now self.old.sets) self.old.top.calls.items c ≡ [] }
        ensures gone_on { OnOk result (GoesOn (stores (C.sets conds.old) names.now self.old.sets)
            (stores (C.sets conds.new) names.now self.new.sets) self.old self.new call) }

        // at every outcome
        ensures keeps { Keeps (C.sets conds.old) (C.sets conds.new) }
        ensures sets { Extends self.old.sets self.new.sets }
    {
        let mut call = call;
        call.cond = conds.apply_and(call.cond, self.refusals.live)?;
        match call.wanted.pop() {
            Some(wanted) => self.enter(call, wanted),
            None => self.replace(conds, names, call),
        }
    }
}

/// The frame of an argument, all tokens of which have the condition of its call.
fn argument_frame(alloc: Global, cond: Cond, tokens: Tokens) -> Result<Frame, OutOfMemory>
    ensures work { IfOk result (λ frame. frame.work ≡ map (λ token. (cond, token)) tokens) }
    ensures out { IfOk result (λ frame. frame.out ≡ []) }
    ensures calls { IfOk result (λ frame. frame.calls.items ≡ []) }
{
    Ok(Frame {
        work: WorkList::of(alloc, cond, tokens),
        out: Guarded::new(alloc)?,
        calls: Vec::new(alloc),
    })
}

/// Writes what the argument of a parameter expanded to.
fn put_expanded(expanded: &mut Vec<Guarded<Hidden>>, parameter: usize, list: Guarded<Hidden>)
    ensures { expanded.new.items ≡ slice_set expanded.old.items parameter list }
{
    if let Some(place) = expanded.get_mut(parameter) {
        *place = list;
    }
}
