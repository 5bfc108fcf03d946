ghost use Rattle.std.specs.Prelude.{◌≡◌, ℕ, ◌≤◌, ◌∷◌, [], List, All, true, Some, length, map, slice_get, IfOk, IfErr, OnOk, IsTrue};
ghost use Rattle.c11_macros.specs.Hidden as model;
ghost use Rattle.c11_macros.specs.Defines.{is_function_like};
ghost use Rattle.sc_base.specs.declared.place.Place.{Place};
ghost use Rattle.sc_expand.specs.Called.{AreGathered, HasBegun, HasLeft, IsBranch, IsGathered};
ghost use Rattle.sc_hoist.specs.Branches.{lists_at};
ghost use Rattle.sc_expand.specs.Machine.{IsHeldExpansion, KeepsLists, at};
ghost use Rattle.sc_expand.specs.Seen.{stores};
ghost use Rattle.sc_expand.specs.CallStops.{StopsAt};
ghost use Rattle.sc_expand.specs.Taking.{has_first};
ghost use Rattle.sc_macro.specs.Seen.{IsHeldDefinition, IsHeldForm, IsHeldItem, seen_definition, seen_form};
ghost use Rattle.sc_model.specs.Growth.{Extends};
ghost use Rattle.sc_model.specs.Sets.{IsConfig, IsCond, Keeps};
ghost use Rattle.sc_subst.specs.Parts.{AreHeldArguments};
ghost use Rattle.sc_subst.specs.Seen.{IsHeldHidden, seen_hidden};

use crate::arguments::arguments;
use crate::beginning::{begin_call, between, take_out};
use crate::expansion::Expansion;
use crate::first_calls::first_calls;
use crate::waiting::is_whole;
use sc_base::{Cause, Cond, Files, Names, OutOfMemory, Stop};
use sc_hoist::{Branch, closed_calls};
use sc_macro::{Definition, Form, Item};
use sc_presence::Conditions;
use sc_subst::{Hidden, Tokens, items_at};

impl Expansion {
    /// Takes the calls of a function-like macro whose name stands first out of the list, a branch
    /// for each different list of tokens. The result are the configurations of `cond` in which the
    /// name is not called.
    pub fn gather<C: Conditions>(
        &mut self,
        conds: &mut C,
        names: &mut Names,
        files: &Files,
        cond: Cond,
        definition: &Definition,
        head: Hidden,
        limit: usize,
    ) -> Result<Cond, Stop>
        requires held { IsHeldExpansion (stores (C.sets conds.old) names.old self.old.sets) (length files.now) self.old }
        requires cond_own { IsCond (C.sets conds.old) cond.0 }
        requires head { slice_get (map (λ item. item.1) self.old.top.work) 0 ≡ Some head }
        requires stands { (c : List ℕ) → IsConfig (C.sets conds.old).arities c → (C.sets conds.old).has cond.0 c ≡ true
            → has_first (C.sets conds.old) self.old.top.work c ≡ true }
        requires definition { IsHeldDefinition names.old definition.now }
        requires function { IsTrue (is_function_like (seen_definition names.old definition.now).form) }
        requires first { (c : List ℕ) → IsConfig (C.sets conds.old).arities c → (C.sets conds.old).has cond.0 c ≡ true
            → (rest : List (model.Hidden Place)) × ((at (stores (C.sets conds.old) names.old self.old.sets) self.old c).view.work
            ≡ seen_hidden names.old self.old.sets head ∷ rest) }
        requires live { (c : List ℕ) → IsConfig (C.sets conds.old).arities c → (C.sets conds.old).has cond.0 c ≡ true
            → (C.sets conds.old).has self.old.refusals.live.0 c ≡ true }
        requires calls { (c : List ℕ) → IsConfig (C.sets conds.old).arities c → (C.sets conds.old).has cond.0 c ≡ true
            → (at (stores (C.sets conds.old) names.old self.old.sets) self.old c).view.calls ≡ [] }
        ensures held { OnOk result (IsHeldExpansion (stores (C.sets conds.new) names.new self.new.sets) (length files.now) self.new) }
        ensures lists { OnOk result (KeepsLists self.old self.new) }
        ensures gathered { IfOk result (λ uncalled. IsGathered files.now (stores (C.sets conds.old) names.old self.old.sets)
            (stores (C.sets conds.new) names.new self.new.sets)
            self.old self.new cond.0 uncalled.0 definition.now head) }
        ensures stops { IfErr result (StopsAt (C.sets conds.old) names.old (λ c. (C.sets conds.old).has cond.0 c ≡ true) self.old.top.work limit) }

        // at every outcome
        ensures keeps { Keeps (C.sets conds.old) (C.sets conds.new) }
        ensures names { Extends names.old names.new }
        ensures sets { Extends self.old.sets self.new.sets }
    {
        let place = head.token.place;
        let alloc = self.alloc;
        let work = &self.top.work;
        let found = first_calls(alloc, conds, names, work, cond)?;
        let ends = found.ends;
        let branches = closed_calls(alloc, conds, names, work, 0, found, limit)?;
        let whole = is_whole(&self.below);
        let uncalled = self.refusals.leave_open(conds, whole, &ends, place)?;
        let items = items_at(alloc, names, files, &definition.replacement, place)?;
        self.gather_calls(conds, names, &branches, &definition.form, &items, head)?;
        Ok(uncalled)
    }
}

/// The tokens of a call behind its opening parenthesis.
#[derive(Drop)]
pub struct CallTokens {
    pub between: Tokens,
    pub close: Hidden,
}

impl Expansion {
    /// Takes the calls of branches out of the list, one after the other.
    fn gather_calls<C: Conditions>(
        &mut self,
        conds: &mut C,
        names: &mut Names,
        branches: &[Branch],
        form: &Form,
        items: &[Item],
        head: Hidden,
    ) -> Result<(), OutOfMemory>
        requires held { (files : ℕ) × IsHeldExpansion (stores (C.sets conds.old) names.old self.old.sets) files self.old }
        requires head { slice_get (map (λ item. item.1) self.old.top.work) 0 ≡ Some head }
        requires form { IsHeldForm names.old form.now }
        requires function { IsTrue (is_function_like (seen_form names.old form.now)) }
        requires items { All (IsHeldItem names.old) items.now }
        requires branches { All (IsBranch (stores (C.sets conds.old) names.old self.old.sets) self.old) branches.now }
        requires one { (c : List ℕ) → IsConfig (C.sets conds.old).arities c → length (lists_at (C.sets conds.old) branches.now c) ≤ 1 }
        ensures gathered { OnOk result (AreGathered (stores (C.sets conds.old) names.old self.old.sets) (stores (C.sets conds.new) names.new self.new.sets)
            self.old self.new form.now items.now head branches.now) }

        // at every outcome
        ensures keeps { Keeps (C.sets conds.old) (C.sets conds.new) }
        ensures names { Extends names.old names.new }
        ensures sets { Extends self.old.sets self.new.sets }
    {
        for branch in branches {
            self.gather_call(conds, names, branch, form, items, head)?;
        }
        Ok(())
    }

    /// Takes the call of a branch out of the list. It waits for its arguments, or is refused.
    fn gather_call<C: Conditions>(
        &mut self,
        conds: &mut C,
        names: &mut Names,
        branch: &Branch,
        form: &Form,
        items: &[Item],
        head: Hidden,
    ) -> Result<(), OutOfMemory>
        requires held { (files : ℕ) × IsHeldExpansion (stores (C.sets conds.old) names.old self.old.sets) files self.old }
        requires head { slice_get (map (λ item. item.1) self.old.top.work) 0 ≡ Some head }
        requires form { IsHeldForm names.old form.now }
        requires function { IsTrue (is_function_like (seen_form names.old form.now)) }
        requires items { All (IsHeldItem names.old) items.now }
        requires branch { IsBranch (stores (C.sets conds.old) names.old self.old.sets) self.old branch.now }
        ensures gathered { OnOk result (AreGathered (stores (C.sets conds.old) names.old self.old.sets) (stores (C.sets conds.new) names.new self.new.sets)
            self.old self.new form.now items.now head (branch.now ∷ [])) }

        // at every outcome
        ensures keeps { Keeps (C.sets conds.old) (C.sets conds.new) }
        ensures names { Extends names.old names.new }
        ensures sets { Extends self.old.sets self.new.sets }
    {
        let place = head.token.place;
        let call = self.take_call(conds, names, branch)?;
        let fit = arguments(self.alloc, names, &call.between, form)?;
        match fit {
            Some(raw) => self.begin(
                conds,
                names,
                branch.cond,
                form,
                items,
                head,
                call.close,
                &raw,
            ),
            None => self
                .refusals
                .refuse(conds, branch.cond, Cause::WrongArguments, place),
        }
    }

    /// Takes the tokens of a branch's call out of the list.
    fn take_call<C: Conditions>(
        &mut self,
        conds: &mut C,
        names: &Names,
        branch: &Branch,
    ) -> Result<CallTokens, OutOfMemory>
        requires held { (files : ℕ) × IsHeldExpansion (stores (C.sets conds.old) names.now self.old.sets) files self.old }
        requires branch { IsBranch (stores (C.sets conds.old) names.now self.old.sets) self.old branch.now }
        ensures left { IfOk result (λ call. HasLeft (C.sets conds.old) (C.sets conds.new) names.now self.old self.new branch.now call.between call.close) }

        // at every outcome
        ensures keeps { Keeps (C.sets conds.old) (C.sets conds.new) }
        ensures sets { self.new.sets ≡ self.old.sets }
    {
        self.top.work.is_small();
        let last = branch.places.len() - 1;
        let end = branch.places[last];
        let between = between(
            self.alloc,
            names,
            &self.top.work,
            branch.cond,
            &branch.places[2..last],
        )?;
        let (_, close) = self.top.work.item(end);
        take_out(conds, &mut self.top.work, end + 1, branch.cond)?;
        Ok(CallTokens { between, close })
    }

    /// A call with these arguments begins to wait for them, or is refused for a `#` that fails.
    fn begin<C: Conditions>(
        &mut self,
        conds: &mut C,
        names: &mut Names,
        cond: Cond,
        form: &Form,
        items: &[Item],
        head: Hidden,
        close: Hidden,
        raw: &[Tokens],
    ) -> Result<(), OutOfMemory>
        requires held { (files : ℕ) × IsHeldExpansion (stores (C.sets conds.old) names.old self.old.sets) files self.old }
        requires cond_own { IsCond (C.sets conds.old) cond.0 }
        requires form { IsHeldForm names.old form.now }
        requires items { All (IsHeldItem names.old) items.now }
        requires head { IsHeldHidden names.old self.old.sets head }
        requires close { IsHeldHidden names.old self.old.sets close }
        requires raw { AreHeldArguments names.old self.old.sets raw.now }
        ensures begun { OnOk result (HasBegun (stores (C.sets conds.old) names.old self.old.sets) (stores (C.sets conds.new) names.new self.new.sets)
            self.old self.new cond.0 form.now items.now head close raw.now) }

        // at every outcome
        ensures keeps { Keeps (C.sets conds.old) (C.sets conds.new) }
        ensures names { Extends names.old names.new }
        ensures sets { Extends self.old.sets self.new.sets }
    {
        let place = head.token.place;
        let made = begin_call(
            self.alloc,
            &mut self.sets,
            names,
            cond,
            form,
            items,
            head,
            close,
            raw,
        )?;
        match made {
            Some(call) => {
                self.top.calls.push(call)?;
                Ok(())
            }
            None => self
                .refusals
                .refuse(conds, cond, Cause::BadStringize, place),
        }
    }
}
