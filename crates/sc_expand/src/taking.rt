ghost use Rattle.std.specs.Prelude.{◌≡◌, ℕ, ◌<◌, ◌≤◌, ◌++◌, ◌∷◌, [], List, All, true, false, None, Some, Ok, Err, length, drop, map, slice_get, IfErr, IfOk, IfSome, OnOk, if◌then◌else◌, IsTrue};
ghost use Rattle.std.specs.Option.{option_map};
ghost use Rattle.c11_macros.specs.Defines.{is_function_like};
ghost use Rattle.c11_macros.specs.Expansion as expansion;
ghost use Rattle.c11_macros.specs.Expansion.{object_result};
ghost use Rattle.c11_macros.specs.Hidden.{failure_at, with_name};
ghost use Rattle.sc_base.specs.declared.id.Name as declared_name;
ghost use Rattle.sc_base.specs.declared.stop.Stop.TheVariants as declared_stop;
ghost use Rattle.sc_expand.specs.Alike.{IsFunctionLike, TakesName};
ghost use Rattle.sc_expand.specs.Machine.{IsHeldExpansion, at};
ghost use Rattle.sc_expand.specs.Running.{TakesFirst};
ghost use Rattle.sc_expand.specs.Seen.{AreHeld, IsHeldToken, provenance_of, seen_at, stores};
ghost use Rattle.sc_expand.specs.CallStops.{StopsAt};
ghost use Rattle.sc_expand.specs.Taking.{AreTaken, HasPut, HasPutOut, IsBegun, IsFunction, IsHeldTaken, IsTaken, Takes, TakesPart, step_at, untaken};
ghost use Rattle.sc_expand.specs.Restricted.{IsPushed};
ghost use Rattle.sc_guarded.specs.Items.{items_at};
ghost use Rattle.sc_macro.specs.Seen.{IsHeldDefinition, seen_definition, text_of};
ghost use Rattle.sc_model.specs.Growth.{Extends};
ghost use Rattle.sc_model.specs.Sets.{IsConfig, IsCond, IsNever, Keeps};
ghost use Rattle.sc_subst.specs.Seen.{IsHeldHidden, IsHeldSet, hide_at, seen_hidden};
ghost use Rattle.sc_subst.specs.Stops.{OnFault};
ghost use Rattle.sc_table.specs.Table.{IsTable, macros_at};

use crate::expansion::Expansion;
use crate::waiting::push_token;
use sc_base::{Cond, Files, Kind, Names, OutOfMemory, Stop};
use sc_macro::Definition;
use sc_presence::Conditions;
use sc_subst::{Hidden, Hide, HideSets, SubstStop, items_at, substitute};
use sc_table::MacroTable;
use std::alloc::Global;
use std::rc::Rc;

/// What taking a token has come to so far: the configurations in which it stays, and what replaces
/// it in others.
#[derive(Drop)]
pub struct Taken {
    pub stays: Cond,
    pub made: Vec<(Cond, Hidden)>,
}

impl Expansion {
    /// Takes the first token of the list, in all configurations that have it.
    pub fn take<C: Conditions>(
        &mut self,
        conds: &mut C,
        table: &MacroTable,
        names: &mut Names,
        files: &Files,
        has: Cond,
        token: Hidden,
        limit: usize,
    ) -> Result<(), Stop>
        requires held { IsHeldExpansion (stores (C.sets conds.old) names.old self.old.sets) (length files.now) self.old }
        requires first { slice_get self.old.top.work 0 ≡ Some (has, token) }
        requires calls { self.old.top.calls.items ≡ [] }
        requires table { IsTable (C.sets conds.old) names.old table.now }
        ensures taken { OnOk result (TakesFirst files.now (macros_at (C.sets conds.old) names.old table.now)
            (stores (C.sets conds.old) names.old self.old.sets) (stores (C.sets conds.new) names.new self.new.sets) self.old self.new has.0) }
        ensures stops { IfErr result (StopsAt (C.sets conds.old) names.old
            (λ c. TakesName (stores (C.sets conds.old) names.old self.old.sets)
            (macros_at (C.sets conds.old) names.old table.now c) self.old c) self.old.top.work limit) }

        // at every outcome
        ensures keeps { Keeps (C.sets conds.old) (C.sets conds.new) }
        ensures names { Extends names.old names.new }
        ensures sets { Extends self.old.sets self.new.sets }
    {
        let cond = conds.apply_and(has, self.refusals.live)?;
        let taken = self.take_under(conds, table, names, files, cond, token, limit)?;
        self.put_out(conds, token, &taken)?;
        Ok(())
    }

    /// Takes the first token of the list, in the configurations of a condition.
    fn take_under<C: Conditions>(
        &mut self,
        conds: &mut C,
        table: &MacroTable,
        names: &mut Names,
        files: &Files,
        cond: Cond,
        token: Hidden,
        limit: usize,
    ) -> Result<Taken, Stop>
        requires held { IsHeldExpansion (stores (C.sets conds.old) names.old self.old.sets) (length files.now) self.old }
        requires first { slice_get (map (λ item. item.1) self.old.top.work) 0 ≡ Some token }
        requires cond_own { IsCond (C.sets conds.old) cond.0 }
        requires token { IsHeldToken (stores (C.sets conds.old) names.old self.old.sets) (length files.now) token }
        requires table { IsTable (C.sets conds.old) names.old table.now }
        requires begun { (c : List ℕ) → IsConfig (C.sets conds.old).arities c → (C.sets conds.old).has cond.0 c ≡ true
            → IsBegun (seen_hidden names.old self.old.sets token) (untaken (stores (C.sets conds.old) names.old self.old.sets) self.old c) }
        ensures takes { IfOk result (λ taken. Takes files.now (macros_at (C.sets conds.old) names.old table.now)
            (stores (C.sets conds.old) names.old self.old.sets) (stores (C.sets conds.new) names.new self.new.sets)
            self.old self.new taken token cond.0) }
        ensures stops { IfErr result (StopsAt (C.sets conds.old) names.old (λ c. ((C.sets conds.old).has cond.0 c ≡ true)
            × (expansion.is_looked_up (seen_hidden names.old self.old.sets token) ≡ true)
            × IsFunctionLike (macros_at (C.sets conds.old) names.old table.now c (text_of names.old token.token.spelling)))
            self.old.top.work limit) }

        // at every outcome
        ensures keeps { Keeps (C.sets conds.old) (C.sets conds.new) }
        ensures names { Extends names.old names.new }
        ensures sets { Extends self.old.sets self.new.sets }
    {
        if is_looked_up(&self.sets, names, token) {
            return self.take_name(conds, table, names, files, cond, token, limit);
        }
        Ok(Taken {
            stays: cond,
            made: Vec::new(self.alloc),
        })
    }

    /// Takes a name that may be a macro's, in the configurations of a condition.
    fn take_name<C: Conditions>(
        &mut self,
        conds: &mut C,
        table: &MacroTable,
        names: &mut Names,
        files: &Files,
        cond: Cond,
        head: Hidden,
        limit: usize,
    ) -> Result<Taken, Stop>
        requires held { IsHeldExpansion (stores (C.sets conds.old) names.old self.old.sets) (length files.now) self.old }
        requires first { slice_get (map (λ item. item.1) self.old.top.work) 0 ≡ Some head }
        requires cond_own { IsCond (C.sets conds.old) cond.0 }
        requires head { IsHeldToken (stores (C.sets conds.old) names.old self.old.sets) (length files.now) head }
        requires table { IsTable (C.sets conds.old) names.old table.now }
        requires name { expansion.is_looked_up (seen_hidden names.old self.old.sets head) ≡ true }
        requires begun { (c : List ℕ) → IsConfig (C.sets conds.old).arities c → (C.sets conds.old).has cond.0 c ≡ true
            → IsBegun (seen_hidden names.old self.old.sets head) (untaken (stores (C.sets conds.old) names.old self.old.sets) self.old c) }
        ensures takes { IfOk result (λ taken. Takes files.now (macros_at (C.sets conds.old) names.old table.now)
            (stores (C.sets conds.old) names.old self.old.sets) (stores (C.sets conds.new) names.new self.new.sets)
            self.old self.new taken head cond.0) }
        ensures stops { IfErr result (StopsAt (C.sets conds.old) names.old (λ c. ((C.sets conds.old).has cond.0 c ≡ true)
            × (expansion.is_looked_up (seen_hidden names.old self.old.sets head) ≡ true)
            × IsFunctionLike (macros_at (C.sets conds.old) names.old table.now c (text_of names.old head.token.spelling)))
            self.old.top.work limit) }

        // at every outcome
        ensures keeps { Keeps (C.sets conds.old) (C.sets conds.new) }
        ensures names { Extends names.old names.new }
        ensures sets { Extends self.old.sets self.new.sets }
    {
        let mut taken = Taken {
            stays: conds.never(),
            made: Vec::new(self.alloc),
        };
        let parts = table.lookup(conds, names, head.token.spelling, cond)?;
        self.take_parts(conds, names, files, &parts, head, &mut taken, limit)?;
        Ok(taken)
    }

    /// The name is no longer first: it is put out where it stays, and what replaces it is first.
    fn put_out<C: Conditions>(
        &mut self,
        conds: &mut C,
        token: Hidden,
        taken: &Taken,
    ) -> Result<(), OutOfMemory>
        requires waiting { IsCond (C.sets conds.old) self.old.refusals.waiting.0 }
        requires work { All (λ item. IsCond (C.sets conds.old) item.0.0) self.old.top.work }
        requires stays { IsCond (C.sets conds.old) taken.now.stays.0 }
        ensures put { OnOk result (HasPutOut (C.sets conds.old) (C.sets conds.new) taken.now token self.old self.new) }

        // at every outcome
        ensures keeps { Keeps (C.sets conds.old) (C.sets conds.new) }
        ensures sets { self.new.sets ≡ self.old.sets }
    {
        self.drop_first(conds)?;
        push_token(conds, &mut self.top.out, taken.stays, token)?;
        self.top.work.put_first(&taken.made)?;
        Ok(())
    }

    /// Takes a name, each configuration as it defines it.
    fn take_parts<C: Conditions>(
        &mut self,
        conds: &mut C,
        names: &mut Names,
        files: &Files,
        parts: &[(Cond, Option<Rc<Definition>>)],
        head: Hidden,
        taken: &mut Taken,
        limit: usize,
    ) -> Result<(), Stop>
        requires held { IsHeldExpansion (stores (C.sets conds.old) names.old self.old.sets) (length files.now) self.old }
        requires first { slice_get (map (λ item. item.1) self.old.top.work) 0 ≡ Some head }
        requires taken { IsHeldTaken (stores (C.sets conds.old) names.old self.old.sets) (length files.now) taken.old }
        requires head { IsHeldToken (stores (C.sets conds.old) names.old self.old.sets) (length files.now) head }
        requires own { All (λ part. IsCond (C.sets conds.old) part.0.0) parts.now }
        requires definitions { All (λ part. IfSome part.1 (λ shared. IsHeldDefinition names.old shared.value)) parts.now }
        requires name { expansion.is_looked_up (seen_hidden names.old self.old.sets head) ≡ true }
        requires one { (c : List ℕ) → IsConfig (C.sets conds.old).arities c → length (items_at (C.sets conds.old) parts.now c) ≤ 1 }
        requires begun { (c : List ℕ) → IsConfig (C.sets conds.old).arities c → length (items_at (C.sets conds.old) parts.now c) ≡ 1
            → IsBegun (seen_hidden names.old self.old.sets head) (step_at (stores (C.sets conds.old) names.old self.old.sets) self.old taken.old c) }
        ensures done { OnOk result (AreTaken files.now (stores (C.sets conds.old) names.old self.old.sets) (stores (C.sets conds.new) names.new self.new.sets)
            self.old self.new taken.old taken.new head parts.now) }
        ensures stops { IfErr result (StopsAt (C.sets conds.old) names.old (λ c. TakesPart (C.sets conds.old) names.old parts.now c) self.old.top.work limit) }

        // at every outcome
        ensures keeps { Keeps (C.sets conds.old) (C.sets conds.new) }
        ensures names { Extends names.old names.new }
        ensures sets { Extends self.old.sets self.new.sets }
    {
        for part in parts {
            self.take_part(conds, names, files, part.0, &part.1, head, taken, limit)?;
        }
        Ok(())
    }

    /// Takes a name in configurations that define it alike, or not at all.
    fn take_part<C: Conditions>(
        &mut self,
        conds: &mut C,
        names: &mut Names,
        files: &Files,
        cond: Cond,
        definition: &Option<Rc<Definition>>,
        head: Hidden,
        taken: &mut Taken,
        limit: usize,
    ) -> Result<(), Stop>
        requires held { IsHeldExpansion (stores (C.sets conds.old) names.old self.old.sets) (length files.now) self.old }
        requires first { slice_get (map (λ item. item.1) self.old.top.work) 0 ≡ Some head }
        requires taken { IsHeldTaken (stores (C.sets conds.old) names.old self.old.sets) (length files.now) taken.old }
        requires cond_own { IsCond (C.sets conds.old) cond.0 }
        requires head { IsHeldToken (stores (C.sets conds.old) names.old self.old.sets) (length files.now) head }
        requires definition { IfSome definition.now (λ shared. IsHeldDefinition names.old shared.value) }
        requires name { expansion.is_looked_up (seen_hidden names.old self.old.sets head) ≡ true }
        requires begun { (c : List ℕ) → IsConfig (C.sets conds.old).arities c → (C.sets conds.old).has cond.0 c ≡ true
            → IsBegun (seen_hidden names.old self.old.sets head) (step_at (stores (C.sets conds.old) names.old self.old.sets) self.old taken.old c) }
        ensures taken { OnOk result (IsTaken files.now (stores (C.sets conds.old) names.old self.old.sets) (stores (C.sets conds.new) names.new self.new.sets)
            self.old self.new taken.old taken.new head cond.0 (option_map (λ shared. seen_definition names.old shared.value) definition.now)) }
        ensures stops { IfErr result (StopsAt (C.sets conds.old) names.old
            (λ c. ((C.sets conds.old).has cond.0 c ≡ true) × IsFunction names.old definition.now) self.old.top.work limit) }

        // at every outcome
        ensures keeps { Keeps (C.sets conds.old) (C.sets conds.new) }
        ensures names { Extends names.old names.new }
        ensures sets { Extends self.old.sets self.new.sets }
    {
        match definition {
            None => {
                taken.stays = conds.apply_or(taken.stays, cond)?;
                Ok(())
            }
            Some(shared) => self.take_defined(
                conds, names, files, cond, shared, head, taken, limit,
            ),
        }
    }

    /// Takes a macro's name: its calls leave the list, or its list replaces it.
    fn take_defined<C: Conditions>(
        &mut self,
        conds: &mut C,
        names: &mut Names,
        files: &Files,
        cond: Cond,
        definition: &Definition,
        head: Hidden,
        taken: &mut Taken,
        limit: usize,
    ) -> Result<(), Stop>
        requires held { IsHeldExpansion (stores (C.sets conds.old) names.old self.old.sets) (length files.now) self.old }
        requires first { slice_get (map (λ item. item.1) self.old.top.work) 0 ≡ Some head }
        requires taken { IsHeldTaken (stores (C.sets conds.old) names.old self.old.sets) (length files.now) taken.old }
        requires cond_own { IsCond (C.sets conds.old) cond.0 }
        requires head { IsHeldToken (stores (C.sets conds.old) names.old self.old.sets) (length files.now) head }
        requires definition { IsHeldDefinition names.old definition.now }
        requires name { expansion.is_looked_up (seen_hidden names.old self.old.sets head) ≡ true }
        requires begun { (c : List ℕ) → IsConfig (C.sets conds.old).arities c → (C.sets conds.old).has cond.0 c ≡ true
            → IsBegun (seen_hidden names.old self.old.sets head) (step_at (stores (C.sets conds.old) names.old self.old.sets) self.old taken.old c) }
        ensures taken { OnOk result (IsTaken files.now (stores (C.sets conds.old) names.old self.old.sets) (stores (C.sets conds.new) names.new self.new.sets)
            self.old self.new taken.old taken.new head cond.0 (Some (seen_definition names.old definition.now))) }
        ensures stops { IfErr result (StopsAt (C.sets conds.old) names.old
            (λ c. ((C.sets conds.old).has cond.0 c ≡ true)
            × IsTrue (is_function_like (seen_definition names.old definition.now).form)) self.old.top.work limit) }

        // at every outcome
        ensures keeps { Keeps (C.sets conds.old) (C.sets conds.new) }
        ensures names { Extends names.old names.new }
        ensures sets { Extends self.old.sets self.new.sets }
    {
        if definition.form.is_function_like() {
            let uncalled = self.gather(conds, names, files, cond, definition, head, limit)?;
            taken.stays = conds.apply_or(taken.stays, uncalled)?;
            return Ok(());
        }
        self.put_object(conds, names, files, cond, definition, head, &mut taken.made)
    }

    /// Adds the list that replaces an object-like macro's name, or refuses it.
    fn put_object<C: Conditions>(
        &mut self,
        conds: &mut C,
        names: &mut Names,
        files: &Files,
        cond: Cond,
        definition: &Definition,
        head: Hidden,
        made: &mut Vec<(Cond, Hidden)>,
    ) -> Result<(), Stop>
        requires held { IsHeldExpansion (stores (C.sets conds.old) names.old self.old.sets) (length files.now) self.old }
        requires made { AreHeld (stores (C.sets conds.old) names.old self.old.sets) (length files.now) made.old.items }
        requires cond_own { IsCond (C.sets conds.old) cond.0 }
        requires head { IsHeldToken (stores (C.sets conds.old) names.old self.old.sets) (length files.now) head }
        requires definition { IsHeldDefinition names.old definition.now }
        requires object { is_function_like (seen_definition names.old definition.now).form ≡ false }
        ensures put { OnOk result (HasPut files.now (stores (C.sets conds.old) names.old self.old.sets) (stores (C.sets conds.new) names.new self.new.sets)
            self.old self.new made.old.items made.new.items head cond.0 (seen_definition names.old definition.now)) }
        ensures stops { IfErr result (λ stop. stop ≡ declared_stop.OutOfMemory) }

        // at every outcome
        ensures keeps { Keeps (C.sets conds.old) (C.sets conds.new) }
        ensures names { Extends names.old names.new }
        ensures sets { Extends self.old.sets self.new.sets }
    {
        match list_for(self.alloc, &mut self.sets, names, files, definition, head) {
            Ok(list) => {
                put_under(made, cond, &list)?;
                Ok(())
            }
            Err(SubstStop::Fault(cause)) => {
                self.refusals.refuse(conds, cond, cause, head.token.place)?;
                Ok(())
            }
            Err(SubstStop::OutOfMemory) => Err(Stop::OutOfMemory),
        }
    }
}

/// The list that replaces an object-like macro's name.
fn list_for(
    alloc: Global,
    sets: &mut HideSets,
    names: &mut Names,
    files: &Files,
    definition: &Definition,
    head: Hidden,
) -> Result<Vec<Hidden>, SubstStop>
    requires definition { IsHeldDefinition names.old definition.now }
    requires object { is_function_like (seen_definition names.old definition.now).form ≡ false }
    requires head { IsHeldHidden names.old sets.old head }
    requires file { head.token.place.file.0 < length files.now }
    ensures ok { IfOk result (λ made. object_result (provenance_of files.now) (seen_definition names.old definition.now) (seen_hidden names.old sets.old head)
        ≡ Ok (map (seen_hidden names.new sets.new) made.items)) }
    ensures own { IfOk result (λ made. All (IsHeldHidden names.new sets.new) made.items) }
    ensures placed { IfOk result (λ made. All (λ h. h.token.place ≡ head.token.place) made.items) }
    ensures err { IfErr result (λ stop. OnFault stop
        (λ cause. object_result (provenance_of files.now) (seen_definition names.old definition.now) (seen_hidden names.old sets.old head)
        ≡ Err (failure_at cause (seen_hidden names.old sets.old head)))) }

    // at every outcome
    ensures names { Extends names.old names.new }
    ensures sets { Extends sets.old sets.new }
{
    let items = items_at(
        alloc,
        names,
        files,
        &definition.replacement,
        head.token.place,
    )?;
    let hide = with_own_name(sets, names, head)?;
    substitute(
        alloc,
        sets,
        names,
        &definition.form,
        &items,
        &[],
        &[],
        &head.token,
        hide,
    )
}

/// The names that a token hides, and its own.
fn with_own_name(sets: &mut HideSets, names: &Names, head: Hidden) -> Result<Hide, OutOfMemory>
    requires { IsHeldHidden names.now sets.old head }
    ensures own { IfOk result (λ made. IsHeldSet names.now sets.new made.0) }
    ensures joins { IfOk result (λ made. hide_at names.now sets.new made.0
        ≡ with_name (hide_at names.now sets.old head.hide.0) (text_of names.now head.token.spelling)) }

    // at every outcome
    ensures sets { Extends sets.old sets.new }
{
    let _ = names;
    sets.with(head.hide, head.token.spelling)
}

/// Adds tokens, all under one condition.
fn put_under(
    made: &mut Vec<(Cond, Hidden)>,
    cond: Cond,
    tokens: &[Hidden],
) -> Result<(), OutOfMemory>
    ensures { OnOk result (made.new.items ≡ made.old.items ++ map (λ t. (cond, t)) tokens.now) }
{
    for token in tokens {
        made.push((cond, *token))?;
    }
    Ok(())
}

/// Whether a token is a name that may be a macro's. A name that the token hides is not.
fn is_looked_up(sets: &HideSets, names: &Names, token: Hidden) -> bool
    requires { IsHeldHidden names.now sets.now token }
    ensures { result ≡ expansion.is_looked_up (seen_hidden names.now sets.now token) }
{
    names.one_to_one();
    matches!(token.token.kind, Kind::Identifier) && !sets.has(token.hide, token.token.spelling)
}
