//! How a call begins: what replaces it but for its arguments, and which of these are wanted.
ghost use Rattle.std.specs.Prelude.{◌≡◌, ◌+◌, ◌<◌, ◌≤◌, ℕ, ◌&&◌, ◌||◌, ◌++◌, ◌∷◌, [], Bool, true, false, List, Result, Ok, Err, Some, All, map, drop, if◌then◌else◌, reverse, length, slice_get, IfOk, IfSome, IfNone, OnOk, take};
ghost use Rattle.c11_macros.specs.Hidden as model;
ghost use Rattle.c11_macros.specs.Hidden.{failure_at, meet, with_name};
ghost use Rattle.c11_macros.specs.Substitution.{argument, list_slots, wanted_of};
ghost use Rattle.sc_base.specs.declared.id.Cond as declared_cond;
ghost use Rattle.sc_base.specs.declared.id.Name as declared_name;
ghost use Rattle.sc_base.specs.declared.place.Place as declared_place;
ghost use Rattle.sc_hoist.specs.Alike.{AreAlike, IsAlike};
ghost use Rattle.sc_expand.specs.Beginning.{Begins, IsRefused, IsTemplateOf, token_at, tokens_of, with_argument};
ghost use Rattle.sc_expand.specs.Having.{HasLast, has_each};
ghost use Rattle.sc_expand.specs.Seen.{IsHeldCall, IsHeldTemplate, IsHeldToken, Stores, seen_at, seen_wanted, stores};
ghost use Rattle.sc_expand.specs.Taking.{has_first};
ghost use Rattle.sc_guarded.specs.Items.{items_at};
ghost use Rattle.sc_macro.specs.Seen.{IsHeldForm, IsHeldItem, seen_definition, seen_form, seen_item, text_of};
ghost use Rattle.sc_model.specs.declared.cause.Cause.TheVariants.{BadStringize};
ghost use Rattle.sc_model.specs.Growth.{Extends};
ghost use Rattle.sc_model.specs.Sets.{Sets, IsCond, IsConfig, Keeps};
ghost use Rattle.sc_subst.specs.declared.hidden.Hidden as declared_hidden;
ghost use Rattle.sc_subst.specs.declared.stop.SubstStop.TheVariants.{Fault};
ghost use Rattle.sc_subst.specs.Parts.{AreHeldArguments, seen_arguments};
ghost use Rattle.sc_subst.specs.Seen.{IsHeldHidden, IsHeldSet, Lasting, hide_at, seen_hidden};

use crate::call::{Call, Template, Wanted};
use crate::work_list::WorkList;
use sc_base::{Cause, Cond, Names, OutOfMemory, Place};
use sc_guarded::Guarded;
use sc_macro::{Form, Item};
use sc_presence::Conditions;
use sc_subst::{Hidden, Hide, HideSets, SubstStop, Tokens, expanded_parameters, template};
use std::alloc::Global;

/// What replaces a call but for the arguments that are expanded alone, or `None` where a `#` of the
/// list fails.
fn template_of(
    alloc: Global,
    sets: &mut HideSets,
    names: &mut Names,
    form: &Form,
    items: &[Item],
    raw: &[Tokens],
    place: Place,
) -> Result<Option<Template>, OutOfMemory>
    requires form { IsHeldForm names.old form.now }
    requires items { All (IsHeldItem names.old) items.now }
    requires raw { AreHeldArguments names.old sets.old raw.now }
    ensures some { IfOk result (λ made. IfSome made (λ template. Lasting names.new sets.new
        (λ names sets. IsTemplateOf names sets (seen_form names form.now) (map (seen_item names) items.now)
        (seen_arguments names sets raw.now) place template))) }
    ensures held { IfOk result (λ made. IfSome made (λ template. (s : Sets) (files : ℕ) → place.file.0 < files
        → All (All (λ h. h.token.place.file.0 < files)) raw.now
        → IsHeldTemplate (stores s names.new sets.new) files template)) }
    ensures none { IfOk result (λ made. IfNone made (Lasting names.new sets.new (λ names sets. (head : model.Hidden declared_place.Place) → head.place ≡ place
        → list_slots head (seen_arguments names sets raw.now) (seen_form names form.now) (map (seen_item names) items.now)
        ≡ Err (failure_at BadStringize head)))) }

    // at every outcome
    ensures names { Extends names.old names.new }
    ensures sets { Extends sets.old sets.new }
{
    match template(alloc, sets, names, form, items, raw, place) {
        Ok(parts) => Ok(Some(Template::Parts(parts))),
        Err(stop) => refused(stop),
    }
}

/// What is left of a call whose list has a `##` that fails, or `None` where a `#` does.
fn refused(stop: SubstStop) -> Result<Option<Template>, OutOfMemory>
    ensures some { IfOk result (λ made. IfSome made (IsRefused stop)) }
    ensures none { IfOk result (λ made. IfNone made (stop ≡ Fault BadStringize)) }
{
    match stop {
        SubstStop::Fault(cause) => {
            if matches!(cause, Cause::BadStringize) {
                return Ok(None);
            }
            Ok(Some(Template::Refused(cause)))
        }
        SubstStop::OutOfMemory => Err(OutOfMemory),
    }
}

/// The names that all tokens of a call's replacement hide: its macro's, and those that both its
/// name and its closing parenthesis hide.
fn hide_of_call(
    sets: &mut HideSets,
    names: &Names,
    head: Hidden,
    close: Hidden,
) -> Result<Hide, OutOfMemory>
    requires head { IsHeldHidden names.now sets.old head }
    requires close { IsHeldHidden names.now sets.old close }
    ensures is { IfOk result (λ made. hide_at names.now sets.new made.0
        ≡ with_name (meet (hide_at names.now sets.old head.hide.0) (hide_at names.now sets.old close.hide.0)) (text_of names.now head.token.spelling)) }
    ensures held { IfOk result (λ made. IsHeldSet names.now sets.new made.0) }

    // at every outcome
    ensures sets { Extends sets.old sets.new }
{
    names.one_to_one();
    let met = sets.meet(head.hide, close.hide)?;
    let hide = sets.with(met, head.token.spelling)?;
    Ok(hide)
}

/// The arguments that a list wants expanded, the first one last.
fn wanted_of_list(
    alloc: Global,
    names: &Names,
    form: &Form,
    items: &[Item],
    raw: &[Tokens],
) -> Result<Vec<Wanted>, OutOfMemory>
    requires form { IsHeldForm names.now form.now }
    requires items { All (IsHeldItem names.now) items.now }
    ensures is { IfOk result (λ made. map tokens_of (reverse made.items)
        ≡ map (with_argument raw.now) (wanted_of (seen_form names.now form.now) (map (seen_item names.now) items.now))) }
    ensures own { IfOk result (λ made. (st : Stores) (files : ℕ) → All (All (IsHeldToken st files)) raw.now
        → All (λ w. All (IsHeldToken st files) w.tokens) made.items) }
{
    let parameters = expanded_parameters(alloc, names, form, items)?;
    let wanted = wanted_arguments(alloc, &parameters, raw)?;
    Ok(wanted)
}

/// The arguments for these parameters, the first one last.
fn wanted_arguments(
    alloc: Global,
    wanted: &[usize],
    raw: &[Tokens],
) -> Result<Vec<Wanted>, OutOfMemory>
    ensures is { IfOk result (λ made. map tokens_of (reverse made.items) ≡ map (with_argument raw.now) wanted.now) }
    ensures own { IfOk result (λ made. (st : Stores) (files : ℕ) → All (All (IsHeldToken st files)) raw.now
        → All (λ w. All (IsHeldToken st files) w.tokens) made.items) }
{
    let mut made = Vec::new(alloc);
    for index in (0..wanted.len()).rev() {
        let parameter = wanted[index];
        let tokens = argument_for(alloc, parameter, raw)?;
        made.push(Wanted { parameter, tokens })?;
    }
    Ok(made)
}

/// The argument for a parameter.
fn argument_for(alloc: Global, parameter: usize, raw: &[Tokens]) -> Result<Tokens, OutOfMemory>
    ensures is { IfOk result (λ made. made ≡ argument raw.now parameter) }
    ensures own { IfOk result (λ made. (st : Stores) (files : ℕ) → All (All (IsHeldToken st files)) raw.now → All (IsHeldToken st files) made) }
{
    if parameter < raw.len() {
        let list = &raw[parameter];
        return list.share(0, list.len());
    }
    Tokens::none(alloc)
}

/// A list without items for each argument.
fn unexpanded(alloc: Global, count: usize) -> Result<Vec<Guarded<Hidden>>, OutOfMemory>
    ensures len { IfOk result (λ made. length made.items ≡ count) }
    ensures empty { IfOk result (λ made. All (λ list. list ≡ []) made.items) }
{
    let mut made = Vec::new(alloc);
    for _index in 0..count {
        made.push(Guarded::new(alloc)?)?;
    }
    Ok(made)
}

/// The tokens at these indexes of a list, which has them under a condition.
pub fn between(
    alloc: Global,
    names: &Names,
    list: &WorkList,
    cond: Cond,
    places: &[usize],
) -> Result<Tokens, OutOfMemory>
    requires places { All (λ place. place < length list.now) places.now }
    requires names { All (λ item. item.1.token.spelling.0 < length names.now) list.now }
    ensures { IfOk result (λ made. (other : declared_cond.Cond × declared_hidden.Hidden) → made ≡ map (token_at list.now other) places.now) }
{
    if let Some(tokens) = list.all_under(cond) {
        if let [first, ..] = places
            && are_consecutive(places, *first)
        {
            list.is_small();
            return tokens.share(*first, *first + places.len());
        }
    }
    let tokens = tokens_at(alloc, list, places)?;
    Tokens::of(alloc, names, tokens)
}

/// Whether these are the indexes from the first on, one after the other.
fn are_consecutive(places: &[usize], first: usize) -> bool
    ensures { result ≡ true → (index place : ℕ) → slice_get places.now index ≡ Some place → place ≡ first + index }
{
    for index in 0..places.len() {
        if places[index] < index || places[index] - index != first {
            return false;
        }
    }
    true
}

/// The tokens at these indexes of a list.
fn tokens_at(alloc: Global, list: &WorkList, places: &[usize]) -> Result<Vec<Hidden>, OutOfMemory>
    requires { All (λ place. place < length list.now) places.now }
    ensures { IfOk result (λ made. (other : declared_cond.Cond × declared_hidden.Hidden) → made.items ≡ map (token_at list.now other) places.now) }
{
    let mut made = Vec::new(alloc);
    for place in places {
        let (_, token) = list.item(*place);
        made.push(token)?;
    }
    Ok(made)
}

/// Takes so many tokens from the first on out of a list, in the configurations of a condition.
pub fn take_out<C: Conditions>(
    conds: &mut C,
    list: &mut WorkList,
    count: usize,
    cond: Cond,
) -> Result<(), OutOfMemory>
    requires count { count ≤ length list.old }
    requires own { All (λ item. IsCond (C.sets conds.old) item.0.0) list.old }
    requires cond_own { IsCond (C.sets conds.old) cond.0 }
    ensures taken { OnOk result ((c : List ℕ) → IsConfig (C.sets conds.old).arities c → items_at (C.sets conds.new) list.new c
        ≡ (if (C.sets conds.old).has cond.0 c then items_at (C.sets conds.old) (drop count list.old) c else items_at (C.sets conds.old) list.old c)) }
    ensures others { OnOk result ((c : List ℕ) → IsConfig (C.sets conds.old).arities c → (C.sets conds.old).has cond.0 c ≡ false
        → has_each (C.sets conds.new) list.new c ≡ has_each (C.sets conds.old) list.old c) }
    ensures first { OnOk result ((c : List ℕ) → IsConfig (C.sets conds.old).arities c → (C.sets conds.old).has cond.0 c ≡ true → 0 < count
        → has_first (C.sets conds.new) list.new c ≡ false) }
    ensures rest { OnOk result ((c : List ℕ) → IsConfig (C.sets conds.old).arities c → HasLast (C.sets conds.old) (C.sets conds.new) list.old list.new c) }
    ensures own { OnOk result (All (λ item. IsCond (C.sets conds.new) item.0.0) list.new) }
    ensures alike { OnOk result ((c d : List ℕ) (first : ℕ) → IsConfig (C.sets conds.old).arities c → IsConfig (C.sets conds.old).arities d
        → IsAlike (C.sets conds.old) c d cond
        → AreAlike (C.sets conds.old) c d (take first list.old) → AreAlike (C.sets conds.new) c d (take first list.new)) }

    // at every outcome
    ensures items { map (λ item. item.1) list.new ≡ map (λ item. item.1) list.old }
    ensures keeps { Keeps (C.sets conds.old) (C.sets conds.new) }
{
    let others = conds.negate(cond)?;
    list.restrict_before(conds, count, others)?;
    Ok(())
}

/// A call with these arguments, none of which is expanded yet, or `None` where a `#` of the list
/// fails.
pub fn begin_call(
    alloc: Global,
    sets: &mut HideSets,
    names: &mut Names,
    cond: Cond,
    form: &Form,
    items: &[Item],
    head: Hidden,
    close: Hidden,
    raw: &[Tokens],
) -> Result<Option<Call>, OutOfMemory>
    requires form { IsHeldForm names.old form.now }
    requires items { All (IsHeldItem names.old) items.now }
    requires head { IsHeldHidden names.old sets.old head }
    requires close { IsHeldHidden names.old sets.old close }
    requires raw { AreHeldArguments names.old sets.old raw.now }
    ensures some { IfOk result (λ made. IfSome made
        (λ call. Begins names.new sets.new (seen_form names.new form.now) (map (seen_item names.new) items.now) cond head close raw.now call)) }
    ensures held { IfOk result (λ made. IfSome made (λ call. (s : Sets) (files : ℕ) → IsCond s cond.0 → IsHeldToken (stores s names.old sets.old) files head
        → All (All (IsHeldToken (stores s names.old sets.old) files)) raw.now → IsHeldCall (stores s names.new sets.new) files call)) }
    ensures none { IfOk result (λ made. IfNone made ((at : model.Hidden declared_place.Place) → at.place ≡ head.token.place
        → list_slots at (seen_arguments names.new sets.new raw.now) (seen_form names.new form.now) (map (seen_item names.new) items.now)
        ≡ Err (failure_at BadStringize at))) }

    // at every outcome
    ensures names { Extends names.old names.new }
    ensures sets { Extends sets.old sets.new }
{
    let hide = hide_of_call(sets, names, head, close)?;
    let made = template_of(alloc, sets, names, form, items, raw, head.token.place)?;
    match made {
        None => Ok(None),
        Some(template) => {
            let wanted = wanted_of_list(alloc, names, form, items, raw)?;
            let expanded = unexpanded(alloc, raw.len())?;
            Ok(Some(Call {
                cond,
                head,
                hide,
                template,
                wanted,
                expanded,
            }))
        }
    }
}
