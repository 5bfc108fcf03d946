//! The list of a macro, with a string literal in the place of each `#` with its parameter.
ghost use Rattle.std.specs.Prelude.{◌≡◌, ℕ, List, Ok, Err, All, IfErr, IfOk, map};
ghost use Rattle.c11_macros.specs.Hidden as model;
ghost use Rattle.c11_macros.specs.Hidden.{failure_at};
ghost use Rattle.c11_macros.specs.Substitution as substitution;
ghost use Rattle.c11_macros.specs.Substitution.{kept, list_slots, listed, slot_of, slots};
ghost use Rattle.sc_base.specs.declared.place.Place as declared;
ghost use Rattle.sc_macro.specs.Seen.{IsHeldForm, IsHeldItem, seen_form, seen_item};
ghost use Rattle.sc_model.specs.Growth.{Extends};
ghost use Rattle.sc_subst.specs.ListParts.{IsHeldListPart, seen_list_part};
ghost use Rattle.sc_subst.specs.Parts.{AreHeldArguments, IsHeldSlot, seen_arguments, seen_slot};
ghost use Rattle.sc_subst.specs.Seen.{IsHeldHidden, Lasting, seen_hidden};
ghost use Rattle.sc_subst.specs.Stops.{OnFault};

use crate::parts::{ListPart, parts};
use crate::{Hidden, HideSets, SubstStop, Tokens, stringize};
use sc_base::{Names, Place, Token};
use sc_macro::{Form, Item};
use std::alloc::Global;

/// What stands in a list: a token, a parameter that is still to be replaced, or a `##`.
#[derive(Clone, Copy, Debug, PartialEq, Eq)]
pub enum Slot {
    Token(Hidden),
    Parameter { parameter: usize, space: bool },
    Paste,
}

/// The argument of a parameter.
pub fn argument(arguments: &[Tokens], parameter: usize) -> &[Hidden]
    ensures { result.now ≡ substitution.argument arguments.now parameter }
{
    match arguments.get(parameter) {
        Some(argument) => argument.as_slice(),
        None => &[],
    }
}

/// The slots of a list that replaces a macro whose name stands at the place.
pub fn slots(
    alloc: Global,
    sets: &HideSets,
    names: &mut Names,
    form: &Form,
    items: &[Item],
    raw: &[Tokens],
    place: Place,
) -> Result<Vec<Slot>, SubstStop>
    requires form { IsHeldForm names.old form.now }
    requires items { All (IsHeldItem names.old) items.now }
    requires raw { AreHeldArguments names.old sets.now raw.now }
    ensures ok { IfOk result (λ made. Lasting names.new sets.now (λ names sets. (head : model.Hidden declared.Place) → head.place ≡ place
        → list_slots head (seen_arguments names sets raw.now) (seen_form names form.now) (map (seen_item names) items.now) ≡ Ok (map (seen_slot names sets) made.items))) }
    ensures own { IfOk result (λ made. All (IsHeldSlot names.new sets.now) made.items) }
    ensures err { IfErr result (λ stop. OnFault stop (λ cause. Lasting names.new sets.now (λ names sets. (head : model.Hidden declared.Place) → head.place ≡ place
        → list_slots head (seen_arguments names sets raw.now) (seen_form names form.now) (map (seen_item names) items.now) ≡ Err (failure_at cause head)))) }

    // at every outcome
    ensures names { Extends names.old names.new }
{
    let parts = parts(alloc, names, form, items)?;
    slots_from(alloc, sets, names, &parts, raw, place)
}

fn slots_from(
    alloc: Global,
    sets: &HideSets,
    names: &mut Names,
    parts: &[ListPart],
    raw: &[Tokens],
    place: Place,
) -> Result<Vec<Slot>, SubstStop>
    requires parts { All (IsHeldListPart names.old) parts.now }
    requires raw { AreHeldArguments names.old sets.now raw.now }
    ensures ok { IfOk result (λ made. Lasting names.new sets.now (λ names sets. (head : model.Hidden declared.Place) → head.place ≡ place
        → slots head (seen_arguments names sets raw.now) (kept (seen_arguments names sets raw.now) (map (seen_list_part names) parts.now)) ≡ Ok (map (seen_slot names sets) made.items))) }
    ensures own { IfOk result (λ made. All (IsHeldSlot names.new sets.now) made.items) }
    ensures err { IfErr result (λ stop. OnFault stop (λ cause. Lasting names.new sets.now (λ names sets. (head : model.Hidden declared.Place) → head.place ≡ place
        → slots head (seen_arguments names sets raw.now) (kept (seen_arguments names sets raw.now) (map (seen_list_part names) parts.now)) ≡ Err (failure_at cause head)))) }

    // at every outcome
    ensures names { Extends names.old names.new }
{
    let mut made = Vec::new(alloc);
    for part in parts {
        if part.is_deleted(raw) {
            continue;
        }
        match slot_from(alloc, sets, names, part, raw, place) {
            Ok(slot) => made.push(slot)?,
            Err(stop) => return Err(stop),
        }
    }
    Ok(made)
}

fn slot_from(
    alloc: Global,
    sets: &HideSets,
    names: &mut Names,
    part: &ListPart,
    raw: &[Tokens],
    place: Place,
) -> Result<Slot, SubstStop>
    requires part { IsHeldListPart names.old part.now }
    requires raw { AreHeldArguments names.old sets.now raw.now }
    ensures ok { IfOk result (λ slot. Lasting names.new sets.now (λ names sets. (head : model.Hidden declared.Place) → head.place ≡ place
        → slot_of head (seen_arguments names sets raw.now) (seen_list_part names part.now) ≡ Ok (seen_slot names sets slot))) }
    ensures own { IfOk result (IsHeldSlot names.new sets.now) }
    ensures err { IfErr result (λ stop. OnFault stop (λ cause. Lasting names.new sets.now (λ names sets. (head : model.Hidden declared.Place) → head.place ≡ place
        → slot_of head (seen_arguments names sets raw.now) (seen_list_part names part.now) ≡ Err (failure_at cause head)))) }

    // at every outcome
    ensures names { Extends names.old names.new }
{
    match *part {
        ListPart::Token(item) => Ok(Slot::Token(own_token(sets, &item, place))),
        ListPart::Comma { item, .. } => Ok(Slot::Token(own_token(sets, &item, place))),
        ListPart::Parameter { parameter, space } => Ok(Slot::Parameter { parameter, space }),
        ListPart::Paste => Ok(Slot::Paste),
        ListPart::Literal { parameter, hash } => {
            match stringize(alloc, sets, names, argument(raw, parameter), &hash, place) {
                Ok(literal) => Ok(Slot::Token(literal)),
                Err(stop) => Err(stop),
            }
        }
    }
}

/// A token of the list itself, which stands where the macro's name does.
fn own_token(sets: &HideSets, item: &Item, place: Place) -> Hidden
    ensures is { (names : List (List ℕ)) → Lasting names sets.now (λ names sets. (head : model.Hidden declared.Place) → head.place ≡ place
        → seen_hidden names sets result ≡ listed head (seen_item names item.now)) }
    ensures own { (names : List (List ℕ)) → IsHeldItem names item.now → IsHeldHidden names sets.now result }
{
    Hidden {
        token: Token {
            kind: item.kind,
            name: item.name,
            spelling: item.spelling,
            space: item.space,
            place,
        },
        hide: sets.empty(),
    }
}
