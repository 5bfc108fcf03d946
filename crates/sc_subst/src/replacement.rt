//! What replaces a macro's name, before the arguments are known as they expand.
ghost use Rattle.std.specs.Prelude.{◌≡◌, List, Ok, Err, All, IfErr, IfOk, map};
ghost use Rattle.c11_macros.specs.Hidden as model;
ghost use Rattle.c11_macros.specs.Hidden.{HideSet, Provenance, failure_at};
ghost use Rattle.c11_macros.specs.Substitution as substitution;
ghost use Rattle.c11_macros.specs.Substitution.{substituted, wanted_of};
ghost use Rattle.sc_base.specs.declared.place.Place as declared;
ghost use Rattle.sc_macro.specs.Seen.{IsHeldForm, IsHeldItem, seen_form, seen_item};
ghost use Rattle.sc_model.specs.declared.cause.Cause.TheVariants.{BadPaste, BadStringize};
ghost use Rattle.sc_model.specs.Growth.{Extends};
ghost use Rattle.sc_subst.specs.Halves.{IsWantedPart, completed};
ghost use Rattle.sc_subst.specs.Parts.{AreHeldArguments, IsHeldPart, seen_arguments, seen_part};
ghost use Rattle.sc_subst.specs.Seen.{IsHeldHidden, IsHeldSet, Lasting, hide_at, seen_hidden};
ghost use Rattle.sc_subst.specs.Stops.{OnFault, OnOperator};

use crate::filling::fill;
use crate::glue::glue;
use crate::slots::slots;
use crate::{Hidden, Hide, HideSets, Part, SubstStop, Tokens};
use sc_base::{Names, Place, Token};
use sc_macro::{Form, Item};
use std::alloc::Global;

/// The template of a list that replaces a macro whose name stands at the place. `raw` has an
/// argument for each parameter, the one for `...` last. Whatever the arguments that are wanted
/// expand to, the template filled with them is the replacement, but for the white space of the
/// first token and the names that all tokens hide. A fault of `#` comes before any argument
/// expands, and a fault of `##` after all have.
pub fn template(
    alloc: Global,
    sets: &mut HideSets,
    names: &mut Names,
    form: &Form,
    items: &[Item],
    raw: &[Tokens],
    place: Place,
) -> Result<Vec<Part>, SubstStop>
    requires form { IsHeldForm names.old form.now }
    requires items { All (IsHeldItem names.old) items.now }
    requires raw { AreHeldArguments names.old sets.old raw.now }
    ensures ok { IfOk result (λ parts. Lasting names.new sets.new (λ names sets. (head : model.Hidden declared.Place) (expanded : List (List (model.Hidden declared.Place)))
        (provenance : Provenance declared.Place) (hidden : HideSet) → head.place ≡ place
        → substituted provenance (seen_form names form.now) (map (seen_item names) items.now) head (seen_arguments names sets raw.now) expanded hidden
        ≡ completed provenance head hidden expanded (Ok (map (seen_part names sets) parts.items)))) }
    ensures wanted { IfOk result (λ parts. All (IsWantedPart (wanted_of (seen_form names.new form.now) (map (seen_item names.new) items.now))) parts.items) }
    ensures own { IfOk result (λ parts. All (IsHeldPart names.new sets.new) parts.items) }
    ensures err { IfErr result (λ stop. OnFault stop (λ cause. Lasting names.new sets.new (λ names sets. (head : model.Hidden declared.Place) → head.place ≡ place → OnOperator cause
        (substitution.list_slots head (seen_arguments names sets raw.now) (seen_form names form.now) (map (seen_item names) items.now) ≡ Err (failure_at BadStringize head))
        ((expanded : List (List (model.Hidden declared.Place))) (provenance : Provenance declared.Place) (hidden : HideSet)
        → substituted provenance (seen_form names form.now) (map (seen_item names) items.now) head (seen_arguments names sets raw.now) expanded hidden ≡ Err (failure_at BadPaste head))))) }

    // at every outcome
    ensures names { Extends names.old names.new }
    ensures sets { Extends sets.old sets.new }
{
    match slots(alloc, sets, names, form, items, raw, place) {
        Ok(slots) => glue(alloc, sets, names, &slots, raw),
        Err(stop) => Err(stop),
    }
}

/// What replaces a macro's name: its list, with the arguments as they are and as they expand. `raw`
/// and `expanded` have a list for each parameter, the one for `...` last.
pub fn substitute(
    alloc: Global,
    sets: &mut HideSets,
    names: &mut Names,
    form: &Form,
    items: &[Item],
    raw: &[Tokens],
    expanded: &[Tokens],
    head: &Token,
    hide: Hide,
) -> Result<Vec<Hidden>, SubstStop>
    requires form { IsHeldForm names.old form.now }
    requires items { All (IsHeldItem names.old) items.now }
    requires raw { AreHeldArguments names.old sets.old raw.now }
    requires expanded { AreHeldArguments names.old sets.old expanded.now }
    requires hide { IsHeldSet names.old sets.old hide.0 }
    ensures ok { IfOk result (λ made. Lasting names.new sets.new (λ names sets. (at : model.Hidden declared.Place) (provenance : Provenance declared.Place)
        → at.place ≡ head.now.place → at.space ≡ head.now.space → ((p : declared.Place) → provenance.mark p ≡ p)
        → substituted provenance (seen_form names form.now) (map (seen_item names) items.now) at (seen_arguments names sets raw.now)
        (seen_arguments names sets expanded.now) (hide_at names sets hide.0)
        ≡ Ok (map (seen_hidden names sets) made.items))) }
    ensures own { IfOk result (λ made. All (IsHeldHidden names.new sets.new) made.items) }
    ensures err { IfErr result (λ stop. OnFault stop (λ cause. Lasting names.new sets.new (λ names sets. (at : model.Hidden declared.Place) (provenance : Provenance declared.Place)
        → at.place ≡ head.now.place
        → substituted provenance (seen_form names form.now) (map (seen_item names) items.now) at (seen_arguments names sets raw.now)
        (seen_arguments names sets expanded.now) (hide_at names sets hide.0)
        ≡ Err (failure_at cause at)))) }

    // at every outcome
    ensures names { Extends names.old names.new }
    ensures sets { Extends sets.old sets.new }
{
    match template(alloc, sets, names, form, items, raw, head.place) {
        Ok(parts) => {
            let made = fill(alloc, sets, names, &parts, expanded, head.space, hide)?;
            Ok(made)
        }
        Err(stop) => Err(stop),
    }
}
