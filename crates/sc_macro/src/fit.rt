ghost use Rattle.std.specs.Prelude.{◌≡◌, ℕ, All, List, codes, map};
ghost use Rattle.std.specs.List.{list_any};
ghost use Rattle.sc_model.specs.Bytes.{same_bytes};
ghost use Rattle.c11_macros.specs.Defines as model;
ghost use Rattle.c11_macros.specs.Substitution as substitution;
ghost use Rattle.c11_macros.specs.Substitution.{is_named};
ghost use Rattle.sc_macro.specs.Seen.{IsHeldForm, IsHeldItem, seen_form, seen_item};

use crate::{Form, Item};
use sc_base::Names;

/// Whether the list may replace a macro of this form.
pub fn fits(names: &Names, form: &Form, list: &[Item]) -> bool
    requires form { IsHeldForm names.now form.now }
    requires list { All (IsHeldItem names.now) list.now }
    ensures { result ≡ model.fits (seen_form names.now form.now) (map (seen_item names.now) list.now) }
{
    !begins_with_paste(names, list)
        && !ends_with_paste(names, list)
        && (!form.is_function_like() || hashes_fit(names, form, list))
        && (names_variable_arguments(form) || !has_variable_arguments(names, list))
}

fn begins_with_paste(names: &Names, list: &[Item]) -> bool
    requires { All (IsHeldItem names.now) list.now }
    ensures { result ≡ model.begins_with_paste (map (seen_item names.now) list.now) }
{
    match list {
        [] => false,
        [first, ..] => first.is_paste(names),
    }
}

fn ends_with_paste(names: &Names, list: &[Item]) -> bool
    requires { All (IsHeldItem names.now) list.now }
    ensures { result ≡ model.ends_with_paste (map (seen_item names.now) list.now) }
{
    match list {
        [] => false,
        [.., last] => last.is_paste(names),
    }
}

/// Whether a parameter follows each `#`.
fn hashes_fit(names: &Names, form: &Form, list: &[Item]) -> bool
    requires form { IsHeldForm names.now form.now }
    requires list { All (IsHeldItem names.now) list.now }
    ensures { result ≡ model.hashes_fit (seen_form names.now form.now) (map (seen_item names.now) list.now) }
{
    for (i, item) in list.iter().enumerate() {
        if item.is_hash(names) && !begins_with_parameter(names, form, &list[i + 1..]) {
            return false;
        }
    }
    true
}

pub fn begins_with_parameter(names: &Names, form: &Form, list: &[Item]) -> bool
    requires form { IsHeldForm names.now form.now }
    requires list { All (IsHeldItem names.now) list.now }
    ensures { result ≡ substitution.begins_with_parameter (seen_form names.now form.now) (map (seen_item names.now) list.now) }
{
    match list {
        [] => false,
        [first, ..] => form.parameter(names, first.spelling).is_some(),
    }
}

/// Whether the macro has a rest that is named `__VA_ARGS__`.
fn names_variable_arguments(form: &Form) -> bool
    ensures { (names : List (List ℕ)) → IsHeldForm names form.now → result ≡ is_named (codes "__VA_ARGS__") (model.rest_of (seen_form names form.now)) }
{
    match form.rest() {
        Some(rest) => rest.name.is_none(),
        None => false,
    }
}

fn has_variable_arguments(names: &Names, list: &[Item]) -> bool
    requires { All (IsHeldItem names.now) list.now }
    ensures { result ≡ list_any (λ i. same_bytes i.spelling (codes "__VA_ARGS__")) (map (seen_item names.now) list.now) }
{
    for item in list {
        if item.is_variable_arguments(names) {
            return true;
        }
    }
    false
}
