ghost use Rattle.std.specs.Prelude.{◌≡◌, ℕ, ◌↔◌, IsTrue, List};
ghost use Rattle.sc_model.specs.Growth.{IsOneToOne};
ghost use Rattle.sc_macro.specs.Seen.{IsHeldDefinition, IsHeldForm, IsHeldReplacement, seen_definition, seen_form, seen_replacement};

use crate::{Definition, Form, Item, Replacement, Rest};
use sc_base::Name;

/// Whether two definitions are the same: of one form, with the same parameters, spellings and white
/// space (C11 6.10.3p1, p2).
pub fn same_definition(a: &Definition, b: &Definition) -> bool
    ensures { (names : List (List ℕ)) → IsOneToOne names → IsHeldDefinition names a.now → IsHeldDefinition names b.now
        → (IsTrue result ↔ (seen_definition names a.now ≡ seen_definition names b.now)) }
{
    same_form(&a.form, &b.form) && same_replacement(&a.replacement, &b.replacement)
}

fn same_form(a: &Form, b: &Form) -> bool
    ensures { (names : List (List ℕ)) → IsOneToOne names → IsHeldForm names a.now → IsHeldForm names b.now
        → (IsTrue result ↔ (seen_form names a.now ≡ seen_form names b.now)) }
{
    match (a, b) {
        (Form::Object, Form::Object) => true,
        (
            Form::Function {
                parameters: a,
                rest: x,
            },
            Form::Function {
                parameters: b,
                rest: y,
            },
        ) => same_names(a.as_slice(), b.as_slice()) && same_rest(x, y),
        _ => false,
    }
}

fn same_names(a: &[Name], b: &[Name]) -> bool
    ensures { IsTrue result ↔ (a.now ≡ b.now) }
{
    a == b
}

fn same_rest(a: &Option<Rest>, b: &Option<Rest>) -> bool
    ensures { IsTrue result ↔ (a.now ≡ b.now) }
{
    a == b
}

fn same_replacement(a: &Replacement, b: &Replacement) -> bool
    ensures { (names : List (List ℕ)) → IsOneToOne names → IsHeldReplacement names a.now → IsHeldReplacement names b.now
        → (IsTrue result ↔ (seen_replacement names a.now ≡ seen_replacement names b.now)) }
{
    match (a, b) {
        (Replacement::Items(a), Replacement::Items(b)) => same_items(a, b),
        (Replacement::FileName, Replacement::FileName) => true,
        (Replacement::LineNumber, Replacement::LineNumber) => true,
        _ => false,
    }
}

fn same_items(a: &[Item], b: &[Item]) -> bool
    ensures { IsTrue result ↔ (a.now ≡ b.now) }
{
    a == b
}
