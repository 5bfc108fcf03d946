//! The list that replaces a macro's name where it stands (C11 6.10.8.1).
ghost use Rattle.std.specs.Prelude.{◌≡◌, ℕ, ◌<◌, ◌++◌, ◌∷◌, [], All, IfOk, length, map};
ghost use Rattle.std.specs.Cow.{cow_slice_items};
ghost use Rattle.c11_macros.specs.Macros.{escaped, list_at, one_item};
ghost use Rattle.sc_base.specs.Seen.{seen_place};
ghost use Rattle.sc_macro.specs.Seen.{IsHeldItem, IsHeldReplacement, seen_item, seen_replacement};
ghost use Rattle.sc_model.specs.Growth.{Extends};

use crate::literal::push_escaped;
use itoa::Buffer;
use sc_base::{Files, Kind, Names, OutOfMemory, Place};
use sc_lex::token;
use sc_macro::{Item, Replacement};
use std::alloc::{AllocError, Global};
use std::borrow::CowSlice;

/// The list of a macro whose name stands at the place: that of the definition, as it is there, or
/// the name of the file or the number of the line (C11 6.10.8.1).
pub fn items_at<'a>(
    alloc: Global,
    names: &mut Names,
    files: &Files,
    replacement: &'a Replacement,
    place: Place,
) -> Result<CowSlice<'a, Item>, OutOfMemory>
    requires replacement { IsHeldReplacement names.old replacement.now }
    requires file { place.file.0 < length files.now }
    ensures is { IfOk result (λ list. map (seen_item names.new) (cow_slice_items list) ≡ list_at (seen_replacement names.new replacement.now) (seen_place files.now place)) }
    ensures own { IfOk result (λ list. All (IsHeldItem names.new) (cow_slice_items list)) }

    // at every outcome
    ensures names { Extends names.old names.new }
{
    match replacement {
        Replacement::Items(list) => Ok(CowSlice::Borrowed(list.as_slice())),
        Replacement::FileName => {
            let spelling = quoted_name(alloc, files.text(place.file).as_bytes())?;
            let list = list_of_one(alloc, names, Kind::Text, &spelling, place)?;
            Ok(CowSlice::Owned(list))
        }
        Replacement::LineNumber => {
            let mut buffer = Buffer::new();
            let spelling = buffer.format(place.line).as_bytes();
            let list = list_of_one(alloc, names, Kind::Number, spelling, place)?;
            Ok(CowSlice::Owned(list))
        }
    }
}

/// The spelling of a string literal of the text.
fn quoted_name(alloc: Global, text: &[u8]) -> Result<Vec<u8>, AllocError>
    ensures { IfOk result (λ spelling. spelling.items ≡ 34 ∷ escaped text.now ++ 34 ∷ []) }
{
    let mut spelling = vec![in alloc; b'"']?;
    push_escaped(&mut spelling, text)?;
    spelling.push(b'"')?;
    Ok(spelling)
}

fn list_of_one(
    alloc: Global,
    names: &mut Names,
    kind: Kind,
    spelling: &[u8],
    place: Place,
) -> Result<Vec<Item>, OutOfMemory>
    ensures is { IfOk result (λ list. map (seen_item names.new) list.items ≡ one_item kind spelling.now) }
    ensures own { IfOk result (λ list. All (IsHeldItem names.new) list.items) }

    // at every outcome
    ensures names { Extends names.old names.new }
{
    let token = token(names, kind, spelling, false, place)?;
    let mut list = Vec::new(alloc);
    list.push(Item {
        kind,
        name: token.name,
        spelling: token.spelling,
        space: false,
    })?;
    Ok(list)
}
