//! The parts of a macro's list (C11 6.10.3.1 to 6.10.3.3), and which arguments it wants expanded.
ghost use Rattle.std.specs.Prelude.{◌≡◌, ℕ, ◌&&◌, ◌||◌, ◌++◌, ◌∷◌, false, List, Some, None, All, IfOk, OnOk, codes, if◌then◌else◌, map, not, option_to_list};
ghost use Rattle.std.specs.Option.{option_map};
ghost use Rattle.sc_base.specs.declared.id.Name as Name;
ghost use Rattle.sc_model.specs.Bytes.{same_bytes};
ghost use Rattle.sc_subst.specs.Parts.{seen_arguments};
ghost use Rattle.c11_macros.specs.Substitution as substitution;
ghost use Rattle.c11_macros.specs.Substitution.{begins_with_parameter, each_once, is_after_paste, is_hash, is_paste, is_paste_next, wanted_of, wanted_places};
ghost use Rattle.sc_macro.specs.Seen.{IsHeldForm, IsHeldItem, seen_form, seen_item};
ghost use Rattle.sc_subst.specs.ListParts.{IsHeldListPart, is_paste_part, place_of, seen_before, seen_joint, seen_list_part, with_one_more};

use crate::Tokens;
use crate::slots::argument;
use sc_base::{Names, OutOfMemory, is_same};
use sc_macro::{Form, Item};
use std::alloc::{AllocError, Global};

/// What stands in a list: a token of its own, a `#` with its parameter, a parameter, or a `##` that
/// joins its neighbours; a comma that is deleted where an argument is empty.
#[derive(Clone, Copy, Debug, PartialEq, Eq)]
pub enum ListPart {
    Token(Item),
    Literal { parameter: usize, hash: Item },
    Parameter { parameter: usize, space: bool },
    Paste,
    Comma { item: Item, parameter: usize },
}

/// What stands before an item: neither operator, a `##`, or a `#` that makes a literal of it.
#[derive(Clone, Copy, Debug, PartialEq, Eq)]
pub enum Before {
    Neither,
    Paste,
    Hash(Item),
}

/// The parts of a macro's list.
pub fn parts(
    alloc: Global,
    names: &Names,
    form: &Form,
    items: &[Item],
) -> Result<Vec<ListPart>, AllocError>
    requires form { IsHeldForm names.now form.now }
    requires items { All (IsHeldItem names.now) items.now }
    ensures is { IfOk result (λ made. map (seen_list_part names.now) made.items
        ≡ substitution.parts_of (seen_form names.now form.now) (map (seen_item names.now) items.now)) }
    ensures own { IfOk result (λ made. All (IsHeldListPart names.now) made.items) }
{
    let parts = operands(alloc, names, form, items)?;
    match form.deleting_rest() {
        Some(rest) => with_commas(alloc, names, rest, &parts),
        None => Ok(parts),
    }
}

/// What stands before a part: a `##`, a comma that may be deleted, or neither.
#[derive(Clone, Copy, Debug, PartialEq, Eq)]
pub enum Joint {
    Apart,
    Paste,
    Comma,
}

/// The parts, where a comma before `##` and the rest may be deleted, and that `##` pastes nothing.
fn with_commas(
    alloc: Global,
    names: &Names,
    rest: usize,
    parts: &[ListPart],
) -> Result<Vec<ListPart>, AllocError>
    requires { All (IsHeldListPart names.now) parts.now }
    ensures is { IfOk result (λ made. map (seen_list_part names.now) made.items
        ≡ substitution.with_commas (Some rest) substitution.apart (map (seen_list_part names.now) parts.now)) }
    ensures own { IfOk result (λ made. All (IsHeldListPart names.now) made.items) }
{
    let mut made = Vec::new(alloc);
    let mut before = Joint::Apart;
    for (i, part) in parts.iter().enumerate() {
        let turn = next_joint(names, rest, before, part, &parts[i + 1..]);
        before = turn.before;
        push(&mut made, turn.made)?;
    }
    Ok(made)
}

/// The part that is made of one, if any is, and what stands before the next.
#[derive(Clone, Copy)]
struct JointTurn {
    made: Option<ListPart>,
    before: Joint,
}

fn next_joint(
    names: &Names,
    rest: usize,
    before: Joint,
    part: &ListPart,
    behind: &[ListPart],
) -> JointTurn
    requires { IsHeldListPart names.now part.now }
    ensures is { substitution.with_commas (Some rest) (seen_joint before) (map (seen_list_part names.now) (part.now ∷ behind.now))
        ≡ map (seen_list_part names.now) (option_to_list result.made)
        ++ substitution.with_commas (Some rest) (seen_joint result.before) (map (seen_list_part names.now) behind.now) }
    ensures own { All (IsHeldListPart names.now) (option_to_list result.made) }
{
    if matches!(before, Joint::Comma) {
        return JointTurn {
            made: None,
            before: Joint::Apart,
        };
    }
    if let Some(comma) = comma(names, rest, before, part, behind) {
        return JointTurn {
            made: Some(comma),
            before: Joint::Comma,
        };
    }
    JointTurn {
        made: Some(*part),
        before: part.joint(names),
    }
}

/// The comma that a part is, where it may be deleted.
fn comma(
    names: &Names,
    rest: usize,
    before: Joint,
    part: &ListPart,
    behind: &[ListPart],
) -> Option<ListPart>
    requires { IsHeldListPart names.now part.now }
    ensures is { option_map (seen_list_part names.now) result
        ≡ substitution.comma_of (Some rest) (seen_joint before) (seen_list_part names.now part.now) (map (seen_list_part names.now) behind.now) }
    ensures own { All (IsHeldListPart names.now) (option_to_list result) }
{
    match (before, part) {
        (Joint::Apart, ListPart::Token(item))
            if is_comma(names, item) && is_rest_next(rest, behind) => {
            Some(ListPart::Comma {
                item: *item,
                parameter: rest,
            })
        }
        _ => None,
    }
}

/// Whether `##` and the rest come next, and then no `##`.
fn is_rest_next(rest: usize, parts: &[ListPart]) -> bool
    ensures { (names : List (List ℕ)) → result ≡ substitution.is_rest_next rest (map (seen_list_part names) parts.now) }
{
    match parts {
        [first, second, behind @ ..] => is_pasted_rest(rest, first, second, behind),
        _ => false,
    }
}

/// The same of a list with two parts at least.
fn is_pasted_rest(rest: usize, first: &ListPart, second: &ListPart, behind: &[ListPart]) -> bool
    ensures { (names : List (List ℕ)) → result ≡ substitution.is_rest_next rest (map (seen_list_part names) (first.now ∷ second.now ∷ behind.now)) }
{
    match (first, second) {
        (ListPart::Paste, ListPart::Parameter { parameter, .. }) => {
            rest == *parameter && !begins_paste(behind)
        }
        _ => false,
    }
}

fn is_comma(names: &Names, item: &Item) -> bool
    requires { IsHeldItem names.now item.now }
    ensures { result ≡ same_bytes (seen_item names.now item.now).spelling (codes ",") }
{
    is_same(names.text(item.spelling), b",")
}

fn begins_paste(parts: &[ListPart]) -> bool
    ensures { (names : List (List ℕ)) → result ≡ is_paste_next (map (seen_list_part names) parts.now) }
{
    matches!(parts, [ListPart::Paste, ..])
}

/// Operands and operators, as they stand in a list.
fn operands(
    alloc: Global,
    names: &Names,
    form: &Form,
    items: &[Item],
) -> Result<Vec<ListPart>, AllocError>
    requires form { IsHeldForm names.now form.now }
    requires items { All (IsHeldItem names.now) items.now }
    ensures is { IfOk result (λ made. map (seen_list_part names.now) made.items
        ≡ substitution.parts (seen_form names.now form.now) substitution.neither (map (seen_item names.now) items.now)) }
    ensures own { IfOk result (λ made. All (IsHeldListPart names.now) made.items) }
{
    let mut made = Vec::new(alloc);
    let mut before = Before::Neither;
    for (i, item) in items.iter().enumerate() {
        let rest = &items[i + 1..];
        let turn = next(names, form, before, item, rest);
        before = turn.before;
        push(&mut made, turn.made)?;
    }
    Ok(made)
}

fn push(made: &mut Vec<ListPart>, part: Option<ListPart>) -> Result<(), AllocError>
    ensures is { OnOk result ((names : List (List ℕ)) → map (seen_list_part names) made.new.items ≡ map (seen_list_part names) made.old.items ++ map (seen_list_part names) (option_to_list part)) }
    ensures own { OnOk result ((names : List (List ℕ)) → All (IsHeldListPart names) made.old.items → All (IsHeldListPart names) (option_to_list part) → All (IsHeldListPart names) made.new.items) }
{
    if let Some(part) = part {
        made.push(part)?;
    }
    Ok(())
}

/// The part that an item is, if it is one by itself, and what stands before the next item.
#[derive(Clone, Copy)]
struct Turn {
    made: Option<ListPart>,
    before: Before,
}

fn next(names: &Names, form: &Form, before: Before, item: &Item, rest: &[Item]) -> Turn
    requires form { IsHeldForm names.now form.now }
    requires item { IsHeldItem names.now item.now }
    requires rest { All (IsHeldItem names.now) rest.now }
    ensures is { substitution.parts (seen_form names.now form.now) (seen_before before) (map (seen_item names.now) (item.now ∷ rest.now))
        ≡ map (seen_list_part names.now) (option_to_list result.made) ++ substitution.parts (seen_form names.now form.now) (seen_before result.before) (map (seen_item names.now) rest.now) }
    ensures own { All (IsHeldListPart names.now) (option_to_list result.made) }
{
    if pastes(names, item, before) {
        return Turn {
            made: Some(ListPart::Paste),
            before: Before::Paste,
        };
    }
    if stringizes(names, form, item, rest) {
        return Turn {
            made: None,
            before: Before::Hash(*item),
        };
    }
    Turn {
        made: Some(operand(names, form, before, item)),
        before: Before::Neither,
    }
}

/// Whether the item is a `##` that joins its neighbours.
fn pastes(names: &Names, item: &Item, before: Before) -> bool
    requires { IsHeldItem names.now item.now }
    ensures { result ≡ (is_paste (seen_item names.now item.now) && not (is_after_paste (seen_before before))) }
{
    item.is_paste(names) && !matches!(before, Before::Paste)
}

/// Whether the item is a `#` with its parameter.
fn stringizes(names: &Names, form: &Form, item: &Item, rest: &[Item]) -> bool
    requires form { IsHeldForm names.now form.now }
    requires item { IsHeldItem names.now item.now }
    requires rest { All (IsHeldItem names.now) rest.now }
    ensures { result ≡ (is_hash (seen_item names.now item.now) && begins_with_parameter (seen_form names.now form.now) (map (seen_item names.now) rest.now)) }
{
    item.is_hash(names) && begins_with_parameter(names, form, rest)
}

fn begins_with_parameter(names: &Names, form: &Form, list: &[Item]) -> bool
    requires form { IsHeldForm names.now form.now }
    requires list { All (IsHeldItem names.now) list.now }
    ensures { result ≡ begins_with_parameter (seen_form names.now form.now) (map (seen_item names.now) list.now) }
{
    match list {
        [] => false,
        [first, ..] => form.parameter(names, first.spelling).is_some(),
    }
}

/// The part that an item is which is no operator.
fn operand(names: &Names, form: &Form, before: Before, item: &Item) -> ListPart
    requires form { IsHeldForm names.now form.now }
    requires item { IsHeldItem names.now item.now }
    ensures is { seen_list_part names.now result
        ≡ substitution.operand_part (seen_before before) (seen_item names.now item.now) (substitution.parameter_of (seen_form names.now form.now) (seen_item names.now item.now).spelling) }
    ensures own { IsHeldListPart names.now result }
{
    match (form.parameter(names, item.spelling), before) {
        (None, _) => ListPart::Token(*item),
        (Some(parameter), Before::Hash(hash)) => ListPart::Literal { parameter, hash },
        (Some(parameter), _) => ListPart::Parameter {
            parameter,
            space: item.space,
        },
    }
}

/// The parameters whose arguments are to be expanded: those with a place that is neither behind `#`
/// nor beside `##`, each once, in the order of the first such place. No other argument is looked at
/// as it expands.
pub fn expanded_parameters(
    alloc: Global,
    names: &Names,
    form: &Form,
    items: &[Item],
) -> Result<Vec<usize>, OutOfMemory>
    requires form { IsHeldForm names.now form.now }
    requires items { All (IsHeldItem names.now) items.now }
    ensures { IfOk result (λ wanted. wanted.items ≡ wanted_of (seen_form names.now form.now) (map (seen_item names.now) items.now)) }
{
    let parts = parts(alloc, names, form, items)?;
    let wanted = wanted_in(alloc, &parts)?;
    Ok(wanted)
}

fn wanted_in(alloc: Global, parts: &[ListPart]) -> Result<Vec<usize>, AllocError>
    ensures { IfOk result (λ wanted. (names : List (List ℕ)) → wanted.items ≡ each_once (wanted_places false (map (seen_list_part names) parts.now))) }
{
    let mut wanted = Vec::new(alloc);
    let mut behind = false;
    for (i, part) in parts.iter().enumerate() {
        let rest = &parts[i + 1..];
        let found = wants(behind, part, rest);
        add(&mut wanted, found)?;
        behind = part.is_paste();
    }
    Ok(wanted)
}

/// The parameter, where it has a place here that is neither behind `#` nor beside `##`.
fn wants(behind: bool, part: &ListPart, rest: &[ListPart]) -> Option<usize>
    ensures { (names : List (List ℕ)) → result ≡ place_of behind (seen_list_part names part.now) (map (seen_list_part names) rest.now) }
{
    let beside = is_beside(behind, rest);
    match *part {
        ListPart::Parameter { parameter, .. } if !beside => Some(parameter),
        _ => None,
    }
}

/// Whether a `##` stands before or behind.
fn is_beside(behind: bool, rest: &[ListPart]) -> bool
    ensures { (names : List (List ℕ)) → result ≡ (behind || is_paste_next (map (seen_list_part names) rest.now)) }
{
    behind || begins_paste(rest)
}

fn add(wanted: &mut Vec<usize>, parameter: Option<usize>) -> Result<(), AllocError>
    ensures { OnOk result (wanted.new.items ≡ with_one_more wanted.old.items parameter) }
{
    if let Some(parameter) = parameter {
        if !wanted.contains(&parameter) {
            wanted.push(parameter)?;
        }
    }
    Ok(())
}

impl ListPart {
    fn is_paste(&self) -> bool
        ensures { result ≡ is_paste_part self.now }
    {
        matches!(self, ListPart::Paste)
    }

    /// What the part is to the one behind it.
    fn joint(&self, names: &Names) -> Joint
        requires { IsHeldListPart names.now self.now }
        ensures { seen_joint result ≡ substitution.joint_of (seen_list_part names.now self.now) }
    {
        match self {
            ListPart::Paste => Joint::Paste,
            ListPart::Token(item) if item.is_paste(names) => Joint::Paste,
            _ => Joint::Apart,
        }
    }

    /// Whether the part is a comma that these arguments delete.
    pub fn is_deleted(&self, raw: &[Tokens]) -> bool
        ensures { (names : List (List ℕ)) (sets : List (List Name.Name)) → result
            ≡ substitution.is_deleted (seen_arguments names sets raw.now) (seen_list_part names self.now) }
    {
        match self {
            ListPart::Comma { parameter, .. } => argument(raw, *parameter).is_empty(),
            _ => false,
        }
    }
}
