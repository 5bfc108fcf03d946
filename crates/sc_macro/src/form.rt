ghost use Rattle.std.specs.Prelude.{◌≡◌, ℕ, ◌<◌, List, length, IfSome};
ghost use Rattle.std.specs.Option.{option_map};
ghost use Rattle.c11_macros.specs.Call as call;
ghost use Rattle.c11_macros.specs.Defines as model;
ghost use Rattle.c11_macros.specs.Substitution.{deleting_rest, is_named, parameter_of};
ghost use Rattle.sc_model.specs.Bytes.{same_bytes};
ghost use Rattle.sc_base.specs.Seen.{text_at};
ghost use Rattle.sc_macro.specs.Seen.{IsHeldForm, IsHeldRest, seen_definition, seen_form, seen_rest};

use crate::Definition;
use indexmap::IndexSet;
use sc_base::{Name, Names, is_same};

/// A macro without arguments, or one with arguments for its parameters.
#[derive(Drop)]
pub enum Form {
    Object,
    Function {
        parameters: IndexSet<Name>,
        /// The parameter of the arguments that are left.
        rest: Option<Rest>,
    },
}

/// The parameter of the arguments that are left (C11 6.10.3p12).
#[derive(Clone, Copy, Debug, PartialEq, Eq)]
pub struct Rest {
    /// The name before `...`. Without one it is `__VA_ARGS__`.
    pub name: Option<Name>,
    /// A comma before `##` and the rest is deleted where the rest is empty (gcc's manual, Variadic
    /// Macros).
    pub deletes_comma: bool,
}

impl Rest {
    pub fn is_named(&self, names: &Names, name: Name) -> bool
        requires rest { IsHeldRest names.now self.now }
        requires name { name.0 < length names.now }
        ensures { result ≡ same_bytes (seen_rest names.now self.now).name (text_at names.now name.0) }
    {
        names.one_to_one();
        match self.name {
            Some(own) => own == name,
            None => is_same(b"__VA_ARGS__", names.text(name)),
        }
    }
}

impl Form {
    pub fn is_function_like(&self) -> bool
        ensures { (names : List (List ℕ)) → result ≡ model.is_function_like (seen_form names self.now) }
    {
        matches!(self, Form::Function { .. })
    }

    pub fn rest(&self) -> Option<Rest>
        ensures is { (names : List (List ℕ)) → option_map (seen_rest names) result ≡ model.rest_of (seen_form names self.now) }
        ensures own { (names : List (List ℕ)) → IsHeldForm names self.now → IfSome result (IsHeldRest names) }
    {
        match self {
            Form::Object => None,
            Form::Function { rest, .. } => *rest,
        }
    }

    /// The place of the rest among the parameters, where a comma before it may be deleted.
    pub fn deleting_rest(&self) -> Option<usize>
        ensures { (names : List (List ℕ)) → result ≡ deleting_rest (seen_form names self.now) }
    {
        match self {
            Form::Function {
                parameters,
                rest: Some(rest),
            } if rest.deletes_comma => Some(parameters.len()),
            _ => None,
        }
    }

    /// The place of a name among the parameters, the rest after them.
    pub fn parameter(&self, names: &Names, name: Name) -> Option<usize>
        requires form { IsHeldForm names.now self.now }
        requires name { name.0 < length names.now }
        ensures { result ≡ parameter_of (seen_form names.now self.now) (text_at names.now name.0) }
    {
        names.one_to_one();
        match self {
            Form::Object => None,
            Form::Function { parameters, rest } => match parameters.get_index_of(&name) {
                Some(index) => Some(index),
                None if is_named(names, rest, name) => Some(parameters.len()),
                None => None,
            },
        }
    }
}

/// Whether the rest has this name.
fn is_named(names: &Names, rest: &Option<Rest>, name: Name) -> bool
    requires rest { IfSome rest.now (IsHeldRest names.now) }
    requires name { name.0 < length names.now }
    ensures { result ≡ is_named (text_at names.now name.0) (option_map (seen_rest names.now) rest.now) }
{
    match rest {
        Some(rest) => rest.is_named(names, name),
        None => false,
    }
}

/// Whether so many arguments fit the macro. For the rest none need be given.
pub fn counts(definition: &Definition, given: usize) -> bool
    ensures { (names : List (List ℕ)) → result ≡ call.counts (seen_definition names definition.now).form given }
{
    match &definition.form {
        Form::Object => false,
        Form::Function { parameters, rest } => {
            given == parameters.len() || (rest.is_some() && given == parameters.len() + 1)
        }
    }
}
