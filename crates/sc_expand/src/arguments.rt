//! The arguments of a call (C11 6.10.3p4, p10 to p12).
ghost use Rattle.std.specs.Prelude.{◌≡◌, ℕ, zero, ◌+◌, ◌^◌, ◌<◌, ◌≤◌, ◌↔◌, ◌++◌, ◌∷◌, [], List, Option, All, Some, is_some, drop, length, slice_get, IsTrue, IfOk, IfSome, OnOk};
ghost use Rattle.std.specs.Option.{option_map};
ghost use Rattle.c11_macros.specs.Call as call;
ghost use Rattle.c11_macros.specs.Call.{arguments_for};
ghost use Rattle.c11_macros.specs.Macros.{Rest, function_like};
ghost use Rattle.sc_macro.specs.Seen.{seen_form};
ghost use Rattle.sc_base.specs.declared.id.Name as declared_name;
ghost use Rattle.sc_base.specs.declared.place.Place as declared_place;
ghost use Rattle.c11_macros.specs.Hidden as hidden;
ghost use Rattle.sc_expand.specs.Arguments as model;
ghost use Rattle.sc_expand.specs.Arguments.{IsParting, seen_role};
ghost use Rattle.sc_expand.specs.Parting.{parted_with};
ghost use Rattle.sc_subst.specs.declared.hidden.Hidden as declared_hidden;
ghost use Rattle.sc_subst.specs.Parts.{seen_arguments, seen_list};
ghost use Rattle.sc_subst.specs.Seen.{IsHeldHidden, seen_hidden};

use crate::role::{Role, role_of};
use sc_base::{Names, OutOfMemory};
use sc_macro::Form;
use sc_subst::Tokens;
use std::alloc::Global;

/// The arguments of a call of a function-like macro, by the tokens between its parentheses: one for
/// each parameter, that for the rest last. `None` where so many do not fit.
pub fn arguments(
    alloc: Global,
    names: &Names,
    between: &Tokens,
    form: &Form,
) -> Result<Option<Vec<Tokens>>, OutOfMemory>
    requires { All (λ h. h.token.spelling.0 < length names.now) between.now }
    ensures is { IfOk result (λ fit. (sets : List (List declared_name.Name)) (parameters : List (List ℕ)) (rest : Option Rest) → seen_form names.now form.now
        ≡ function_like parameters rest
        → option_map (λ made. seen_arguments names.now sets made.items) fit
        ≡ arguments_for parameters (is_some rest) (model.parted (length parameters) 0 (seen_list names.now sets between.now))) }
    ensures own { IfOk result (λ fit. (sets : List (List declared_name.Name)) → All (IsHeldHidden names.now sets) between.now
        → IfSome fit (λ made. All (All (IsHeldHidden names.now sets)) made.items)) }
{
    match form {
        Form::Object => Ok(None),
        Form::Function { parameters, rest } => {
            let parted = parted(alloc, names, between, parameters.len())?;
            let fit = fitted(alloc, parted, parameters.len(), rest.is_some())?;
            Ok(fit)
        }
    }
}

/// The arguments for so many parameters, where so many are given. None need be given for the rest.
fn fitted(
    alloc: Global,
    given: Vec<Tokens>,
    parameters: usize,
    variadic: bool,
) -> Result<Option<Vec<Tokens>>, OutOfMemory>
    requires { parameters + 1 < 2 ^ 64 }
    ensures is { IfOk result (λ fit. (names : List (List ℕ)) (sets : List (List declared_name.Name)) (texts : List (List ℕ)) → length texts ≡ parameters
        → option_map (λ made. seen_arguments names sets made.items) fit ≡ arguments_for texts variadic (seen_arguments names sets given.items)) }
    ensures own { IfOk result (λ fit. (names : List (List ℕ)) (sets : List (List declared_name.Name)) → All (All (IsHeldHidden names sets)) given.items
        → IfSome fit (λ made. All (All (IsHeldHidden names sets)) made.items)) }
{
    if parameters == 0 && !variadic && is_nothing(&given) {
        return Ok(Some(Vec::new(alloc)));
    }
    if variadic && given.len() == parameters {
        let mut all = given;
        all.push(Tokens::none(alloc)?)?;
        return Ok(Some(all));
    }
    if given.len() == parameters || (variadic && given.len() == parameters + 1) {
        return Ok(Some(given));
    }
    Ok(None)
}

/// Whether nothing stands between the parentheses.
fn is_nothing(given: &[Tokens]) -> bool
    ensures { (names : List (List ℕ)) (sets : List (List declared_name.Name)) → result ≡ call.is_nothing (seen_arguments names sets given.now) }
{
    match given {
        [only] => only.as_slice().is_empty(),
        _ => false,
    }
}

/// Tokens between the parentheses of a call, as far as they are parted.
#[derive(Drop)]
pub struct Parting {
    pub arguments: Vec<Tokens>,
    /// Where the argument begins that the next token may belong to.
    pub begin: usize,
    /// How many commas may still part arguments.
    pub commas: usize,
    /// How many inner parentheses are open.
    pub depth: usize,
}

/// The tokens between the parentheses of a call, parted at so many commas outside inner ones.
pub fn parted(
    alloc: Global,
    names: &Names,
    between: &Tokens,
    commas: usize,
) -> Result<Vec<Tokens>, OutOfMemory>
    requires { All (λ h. h.token.spelling.0 < length names.now) between.now }
    ensures is { IfOk result (λ made. (sets : List (List declared_name.Name)) → seen_arguments names.now sets made.items
        ≡ model.parted commas 0 (seen_list names.now sets between.now)) }
    ensures own { IfOk result (λ made. (sets : List (List declared_name.Name)) → All (IsHeldHidden names.now sets) between.now
        → All (All (IsHeldHidden names.now sets)) made.items) }
{
    let mut parting = Parting {
        arguments: Vec::new(alloc),
        begin: 0,
        commas,
        depth: 0,
    };
    let mut index = 0;
    while index < between.len() {
        index = parting.go_on(names, between, index)?;
    }
    let arguments = parting.finish(between)?;
    Ok(arguments)
}

impl Parting {
    /// Takes the token of an index, or all of a group that begins there, in which no comma parts
    /// arguments. The answer is the index behind.
    fn go_on(&mut self, names: &Names, between: &Tokens, index: usize) -> Result<usize, OutOfMemory>
        requires index { index < length between.now }
        requires begin { self.old.begin ≤ index }
        requires names { All (λ h. h.token.spelling.0 < length names.now) between.now }
        requires deep { self.old.depth + 1 < 2 ^ 64 }
        ensures next { IfOk result (λ next. (index < next) × (next ≤ length between.now)) }
        ensures is { IfOk result (λ next. (sets : List (List declared_name.Name))
            → parted_with names.now sets between.now index self.old (seen_list names.now sets (drop index between.now))
            ≡ parted_with names.now sets between.now next self.new (seen_list names.now sets (drop next between.now))) }
        ensures own { OnOk result ((sets : List (List declared_name.Name)) → All (IsHeldHidden names.now sets) between.now
            → All (All (IsHeldHidden names.now sets)) self.old.arguments.items → All (All (IsHeldHidden names.now sets)) self.new.arguments.items) }
        ensures begin { IfOk result (λ next. self.new.begin ≤ next) }
        ensures deep { OnOk result (self.new.depth ≤ self.old.depth + 1) }
    {
        // so an index behind fits its type
        let len = between.len();
        if self.depth == 0 {
            if let Some(close) = between.closing(names, index) {
                prove!(close < len);
                return Ok(close + 1);
            }
        }
        self.take(names, between, index)?;
        prove!(index < len);
        Ok(index + 1)
    }

    /// The token of an index parts two arguments, or belongs to one.
    fn take(&mut self, names: &Names, between: &Tokens, index: usize) -> Result<(), OutOfMemory>
        requires index { index < length between.now }
        requires begin { self.old.begin ≤ index }
        requires names { All (λ h. h.token.spelling.0 < length names.now) between.now }
        requires deep { self.old.depth + 1 < 2 ^ 64 }
        ensures is { OnOk result ((sets : List (List declared_name.Name)) (next : declared_hidden.Hidden) (rest : List (hidden.Hidden declared_place.Place))
            → slice_get between.now index ≡ Some next
            → parted_with names.now sets between.now index self.old (seen_hidden names.now sets next ∷ rest)
            ≡ parted_with names.now sets between.now (index + 1) self.new rest) }
        ensures own { OnOk result ((sets : List (List declared_name.Name)) → All (IsHeldHidden names.now sets) between.now
            → All (All (IsHeldHidden names.now sets)) self.old.arguments.items → All (All (IsHeldHidden names.now sets)) self.new.arguments.items) }
        ensures begin { OnOk result (self.new.begin ≤ index + 1) }
        ensures deep { OnOk result (self.new.depth ≤ self.old.depth + 1) }
    {
        // so the next index fits its type
        prove!(index < between.len());
        let role = role_of(names, between.get(index).token.spelling);
        if parts(role, self.commas, self.depth) {
            let argument = between.share(self.begin, index)?;
            self.arguments.push(argument)?;
            self.begin = index + 1;
            self.commas -= 1;
            Ok(())
        } else {
            self.depth = depth_behind(role, self.depth);
            Ok(())
        }
    }

    /// The arguments, once all tokens were taken.
    fn finish(self, between: &Tokens) -> Result<Vec<Tokens>, OutOfMemory>
        requires { self.begin ≤ length between.now }
        ensures is { IfOk result (λ made. (names : List (List ℕ)) (sets : List (List declared_name.Name)) → seen_arguments names sets made.items
            ≡ parted_with names sets between.now (length between.now) self []) }
        ensures own { IfOk result (λ made. (names : List (List ℕ)) (sets : List (List declared_name.Name)) → All (IsHeldHidden names sets) between.now
            → All (All (IsHeldHidden names sets)) self.arguments.items → All (All (IsHeldHidden names sets)) made.items) }
    {
        let last = between.share(self.begin, between.len())?;
        let mut arguments = self.arguments;
        arguments.push(last)?;
        Ok(arguments)
    }
}

/// Whether a token parts two arguments.
fn parts(role: Role, commas: usize, depth: usize) -> bool
    ensures { IsTrue result ↔ IsParting (seen_role role) commas depth }
{
    depth == 0 && commas > 0 && matches!(role, Role::Comma)
}

/// The depth of inner parentheses behind a token.
fn depth_behind(role: Role, depth: usize) -> usize
    requires { depth + 1 < 2 ^ 64 }
    ensures { result ≡ model.depth_behind (seen_role role) depth }
{
    match role {
        Role::Opening => depth + 1,
        Role::Closing => depth.saturating_sub(1),
        _ => depth,
    }
}
