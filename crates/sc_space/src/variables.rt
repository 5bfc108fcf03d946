//! The variables of a space file, each with its options.
ghost use Rattle.std.specs.Prelude.{◌≡◌, AllPairs, map, option_map, IfOk};
ghost use Rattle.std.specs.List.{list_all, list_any};
ghost use Rattle.sc_space.specs.Seen.{seen_option, seen_variable, Answers};
ghost use Rattle.sc_space.specs.Sound.{IsBefore, names_of};
ghost use Rattle.sc_space.specs.SpaceFile.{is_identifier_start, is_identifier_byte, is_ascii_identifier, is_protected, read_option, read_each, read_options, are_different, same_option, read_variable, read_variables};
ghost use Rattle.sc_space.specs.Texts.{AreTexts, Texts};
ghost use Rattle.toml.specs.Data.{string};
ghost use Rattle.toml.specs.View.{view, items_view, table_view};

use crate::option::same_option;
use crate::texts::read_text;
use crate::{SpaceFault, SpaceStop, Variable, VariableOption};
use sc_base::OutOfMemory;
use std::alloc::Global;
use toml::{Table, Value};

/// The most options that a variable may have.
const MOST_OPTIONS: usize = 64;

/// The most variables that there may be.
pub(crate) const MOST_VARIABLES: usize = 1024;

/// The variables of a table, in the order of their names.
#[tactic(auto, unfolding(crate::specs::SpaceFile::read_variables))]
pub(crate) fn read_variables(alloc: Global, table: &Table) -> Result<Vec<Variable>, SpaceStop>
    ensures answer { (texts : Texts) → AreTexts texts → Answers (λ v. map seen_variable v.items) result (read_variables texts (table_view table.now)) }
    ensures ascending { IfOk result (λ v. AllPairs IsBefore (names_of (map seen_variable v.items))) }
{
    let mut variables = Vec::with_capacity(alloc, table.len())?;
    for (name, value) in table {
        variables.push(read_variable(alloc, name.as_str(), value)?)?;
    }
    Ok(variables)
}

#[tactic(auto, unfolding(crate::specs::SpaceFile::read_variable))]
fn read_variable(alloc: Global, name: &str, value: &Value) -> Result<Variable, SpaceStop>
    ensures { (texts : Texts) → AreTexts texts → Answers seen_variable result (read_variable texts name.now (view value.now)) }
{
    let name = String::from_str(alloc, name)?;
    if !is_ascii_identifier(name.as_bytes()) || is_protected(name.as_str()) {
        return Err(SpaceStop::Fault(SpaceFault::BadName(name)));
    }
    let Some(options) = read_options(alloc, name.as_str(), value)? else {
        return Err(SpaceStop::Fault(SpaceFault::BadOption(name)));
    };
    if !are_different(options.as_slice()) {
        return Err(SpaceStop::Fault(SpaceFault::RepeatedOption(name)));
    }
    Ok(Variable { name, options })
}

#[tactic(auto, unfolding(crate::specs::SpaceFile::is_ascii_identifier))]
fn is_ascii_identifier(name: &[u8]) -> bool
    ensures { result ≡ is_ascii_identifier name.now }
{
    match name {
        [] => false,
        [first, rest @ ..] => is_identifier_start(*first) && are_identifier_bytes(rest),
    }
}

fn are_identifier_bytes(bytes: &[u8]) -> bool
    ensures { result ≡ list_all is_identifier_byte bytes.now }
{
    bytes.iter().all(|b| is_identifier_byte(*b))
}

fn is_identifier_start(byte: u8) -> bool
    ensures { result ≡ is_identifier_start byte }
{
    matches!(byte, b'A'..=b'Z' | b'a'..=b'z' | b'_')
}

fn is_identifier_byte(byte: u8) -> bool
    ensures { result ≡ is_identifier_byte byte }
{
    is_identifier_start(byte) || byte.is_ascii_digit()
}

// Whether the name is one that no program may define.
#[tactic(auto, unfolding(crate::specs::SpaceFile::is_protected))]
fn is_protected(name: &str) -> bool
    ensures { result ≡ is_protected name.now }
{
    matches!(
        name,
        "defined"
            | "__VA_ARGS__"
            | "__FILE__"
            | "__LINE__"
            | "__DATE__"
            | "__TIME__"
            | "__STDC__"
            | "__STDC_VERSION__"
            | "__STDC_HOSTED__"
    )
}

// The options of a variable, unless they are no list of 1 to 64.
#[tactic(auto, unfolding(crate::specs::SpaceFile::read_options))]
fn read_options(
    alloc: Global,
    name: &str,
    value: &Value,
) -> Result<Option<Vec<VariableOption>>, OutOfMemory>
    ensures { IfOk result (λ found. (texts : Texts) → AreTexts texts → option_map (λ v. map seen_option v.items) found ≡ read_options texts name.now (view value.now)) }
{
    let Value::Array(values) = value else {
        return Ok(None);
    };
    let Some(options) = read_each(alloc, name, values.as_slice())? else {
        return Ok(None);
    };
    let few = 1 <= options.len() && options.len() <= MOST_OPTIONS;
    Ok(if few { Some(options) } else { None })
}

// The option that each value is, if each is one.
#[tactic(auto, unfolding(crate::specs::SpaceFile::read_each))]
fn read_each(
    alloc: Global,
    name: &str,
    values: &[Value],
) -> Result<Option<Vec<VariableOption>>, OutOfMemory>
    ensures { IfOk result (λ found. (texts : Texts) → AreTexts texts → option_map (λ v. map seen_option v.items) found ≡ read_each texts name.now (items_view values.now)) }
{
    let mut options = Vec::new(alloc);
    for value in values {
        match read_option(alloc, name, value)? {
            Some(option) => options.push(option)?,
            None => return Ok(None),
        }
    }
    Ok(Some(options))
}

#[tactic(auto, unfolding(crate::specs::SpaceFile::read_option))]
fn read_option(
    alloc: Global,
    name: &str,
    value: &Value,
) -> Result<Option<VariableOption>, OutOfMemory>
    ensures { IfOk result (λ found. (texts : Texts) → AreTexts texts → option_map seen_option found ≡ read_option texts name.now (view value.now)) }
{
    match value {
        Value::String(text) => text_option(alloc, name, text.as_str()),
        Value::Integer(number) => Ok(u64::try_from(*number).ok().map(VariableOption::Number)),
        _ => Ok(None),
    }
}

// The option that a text is.
#[tactic(auto, unfolding(crate::specs::SpaceFile::read_option))]
fn text_option(alloc: Global, name: &str, text: &str) -> Result<Option<VariableOption>, OutOfMemory>
    ensures { IfOk result (λ found. (texts : Texts) → AreTexts texts → option_map seen_option found ≡ read_option texts name.now (string text.now)) }
{
    if text == "undef" {
        return Ok(Some(VariableOption::Undefined));
    }
    let Some(items) = read_text(alloc, name, text)? else {
        return Ok(None);
    };
    let text = String::from_str(alloc, text)?;
    Ok(Some(VariableOption::Text { text, items }))
}

#[tactic(auto, unfolding(crate::specs::SpaceFile::are_different))]
fn are_different(options: &[VariableOption]) -> bool
    ensures { result ≡ are_different (map seen_option options.now) }
{
    for (i, option) in options.iter().enumerate() {
        let (_, later) = options.split_at(i + 1);
        if is_among(option, later) {
            return false;
        }
    }
    true
}

fn is_among(option: &VariableOption, options: &[VariableOption]) -> bool
    ensures { result ≡ list_any (λ other. same_option (seen_option option.now) (seen_option other)) options.now }
{
    options.iter().any(|other| same_option(option, other))
}
