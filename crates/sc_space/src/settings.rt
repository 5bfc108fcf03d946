//! The settings of a run: each key's value is checked and read by itself, or its default taken.
ghost use Rattle.std.specs.Prelude.{◌≡◌, map, string_bytes, option_copied, option_map, decimal, IfOk};
ghost use Rattle.std.specs.List.{list_all};
ghost use Rattle.sc_space.specs.Seen.{seen_space, seen_variable, seen_fault, Answers};
ghost use Rattle.sc_space.specs.Settings.{limit_of, has_no_control, is_directory, directory_of, is_date_byte, date_of, standard_named, standard_of, valid_of};
ghost use Rattle.sc_space.specs.SpaceFile.{bad_include, read_limit, read_directories, read_include, read_date, read_standard, read_valid, with_settings};
ghost use Rattle.toml.specs.View.{view, items_view, table_view};

use crate::read::value_at;
use crate::{Space, SpaceFault, SpaceStop, Variable};
use itoa::Buffer;
use sc_base::{Cause, Limits, OutOfMemory, is_same};
use sc_model::Standard;
use std::alloc::Global;
use toml::{Table, Value};

/// The variables with the settings of the file.
#[tactic(auto, unfolding(crate::specs::SpaceFile::with_settings))]
pub(crate) fn with_settings(
    alloc: Global,
    variables: Vec<Variable>,
    document: &Table,
) -> Result<Space, SpaceStop>
    ensures { Answers seen_space result (with_settings (map seen_variable variables.items) (table_view document.now)) }
{
    let branches = read_limit(alloc, document, "branches", 1, 1_000_000, 4096)?;
    let include_depth = read_limit(alloc, document, "include_depth", 15, 200, 64)?;
    let include = read_include(alloc, document)?;
    let date = read_date(alloc, document, "date", 11, "Jan  1 1970")?;
    let time = read_date(alloc, document, "time", 8, "00:00:00")?;
    let standard = read_standard(document)?;
    let valid = read_valid(alloc, document)?;
    Ok(Space {
        variables,
        include,
        limits: Limits {
            branches,
            include_depth,
        },
        date,
        time,
        standard,
        valid,
    })
}

/// The whole number at a key, within its bounds.
#[tactic(auto, unfolding(crate::specs::SpaceFile::read_limit))]
fn read_limit(
    alloc: Global,
    document: &Table,
    key: &str,
    least: usize,
    most: usize,
    default: usize,
) -> Result<usize, SpaceStop>
    ensures { Answers (λ n. n) result (read_limit key.now least most default (table_view document.now)) }
{
    let Some(value) = value_at(document, key) else {
        return Ok(default);
    };
    match limit_of(value, least, most) {
        Some(number) => Ok(number),
        None => Err(SpaceStop::Fault(SpaceFault::BadLimit(String::from_str(alloc, key)?))),
    }
}

#[tactic(auto, unfolding(crate::specs::Settings::limit_of))]
fn limit_of(value: &Value, least: usize, most: usize) -> Option<usize>
    ensures { result ≡ limit_of least most (view value.now) }
{
    let Value::Integer(number) = value else {
        return None;
    };
    let number = usize::try_from(*number).ok()?;
    if least <= number && number <= most {
        Some(number)
    } else {
        None
    }
}

/// The directories in which included files are looked for.
#[tactic(auto, unfolding(crate::specs::SpaceFile::read_include))]
fn read_include(alloc: Global, document: &Table) -> Result<Vec<String>, SpaceStop>
    ensures { Answers (λ v. map string_bytes v.items) result (read_include (table_view document.now)) }
{
    match value_at(document, "include") {
        None => Ok(Vec::new(alloc)),
        Some(Value::Array(values)) => read_directories(alloc, values.as_slice()),
        Some(_) => Err(SpaceStop::Fault(bad_include(alloc, 0)?)),
    }
}

#[tactic(auto, unfolding(crate::specs::SpaceFile::read_directories))]
fn read_directories(alloc: Global, values: &[Value]) -> Result<Vec<String>, SpaceStop>
    ensures { Answers (λ v. map string_bytes v.items) result (read_directories 0 (items_view values.now)) }
{
    let mut directories = Vec::new(alloc);
    for (place, value) in values.iter().enumerate() {
        match directory_of(value) {
            Some(name) => directories.push(String::from_str(alloc, name)?)?,
            None => return Err(SpaceStop::Fault(bad_include(alloc, place)?)),
        }
    }
    Ok(directories)
}

/// The text that is the name of a directory.
#[tactic(auto, unfolding(crate::specs::Settings::directory_of))]
fn directory_of(value: &Value) -> Option<&str>
    ensures { option_copied result ≡ directory_of (view value.now) }
{
    let name = value.as_str()?;
    if is_directory(name.as_bytes()) {
        Some(name)
    } else {
        None
    }
}

fn is_directory(name: &[u8]) -> bool
    ensures { result ≡ is_directory name.now }
{
    !name.is_empty() && has_no_control(name)
}

fn has_no_control(bytes: &[u8]) -> bool
    ensures { result ≡ has_no_control bytes.now }
{
    bytes.iter().all(|b| 32 <= *b)
}

/// The value at this place of `include` is no name of a directory.
fn bad_include(alloc: Global, place: usize) -> Result<SpaceFault, OutOfMemory>
    ensures { IfOk result (λ fault. seen_fault fault ≡ bad_include (decimal place)) }
{
    let place = String::from_str(alloc, Buffer::new().format(place))?;
    Ok(SpaceFault::BadInclude(place))
}

/// The text at a key, of so many bytes that may stand in a string literal as they are.
#[tactic(auto, unfolding(crate::specs::SpaceFile::read_date))]
fn read_date(
    alloc: Global,
    document: &Table,
    key: &str,
    size: usize,
    default: &str,
) -> Result<String, SpaceStop>
    ensures { Answers string_bytes result (read_date key.now size default.now (table_view document.now)) }
{
    let Some(value) = value_at(document, key) else {
        return Ok(String::from_str(alloc, default)?);
    };
    match date_of(value, size) {
        Some(text) => Ok(String::from_str(alloc, text)?),
        None => Err(SpaceStop::Fault(SpaceFault::BadDate(String::from_str(alloc, key)?))),
    }
}

#[tactic(auto, unfolding(crate::specs::Settings::date_of))]
fn date_of(value: &Value, size: usize) -> Option<&str>
    ensures { option_copied result ≡ date_of size (view value.now) }
{
    let text = value.as_str()?;
    if text.len() == size && are_date_bytes(text.as_bytes()) {
        Some(text)
    } else {
        None
    }
}

fn are_date_bytes(bytes: &[u8]) -> bool
    ensures { result ≡ list_all is_date_byte bytes.now }
{
    bytes.iter().all(|b| is_date_byte(*b))
}

fn is_date_byte(byte: u8) -> bool
    ensures { result ≡ is_date_byte byte }
{
    matches!(byte, b' '..=b'~') && byte != b'"' && byte != b'\\'
}

/// The standard that the file names.
#[tactic(auto, unfolding(crate::specs::SpaceFile::read_standard))]
fn read_standard(document: &Table) -> Result<Standard, SpaceStop>
    ensures { Answers (λ standard. standard) result (read_standard (table_view document.now)) }
{
    let Some(value) = value_at(document, "standard") else {
        return Ok(Standard::C11);
    };
    match standard_of(value) {
        Some(standard) => Ok(standard),
        None => Err(SpaceStop::Fault(SpaceFault::BadStandard)),
    }
}

#[tactic(auto, unfolding(crate::specs::Settings::standard_of))]
fn standard_of(value: &Value) -> Option<Standard>
    ensures { result ≡ standard_of (view value.now) }
{
    let name = value.as_str()?;
    standard_named(name.as_bytes())
}

fn standard_named(name: &[u8]) -> Option<Standard>
    ensures { result ≡ standard_named name.now }
{
    if is_same(name, b"c11") {
        Some(Standard::C11)
    } else if is_same(name, b"c23") {
        Some(Standard::C23)
    } else if is_same(name, b"gnu11") {
        Some(Standard::Gnu11)
    } else {
        None
    }
}

/// The text that says which configurations are meant.
#[tactic(auto, unfolding(crate::specs::SpaceFile::read_valid))]
fn read_valid(alloc: Global, document: &Table) -> Result<Option<String>, SpaceStop>
    ensures { Answers (λ valid. option_map string_bytes valid) result (read_valid (table_view document.now)) }
{
    let Some(value) = value_at(document, "valid") else {
        return Ok(None);
    };
    match valid_of(value) {
        Some(text) => Ok(Some(String::from_str(alloc, text)?)),
        None => Err(SpaceStop::Fault(SpaceFault::BadValid(Cause::BadIf))),
    }
}

#[tactic(auto, unfolding(crate::specs::Settings::valid_of))]
fn valid_of(value: &Value) -> Option<&str>
    ensures { option_copied result ≡ valid_of (view value.now) }
{
    let text = value.as_str()?;
    if has_no_control(text.as_bytes()) {
        Some(text)
    } else {
        None
    }
}
