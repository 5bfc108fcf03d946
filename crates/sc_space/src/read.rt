//! The table that a space file is, its keys, and the table of the variables.
ghost use Rattle.std.specs.Prelude.{◌≡◌, option_map};
ghost use Rattle.std.specs.List.{list_any};
ghost use Rattle.sc_model.specs.Bytes.{same_bytes};
ghost use Rattle.sc_space.specs.Seen.{Answers};
ghost use Rattle.sc_space.specs.SpaceFile.{read_document, known_keys, check_keys, variables_table};
ghost use Rattle.toml.specs.Data.{get_member};
ghost use Rattle.toml.specs.View.{view, table_view};

use crate::{SpaceFault, SpaceStop};
use sc_base::LARGEST_FILE;
use std::alloc::Global;
use toml::{Table, Value};

/// The table that a file is.
#[tactic(auto, unfolding(crate::specs::SpaceFile::read_document))]
pub(crate) fn read_document(alloc: Global, bytes: &[u8]) -> Result<Table, SpaceStop>
    ensures { Answers table_view result (read_document bytes.now) }
{
    if bytes.len() > LARGEST_FILE {
        return Err(SpaceStop::Fault(SpaceFault::TooLarge));
    }
    let Ok(text) = std::str::from_utf8(bytes) else {
        return Err(SpaceStop::Fault(SpaceFault::NotToml));
    };
    match toml::table_from_str(alloc, text) {
        Ok(document) => Ok(document),
        Err(refused) if refused.is_memory() => Err(SpaceStop::OutOfMemory),
        Err(_) => Err(SpaceStop::Fault(SpaceFault::NotToml)),
    }
}

/// Refuses the first key that a space file doesn't have.
#[tactic(auto, unfolding(crate::specs::SpaceFile::check_keys))]
pub(crate) fn check_keys(alloc: Global, document: &Table) -> Result<(), SpaceStop>
    ensures { Answers (λ _. tt) result (check_keys (table_view document.now)) }
{
    for (key, _) in document {
        if !is_known_key(key.as_str()) {
            let key = String::from_str(alloc, key.as_str())?;
            return Err(SpaceStop::Fault(SpaceFault::UnknownKey(key)));
        }
    }
    Ok(())
}

/// Whether a space file may have the key.
fn is_known_key(key: &str) -> bool
    ensures { result ≡ list_any (same_bytes key.now) known_keys }
{
    matches!(
        key,
        "variables"
            | "include"
            | "branches"
            | "include_depth"
            | "date"
            | "time"
            | "standard"
            | "valid"
    )
}

/// The value at a key of the file.
pub(crate) fn value_at<'a>(document: &'a Table, key: &str) -> Option<&'a Value>
    ensures { option_map (λ v. view v.now) result ≡ get_member key.now (table_view document.now) }
{
    document.get(key)
}

/// The table of the variables.
#[tactic(auto, unfolding(crate::specs::SpaceFile::variables_table))]
pub(crate) fn variables_table(document: &Table) -> Result<&Table, SpaceStop>
    ensures { Answers (λ t. table_view t.now) result (variables_table (table_view document.now)) }
{
    let Some(value) = value_at(document, "variables") else {
        return Err(SpaceStop::Fault(SpaceFault::NoVariables));
    };
    match value.as_table() {
        Some(table) => Ok(table),
        None => Err(SpaceStop::Fault(SpaceFault::NoVariables)),
    }
}
