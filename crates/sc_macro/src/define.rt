ghost use Rattle.std.specs.Prelude.{◌≡◌, ◌<◌, All, IfErr, IfOk, length};
ghost use Rattle.std.specs.List.{list_any};
ghost use Rattle.sc_model.specs.Bytes.{same_bytes};
ghost use Rattle.c11_macros.specs.Defines as model;
ghost use Rattle.c11_macros.specs.Macros.{predefined_names};
ghost use Rattle.sc_base.specs.Seen.{IsHeld};
ghost use Rattle.sc_macro.specs.Reads.{Reads, Refuses};
ghost use Rattle.sc_macro.specs.Seen.{IsHeldDefinition};

use crate::fit::fits;
use crate::head::{is_identifier, read_head};
use crate::items::items;
use crate::{DefineStop, Definition, Replacement};
use sc_base::{Cause, Names, Token, is_same};
use sc_model::Standard;
use std::alloc::Global;

/// What a `#define` line defines: the line is given whole, with its `#` and the word `define`.
pub fn read_define(
    alloc: Global,
    names: &Names,
    standard: Standard,
    line: &[Token],
) -> Result<Definition, DefineStop>
    requires { All (IsHeld names.now) line.now }
    ensures ok { IfOk result (Reads standard names.now line.now) }
    ensures own { IfOk result (IsHeldDefinition names.now) }
    ensures err { IfErr result (Refuses standard names.now line.now) }
{
    if line.len() < 3 || !is_identifier(line[2].kind) {
        return Err(DefineStop::Fault(Cause::BadDefine));
    }
    let name = line[2].spelling;
    let rest = &line[3..];
    let Some(head) = read_head(alloc, names, standard, rest)? else {
        return Err(DefineStop::Fault(Cause::BadDefine));
    };
    let list = items(alloc, &rest[head.length..])?;
    if !fits(names, &head.form, &list) {
        return Err(DefineStop::Fault(Cause::BadDefine));
    }
    if is_protected(names.text(name)) {
        return Err(DefineStop::Fault(Cause::ProtectedName));
    }
    Ok(Definition {
        name,
        form: head.form,
        replacement: Replacement::Items(list),
    })
}

/// Whether no directive may define the name or take it back (C11 6.10.8p2).
pub fn is_protected(name: &[u8]) -> bool
    ensures { result ≡ model.is_protected name.now }
{
    is_same(name, b"defined") || is_same(name, b"__VA_ARGS__") || is_predefined(name)
}

/// Whether every configuration starts with a macro of this name (C11 6.10.8.1).
fn is_predefined(name: &[u8]) -> bool
    ensures { result ≡ list_any (same_bytes name.now) predefined_names }
{
    is_same(name, b"__FILE__")
        || is_same(name, b"__LINE__")
        || is_same(name, b"__DATE__")
        || is_same(name, b"__TIME__")
        || is_same(name, b"__STDC__")
        || is_same(name, b"__STDC_VERSION__")
        || is_same(name, b"__STDC_HOSTED__")
}
