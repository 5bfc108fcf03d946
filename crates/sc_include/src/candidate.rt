//! The names under which a header's file is looked for.
ghost use Rattle.std.specs.Prelude.{◌≡◌, ◌++◌, IfOk, OnOk, map, string_bytes};
ghost use Rattle.c11_headers.specs.Headers as headers;
ghost use Rattle.sc_include.specs.Seen.{seen_header};

use crate::{Header, HeaderKind};
use sc_base::OutOfMemory;
use std::alloc::Global;

/// The names under which the file of a header is looked for, in order. `including` is the name of
/// the file that includes it.
pub fn candidates(
    alloc: Global,
    header: &Header,
    including: &str,
    directories: &[String],
) -> Result<Vec<String>, OutOfMemory>
    ensures { IfOk result (λ names. map string_bytes names.items ≡ headers.candidates (seen_header header.now) including.now (map string_bytes directories.now)) }
{
    let name = header.name.as_str();
    let mut names = Vec::new(alloc);
    if is_absolute(name) {
        names.push(String::from_str(alloc, name)?)?;
        return Ok(names);
    }
    if header.kind == HeaderKind::Quoted {
        names.push(beside(alloc, name, including)?)?;
    }
    push_in_each(alloc, &mut names, name, directories)?;
    Ok(names)
}

/// Adds the name in each directory.
fn push_in_each(
    alloc: Global,
    names: &mut Vec<String>,
    name: &str,
    directories: &[String],
) -> Result<(), OutOfMemory>
    ensures { OnOk result (map string_bytes names.new.items ≡ map string_bytes names.old.items ++ map (headers.in_directory name.now) (map string_bytes directories.now)) }
{
    for directory in directories {
        names.push(in_directory(alloc, name, directory.as_str())?)?;
    }
    Ok(())
}

fn is_absolute(name: &str) -> bool
    ensures { result ≡ headers.is_absolute name.now }
{
    name.as_bytes().starts_with(b"/")
}

/// The name in the directory of a file.
fn beside(alloc: Global, name: &str, file: &str) -> Result<String, OutOfMemory>
    ensures { IfOk result (λ text. string_bytes text ≡ headers.directory_of file.now ++ name.now) }
{
    match file.rfind('/') {
        Some(end) => in_directory(alloc, name, &file[..end]),
        None => Ok(String::from_str(alloc, name)?),
    }
}

fn in_directory(alloc: Global, name: &str, directory: &str) -> Result<String, OutOfMemory>
    ensures { IfOk result (λ text. string_bytes text ≡ headers.in_directory name.now directory.now) }
{
    let mut text = String::from_str(alloc, directory)?;
    text.push_str("/")?;
    text.push_str(name)?;
    Ok(text)
}
