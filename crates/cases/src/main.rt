//! Runs each case in the files beside it, and tells what isn't as it says.
#![tactic(auto)]

use anyhow::{Context, Result};
use check::check;
use sc_source::{FileSource, Source};
use std::alloc::Global;

mod case;
mod check;
mod escapes;
mod line;
mod plain;
mod reading;
mod text;

/// The text of a file.
fn text_of<S: Source>(alloc: Global, files: &mut S, name: &str) -> Result<String> {
    let bytes = files.read(alloc, name)?.context("no such file")?;
    String::from_utf8(bytes).context("not UTF-8")
}

/// What a case has otherwise than it says, or why it is no case. Nothing where all is well.
fn report<S: Source>(alloc: Global, files: &mut S, name: &str) -> Result<String> {
    let text = text_of(alloc, files, name)?;
    let case = reading::read(alloc, text.as_str())?;
    check(alloc, &case)
}

fn main(rt: HostRuntime) -> Result<()> {
    let mut files = FileSource::new(&rt);
    let list = text_of(rt.alloc(), &mut files, "list")?;
    let mut count = 0u64;
    for name in list.as_str().lines() {
        match report(rt.alloc(), &mut files, name) {
            Ok(differences) if differences.as_str().is_empty() => {}
            Ok(differences) => println!(rt; "{name}: {differences}")?,
            Err(error) => println!(rt; "{name}: {error:#}")?,
        }
        count = count.saturating_add(1);
    }
    println!(rt; "{count} cases")?;
    Ok(())
}
