use crate::case::{Case, Choice, Part, Run, Wanted};
use crate::plain::plain;
use crate::text::Text;
use anyhow::{Context, Result};
use sc_core::run;
use sc_source::{MemorySink, MemorySource};
use std::alloc::Global;

/// What a run wrote, and its status.
#[derive(Drop)]
struct Done {
    output: Vec<u8>,
    error: Vec<u8>,
    status: u8,
}

/// What the runs of a case do otherwise than it says.
pub fn check(alloc: Global, case: &Case) -> Result<String> {
    let mut differences = String::new(alloc);
    for run in &case.runs {
        let done = perform(alloc, case, run)?;
        if run.status != Some(done.status) {
            let line = run.line;
            let status = done.status;
            write!(differences, "line {line}: status {status}\n")?;
        }
        check_texts(alloc, run, &done, &mut differences)?;
    }
    Ok(differences)
}

fn check_texts(alloc: Global, run: &Run, done: &Done, differences: &mut String) -> Result<()> {
    let mut has_output = false;
    let mut has_error = false;
    for wanted in &run.wanted {
        match &wanted.part {
            Part::Output | Part::OutputEnds | Part::At(_) => has_output = true,
            Part::Error | Part::ErrorEnds => has_error = true,
        }
        if let Some(found) = difference(alloc, wanted, done)? {
            tell(differences, wanted.line, &wanted.bytes, &found)?;
        }
    }
    if !has_output && !done.output.is_empty() {
        tell(differences, run.line, b"", &done.output)?;
    }
    if !has_error && !done.error.is_empty() {
        tell(differences, run.line, b"", &done.error)?;
    }
    Ok(())
}

/// What stands there in place of what is wanted.
fn difference(alloc: Global, wanted: &Wanted, done: &Done) -> Result<Option<Vec<u8>>> {
    let bytes = wanted.bytes.as_slice();
    let found = match &wanted.part {
        Part::Output => done.output.clone()?,
        Part::Error => done.error.clone()?,
        Part::At(choices) => at(alloc, &done.output, choices)?,
        Part::OutputEnds if has_ends(&done.output, bytes) => return Ok(None),
        Part::ErrorEnds if has_ends(&done.error, bytes) => return Ok(None),
        Part::OutputEnds => done.output.clone()?,
        Part::ErrorEnds => done.error.clone()?,
    };
    if found.as_slice() == bytes {
        return Ok(None);
    }
    Ok(Some(found))
}

/// What a text is at one configuration, as a text of this one.
fn at(alloc: Global, output: &[u8], choices: &[Choice]) -> Result<Vec<u8>> {
    let text = std::str::from_utf8(output).context("not UTF-8")?;
    plain(alloc, &Text::read(alloc, text, choices)?)
}

/// Whether each line ends some line of a text.
fn has_ends(text: &[u8], ends: &[u8]) -> bool {
    ends.split(|byte| *byte == b'\n').all(|end| text
        .split(|byte| *byte == b'\n')
        .any(|line| line.ends_with(end)))
}

fn tell(differences: &mut String, line: usize, wanted: &[u8], found: &[u8]) -> Result<()> {
    let wanted = std::str::from_utf8(wanted).context("not UTF-8")?;
    let found = std::str::from_utf8(found).context("not UTF-8")?;
    write!(
        differences,
        "line {line}: wanted\n{wanted}but it is\n{found}"
    )?;
    Ok(())
}

fn perform(alloc: Global, case: &Case, asked: &Run) -> Result<Done> {
    let mut source = MemorySource::new(alloc);
    for file in &case.files {
        source.add(file.name.as_str(), &file.bytes)?;
    }
    for number in &asked.failing.reads {
        source.fail_at(*number)?;
    }
    let mut output = sink(alloc, &asked.failing.outputs)?;
    let mut error = sink(alloc, &asked.failing.errors)?;
    let status = status_of(alloc, &asked.words, &mut source, &mut output, &mut error);
    Ok(Done {
        output: output.bytes(alloc)?,
        error: error.bytes(alloc)?,
        status,
    })
}

/// The status of a run on these words.
fn status_of(
    alloc: Global,
    words: &[String],
    source: &mut MemorySource,
    output: &mut MemorySink,
    error: &mut MemorySink,
) -> u8 {
    run(alloc, words, source, output, error).code()
}

fn sink(alloc: Global, failing: &[u64]) -> Result<MemorySink> {
    let mut sink = MemorySink::new(alloc);
    for number in failing {
        sink.fail_at(*number)?;
    }
    Ok(sink)
}
