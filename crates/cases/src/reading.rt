use crate::case::{Case, CaseFile, Choice, Failing, Part, Run, Wanted};
use crate::escapes::{put_line, put_unescaped};
use anyhow::{Context, Result, bail};
use std::alloc::Global;
use std::mem;

/// Where the lines of a case go.
#[derive(Drop)]
enum Open {
    /// Its title and remarks.
    Head,
    File(String),
    Wanted(usize, Part),
    /// Behind a line that begins no text.
    Nothing,
}

/// A case as far as its lines are read.
#[derive(Drop)]
struct Reading {
    alloc: Global,
    files: Vec<CaseFile>,
    runs: Vec<Run>,
    run: Option<Run>,
    open: Open,
    bytes: Vec<u8>,
}

/// The case that a text has. A refusal begins with its line.
pub fn read(alloc: Global, text: &str) -> Result<Case> {
    let mut reading = Reading::new(alloc);
    let mut number = 0usize;
    for line in text.lines() {
        number = number.saturating_add(1);
        if number == 1 && !is_title(line) {
            bail!("1: no title, which begins with a section or an area");
        }
        reading.take(number, line).context(number)?;
    }
    reading.end().context(number)
}

/// Whether a line has two words or more and begins no part.
fn is_title(line: &str) -> bool {
    line.split_once(' ').is_some() && !line.starts_with("--- ")
}

impl Reading {
    fn new(alloc: Global) -> Reading {
        Reading {
            alloc,
            files: Vec::new(alloc),
            runs: Vec::new(alloc),
            run: None,
            open: Open::Head,
            bytes: Vec::new(alloc),
        }
    }

    fn take(&mut self, number: usize, line: &str) -> Result<()> {
        match line.strip_prefix("--- ") {
            Some(marker) => {
                self.close()?;
                self.begin(number, marker)
            }
            None => match &self.open {
                Open::Head => Ok(()),
                Open::File(_) | Open::Wanted(..) => put_line(&mut self.bytes, line),
                Open::Nothing => bail!("a line of no text"),
            },
        }
    }

    /// Begins the part that a marker names.
    fn begin(&mut self, number: usize, marker: &str) -> Result<()> {
        let (kind, rest) = marker.split_once(' ').unwrap_or((marker, ""));
        match kind {
            "file" => self.begin_file(rest),
            "run" => self.begin_run(number, rest),
            "fail" => self.fail(rest),
            "status" => self.expect_status(rest),
            _ => {
                if self.run.is_none() {
                    bail!("{kind} before a run");
                }
                self.open = Open::Wanted(number, part(self.alloc, kind, rest)?);
                Ok(())
            }
        }
    }

    fn begin_file(&mut self, name: &str) -> Result<()> {
        if self.run.is_some() {
            bail!("a file behind a run");
        }
        self.open = Open::File(unescaped(self.alloc, name)?);
        Ok(())
    }

    fn begin_run(&mut self, line: usize, words: &str) -> Result<()> {
        self.end_run()?;
        self.run = Some(Run {
            line,
            words: words_of(self.alloc, words)?,
            failing: Failing {
                reads: Vec::new(self.alloc),
                outputs: Vec::new(self.alloc),
                errors: Vec::new(self.alloc),
            },
            status: None,
            wanted: Vec::new(self.alloc),
        });
        Ok(())
    }

    fn fail(&mut self, rest: &str) -> Result<()> {
        let (calls, number) = rest.split_once(' ').context("which call fails?")?;
        let number = number.parse::<u64>()?;
        let Some(run) = &mut self.run else {
            bail!("fail before a run");
        };
        match calls {
            "read" => run.failing.reads.push(number)?,
            "output" => run.failing.outputs.push(number)?,
            "error" => run.failing.errors.push(number)?,
            _ => bail!("{calls} is none of read, output, error"),
        }
        Ok(())
    }

    fn expect_status(&mut self, rest: &str) -> Result<()> {
        let status = rest.parse::<u8>()?;
        match &mut self.run {
            Some(run) if run.status.is_none() => run.status = Some(status),
            Some(_) => bail!("a second status"),
            None => bail!("status before a run"),
        }
        Ok(())
    }

    /// Ends the part that is open.
    fn close(&mut self) -> Result<()> {
        let bytes = mem::replace(&mut self.bytes, Vec::new(self.alloc));
        match mem::replace(&mut self.open, Open::Nothing) {
            Open::File(name) => self.files.push(CaseFile { name, bytes })?,
            Open::Wanted(line, part) => {
                if let Some(run) = &mut self.run {
                    run.wanted.push(Wanted { line, part, bytes })?;
                }
            }
            Open::Head | Open::Nothing => {}
        }
        Ok(())
    }

    fn end_run(&mut self) -> Result<()> {
        if let Some(run) = self.run.take() {
            if run.status.is_none() {
                bail!("no status of the run at line {}", run.line);
            }
            self.runs.push(run)?;
        }
        Ok(())
    }

    fn end(mut self) -> Result<Case> {
        self.close()?;
        self.end_run()?;
        if self.runs.is_empty() {
            bail!("no run");
        }
        Ok(Case {
            files: self.files,
            runs: self.runs,
        })
    }
}

/// The part of what a run writes that a marker names.
fn part(alloc: Global, kind: &str, rest: &str) -> Result<Part> {
    match (kind, rest) {
        ("output", "") => Ok(Part::Output),
        ("output", "ends") => Ok(Part::OutputEnds),
        ("error", "") => Ok(Part::Error),
        ("error", "ends") => Ok(Part::ErrorEnds),
        ("at", _) => Ok(Part::At(choices(alloc, rest)?)),
        _ => bail!("no part is named {kind} {rest}"),
    }
}

fn choices(alloc: Global, words: &str) -> Result<Vec<Choice>> {
    let mut choices = Vec::new(alloc);
    for word in words.split(' ') {
        let (name, option) = word.split_once('=').context("an option is NAME=OPTION")?;
        choices.push(Choice {
            name: String::from_str(alloc, name)?,
            option: String::from_str(alloc, option)?,
        })?;
    }
    Ok(choices)
}

/// The words between single blanks, with their escapes.
fn words_of(alloc: Global, text: &str) -> Result<Vec<String>> {
    let mut words = Vec::new(alloc);
    words.push(String::from_str(alloc, "superc")?)?;
    for word in text.split(' ') {
        words.push(unescaped(alloc, word)?)?;
    }
    Ok(words)
}

fn unescaped(alloc: Global, text: &str) -> Result<String> {
    let mut bytes = Vec::new(alloc);
    put_unescaped(&mut bytes, text)?;
    String::from_utf8(bytes).context("not UTF-8")
}
