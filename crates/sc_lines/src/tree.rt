ghost use Rattle.std.specs.Prelude.{◌≡◌, ◌<◌, List, map, length, slice_index_or, All, IfOk, IfErr};
ghost use Rattle.sc_base.specs.Seen.{IsHeld};
ghost use Rattle.c11_directives.specs.Lines as model;
ghost use Rattle.sc_lines.specs.Judges.{Judges, no_token};
ghost use Rattle.sc_lines.specs.Nests.{IsTreeOf, Refuses};

use crate::branches::set_branches;
use crate::nest::nest;
use crate::section::Open;
use crate::split::lines;
use crate::{FileTree, Line, NestStop};
use sc_base::{Names, OutOfMemory, Place, Token};
use sc_model::Standard;
use std::alloc::Global;

/// The lines of a file, whose conditional directives are nested.
pub fn groups(
    alloc: Global,
    names: &Names,
    tokens: &[Token],
    standard: Standard,
) -> Result<FileTree, NestStop>
    requires { All (IsHeld names.now) tokens.now }
    ensures ok { IfOk result (IsTreeOf standard names.now tokens.now) }
    ensures err { IfErr result (Refuses standard names.now tokens.now) }
{
    let mut lines = lines(alloc, names, tokens, standard)?;
    match fault_line(alloc, &lines)? {
        None => {
            set_branches(alloc, &mut lines)?;
            Ok(FileTree { lines })
        }
        Some(at) => Err(NestStop::Nesting(place_of(tokens, &lines[at]))),
    }
}

/// The place of a line's first token.
fn place_of(tokens: &[Token], line: &Line) -> Place
    requires { line.now.first < length tokens.now }
    ensures { result ≡ (slice_index_or tokens.now line.now.first no_token).place }
{
    tokens[line.first].place
}

/// The line at which the nesting fails: one that may not stand where it does, or else the innermost
/// that is open at the end.
fn fault_line(alloc: Global, lines: &[Line]) -> Result<Option<usize>, OutOfMemory>
    ensures { IfOk result (λ found. (ms : List model.Line)
        → map model.conditional_of ms ≡ map (λ l. model.conditional_in l.directive) lines.now → Judges ms found) }
{
    let mut sections: Vec<Open> = Vec::new(alloc);
    for (i, line) in lines.iter().enumerate() {
        if !nest(&mut sections, i, line.conditional())? {
            return Ok(Some(i));
        }
    }
    match sections.pop() {
        None => Ok(None),
        Some(section) => Ok(Some(section.head)),
    }
}
