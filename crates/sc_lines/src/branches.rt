ghost use Rattle.std.specs.Prelude.{◌≡◌, List, map, reverse, IfOk, OnOk};
ghost use Rattle.c11_directives.specs.Lines as model;
ghost use Rattle.sc_lines.specs.Branches.{HasBranches, without_branch};
ghost use Rattle.sc_lines.specs.Unread.{branch_at, branch_here, innermost, sections_at};

use crate::{Branch, Line};
use c11_directives::Conditional;
use sc_base::OutOfMemory;
use std::alloc::Global;

/// Gives each line the branch that it begins, where it begins one. The lines are nested.
pub fn set_branches(alloc: Global, lines: &mut [Line]) -> Result<(), OutOfMemory>
    ensures branches { OnOk result ((ms : List model.Line) (group : model.Group)
        → map model.conditional_of ms ≡ map (λ l. model.conditional_in l.directive) lines.old → model.IsTree ms group → HasBranches ms lines.new) }

    // at every outcome
    ensures others { map without_branch lines.new ≡ map without_branch lines.old }
{
    let mut sections: Vec<Branch> = Vec::new(alloc);
    for i in (0..lines.len()).rev() {
        lines[i].branch = branch(&mut sections, i, lines[i].conditional())?;
    }
    Ok(())
}

/// The branch that a line begins. The lines are read from the last to the first: behind this one,
/// the sections hold the next branch and the close of each section that is open there, the
/// innermost last.
fn branch(
    sections: &mut Vec<Branch>,
    line: usize,
    conditional: Option<Conditional>,
) -> Result<Option<Branch>, OutOfMemory>
    ensures begins { IfOk result (λ found. found ≡ branch_at (reverse sections.old.items) conditional) }
    ensures opens { IfOk result (λ _. reverse sections.new.items ≡ sections_at line (reverse sections.old.items) conditional) }
{
    match conditional {
        None => Ok(None),
        Some(Conditional::Opening(_)) => Ok(sections.pop()),
        Some(Conditional::Alternative(_) | Conditional::Else) => Ok(later_branch(sections, line)),
        Some(Conditional::Endif) => {
            sections.push(Branch {
                next: line,
                close: line,
            })?;
            Ok(None)
        }
    }
}

/// The branch that a later line of a section begins.
fn later_branch(sections: &mut Vec<Branch>, line: usize) -> Option<Branch>
    ensures begins { result ≡ innermost (reverse sections.old.items) }
    ensures opens { reverse sections.new.items ≡ branch_here line (reverse sections.old.items) }
{
    let branch = sections.pop()?;
    sections.push_reserved(Branch {
        next: line,
        close: branch.close,
    });
    Some(branch)
}
