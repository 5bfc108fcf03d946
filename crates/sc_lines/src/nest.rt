ghost use Rattle.std.specs.Prelude.{◌≡◌, None, Some, IfOk, MatchBool};
ghost use Rattle.c11_directives.specs.Sections.{nest_by, next_branch};
ghost use Rattle.sc_lines.specs.Sections.{sections_of};

use crate::section::Open;
use c11_directives::Conditional;
use sc_base::OutOfMemory;

/// Whether a line may stand where these sections are open, which it opens, continues or closes.
pub fn nest(
    sections: &mut Vec<Open>,
    line: usize,
    conditional: Option<Conditional>,
) -> Result<bool, OutOfMemory>
    ensures { IfOk result (λ fits. MatchBool fits
        (nest_by line (sections_of sections.old.items) conditional ≡ Some (sections_of sections.new.items))
        (nest_by line (sections_of sections.old.items) conditional ≡ None)) }
{
    match conditional {
        None => Ok(true),
        Some(Conditional::Opening(_)) => {
            sections.push(Open {
                head: line,
                has_else: false,
            })?;
            Ok(true)
        }
        Some(Conditional::Alternative(_)) => Ok(begin_branch(sections, false)),
        Some(Conditional::Else) => Ok(begin_branch(sections, true)),
        Some(Conditional::Endif) => Ok(sections.pop().is_some()),
    }
}

/// Whether the innermost section may have one more branch, which may be its last.
fn begin_branch(sections: &mut Vec<Open>, is_last: bool) -> bool
    ensures { MatchBool result
        (next_branch is_last (sections_of sections.old.items) ≡ Some (sections_of sections.new.items))
        (next_branch is_last (sections_of sections.old.items) ≡ None) }
{
    let Some(section) = sections.pop() else {
        return false;
    };
    if section.has_else {
        return false;
    }
    sections.push_reserved(Open {
        head: section.head,
        has_else: is_last,
    });
    true
}
