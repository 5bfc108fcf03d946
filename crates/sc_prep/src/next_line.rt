ghost use Rattle.std.specs.Prelude.{◌≡◌, ◌+◌, ◌<◌, ◌≤◌, ◌^◌, List, length, unwrap_or, MatchBool};
ghost use Rattle.std.specs.Option.{option_map};
ghost use Rattle.c11_directives.specs.Lines as model;
ghost use Rattle.sc_lines.specs.Branches as branches;
ghost use Rattle.sc_prep.specs.Passes.{StandFor, EndsAt};

use c11_directives::Conditional;
use sc_lines::Line;

/// The number of the line to go on with after this one. Where the rest of the branch is passed
/// over, it is the line that ends the branch.
pub fn next_line(lines: &[Line], number: usize, is_passed: bool) -> usize
    requires within { number < length lines.now }
    requires branches { (ms : List model.Line) × StandFor ms lines.now }
    ensures { (ms : List model.Line) → StandFor ms lines.now → MatchBool is_passed (EndsAt ms (number + 1) result) (result ≡ number + 1) }
{
    if !is_passed {
        return number + 1;
    }
    match lines[number].branch {
        Some(branch) => branch.next,
        None => branch_end(lines, number + 1),
    }
}

/// The number of the line that ends the branch in which these lines stand.
fn branch_end(lines: &[Line], first: usize) -> usize
    requires within { first ≤ length lines.now }
    requires branches { (ms : List model.Line) × StandFor ms lines.now }
    ensures { (ms : List model.Line) → StandFor ms lines.now → EndsAt ms first result }
{
    let mut number = first;
    while number < lines.len() {
        let line = &lines[number];
        if ends_branch(line) {
            return number;
        }
        number = last_line(number, line) + 1;
    }
    number
}

/// The number of the last line of the section that a line opens, or else of the line itself.
fn last_line(number: usize, line: &Line) -> usize
    ensures { result ≡ unwrap_or (option_map (λ b. b.close) line.now.branch) number }
{
    match line.branch {
        Some(branch) => branch.close,
        None => number,
    }
}

fn ends_branch(line: &Line) -> bool
    ensures { result ≡ branches.ends_branch (model.conditional_in line.now.directive) }
{
    matches!(
        line.conditional(),
        Some(Conditional::Alternative(_) | Conditional::Else | Conditional::Endif)
    )
}
