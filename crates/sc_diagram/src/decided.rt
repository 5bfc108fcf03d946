//! Operations whose result is told by the nodes at hand.
ghost use Rattle.std.specs.Prelude.{◌≡◌, ◌<◌, ◌≤◌, ◌-◌, IfSome, IfNone, length};
ghost use Rattle.sc_diagram.specs.Diagram.{IsDiagram, variable_of};
ghost use Rattle.sc_diagram.specs.Applied.{IsOption, IsApplication, IsUndecided, IsRest, IsShort, Applies, cofactor};

use crate::operation::{Application, Operation};
use crate::table::{ALWAYS, NEVER, Table};

/// The result of an operation, where it is an end, one of the nodes or a child.
pub fn decided(table: &Table, what: Application) -> Option<usize>
    requires { IsApplication table.now what }
    ensures some { IfSome result (λ r. Applies table.now what r) }
    ensures none { IfNone result (IsUndecided table.now what) }
    ensures valid { IsDiagram table.now }
{
    let Application {
        operation,
        left,
        right,
    } = what;
    let _count = table.count();
    match operation {
        Operation::And => short(left, right, NEVER, ALWAYS),
        Operation::Or => short(left, right, ALWAYS, NEVER),
        Operation::Without => decided_without(left, right),
        Operation::Negate => decided_negate(left),
        Operation::Part(variable, option) => decided_part(table, left, variable, option),
    }
}

#[tactic(auto, using(crate::specs::Applied::left_absorbs, crate::specs::Applied::right_neutral, crate::specs::Applied::same, crate::specs::Applied::right_absorbs, crate::specs::Applied::left_neutral))]
/// The node that an operation makes of two, where one is its absorbing or its neutral element, or
/// where they are the same.
fn short(left: usize, right: usize, absorbing: usize, neutral: usize) -> Option<usize>
    ensures some { IfSome result (λ r. IsShort left right absorbing neutral r) }
    ensures none { IfNone result ((left ≡ absorbing → ⊥) × (left ≡ neutral → ⊥)) }
{
    if left == absorbing || right == neutral || left == right {
        Some(left)
    } else if right == absorbing || left == neutral {
        Some(right)
    } else {
        None
    }
}

#[tactic(auto, using(crate::specs::Applied::nothing, crate::specs::Applied::whole))]
fn decided_without(left: usize, right: usize) -> Option<usize>
    ensures some { IfSome result (λ r. IsRest left right r) }
    ensures none { IfNone result (2 ≤ right) }
{
    if left == NEVER || right == ALWAYS || left == right {
        Some(NEVER)
    } else if right == NEVER {
        Some(left)
    } else {
        None
    }
}

fn decided_negate(left: usize) -> Option<usize>
    ensures some { IfSome result (λ r. (left < 2) × (r ≡ 1 - left)) }
    ensures none { IfNone result (2 ≤ left) }
{
    match left {
        NEVER => Some(ALWAYS),
        ALWAYS => Some(NEVER),
        _ => None,
    }
}

fn decided_part(table: &Table, left: usize, variable: usize, option: usize) -> Option<usize>
    requires own { left < length table.now.nodes }
    requires option { IsOption table.now.arities variable option }
    ensures some { IfSome result (λ r. (variable ≤ variable_of table.now left) × (r ≡ cofactor table.now left variable option)) }
    ensures none { IfNone result (variable_of table.now left < variable) }
{
    if table.variable(left) < variable {
        None
    } else {
        Some(table.cofactor(left, variable, option))
    }
}
