ghost use Rattle.std.specs.Prelude.{◌≡◌, ◌<◌, IfOk, length, slice_index};
ghost use Rattle.sc_diagram.specs.Diagram.{variable_of};
ghost use Rattle.sc_diagram.specs.Grown.{Grows, AddsOnly};
ghost use Rattle.sc_diagram.specs.Applied.{IsApplication, IsKnown, Applies, application_at, first_of};

use crate::decided::decided;
use crate::known::Known;
use crate::operation::Application;
use crate::table::Table;
use sc_base::OutOfMemory;
use smallvec::SmallVec;

/// What an operation makes of its nodes, as deep as there are variables. What it did before is
/// looked up.
pub fn apply(table: &mut Table, known: &mut Known, what: Application) -> Result<usize, OutOfMemory>
    requires application { IsApplication table.old what }
    requires known { IsKnown table.old known.old }
    ensures applies { IfOk result (λ r. Applies table.new what r) }
    ensures adds { IfOk result (λ r. AddsOnly table.old table.new r) }

    // at every outcome
    ensures grows { Grows table.old table.new }
    ensures known { IsKnown table.new known.new }
{
    if let Some(result) = decided(table, what) {
        return Ok(result);
    }
    if let Some(result) = known.find(what) {
        return Ok(result);
    }
    let variable = first_variable(table, what);
    if table.arity(variable) == 2 {
        let (first, second) = applications(table, what, variable);
        let first = apply(table, known, first)?;
        let second = apply(table, known, second)?;
        let node = table.choice(variable, &[first, second])?;
        known.add(what, node);
        return Ok(node);
    }
    let mut children: SmallVec<usize, 2> = SmallVec::new(table.allocator());
    for option in 0..table.arity(variable) {
        let child = apply(table, known, application_at(table, what, variable, option))?;
        children.push(child)?;
    }
    let result = table.choice(variable, children.as_slice())?;
    known.add(what, result);
    Ok(result)
}

/// The first variable by which the nodes of an operation decide.
fn first_variable(table: &Table, what: Application) -> usize
    requires { IsApplication table.now what }
    ensures { result ≡ first_of table.now what }
{
    table.variable(what.left).min(table.variable(what.right))
}

/// The operation on what remains of its nodes with each of the two options of their first variable.
fn applications(table: &Table, what: Application, variable: usize) -> (Application, Application)
    requires own { IsApplication table.now what }
    requires variable { variable < length table.now.arities }
    requires two { slice_index table.now.arities variable ≡ 2 }
    ensures first { result.0 ≡ application_at table.now what variable 0 }
    ensures second { result.1 ≡ application_at table.now what variable 1 }
{
    let operation = what.operation;
    let (first_left, second_left) = table.cofactors(what.left, variable);
    let (first_right, second_right) = table.cofactors(what.right, variable);
    let first = Application {
        operation,
        left: first_left,
        right: first_right,
    };
    let second = Application {
        operation,
        left: second_left,
        right: second_right,
    };
    (first, second)
}

/// The operation on what remains of its nodes where their first variable has the option.
fn application_at(table: &Table, what: Application, variable: usize, option: usize) -> Application
    requires own { IsApplication table.now what }
    requires variable { variable < length table.now.arities }
    requires option { option < slice_index table.now.arities variable }
    ensures { result ≡ application_at table.now what variable option }
{
    Application {
        operation: what.operation,
        left: table.cofactor(what.left, variable, option),
        right: table.cofactor(what.right, variable, option),
    }
}
