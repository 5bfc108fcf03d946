//! Nodes that decide by fewer variables, where not all configurations are asked for.
ghost use Rattle.std.specs.Prelude.{◌≡◌, ◌<◌, ◌⊎◌, ℕ, IfOk, length, slice_index};
ghost use Rattle.sc_diagram.specs.Applied.{IsKnown, cofactor};
ghost use Rattle.sc_diagram.specs.Diagram.{variable_of};
ghost use Rattle.sc_diagram.specs.Grown.{Grows};
ghost use Rattle.sc_diagram.specs.Simplified.{AreAnswers, IsQuestion, IsWider, Simplifies, question_at};

use crate::answers::{Answers, Question};
use crate::apply::apply;
use crate::known::Known;
use crate::operation::{Application, Operation};
use crate::table::{ALWAYS, NEVER, Table};
use sc_base::OutOfMemory;
use smallvec::SmallVec;

/// A node that has, of the configurations that are asked for, those of the question's node, and
/// decides by none but its variables. With an option of which nothing is asked it goes on as with
/// another one (Coudert and Madre 1990).
pub fn simplify(
    table: &mut Table,
    known: &mut Known,
    answers: &mut Answers,
    asked: Question,
) -> Result<usize, OutOfMemory>
    requires question { IsQuestion table.old asked }
    requires known { IsKnown table.old known.old }
    requires answers { AreAnswers table.old answers.old }
    ensures simplifies { IfOk result (λ r. Simplifies table.new asked r) }

    // at every outcome
    ensures grows { Grows table.old table.new }
    ensures known { IsKnown table.new known.new }
    ensures answers { AreAnswers table.new answers.new }
{
    let _count = table.count();
    let Question { node, within } = asked;
    if node == within {
        return Ok(ALWAYS);
    }
    if node <= ALWAYS || within <= ALWAYS {
        return Ok(node);
    }
    if let Some(result) = answers.find(asked) {
        return Ok(result);
    }
    let variable = table.variable(node);
    if table.variable(within) < variable {
        let within = widened(table, known, within)?;
        return simplify(table, known, answers, Question { node, within });
    }
    let mut children: SmallVec<usize, 2> = SmallVec::new(table.allocator());
    for option in 0..table.arity(variable) {
        let like = option_like(table, within, variable, option);
        let child = simplify(
            table,
            known,
            answers,
            question_at(table, asked, variable, like),
        )?;
        children.push(child)?;
    }
    let result = table.choice(variable, children.as_slice())?;
    answers.add(asked, result);
    Ok(result)
}

/// The option, or another one where the node has nothing with it.
fn option_like(table: &Table, node: usize, variable: usize, option: usize) -> usize
    requires own { node < length table.now.nodes }
    requires variable { variable < length table.now.arities }
    requires option { option < slice_index table.now.arities variable }
    ensures within { result < slice_index table.now.arities variable }
    ensures like { (cofactor table.now node variable option ≡ 0) ⊎ (result ≡ option) }
    ensures some { cofactor table.now node variable result ≡ 0 → (k : ℕ) → k < slice_index table.now.arities variable → cofactor table.now node variable k ≡ 0 }
{
    if table.cofactor(node, variable, option) != NEVER {
        return option;
    }
    for other in 0..table.arity(variable) {
        if table.cofactor(node, variable, other) != NEVER {
            return other;
        }
    }
    option
}

/// The question on what remains of its nodes where the variable has the option.
fn question_at(table: &Table, asked: Question, variable: usize, option: usize) -> Question
    requires question { IsQuestion table.now asked }
    requires variable { variable < length table.now.arities }
    requires option { option < slice_index table.now.arities variable }
    ensures { result ≡ question_at table.now asked variable option }
{
    Question {
        node: table.cofactor(asked.node, variable, option),
        within: table.cofactor(asked.within, variable, option),
    }
}

/// A node that has all configurations of this one, and does not decide by its variable.
fn widened(table: &mut Table, known: &mut Known, node: usize) -> Result<usize, OutOfMemory>
    requires own { node < length table.old.nodes }
    requires inner { variable_of table.old node < length table.old.arities }
    requires known { IsKnown table.old known.old }
    ensures wider { IfOk result (λ r. IsWider table.new node r) }

    // at every outcome
    ensures grows { Grows table.old table.new }
    ensures known { IsKnown table.new known.new }
{
    let _count = table.count();
    let variable = table.variable(node);
    let mut wider = NEVER;
    for option in 0..table.arity(variable) {
        let what = Application {
            operation: Operation::Or,
            left: wider,
            right: table.cofactor(node, variable, option),
        };
        wider = apply(table, known, what)?;
    }
    Ok(wider)
}
