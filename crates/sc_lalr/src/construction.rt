//! The tables of a grammar from its states.
ghost use Rattle.std.specs.Prelude.{◌<◌, ◌+◌, length, IfOk, OnOk};
ghost use Rattle.lr_tables.specs.Grammar.{IsGrammar};
ghost use Rattle.sc_items.specs.States.{AreStates, kernels_of};
ghost use Rattle.sc_lalr.specs.Propagation.{AreNodes, AreLookaheads};
ghost use Rattle.sc_lalr.specs.Tables.{AreTables};
ghost use Rattle.sc_lalr.specs.Building.{AreActions, AreGotos, AreConflicts};

use crate::Tables;
use crate::conflict::{kept, note_conflicts};
use crate::lookahead::lookaheads;
use crate::nodes::{Nodes, nodes_of};
use crate::reduction::{ends, produced, productions};
use lr_tables::{Action, Conflict, Grammar, Terminal};
use sc_base::OutOfMemory;
use sc_items::States;
use std::alloc::Global;

/// The LALR(1) tables of a grammar with these states.
pub fn build(alloc: Global, grammar: &Grammar, states: &States) -> Result<Tables, OutOfMemory>
    requires grammar { IsGrammar grammar.now }
    requires states { AreStates grammar.now states.now }
    ensures { IfOk result (AreTables grammar.now) }
{
    let Some(_nodes) = states.len().checked_mul(grammar.entries.len()) else {
        return Err(OutOfMemory);
    };
    let nodes = nodes_of(alloc, grammar, states)?;
    let ahead = lookaheads(alloc, grammar, states, &nodes)?;
    let mut actions = Vec::new(alloc);
    let mut gotos = Vec::new(alloc);
    let mut conflicts = Vec::new(alloc);
    for state in 0..states.len() {
        actions.push(action_row(
            alloc,
            grammar,
            states,
            &nodes,
            &ahead,
            state,
            &mut conflicts,
        )?)?;
        gotos.push(goto_row(alloc, grammar, states, state)?)?;
    }
    Ok(Tables {
        actions,
        gotos,
        conflicts,
    })
}

/// The actions of a state, with its conflicts.
fn action_row(
    alloc: Global,
    grammar: &Grammar,
    states: &States,
    nodes: &Nodes,
    ahead: &[Vec<u64>],
    state: usize,
    conflicts: &mut Vec<Conflict>,
) -> Result<Vec<Option<Action>>, OutOfMemory>
    requires grammar { IsGrammar grammar.now }
    requires states { AreStates grammar.now states.now }
    requires nodes { AreNodes grammar.now (kernels_of states.now) nodes.now }
    requires ahead { AreLookaheads grammar.now (kernels_of states.now) nodes.now ahead.now }
    requires state { state < length (kernels_of states.now) }
    requires conflicts { AreConflicts grammar.now (kernels_of states.now) state 0 conflicts.old.items }
    ensures actions { IfOk result (λ row. AreActions grammar.now (kernels_of states.now) state grammar.now.terminals row.items) }
    ensures conflicts { OnOk result (AreConflicts grammar.now (kernels_of states.now) (state + 1) 0 conflicts.new.items) }
{
    let ends = ends(alloc, grammar, states, state)?;
    let produced = produced(alloc, grammar, &ends)?;
    let mut row = Vec::with_capacity(alloc, grammar.terminals)?;
    for terminal in 0..grammar.terminals {
        let found = productions(
            alloc,
            &ends,
            &produced,
            &ahead[terminal / 64],
            terminal % 64,
            &nodes.numbers,
            state * grammar.entries.len(),
        )?;
        let shift = states.goto(state, terminal);
        row.push(kept(shift, &found))?;
        note_conflicts(conflicts, state, Terminal(terminal), shift, &found)?;
    }
    Ok(row)
}

/// The gotos of a state by nonterminals.
fn goto_row(
    alloc: Global,
    grammar: &Grammar,
    states: &States,
    state: usize,
) -> Result<Vec<Option<usize>>, OutOfMemory>
    requires grammar { IsGrammar grammar.now }
    requires states { AreStates grammar.now states.now }
    ensures { IfOk result (λ row. AreGotos grammar.now (kernels_of states.now) state grammar.now.nonterminals row.items) }
{
    let mut row = Vec::with_capacity(alloc, grammar.nonterminals)?;
    for nonterminal in 0..grammar.nonterminals {
        row.push(states.goto(state, grammar.terminals + nonterminal))?;
    }
    Ok(row)
}
