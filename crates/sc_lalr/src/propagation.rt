//! How lookaheads are passed on.
ghost use Rattle.std.specs.Prelude.{◌≡◌, ◌<◌, ◌↔◌, ◌+◌, ◌*◌, ◌++◌, ℕ, length, IfOk, IfSome, OnOk, All};
ghost use Rattle.std.specs.List.{Contains};
ghost use Rattle.lr_tables.specs.Grammar.{IsGrammar};
ghost use Rattle.sc_items.specs.Kernel.{IsOpened};
ghost use Rattle.sc_items.specs.Reach.{EdgesWithin};
ghost use Rattle.sc_items.specs.States.{AreStates, kernels_of};
ghost use Rattle.sc_lalr.specs.Propagation.{AreNodes, PassesTo, IsPropagation, along_part, into_part, numbers_at};

use crate::nodes::Nodes;
use lr_tables::Grammar;
use sc_base::OutOfMemory;
use sc_items::{States, after};
use std::alloc::Global;

/// For each node those to which its lookaheads are passed on.
pub fn propagation(
    alloc: Global,
    grammar: &Grammar,
    states: &States,
    nodes: &Nodes,
    opened: &[Vec<usize>],
) -> Result<Vec<Vec<usize>>, OutOfMemory>
    requires grammar { IsGrammar grammar.now }
    requires states { AreStates grammar.now states.now }
    requires nodes { AreNodes grammar.now (kernels_of states.now) nodes.now }
    requires opened { IsOpened grammar.now opened.now }
    ensures rows { IfOk result (λ rows. IsPropagation grammar.now (kernels_of states.now) nodes.now rows.items) }
    ensures edges { IfOk result (λ rows. EdgesWithin rows.items) }
{
    let mut rows = Vec::with_capacity(alloc, nodes.places.len())?;
    for node in 0..nodes.places.len() {
        rows.push(passed(alloc, grammar, states, nodes, opened, node)?)?;
    }
    Ok(rows)
}

/// The nodes to which the lookaheads of one are passed on.
fn passed(
    alloc: Global,
    grammar: &Grammar,
    states: &States,
    nodes: &Nodes,
    opened: &[Vec<usize>],
    node: usize,
) -> Result<Vec<usize>, OutOfMemory>
    requires grammar { IsGrammar grammar.now }
    requires states { AreStates grammar.now states.now }
    requires nodes { AreNodes grammar.now (kernels_of states.now) nodes.now }
    requires opened { IsOpened grammar.now opened.now }
    requires node { node < length nodes.now.places.items }
    ensures { IfOk result (λ targets. (v : ℕ) → Contains targets.items v ↔ PassesTo grammar.now (kernels_of states.now) nodes.now node v) }
{
    let n = grammar.entries.len();
    let place = nodes.places[node];
    let state = place / n;
    let item = place % n;
    let Some(symbol) = after(grammar, item) else {
        return Ok(Vec::new(alloc));
    };
    let mut targets = along(alloc, &nodes.numbers, n, item, states.goto(state, symbol))?;
    into_opened(
        &mut targets,
        &nodes.numbers,
        state * n,
        after(grammar, item + 1),
        &opened[item],
    )?;
    Ok(targets)
}

/// The item with the dot moved on, in the goto.
fn along(
    alloc: Global,
    numbers: &[usize],
    n: usize,
    item: usize,
    target: Option<usize>,
) -> Result<Vec<usize>, OutOfMemory>
    requires { IfSome target (λ state. state * n + (item + 1) < length numbers.now) }
    ensures { IfOk result (λ nodes. nodes.items ≡ along_part numbers.now n item target) }
{
    let mut nodes = Vec::new(alloc);
    if let Some(state) = target {
        nodes.push(numbers[state * n + (item + 1)])?;
    }
    Ok(nodes)
}

/// The items that are opened, where nothing stands behind the symbol after the dot.
fn into_opened(
    nodes: &mut Vec<usize>,
    numbers: &[usize],
    base: usize,
    next: Option<usize>,
    opened: &[usize],
) -> Result<(), OutOfMemory>
    requires { All (λ item. base + item < length numbers.now) opened.now }
    ensures { OnOk result (nodes.new.items ≡ nodes.old.items ++ into_part numbers.now base next opened.now) }
{
    match next {
        None => numbered(nodes, numbers, base, opened),
        Some(_) => Ok(()),
    }
}

/// Adds the nodes of these items of the state whose places begin at the base.
pub fn numbered(
    nodes: &mut Vec<usize>,
    numbers: &[usize],
    base: usize,
    items: &[usize],
) -> Result<(), OutOfMemory>
    requires { All (λ item. base + item < length numbers.now) items.now }
    ensures { OnOk result (nodes.new.items ≡ nodes.old.items ++ numbers_at numbers.now base items.now) }
{
    for item in items {
        nodes.push(numbers[base + *item])?;
    }
    Ok(())
}
