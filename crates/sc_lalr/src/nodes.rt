//! The nodes of the graph along which lookaheads are passed on: the items that stand in the states.
//!
//! Item `i` of state `s` has the place `s * n + i`, where `n` is the number of the items.
ghost use Rattle.std.specs.Prelude.{◌<◌, ◌*◌, ◌^◌, length, IfOk};
ghost use Rattle.sc_items.specs.States.{AreStates, kernels_of};
ghost use Rattle.sc_lalr.specs.Propagation.{AreNodes};

use lr_tables::Grammar;
use sc_base::OutOfMemory;
use sc_items::States;
use std::alloc::Global;

/// The items that stand in the states.
#[derive(Drop)]
pub struct Nodes {
    /// Of each node its place.
    pub places: Vec<usize>,
    /// Of each place the number of its node, where it has one, or else 0.
    pub numbers: Vec<usize>,
}

/// Numbers the items that stand in the states.
pub fn nodes_of(alloc: Global, grammar: &Grammar, states: &States) -> Result<Nodes, OutOfMemory>
    requires states { AreStates grammar.now states.now }
    requires small { length (kernels_of states.now) * length grammar.now.entries.now < 2 ^ 64 }
    ensures { IfOk result (AreNodes grammar.now (kernels_of states.now)) }
{
    let n = grammar.entries.len();
    let mut places = Vec::new(alloc);
    let mut numbers = vec![in alloc; 0; states.len() * n]?;
    for state in 0..states.len() {
        for item in &states.rows[state].members {
            let place = state * n + *item;
            numbers[place] = places.len();
            places.push(place)?;
        }
    }
    Ok(Nodes { places, numbers })
}
