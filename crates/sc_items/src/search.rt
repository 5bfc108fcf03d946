//! The search for the states: from each one found, in order, over each symbol, in order.
ghost use Rattle.std.specs.Prelude.{◌<◌, ◌+◌, length, IfOk, OnOk};
ghost use Rattle.lr_tables.specs.Grammar.{IsGrammar};
ghost use Rattle.sc_items.specs.Reach.{EdgesWithin};
ghost use Rattle.sc_items.specs.Kernel.{AreEmpty, IsOpened, lists};
ghost use Rattle.sc_model.specs.Growth.{Extends};
ghost use Rattle.sc_items.specs.Found.{Found, IsStep};
ghost use Rattle.sc_items.specs.States.{IsState, AreStates};

use crate::kernel::{empty_rows, members, moved, number, opened, start};
use crate::{State, States, reachable};
use indexmap::IndexSet;
use lr_tables::Grammar;
use sc_base::OutOfMemory;
use std::alloc::Global;
use std::mem;

/// The LR(0) states of a grammar.
pub fn states(alloc: Global, grammar: &Grammar) -> Result<States, OutOfMemory>
    requires { IsGrammar grammar.now }
    ensures { IfOk result (AreStates grammar.now) }
{
    let opened = opened(alloc, grammar)?;
    let mut next = empty_rows(alloc, grammar.terminals + grammar.nonterminals)?;
    let mut kernels = IndexSet::new(alloc);
    number(&mut kernels, start(alloc, grammar)?)?;
    let mut rows = Vec::new(alloc);
    'search: while rows.len() < kernels.len() {
        let number = rows.len();
        rows.push(explored(alloc, grammar, &opened, &mut next, &mut kernels, number)?)?;
    }
    Ok(States { kernels, rows })
}

/// A state that was found, with all that follows from it. The rows have room for the kernels that
/// follow by each symbol.
fn explored(
    alloc: Global,
    grammar: &Grammar,
    opened: &[Vec<usize>],
    next: &mut Vec<Vec<usize>>,
    kernels: &mut IndexSet<Vec<usize>>,
    state: usize,
) -> Result<State, OutOfMemory>
    requires grammar { IsGrammar grammar.now }
    requires opened { IsOpened grammar.now opened.now }
    requires edges { EdgesWithin opened.now }
    requires next { AreEmpty (grammar.now.terminals + grammar.now.nonterminals) next.old.items }
    requires found { Found grammar.now (lists kernels.old.keys) state 0 }
    requires state { state < length kernels.old.keys }
    ensures next { OnOk result (AreEmpty (grammar.now.terminals + grammar.now.nonterminals) next.new.items) }
    ensures found { OnOk result (Found grammar.now (lists kernels.new.keys) (state + 1) 0) }
    ensures keeps { OnOk result (Extends (lists kernels.old.keys) (lists kernels.new.keys)) }
    ensures state { IfOk result (IsState grammar.now (lists kernels.new.keys) state) }
{
    let items = reachable(alloc, opened, &kernels[state])?;
    let members = members(alloc, &items)?;
    moved(grammar, &members, next)?;
    let mut gotos = Vec::with_capacity(alloc, grammar.terminals + grammar.nonterminals)?;
    for symbol in 0..grammar.terminals + grammar.nonterminals {
        let kernel = mem::replace(&mut next[symbol], Vec::new(alloc));
        gotos.push(goto(kernels, kernel)?)?;
    }
    Ok(State {
        items,
        members,
        gotos,
    })
}

/// The state with this kernel, where it has an item.
fn goto(
    kernels: &mut IndexSet<Vec<usize>>,
    kernel: Vec<usize>,
) -> Result<Option<usize>, OutOfMemory>
    ensures { IfOk result (IsStep kernel.items (lists kernels.old.keys) (lists kernels.new.keys)) }
{
    if kernel.is_empty() {
        return Ok(None);
    }
    Ok(Some(number(kernels, kernel)?))
}
