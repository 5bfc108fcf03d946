//! Lookaheads.
ghost use Rattle.std.specs.Prelude.{◌≡◌, ◌<◌, ◌↔◌, ◌+◌, ◌%◌, ℕ, List, length, map, IfOk, All, IsTrue};
ghost use Rattle.lr_tables.specs.Grammar.{IsGrammar};
ghost use Rattle.sc_items.specs.Kernel.{IsOpened};
ghost use Rattle.sc_items.specs.States.{AreStates, kernels_of};
ghost use Rattle.sc_lalr.specs.Propagation.{AreNodes, HavePlaces, AreSources, AreLookaheads, IsFollowed, SeedFits, Seeds, behind_of, opened_part};
ghost use Rattle.sc_lalr.specs.Marks.{HasMark, IsGiven};

use crate::first::{beginners, leading};
use crate::nodes::Nodes;
use crate::propagation::propagation;
use crate::spread::spread;
use lr_tables::Grammar;
use sc_base::OutOfMemory;
use sc_items::{States, after, opened};
use std::alloc::Global;

/// For each 64 terminals the marks of the nodes of which they are lookaheads.
pub fn lookaheads(
    alloc: Global,
    grammar: &Grammar,
    states: &States,
    nodes: &Nodes,
) -> Result<Vec<Vec<u64>>, OutOfMemory>
    requires grammar { IsGrammar grammar.now }
    requires states { AreStates grammar.now states.now }
    requires nodes { AreNodes grammar.now (kernels_of states.now) nodes.now }
    ensures { IfOk result (λ rows. AreLookaheads grammar.now (kernels_of states.now) nodes.now rows.items) }
{
    let opened = opened(alloc, grammar)?;
    let leading = leading(alloc, grammar)?;
    let sources = sources(alloc, grammar, nodes)?;
    let behind = behind(alloc, grammar, &sources)?;
    let edges = propagation(alloc, grammar, states, nodes, &opened)?;
    let mut rows = Vec::new(alloc);
    for block in 0..grammar.terminals / 64 + 1 {
        let first = beginners(alloc, &leading, block * 64)?;
        let mut words = spontaneous(alloc, grammar, nodes, &opened, &sources, &behind, &first)?;
        spread(alloc, &edges, &mut words)?;
        rows.push(words)?;
    }
    Ok(rows)
}

/// The places of the items that are followed by a symbol behind the symbol after the dot.
fn sources(alloc: Global, grammar: &Grammar, nodes: &Nodes) -> Result<Vec<usize>, OutOfMemory>
    requires grammar { IsGrammar grammar.now }
    requires nodes { HavePlaces grammar.now nodes.now }
    ensures { IfOk result (λ places. (states : List (List ℕ)) → AreNodes grammar.now states nodes.now → AreSources grammar.now states places.items) }
{
    let mut sources = Vec::new(alloc);
    for place in &nodes.places {
        if is_followed(grammar, *place % grammar.entries.len()) {
            sources.push(*place)?;
        }
    }
    Ok(sources)
}

/// The symbols behind the symbols after the dots of the items with these places.
fn behind(
    alloc: Global,
    grammar: &Grammar,
    sources: &[usize],
) -> Result<Vec<Option<usize>>, OutOfMemory>
    requires grammar { IsGrammar grammar.now }
    requires within { All (λ p. p % length grammar.now.entries.now < length grammar.now.entries.now) sources.now }
    ensures { IfOk result (λ symbols. symbols.items ≡ map (behind_of grammar.now) sources.now) }
{
    let mut symbols = Vec::with_capacity(alloc, sources.len())?;
    for source in sources {
        symbols.push(after(grammar, *source % grammar.entries.len() + 1))?;
    }
    Ok(symbols)
}

/// Whether a symbol stands behind the symbol after the dot.
fn is_followed(grammar: &Grammar, item: usize) -> bool
    requires grammar { IsGrammar grammar.now }
    requires item { item < length grammar.now.entries.now }
    ensures { IsTrue result ↔ IsFollowed grammar.now item }
{
    if after(grammar, item).is_none() {
        return false;
    }
    after(grammar, item + 1).is_some()
}

/// The marks that the nodes get from the symbols behind the symbols after the dots, by the first
/// terminals of what can be derived from these.
fn spontaneous(
    alloc: Global,
    grammar: &Grammar,
    nodes: &Nodes,
    opened: &[Vec<usize>],
    sources: &[usize],
    behind: &[Option<usize>],
    first: &[u64],
) -> Result<Vec<u64>, OutOfMemory>
    requires grammar { IsGrammar grammar.now }
    requires opened { IsOpened grammar.now opened.now }
    requires fits { All (SeedFits grammar.now nodes.now opened.now) sources.now }
    requires behind { behind.now ≡ map (behind_of grammar.now) sources.now }
    requires first { length first.now ≡ grammar.now.terminals + grammar.now.nonterminals }
    ensures len { IfOk result (λ words. length words.items ≡ length nodes.now.places.items) }
    ensures seeds { IfOk result (λ words. (b v : ℕ) → HasMark words.items b v ↔ Seeds grammar.now nodes.now opened.now first.now sources.now b v) }
{
    let mut words = vec![in alloc; 0; nodes.places.len()]?;
    for (index, source) in sources.iter().enumerate() {
        match behind[index] {
            None => {}
            Some(next) => seed(&mut words, grammar, nodes, opened, *source, first[next]),
        }
    }
    Ok(words)
}

/// Gives the marks of the word to what the item with this place opens.
fn seed(
    words: &mut Vec<u64>,
    grammar: &Grammar,
    nodes: &Nodes,
    opened: &[Vec<usize>],
    source: usize,
    word: u64,
)
    requires opened { IsOpened grammar.now opened.now }
    requires fits { SeedFits grammar.now nodes.now opened.now source }
    requires len { length words.old.items ≡ length nodes.now.places.items }
    ensures { IsGiven words.old.items words.new.items (opened_part grammar.now nodes.now.numbers.items opened.now source) word }
{
    let n = grammar.entries.len();
    let base = source / n * n;
    for item in &opened[source % n] {
        words[nodes.numbers[base + *item]] |= word;
    }
}
