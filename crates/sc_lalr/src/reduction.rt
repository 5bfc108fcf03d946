//! The reductions of a state.
ghost use Rattle.std.specs.Prelude.{◌≡◌, ◌<◌, ◌+◌, ◌↔◌, ℕ, length, map, slice_index, IfOk, All};
ghost use Rattle.std.specs.List.{Contains};
ghost use Rattle.std.specs.List.Sorted.{IsStrictlyIncreasing};
ghost use Rattle.lr_tables.specs.Grammar.{IsGrammar, production_at};
ghost use Rattle.lr_tables.specs.declared.grammar.Grammar.{Grammar};
ghost use Rattle.sc_items.specs.Kernel.{IsListOf};
ghost use Rattle.sc_items.specs.States.{AreStates, kernels_of};
ghost use Rattle.sc_lalr.specs.Tables.{AreEnds, EndsIn, IsMarkedEnd};

use lr_tables::Grammar;
use sc_base::OutOfMemory;
use sc_items::{States, after, production_at};
use std::alloc::Global;

/// The items of the state whose dot stands at the end.
pub fn ends(
    alloc: Global,
    grammar: &Grammar,
    states: &States,
    state: usize,
) -> Result<Vec<usize>, OutOfMemory>
    requires grammar { IsGrammar grammar.now }
    requires states { AreStates grammar.now states.now }
    requires state { state < length (kernels_of states.now) }
    ensures { IfOk result (λ items. IsListOf (length grammar.now.entries.now) (EndsIn grammar.now (kernels_of states.now) state) items.items) }
{
    let mut items = Vec::new(alloc);
    for item in &states.rows[state].members {
        if after(grammar, *item).is_none() {
            items.push(*item)?;
        }
    }
    Ok(items)
}

/// The productions of these items.
pub fn produced(
    alloc: Global,
    grammar: &Grammar,
    items: &[usize],
) -> Result<Vec<usize>, OutOfMemory>
    requires { All (λ item. item < length grammar.now.entries.now) items.now }
    ensures { IfOk result (λ produced. produced.items ≡ map (production_at grammar.now) items.now) }
{
    let mut produced = Vec::new(alloc);
    for item in items {
        produced.push(production_at(grammar, *item))?;
    }
    Ok(produced)
}

/// The productions of those of these items that have the mark. All their productions are given.
pub fn productions(
    alloc: Global,
    items: &[usize],
    produced: &[usize],
    words: &[u64],
    mark: usize,
    numbers: &[usize],
    base: usize,
) -> Result<Vec<usize>, OutOfMemory>
    requires produced { length produced.now ≡ length items.now }
    requires numbers { All (λ item. base + item < length numbers.now) items.now }
    requires words { All (λ item. slice_index numbers.now (base + item) < length words.now) items.now }
    requires mark { mark < 64 }
    ensures rising { IfOk result (λ found. (g : Grammar) → AreEnds g items.now produced.now → IsStrictlyIncreasing found.items) }
    ensures exact { IfOk result (λ found. (g : Grammar) → AreEnds g items.now produced.now
        → (p : ℕ) → Contains found.items p ↔ IsMarkedEnd g words.now mark numbers.now base items.now p) }
{
    let mut found = Vec::new(alloc);
    for (index, item) in items.iter().enumerate() {
        if words[numbers[base + *item]] >> mark & 1 == 1 {
            found.push(produced[index])?;
        }
    }
    Ok(found)
}
