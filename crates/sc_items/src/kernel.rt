//! The kernels of states, and what follows from them.
ghost use Rattle.std.specs.Prelude.{◌<◌, ◌+◌, length, IfOk, OnOk, All, IsTrue};
ghost use Rattle.std.specs.List.Sorted.{IsStrictlyIncreasing};
ghost use Rattle.lr_tables.specs.Grammar.{IsGrammar, IsStart};
ghost use Rattle.sc_items.specs.Kernel.{AreBeginnings, AreEmpty, AreMoved, IsListOf, IsNumbered, IsOpened, Opens, lists};
ghost use Rattle.sc_items.specs.Reach.{marked, EdgesWithin};

use crate::{after, begun, production_at};
use indexmap::IndexSet;
use lr_tables::Grammar;
use sc_base::OutOfMemory;
use std::alloc::Global;

/// For each item those that begin a production of the symbol after its dot.
pub fn opened(alloc: Global, grammar: &Grammar) -> Result<Vec<Vec<usize>>, OutOfMemory>
    requires grammar { IsGrammar grammar.now }
    ensures rows { IfOk result (λ rows. IsOpened grammar.now rows.items) }
    ensures within { IfOk result (λ rows. EdgesWithin rows.items) }
{
    let beginnings = beginnings(alloc, grammar)?;
    let mut rows = Vec::new(alloc);
    for item in 0..grammar.entries.len() {
        rows.push(opened_by(alloc, grammar, &beginnings, item)?)?;
    }
    Ok(rows)
}

/// The items that begin a production of the symbol after the dot of this item.
fn opened_by(
    alloc: Global,
    grammar: &Grammar,
    beginnings: &[Vec<usize>],
    item: usize,
) -> Result<Vec<usize>, OutOfMemory>
    requires grammar { IsGrammar grammar.now }
    requires beginnings { AreBeginnings grammar.now beginnings.now }
    requires within { item < length grammar.now.entries.now }
    ensures { IfOk result (λ items. IsListOf (length grammar.now.entries.now) (Opens grammar.now item) items.items) }
{
    let mut items = Vec::new(alloc);
    let Some(symbol) = after(grammar, item) else {
        return Ok(items);
    };
    items.extend_from_slice(&beginnings[symbol])?;
    Ok(items)
}

/// For each symbol the items that begin its productions.
fn beginnings(alloc: Global, grammar: &Grammar) -> Result<Vec<Vec<usize>>, OutOfMemory>
    requires { IsGrammar grammar.now }
    ensures { IfOk result (λ rows. AreBeginnings grammar.now rows.items) }
{
    let mut rows = empty_rows(alloc, grammar.terminals + grammar.nonterminals)?;
    for item in 0..grammar.entries.len() {
        if let Some(left) = begun(grammar, item) {
            rows[left].push(item)?;
        }
    }
    Ok(rows)
}

/// So many rows with nothing in them.
pub fn empty_rows(alloc: Global, count: usize) -> Result<Vec<Vec<usize>>, OutOfMemory>
    ensures { IfOk result (λ rows. AreEmpty count rows.items) }
{
    let mut rows = Vec::new(alloc);
    for _row in 0..count {
        rows.push(Vec::new(alloc))?;
    }
    Ok(rows)
}

/// The items that begin productions 1 and 2.
pub fn start(alloc: Global, grammar: &Grammar) -> Result<Vec<usize>, OutOfMemory>
    requires grammar { IsGrammar grammar.now }
    ensures { IfOk result (λ items. IsListOf (length grammar.now.entries.now) (IsStart grammar.now) items.items) }
{
    let mut items = Vec::new(alloc);
    for item in 0..grammar.entries.len() {
        if begun(grammar, item).is_some() {
            if production_at(grammar, item) < 3 {
                items.push(item)?;
            }
        }
    }
    Ok(items)
}

/// The places of the marks.
pub fn members(alloc: Global, marks: &[bool]) -> Result<Vec<usize>, OutOfMemory>
    ensures { IfOk result (λ items. IsListOf (length marks.now) (λ i. IsTrue (marked marks.now i)) items.items) }
{
    let mut items = Vec::new(alloc);
    for (item, is_in) in marks.iter().enumerate() {
        if *is_in {
            items.push(item)?;
        }
    }
    Ok(items)
}

/// Moves the dots of these items on. Each item goes to the row of the symbol over which its dot is
/// moved.
pub fn moved(
    grammar: &Grammar,
    items: &[usize],
    rows: &mut Vec<Vec<usize>>,
) -> Result<(), OutOfMemory>
    requires grammar { IsGrammar grammar.now }
    requires within { All (λ item. item < length grammar.now.entries.now) items.now }
    requires rising { IsStrictlyIncreasing items.now }
    requires rows { AreEmpty (grammar.now.terminals + grammar.now.nonterminals) rows.old.items }
    ensures { OnOk result (AreMoved grammar.now items.now rows.new.items) }
{
    for item in items {
        if let Some(next) = after(grammar, *item) {
            rows[next].push(*item + 1)?;
        }
    }
    Ok(())
}

/// The number of a kernel, which is a new one where the kernel is new.
pub fn number(kernels: &mut IndexSet<Vec<usize>>, kernel: Vec<usize>) -> Result<usize, OutOfMemory>
    ensures { IfOk result (λ number. IsNumbered (lists kernels.old.keys) (lists kernels.new.keys) kernel.items number) }
{
    let (number, _) = kernels.insert_full(kernel)?;
    Ok(number)
}
