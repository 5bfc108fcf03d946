//! Which texts a terminal can begin.
ghost use Rattle.std.specs.Prelude.{◌≡◌, ◌<◌, ◌+◌, ◌↔◌, ℕ, length, IfOk};
ghost use Rattle.std.specs.Int.{bit_at};
ghost use Rattle.lr_tables.specs.Grammar.{IsGrammar};
ghost use Rattle.lr_tables.specs.Tables.{First};
ghost use Rattle.sc_items.specs.Reach.{EdgesWithin};
ghost use Rattle.lr_tables.specs.declared.grammar.Grammar.{Grammar};
ghost use Rattle.sc_lalr.specs.First.{IsLeading};
ghost use Rattle.sc_lalr.specs.Marks.{HasMark, HaveOwnMarks};

use crate::spread::spread;
use lr_tables::Grammar;
use sc_base::OutOfMemory;
use sc_items::{after, begun, empty_rows};
use std::alloc::Global;

/// For each symbol the symbols, among the 64 from this one on, that begin a text which can be
/// derived from it, as marks.
pub fn beginners(
    alloc: Global,
    leading: &[Vec<usize>],
    from: usize,
) -> Result<Vec<u64>, OutOfMemory>
    requires { EdgesWithin leading.now }
    ensures len { IfOk result (λ words. length words.items ≡ length leading.now) }
    ensures exact { IfOk result (λ words. (g : Grammar) (b x : ℕ) → IsLeading g leading.now → b < 64 → from + b < length leading.now
        → HasMark words.items b x ↔ First g (from + b) x) }
{
    let mut words = own_marks(alloc, leading.len(), from)?;
    spread(alloc, leading, &mut words)?;
    Ok(words)
}

/// Marks of so many symbols, where each of the 64 from this one on has a mark of its own.
fn own_marks(alloc: Global, symbols: usize, from: usize) -> Result<Vec<u64>, OutOfMemory>
    ensures len { IfOk result (λ words. length words.items ≡ symbols) }
    ensures own { IfOk result (λ words. HaveOwnMarks from words.items) }
{
    let mut words = Vec::new(alloc);
    for symbol in 0..symbols {
        words.push(own_mark(symbol, from))?;
    }
    Ok(words)
}

/// The mark of the symbol itself.
fn own_mark(symbol: usize, from: usize) -> u64
    ensures { (b : ℕ) → b < 64 → (bit_at result b ≡ 1) ↔ (symbol ≡ from + b) }
{
    if symbol < from {
        return 0;
    }
    let bit = symbol - from;
    if bit < 64 { 1 << bit } else { 0 }
}

/// For each symbol those with a production that begins with it.
pub fn leading(alloc: Global, grammar: &Grammar) -> Result<Vec<Vec<usize>>, OutOfMemory>
    requires { IsGrammar grammar.now }
    ensures leading { IfOk result (λ rows. IsLeading grammar.now rows.items) }
    ensures edges { IfOk result (λ rows. EdgesWithin rows.items) }
{
    let mut rows = empty_rows(alloc, grammar.terminals + grammar.nonterminals)?;
    for item in 0..grammar.entries.len() {
        if let Some(left) = begun(grammar, item) {
            if let Some(first) = after(grammar, item) {
                rows[first].push(left)?;
            }
        }
    }
    Ok(rows)
}
