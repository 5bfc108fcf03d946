//! Items. An item is a production with a dot in its right side, and goes by the place of the entry
//! before the dot.
ghost use Rattle.std.specs.Prelude.{◌≡◌, ◌<◌, ◌≤◌, ◌+◌, length, IfSome, true};
ghost use Rattle.lr_tables.specs.Grammar.{IsGrammar, after, begun, symbol_number, is_known, is_left, production_at};

use lr_tables::{Entry, Grammar, Symbol};

/// The place of a symbol in the order of the symbols: first the terminals, then the nonterminals.
fn number(grammar: &Grammar, symbol: Symbol) -> usize
    requires grammar { IsGrammar grammar.now }
    requires known { is_known grammar.now.terminals grammar.now.nonterminals (Entry.Right symbol) ≡ true }
    ensures number { result ≡ symbol_number grammar.now.terminals symbol }
    ensures small { result < grammar.now.terminals + grammar.now.nonterminals }
{
    match symbol {
        Symbol::Terminal(terminal) => terminal.0,
        Symbol::Nonterminal(nonterminal) => grammar.terminals + nonterminal.0,
    }
}

/// The symbol after the dot.
pub fn after(grammar: &Grammar, item: usize) -> Option<usize>
    requires grammar { IsGrammar grammar.now }
    requires within { item ≤ length grammar.now.entries.now }
    ensures symbol { result ≡ after grammar.now item }
    ensures small { IfSome result (λ x. x < grammar.now.terminals + grammar.now.nonterminals) }
{
    match grammar.entries.get(item + 1) {
        Some(Entry::Right(symbol)) => Some(number(grammar, *symbol)),
        _ => None,
    }
}

/// The left side of the production, where the dot stands at the beginning.
pub fn begun(grammar: &Grammar, item: usize) -> Option<usize>
    requires grammar { IsGrammar grammar.now }
    ensures left { result ≡ begun grammar.now item }
    ensures small { IfSome result (λ x. x < grammar.now.terminals + grammar.now.nonterminals) }
{
    match grammar.entries.get(item) {
        Some(Entry::Left(left, _)) => Some(grammar.terminals + left.0),
        _ => None,
    }
}

/// Whether a production begins with the entry.
fn is_left(entry: &Entry) -> bool
    ensures { result ≡ is_left entry.now }
{
    match entry {
        Entry::Left(_, _) => true,
        Entry::Right(_) => false,
    }
}

/// The number of the item's production.
pub fn production_at(grammar: &Grammar, item: usize) -> usize
    requires { item < length grammar.now.entries.now }
    ensures { result ≡ production_at grammar.now item }
{
    let entries = &grammar.entries[..item + 1];
    entries.iter().filter(|entry| is_left(entry)).count()
}
