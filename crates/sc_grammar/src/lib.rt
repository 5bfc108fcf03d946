//! The grammar of C11.
#![tactic(auto)]

ghost use Rattle.std.specs.Prelude.{◌≡◌, length, IsTrue};
ghost use Rattle.lr_tables.specs.Grammar.{IsGrammar, entries_of};
ghost use Rattle.sc_grammar.specs.C11.{productions};
ghost use Rattle.sc_grammar.specs.Rules.{rises_along_units, all_have_productions, starts_apart};

mod c11;
mod lookup;
pub mod nonterminal;
mod rule;
pub mod terminal;

use c11::C11;
pub use lookup::production;
use lr_tables::Grammar;
pub use rule::Production;
pub use terminal::terminal_name;

/// How many terminals there are.
pub const TERMINALS: usize = 96;

/// How many nonterminals there are.
pub const NONTERMINALS: usize = 100;

/// How many productions there are.
pub const PRODUCTIONS: usize = 288;

/// The grammar of C11 (annex A.2).
pub fn grammar() -> Grammar
    ensures productions { result.entries.now ≡ entries_of productions }
    ensures count { length productions ≡ PRODUCTIONS }
    ensures terminals { result.terminals ≡ TERMINALS }
    ensures nonterminals { result.nonterminals ≡ NONTERMINALS }
    ensures rules { IsGrammar result }
    ensures complete { IsTrue (all_have_productions productions NONTERMINALS) }
    ensures start { IsTrue (starts_apart productions) }

    // So a chain of productions with one nonterminal on the right ends.
    ensures ranked { IsTrue (rises_along_units productions) }
{
    C11
}
