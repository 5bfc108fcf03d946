//! Grammars, their items and lookaheads, and what their LALR(1) tables are, as definitions.
#![tactic(auto)]

mod grammar;
mod laws;

pub use grammar::{Action, Conflict, Entry, Grammar, Mark, Nonterminal, Symbol, Terminal};
pub use laws::{stacks_are_paths, tables_are_determined};
