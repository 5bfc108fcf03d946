//! The LR(0) states of a grammar.
#![tactic(auto)]

mod automaton;
mod item;
mod kernel;
mod reach;
mod search;

pub use automaton::{State, States};
pub use item::{after, begun, production_at};
pub use kernel::{empty_rows, opened};
pub use reach::reachable;
pub use search::states;
