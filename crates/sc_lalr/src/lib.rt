//! The LALR(1) tables of a grammar.
#![tactic(auto)]

mod conflict;
mod construction;
mod first;
mod lookahead;
mod nodes;
mod propagation;
mod reduction;
mod spread;
mod tables;

pub use construction::build;
pub use tables::Tables;
