//! Decision diagrams: sets of configurations of variables as ordered, reduced diagrams with shared
//! nodes, after Bryant (1986), with any number of options a variable.
#![tactic(auto)]

mod answers;
mod apply;
mod between;
mod chains;
mod choose;
mod decided;
mod example;
mod known;
mod node;
mod operation;
mod simplify;
mod slot;
mod store;
mod table;
mod unique;
mod walk;

pub use node::{Decision, Node};
pub use store::Store;
