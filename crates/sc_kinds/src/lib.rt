//! The terminals of tokens.
#![tactic(auto)]

mod kind;

pub use kind::terminal;
