//! The stack of an LR parser, whose frames several owners share.
#![tactic(auto)]

mod link;
mod stack;

pub use stack::Stack;
