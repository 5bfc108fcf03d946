//! The tests of an LR parser's tables, over public calls.
#![tactic(auto)]

#[cfg(test)]
mod items;
#[cfg(test)]
mod lalr;
