//! The tests of what a parser keeps, from terminals to trees, over public calls.
#![tactic(auto)]

#[cfg(test)]
mod kinds;
#[cfg(test)]
mod project;
#[cfg(test)]
mod scope;
#[cfg(test)]
mod stack;
#[cfg(test)]
mod subparser;
#[cfg(test)]
mod tree;
