//! The tests of texts, over each store of conditions.
#![tactic(auto)]

#[cfg(test)]
mod both;
#[cfg(test)]
mod show;
