//! The tests of lists of tokens that calls share, and of expressions, over public calls.
#![tactic(auto)]

#[cfg(test)]
mod closing;
#[cfg(test)]
mod expression;
