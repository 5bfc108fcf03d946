//! Productions.
use lr_tables::{Entry, Mark, Nonterminal};

/// A production of C11.
#[derive(Clone, Copy)]
pub struct Production {
    pub left: Nonterminal,
    /// The symbols of its right side.
    pub right: &'static [Entry],
    /// What its reduction does to the scopes.
    pub mark: Option<Mark>,
}
