//! What names stand for in nested scopes, under conditions.
#![tactic(auto, using(sc_base::proofs::Growth::growth, crate::proofs::NumberLemmas::numbered))]

mod bindings;
mod history;
mod kind;
mod laws;
mod levels;
mod merge;
mod numbers;
mod scopes;
mod search;
mod trie;

pub use kind::NameKind;
pub use laws::{scopes_follow_bindings, scopes_own_their_conditions};
pub use numbers::Numbers;
pub use scopes::Scopes;
