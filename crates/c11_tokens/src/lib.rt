//! Translation phases 1 to 3 and the lexical elements of C11 (5.1.1.2, 6.4), as definitions.
#![tactic(auto)]

mod base;
mod laws;

pub use base::Base;
pub use laws::{lexing_has_an_answer, lexing_has_one_answer, tokens_are_plain};
