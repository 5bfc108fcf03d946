//! The expression of `#if` (C11 6.10.1, 6.5, 6.6), as definitions.
#![tactic(auto)]

mod binary;
mod laws;
mod punctuator;
mod unary;

pub use binary::Binary;
pub use laws::{
    expressions_have_parts, lines_have_an_answer, lines_have_one_answer, symbols_have_one_outcome,
    symbols_wait_in_one_way, tokens_have_a_result, tokens_have_one_part, tokens_have_one_result,
};
pub use punctuator::Punctuator;
pub use unary::Unary;
