//! The text of a result: its lines, how it is read, and the rules of its layout, as definitions.
#![tactic(auto)]

mod laws;

pub use laws::{answer_has_one_result, result_has_one_text, text_has_one_answer};
