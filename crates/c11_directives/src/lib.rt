//! Directives of C11: lines, groups, conditional inclusion and the walk of files (6.10), as
//! definitions.
#![tactic(auto)]

mod directive;
mod laws;

pub use directive::{Conditional, Directive, Test};
pub use laws::{
    conditionals_have_an_answer, listing_has_an_answer, listing_has_one_answer,
    nesting_has_an_answer, nesting_has_one_answer, preprocessing_has_an_answer,
    preprocessing_has_one_answer,
};
