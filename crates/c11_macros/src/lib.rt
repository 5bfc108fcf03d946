//! Macros of C11 (6.10.3, 6.10.8), as definitions.
#![tactic(auto)]

mod laws;

pub use laws::{
    expansion_begins_with_a_run, expansion_depends_on_the_names_looked_up, expansion_has_an_answer,
    expansion_has_one_answer, held_list_fails, held_list_stays_held, list_is_held_again,
    list_settles_again, name_has_one_footprint, names_that_passed_expand,
    run_depends_on_the_names_looked_up, run_expands, run_goes_on, run_has_one_answer,
    settled_list_expands, settling_has_an_answer, settling_has_one_answer,
};
