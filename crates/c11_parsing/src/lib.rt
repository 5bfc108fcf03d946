//! LR parsing of C11 with its scopes, for one configuration and for all at once, as definitions.
#![tactic(auto)]

mod laws;

pub use laws::{
    classes_are_determined, parsing_has_one_answer, subparsers_follow_each_configuration,
    trees_are_derivations,
};
