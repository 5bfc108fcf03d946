//! The texts of results.
#![tactic(auto)]

mod conflicts;
mod laws;
mod lines;
mod merge;
mod printer;
mod summary;
mod tokens;
mod tree;

pub use conflicts::show_conflicts;
pub use laws::{shown_choice_is_stored, shown_tree_has_one_text};
pub use merge::count_faults;
pub use summary::{Summary, show_make};
pub use tokens::show_tokens;
pub use tree::show_tree;
