//! The program as one call.
#![tactic(auto)]

mod cut;
mod laws;
mod listed;
mod made;
mod output;
mod program;
mod run_error;
mod space_file;
mod status;
mod summaries;
mod texts;
mod tree_texts;

pub use laws::{parse_choices_part_configurations, parse_root_has_a_configuration};
pub use made::make_file;
pub use program::run;
pub use sc_prep::preprocess;
pub use status::Status;
