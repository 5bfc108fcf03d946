//! Preprocessing under all configurations at once: the walk of files.
#![tactic(auto)]

mod alternatives;
mod behind;
mod closing;
mod conditional;
mod content;
mod directives;
mod entering;
mod entry;
mod expressions;
mod finding;
mod including;
mod lines;
mod main_file;
mod naming;
mod next_line;
mod numbering;
mod once;
mod open_runs;
mod pragmas;
mod prepared;
mod settling;
mod valid;
mod walk;

pub use main_file::preprocess;
pub use prepared::Prepared;
pub use valid::{ValidStop, valid_set};
