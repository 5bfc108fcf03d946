//! The lines of a file and the nesting of its conditional directives (C11 6.10).
#![tactic(auto)]

mod branches;
mod laws;
mod line;
mod nest;
mod section;
mod split;
mod stop;
mod tree;

pub use laws::{a_line_begins_one_branch, tokens_have_one_list_of_lines};
pub use line::{Branch, FileTree, Line};
pub use stop::NestStop;
pub use tree::groups;
