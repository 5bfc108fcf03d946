//! What one configuration has of lists and trees.
#![tactic(auto)]

mod size;
mod tokens;
mod tree;

pub use size::{TreeSize, tree_size};
pub use tokens::project_tokens;
pub use tree::project_tree;
