//! Branches of the configurations that have the same items of a guarded list.
#![tactic(auto)]

mod branch;
mod call_branches;
mod call_items;
mod division;
mod ending;
mod found_calls;
mod laws;
mod line_branches;
mod partition;
mod state;
mod states;
mod token_list;

pub use branch::{Branch, Ends};
pub use call_branches::calls;
pub use ending::{CallEnds, call_ends};
pub use found_calls::{FoundCalls, closed_calls, find_calls};
pub use laws::call_is_closed_where_its_arguments_end;
pub use line_branches::lines;
pub use token_list::TokenList;
