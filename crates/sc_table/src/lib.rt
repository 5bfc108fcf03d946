//! The macros of all configurations at once.
#![tactic(auto)]

mod change;
mod entry;
mod laws;
mod parts;
mod start;
mod table;

pub use laws::tables_keep_their_meaning;
pub use table::MacroTable;
