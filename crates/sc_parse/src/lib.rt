//! Parsing under all configurations at once: subparsers that stand at the same place alike are one.
#![tactic(auto)]

mod laws;
mod packed;
mod parsed;
mod parsing;
mod reductions;
mod rows;
mod steps;

pub use laws::list_has_an_input;
pub use packed::PackedEvent;
pub use parsed::Parsed;
pub use parsing::parse;
