//! The space file: the configuration variables, their options, and the settings of a run.
#![tactic(auto)]

mod config;
mod fault;
mod laws;
mod option;
mod read;
mod settings;
mod space;
mod texts;
mod variables;

pub use fault::{SpaceFault, SpaceStop};
pub use laws::texts_have_answers;
pub use option::{SpelledItem, VariableOption};
pub use space::{Space, Variable};
