//! Presence conditions: sets of configurations, and their operations.
#![tactic(auto)]

mod conditions;
mod diagrams;
mod plain_sets;
mod ranks;
mod rows;

pub use conditions::Conditions;
pub use diagrams::Diagrams;
pub use plain_sets::{MAX_CONFIGS, PlainSets};
