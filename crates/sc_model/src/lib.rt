//! The words that every definition speaks of: bytes and growth, tokens and places, causes and
//! faults, sets of configurations, spaces, standards, and the outside.
#![tactic(auto)]

mod cause;
mod kind;
mod standard;

pub use cause::Cause;
pub use kind::Kind;
pub use standard::Standard;
