//! Subparsers, when two can be merged, and what they are then.
#![tactic(auto, using(sc_base::proofs::Growth::growth))]

mod keys;
mod merged;
mod subparser;
mod values;

pub use keys::{Key, keys_tell_what_can_be_merged};
pub use merged::merge;
pub use subparser::{Head, Phase, Subparser, key};
