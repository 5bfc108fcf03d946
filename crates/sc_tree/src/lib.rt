//! The trees of all configurations, in one store that only grows.
#![tactic(auto, using(sc_base::proofs::Growth::growth))]

mod declared;
mod laws;
mod line;
mod parameters;
mod production;
mod trees;
mod walk;

pub use laws::trees_keep_their_meaning;
pub use line::TreeView;
pub use trees::Trees;
