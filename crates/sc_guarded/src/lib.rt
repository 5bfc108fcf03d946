//! Lists whose items each stand under a presence condition.
#![tactic(auto)]

mod blocks;
mod expanded;
mod guarded;
mod parts;
mod projection;
mod restriction;
mod steps;

pub use blocks::Blocks;
pub use expanded::Expanded;
pub use guarded::Guarded;
pub use steps::Steps;
