//! Subparsers that fork where configurations differ, and are merged where they are alike.
#![tactic(auto)]

mod bundles;
mod classifying;
mod enabled;
mod event;
mod fork;
mod held;
mod laws;
mod outcome;
mod passing;
mod piece;
mod reducing;
mod row;
mod shifting;
mod source;
mod splitting;

pub use event::{Applied, CoreStop, Event, Fact, Kind};
pub use fork::Core;
pub use laws::core_stays_in_grown_stores;
pub use outcome::Outcome;
pub use piece::{Answer, Ended, Piece};
pub use source::Source;
