//! What every layer speaks of: places, ids, limits, refusals, and the tables of names and of files.
#![tactic(auto)]

mod bytes;
mod fault;
mod files;
mod id;
mod limits;
mod names;
mod place;
mod stop;
mod token;

pub use bytes::is_same;
pub use fault::Fault;
pub use files::Files;
pub use id::{Cond, FileId, Name, TreeId};
pub use limits::{LARGEST_FILE, Limits};
pub use names::Names;
pub use place::Place;
pub use sc_model::{Cause, Kind};
pub use stop::{OutOfMemory, Stop};
pub use token::{HasToken, Token};
