//! Where files come from and where text goes: a trait for each, one of each over memory, and one of
//! each over the system.
#![tactic(auto)]

mod fault_plan;
mod file_source;
mod memory_sink;
mod memory_source;
mod sink;
mod source;
mod std_sink;

pub use file_source::{FileSource, MOST_READ};
pub use memory_sink::{MemorySink, Written};
pub use memory_source::MemorySource;
pub use sink::{Failed, Sink};
pub use source::{Source, SourceStop};
pub use std_sink::StdSink;
