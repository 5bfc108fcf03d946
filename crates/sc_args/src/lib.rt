//! The command line: what its words ask for.
#![tactic(auto)]

mod command;
mod command_line;
mod laws;
mod stop;

pub use command::Command;
pub use laws::{commands_are_taken, misuse_is_refused, taken_words_name_a_command};
pub use stop::ArgsStop;
