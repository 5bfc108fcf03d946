//! The tests of the parser, over public calls.
#![tactic(auto)]

#[cfg(test)]
mod memory;
#[cfg(test)]
mod parse;
#[cfg(test)]
mod schedules;
