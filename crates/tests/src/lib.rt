//! The tests of the libraries of names, files and spaces, over public calls.
#![tactic(auto)]

#[cfg(test)]
mod base;
#[cfg(test)]
mod source;
#[cfg(test)]
mod space;
