//! The tests of conditions and of what stands under them, over public calls.
#![tactic(auto)]

#[cfg(test)]
mod diagram;
#[cfg(test)]
mod guarded;
#[cfg(test)]
mod presence;
