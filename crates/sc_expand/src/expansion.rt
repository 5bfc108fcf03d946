use crate::frame::{Enclosing, Frame};
use crate::refusals::Refusals;
use sc_guarded::Guarded;
use sc_subst::{Hidden, HideSets};
use std::alloc::Global;

/// The expansion of a list under all configurations at once. The first token of a list is taken in
/// all configurations that have it; a call of a function-like macro leaves the list where it is
/// met, a branch for each different list of its tokens, and what follows it stays one list.
#[derive(Drop)]
pub struct Expansion {
    pub alloc: Global,
    pub sets: HideSets,
    pub refusals: Refusals,
    /// What the configurations that wait have left of the whole list.
    pub rest: Guarded<Hidden>,
    /// The list that is being expanded.
    pub top: Frame,
    /// The lists in whose calls it stands as an argument, the whole list first.
    pub below: Vec<Enclosing>,
}
