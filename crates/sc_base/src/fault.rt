use crate::{Cond, Place};
use sc_model::Cause;

/// The configurations under a condition are refused, for a cause at a place.
#[derive(Clone, Copy, Debug, PartialEq, Eq)]
pub struct Fault {
    pub cond: Cond,
    pub cause: Cause,
    pub place: Place,
}
