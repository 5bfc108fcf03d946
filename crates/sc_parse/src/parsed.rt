use crate::packed::PackedEvent;
use sc_base::{Fault, TreeId};

/// What a list becomes under all configurations.
#[derive(Drop)]
pub struct Parsed {
    /// One tree with choices for all configurations that are not refused, where there are any.
    pub root: Option<TreeId>,
    pub faults: Vec<Fault>,
    /// The greatest number of classes of configurations at one place of the list, its end included.
    pub classes: usize,
    /// The events that lead to this, in order.
    pub events: Vec<PackedEvent>,
}
