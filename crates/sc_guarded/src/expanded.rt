use crate::Guarded;
use sc_base::{Fault, Token};

/// What a list of tokens becomes under all configurations. A configuration with a fault
/// is refused, and its tokens then don't count.
#[derive(Drop)]
pub struct Expanded {
    pub list: Guarded<Token>,
    pub faults: Vec<Fault>,
}
