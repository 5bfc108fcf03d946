use sc_base::{Cond, Fault, Place, Token};
use sc_guarded::Guarded;

/// What a file becomes under all configurations. A configuration with a fault is refused, and its
/// tokens then don't count.
#[derive(Drop)]
pub struct Prepared {
    pub list: Guarded<Token>,
    pub faults: Vec<Fault>,
    /// The configurations without a fault.
    pub live: Cond,
    /// Where the main file ends. Where every configuration is refused, this tells nothing.
    pub end: Place,
}
