use sc_base::{Cause, Cond};
use sc_guarded::Guarded;
use sc_subst::{Hidden, Hide, Part, Tokens};

/// A call of a function-like macro that has left the list, in the configurations of a condition.
/// Its arguments are expanded one after the other before it is replaced.
#[derive(Drop)]
pub struct Call {
    pub cond: Cond,
    /// The macro's name.
    pub head: Hidden,
    /// The names that all tokens of the replacement hide.
    pub hide: Hide,
    pub template: Template,
    /// The arguments that are still to be expanded, the next one last.
    pub wanted: Vec<Wanted>,
    /// The arguments as they expanded, one for each parameter; empty where not.
    pub expanded: Vec<Guarded<Hidden>>,
}

/// What replaces a call, but for the arguments that are expanded alone.
#[derive(Drop)]
pub enum Template {
    Parts(Vec<Part>),
    /// A `##` makes no token, which is told once no argument was refused.
    Refused(Cause),
}

/// An argument that is to be expanded alone.
#[derive(Drop)]
pub struct Wanted {
    pub parameter: usize,
    pub tokens: Tokens,
}
