/// What is made of two nodes. An operation on one node leaves the right one aside.
#[derive(Clone, Copy, Debug, PartialEq, Eq, Hash)]
pub enum Operation {
    And,
    Or,
    /// The configurations of the left node that the right one has not.
    Without,
    Negate,
    /// What remains where the variable has the option.
    Part(usize, usize),
}

/// An operation and its nodes.
#[derive(Clone, Copy, Debug, PartialEq, Eq, Hash)]
pub struct Application {
    pub operation: Operation,
    pub left: usize,
    pub right: usize,
}
