use sc_base::Cond;

/// How the call of a branch ends.
#[derive(Clone, Copy, Debug, PartialEq, Eq)]
pub enum Ends {
    /// By its closing parenthesis.
    Closed,
    /// It is still open at the end of the list.
    Still,
    /// There is no call.
    NoCall,
}

/// The configurations that have the same items, with the indexes of these, in order.
#[derive(Drop)]
pub struct Branch {
    pub cond: Cond,
    pub places: Vec<usize>,
    pub ends: Ends,
}
