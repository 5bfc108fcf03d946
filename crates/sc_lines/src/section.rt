/// A section that is open.
#[derive(Clone, Copy, Debug, PartialEq, Eq)]
pub struct Open {
    /// The line of its first directive.
    pub head: usize,
    pub has_else: bool,
}
