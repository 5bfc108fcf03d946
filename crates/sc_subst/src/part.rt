use crate::Hidden;

/// A part of a template: a token, or the place of an argument that is still to be expanded.
#[derive(Clone, Copy, Debug, PartialEq, Eq)]
pub enum Part {
    Token(Hidden),
    /// The first token of the argument has this white space.
    Argument { parameter: usize, space: bool },
}
