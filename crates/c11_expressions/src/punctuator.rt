use crate::{Binary, Unary};

/// The punctuators of an expression.
#[derive(Clone, Copy, Debug, PartialEq, Eq)]
pub enum Punctuator {
    Open,
    Close,
    Question,
    Colon,
    /// `~` or `!`.
    Unary(Unary),
    /// `+` and `-` too, which are unary where an operand is wanted.
    Binary(Binary),
}
