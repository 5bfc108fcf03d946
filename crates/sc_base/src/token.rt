ghost use Rattle.std.specs.Prelude.{◌≡◌};

use crate::{Name, Place};
use sc_model::Kind;

/// A token of a file.
#[derive(Clone, Copy, Debug, PartialEq, Eq)]
pub struct Token {
    pub kind: Kind,
    /// White space or a newline stands before it.
    pub space: bool,
    /// What a digraph stands for, and of every other token its spelling.
    pub name: Name,
    pub spelling: Name,
    /// Where its first byte stands.
    pub place: Place,
}

/// What is a token, or carries one.
pub trait HasToken {
    ghost use Rattle.sc_base.specs.declared.token.Token.{Token};

    ghost token_of: { Self → Token };

    fn token(&self) -> &Token
        ensures { result.now ≡ token_of self.now };
}

impl HasToken for Token {
    ghost token_of = { λ t. t };

    fn token(&self) -> &Token {
        self
    }
}
