ghost use Rattle.std.specs.Prelude.{◌≡◌, ◌<◌, List, Some, map, length, slice_get};
ghost use Rattle.sc_base.specs.declared.id.Cond.{Cond};
ghost use Rattle.sc_base.specs.declared.token.Token as token;

use sc_base::{Cond, HasToken, Token};
use sc_guarded::Guarded;

/// A list of tokens that each stand under a condition.
pub trait TokenList {
    ghost tokens: { Self → List (Cond × token.Token) };

    fn len(&self) -> usize
        ensures { result ≡ length (tokens self.now) };

    /// The token of an index, with its condition.
    fn item(&self, index: usize) -> (Cond, Token)
        requires { index < length (tokens self.now) }
        ensures { slice_get (tokens self.now) index ≡ Some (result.0, result.1) };
}

impl<T: HasToken> TokenList for Guarded<T> {
    ghost tokens = { λ list. map (λ item. (item.0, T.token_of item.1)) list };

    fn len(&self) -> usize {
        self.len()
    }

    fn item(&self, index: usize) -> (Cond, Token) {
        let pair = self.item(index);
        (pair.0, *pair.1.token())
    }
}
