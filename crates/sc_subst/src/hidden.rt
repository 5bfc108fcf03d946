ghost use Rattle.std.specs.Prelude.{◌≡◌, ℕ, List, []};
ghost use Rattle.sc_base.specs.Seen.{IsHeld};
ghost use Rattle.sc_subst.specs.Hides.{set_at};
ghost use Rattle.sc_subst.specs.Seen.{IsHeldHidden};

use crate::HideSets;
use sc_base::{HasToken, Token};

/// A hide set of the store that made it. Sets of one store are equal exactly where their ids are.
#[derive(Clone, Copy, Debug, PartialEq, Eq, Hash)]
pub struct Hide(pub usize);

/// A token of an expansion, with the names of the macros that it came from.
#[derive(Clone, Copy, Debug, PartialEq, Eq)]
pub struct Hidden {
    pub token: Token,
    pub hide: Hide,
}

impl Hidden {
    /// The token, which hides no name.
    pub fn new(sets: &HideSets, token: Token) -> Hidden
        ensures token { result.token ≡ token }
        ensures none { set_at sets.now result.hide.0 ≡ [] }
        ensures own { (names : List (List ℕ)) → IsHeld names token → IsHeldHidden names sets.now result }
    {
        Hidden {
            token,
            hide: sets.empty(),
        }
    }
}

impl HasToken for Hidden {
    ghost token_of = { λ h. h.token };

    fn token(&self) -> &Token {
        &self.token
    }
}
