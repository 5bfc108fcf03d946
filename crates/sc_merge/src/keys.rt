ghost use Rattle.std.specs.Prelude.{◌≡◌, ◌↔◌, ◌==◌, true, length};
ghost use Rattle.std.proofs.Common.{rules};
ghost use Rattle.std.specs.Cmp.Lexicographic.{pointwise};
ghost use Rattle.std.specs.Cmp.Rules.{comparing};
ghost use Rattle.std.specs.Ordering.{on};
ghost use Rattle.sc_merge.specs.declared.keys.Key.{Key};
ghost use Rattle.sc_merge.specs.declared.subparser.Subparser.{Subparser};
ghost use Rattle.sc_merge.specs.Keys.{numbers_of, AreAlike, IsKeyOf};

use crate::subparser::Phase;
use sc_stack::Stack;

/// What tells whether two subparsers can be merged, lent by one of them.
#[derive(Drop)]
pub struct Key<'a> {
    pub(crate) phase: Phase,
    pub(crate) stack: &'a Stack,
    pub(crate) levels: usize,
}

impl Key<'_> {
    /// Where the subparser is.
    pub fn phase(&self) -> Phase
        ensures { result ≡ self.now.phase }
    {
        self.phase
    }

    /// How many frames its stack has.
    pub fn height(&self) -> usize
        ensures { result ≡ length self.now.stack.now }
    {
        self.stack.height()
    }
}

impl PartialEq for Key<'_> {
    ghost eq = { on numbers_of (pointwise ◌==◌) };

    ghost laws = { Prim.search (comparing, rules) };

    fn eq(&self, other: &Self) -> bool {
        self.phase == other.phase
            && self.levels == other.levels
            && self.stack.same_states(other.stack)
    }
}

impl Eq for Key<'_> {
    ghost laws = { Prim.search (comparing, rules) };
}

/// Keys are equal where their subparsers can be merged, and nowhere else.
pub fn keys_tell_what_can_be_merged()
    ensures { (k l : Key) (s t : Subparser) → IsKeyOf k s → IsKeyOf l t → (on numbers_of (pointwise ◌==◌) k l ≡ true) ↔ AreAlike s t }
{}
