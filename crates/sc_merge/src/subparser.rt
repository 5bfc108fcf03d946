ghost use Rattle.std.specs.Prelude.{◌≡◌};
ghost use Rattle.sc_merge.specs.Keys.{IsKeyOf};

use crate::keys::Key;
use sc_base::Cond;
use sc_scope::Scopes;
use sc_stack::Stack;
use std::marker::Model;

/// Where a subparser is in the list of elements.
#[derive(Clone, Copy, Debug, PartialEq, Eq)]
pub enum Phase {
    /// The elements before this one are done.
    Between(usize),
    /// This element comes next, or the end where it is the length.
    At(usize),
    /// The name of this element was shifted, its kind was not.
    Named(usize),
}

/// An LR parser for the configurations of one condition.
#[derive(Drop)]
pub struct Subparser {
    pub cond: Cond,
    pub stack: Stack,
    pub scopes: Scopes,
    pub phase: Phase,
}

impl Subparser {
    /// The subparser as it is lent.
    pub fn head(&self) -> Head<'_>
        ensures { result ≡ self.now }
    {
        Head {
            cond: self.cond,
            phase: self.phase,
            stack: &self.stack,
            scopes: &self.scopes,
        }
    }
}

/// A subparser as it is lent: seen as one, while its stack and its scopes stay where they are.
#[derive(Drop)]
pub struct Head<'a> {
    pub cond: Cond,
    pub phase: Phase,
    pub stack: &'a Stack,
    pub scopes: &'a Scopes,
}

impl<'a> Model for Head<'a> {
    ghost use Rattle.std.specs.Coded.{codes};
    ghost use Rattle.sc_merge.specs.contracts.subparser.Subparser as held;
    ghost use Rattle.sc_merge.specs.declared.subparser.Subparser.{Subparser};

    ghost Value = { Subparser };

    ghost coded = { Prim.hlevel (codes, held.the_row.coded) };

    ghost view = { λ h. record { cond = h.cond; stack = h.stack.now; scopes = h.scopes.now; phase = h.phase } };
}

/// The key of a subparser: its phase, its states and its number of levels.
pub fn key<'a>(subparser: &Head<'a>) -> Key<'a>
    ensures { IsKeyOf result subparser.now }
{
    Key {
        phase: subparser.phase,
        stack: subparser.stack,
        levels: subparser.scopes.levels(),
    }
}
