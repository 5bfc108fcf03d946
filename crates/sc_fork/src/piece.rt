ghost use Rattle.std.specs.Prelude.{◌≡◌, IfOk};

use crate::held::Held;
use sc_base::{Cause, Cond, OutOfMemory, Place, TreeId};
use sc_merge::Subparser;
use std::alloc::Global;

/// What parsing came to: the tree of a whole text, or why there is none.
#[derive(Clone, Copy, Debug, PartialEq, Eq)]
pub enum Answer {
    Root(TreeId),
    Refused(Cause, Place),
}

/// The configurations for which parsing has ended.
#[derive(Clone, Copy, Debug, PartialEq, Eq)]
pub struct Ended {
    pub cond: Cond,
    pub answer: Answer,
}

/// What comes of a subparser.
#[derive(Drop)]
pub enum Piece {
    Going(Held),
    Over(Ended),
}

impl Piece {
    /// The subparser goes on, with a body of its own.
    pub(crate) fn going(alloc: Global, subparser: Subparser) -> Result<Piece, OutOfMemory>
        ensures { IfOk result (λ piece. piece ≡ Piece.Going subparser) }
    {
        Ok(Piece::Going(Held::new(alloc, subparser)?))
    }
}
