use crate::held::{Held, Lent};
use sc_base::OutOfMemory;
use std::alloc::Global;
use std::marker::Model;

/// What stands under a number: its subparser, or nothing where that is gone. There are many more
/// numbers than subparsers, so each subparser is in a box.
#[derive(Drop)]
pub(crate) struct Row {
    held: Option<Box<Held>>,
}

impl Model for Row {
    ghost use Rattle.std.specs.Prelude.{Option, option_map};
    ghost use Rattle.std.specs.Coded.{codes};
    ghost use Rattle.sc_merge.specs.contracts.subparser.Subparser as subparser;
    ghost use Rattle.sc_merge.specs.declared.subparser.Subparser.{Subparser};

    ghost Value = { Option Subparser };

    ghost coded = { Prim.hlevel (codes, subparser.the_row.coded) };

    ghost view = { λ row. option_map (λ held. held.value) row.held };
}

impl Row {
    ghost use Rattle.std.specs.Prelude.{◌≡◌, ◌↔◌, None, Some, IfOk, IsFalse, IsTrue, option_map};
    ghost use Rattle.sc_merge.specs.declared.subparser.Subparser.{Subparser};
    ghost use Rattle.sc_stack.specs.Entries.{with_state};

    pub(crate) fn new(alloc: Global, held: Held) -> Result<Row, OutOfMemory>
        ensures { IfOk result (λ row. row ≡ Some held) }
    {
        let held = Some(Box::new(alloc, held)?);
        Ok(Row { held })
    }

    pub(crate) fn gone() -> Row
        ensures { result ≡ None }
    {
        Row { held: None }
    }

    pub(crate) fn lent(&self) -> Option<Lent<'_>>
        ensures { result ≡ self.now }
    {
        match &self.held {
            Some(held) => Some(Lent { held }),
            None => None,
        }
    }

    /// Gives the subparser another state on top of its stack, unless others have that stack too.
    /// The answer is whether it was done.
    pub(crate) fn set_state(&mut self, state: usize) -> bool
        ensures done { IsTrue result → self.new ≡ option_map (λ (s : Subparser). record s { stack = with_state state s.stack }) self.old }
        ensures not_done { IsFalse result → self.new ≡ self.old }
    {
        match &mut self.held {
            Some(held) => held.set_state(state),
            None => false,
        }
    }

    pub(crate) fn is_gone(&self) -> bool
        ensures { IsTrue result ↔ self.now ≡ None }
    {
        self.held.is_none()
    }
}
