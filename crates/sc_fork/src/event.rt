ghost use Rattle.std.specs.Prelude.{◌≡◌};
ghost use Rattle.sc_fork.specs.Bundles.{event_by};

use std::alloc::Global;
use thiserror::Error;

/// What a core can do with subparsers, which go by their numbers.
#[derive(Clone, Copy, Debug, PartialEq, Eq)]
pub enum Event {
    Split(usize),
    Reduce(usize),
    Shift(usize),
    Classify(usize),
    Merge(usize, usize),
}

/// The events that a core can do of several subparsers at once.
#[derive(Clone, Copy, Debug, PartialEq, Eq)]
pub enum Kind {
    Reduce,
    Shift,
}

impl Kind {
    pub(crate) fn event(self, number: usize) -> Event
        ensures { result ≡ event_by self number }
    {
        match self {
            Kind::Reduce => Event::Reduce(number),
            Kind::Shift => Event::Shift(number),
        }
    }
}

/// Why an event is not one that a core can do: of these facts the first that applies.
#[derive(Clone, Copy, Debug, PartialEq, Eq)]
pub enum Fact {
    /// No subparser has the number now.
    NoSuchSubparser,
    /// The subparser is in another phase.
    WrongPhase,
    /// The event is a shift, and the action is a reduction.
    ActionIsReduction,
    /// The event is a reduction, and the action is none.
    ActionIsNoReduction,
    /// The subparser is to be merged with itself.
    SameSubparser,
    /// The subparsers are in different phases.
    OtherPhase,
    /// Their stacks have different states.
    OtherStates,
    /// They have different numbers of levels.
    OtherLevels,
}

/// Why an event was not done.
#[derive(Clone, Copy, Debug, PartialEq, Eq, Error)]
pub enum CoreStop {
    /// The core is as before.
    #[error("not enabled")]
    NotEnabled { fact: Fact },
    /// An earlier event found no memory.
    #[error("given up")]
    GivenUp,
    #[error("out of memory")]
    OutOfMemory,
}

/// The numbers of the subparsers that an event made.
#[derive(Drop)]
pub struct Applied {
    pub made: Vec<usize>,
}
