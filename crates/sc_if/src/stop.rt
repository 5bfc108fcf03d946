ghost use Rattle.std.specs.Prelude.{◌≡◌};
ghost use Rattle.sc_if.specs.declared.stop.IfStop.TheVariants as stop;

use sc_base::{Cause, OutOfMemory};
use std::alloc::{AllocError, AllocFailed};
use thiserror::Error;

/// Why an expression has no value.
#[derive(Clone, Copy, Debug, PartialEq, Eq, Error)]
pub enum IfStop {
    /// The tokens are no expression, or evaluating it comes to a fault.
    #[error("bad expression")]
    Fault(Cause),
    /// No memory was left.
    #[error("out of memory")]
    OutOfMemory,
}

impl From<OutOfMemory> for IfStop {
    ghost from_gives = { λ _ s. s ≡ stop.OutOfMemory };

    fn from(_refused: OutOfMemory) -> IfStop {
        IfStop::OutOfMemory
    }
}

impl From<AllocError> for IfStop {
    ghost from_gives = { λ _ s. s ≡ stop.OutOfMemory };

    fn from(_refused: AllocError) -> IfStop {
        IfStop::OutOfMemory
    }
}

impl<T: Drop> From<AllocFailed<T>> for IfStop {
    ghost from_gives = { λ _ s. s ≡ stop.OutOfMemory };

    fn from(_refused: AllocFailed<T>) -> IfStop {
        IfStop::OutOfMemory
    }
}
