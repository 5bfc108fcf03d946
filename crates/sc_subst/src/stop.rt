ghost use Rattle.std.specs.Prelude.{◌≡◌};
ghost use Rattle.sc_subst.specs.declared.stop.SubstStop.TheVariants as stop;

use sc_base::{Cause, OutOfMemory};
use std::alloc::{AllocError, AllocFailed};
use thiserror::Error;

/// Why nothing replaces a macro's name.
#[derive(Clone, Copy, Debug, PartialEq, Eq, Error)]
pub enum SubstStop {
    /// What `#` or `##` makes is no token.
    #[error("bad operator")]
    Fault(Cause),
    /// No memory was left.
    #[error("out of memory")]
    OutOfMemory,
}

impl From<OutOfMemory> for SubstStop {
    ghost from_gives = { λ _ s. s ≡ stop.OutOfMemory };

    fn from(_refused: OutOfMemory) -> SubstStop {
        SubstStop::OutOfMemory
    }
}

impl From<AllocError> for SubstStop {
    ghost from_gives = { λ _ s. s ≡ stop.OutOfMemory };

    fn from(_refused: AllocError) -> SubstStop {
        SubstStop::OutOfMemory
    }
}

impl<T: Drop> From<AllocFailed<T>> for SubstStop {
    ghost from_gives = { λ _ s. s ≡ stop.OutOfMemory };

    fn from(_refused: AllocFailed<T>) -> SubstStop {
        SubstStop::OutOfMemory
    }
}
