ghost use Rattle.std.specs.Prelude.{◌≡◌};
ghost use Rattle.sc_macro.specs.declared.stop.DefineStop.TheVariants as stop;

use sc_base::{Cause, OutOfMemory};
use std::alloc::{AllocError, AllocFailed};
use thiserror::Error;

/// Why a line defines nothing.
#[derive(Clone, Copy, Debug, PartialEq, Eq, Error)]
pub enum DefineStop {
    /// The line is no definition, or its name is protected.
    #[error("bad definition")]
    Fault(Cause),
    /// No memory was left.
    #[error("out of memory")]
    OutOfMemory,
}

impl From<OutOfMemory> for DefineStop {
    ghost from_gives = { λ _ s. s ≡ stop.OutOfMemory };

    fn from(_refused: OutOfMemory) -> DefineStop {
        DefineStop::OutOfMemory
    }
}

impl From<AllocError> for DefineStop {
    ghost from_gives = { λ _ s. s ≡ stop.OutOfMemory };

    fn from(_refused: AllocError) -> DefineStop {
        DefineStop::OutOfMemory
    }
}

impl<T: Drop> From<AllocFailed<T>> for DefineStop {
    ghost from_gives = { λ _ s. s ≡ stop.OutOfMemory };

    fn from(_refused: AllocFailed<T>) -> DefineStop {
        DefineStop::OutOfMemory
    }
}
