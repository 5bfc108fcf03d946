ghost use Rattle.std.specs.Prelude.{◌≡◌};
ghost use Rattle.sc_include.specs.declared.stop.IncludeStop.TheVariants as stop;

use sc_base::OutOfMemory;
use std::alloc::{AllocError, AllocFailed};
use thiserror::Error;

/// Why there is no header.
#[derive(Clone, Copy, Debug, PartialEq, Eq, Error)]
pub enum IncludeStop {
    /// The tokens name none, or one that no file can have.
    #[error("bad include")]
    BadInclude,
    /// No memory was left.
    #[error("out of memory")]
    OutOfMemory,
}

impl From<OutOfMemory> for IncludeStop {
    ghost from_gives = { λ _ s. s ≡ stop.OutOfMemory };

    fn from(_refused: OutOfMemory) -> IncludeStop {
        IncludeStop::OutOfMemory
    }
}
