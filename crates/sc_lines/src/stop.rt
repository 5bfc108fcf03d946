ghost use Rattle.std.specs.Prelude.{◌≡◌};
ghost use Rattle.sc_lines.specs.declared.stop.NestStop.TheVariants as stop;

use sc_base::{OutOfMemory, Place};
use thiserror::Error;

/// Why a file has no lines to walk.
#[derive(Clone, Copy, Debug, PartialEq, Eq, Error)]
pub enum NestStop {
    /// The `#` of the first conditional directive that may not stand where it does, or else of the
    /// innermost that is open at the end.
    #[error("bad nesting")]
    Nesting(Place),
    #[error("out of memory")]
    OutOfMemory,
}

impl From<OutOfMemory> for NestStop {
    ghost from_gives = { λ _ s. s ≡ stop.OutOfMemory };

    fn from(_refused: OutOfMemory) -> NestStop {
        NestStop::OutOfMemory
    }
}
