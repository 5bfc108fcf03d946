ghost use Rattle.std.specs.Prelude.{◌≡◌};
ghost use Rattle.sc_lex.specs.declared.stop.LexStop.TheVariants as stop;

use sc_base::{OutOfMemory, Place};
use std::alloc::{AllocError, AllocFailed};
use thiserror::Error;

/// Why a file has no tokens.
#[derive(Clone, Copy, Debug, PartialEq, Eq, Error)]
pub enum LexStop {
    /// The comment that begins here has no end.
    #[error("unterminated comment")]
    Comment(Place),
    /// No memory was left.
    #[error("out of memory")]
    OutOfMemory,
}

impl From<OutOfMemory> for LexStop {
    ghost from_gives = { λ _ s. s ≡ stop.OutOfMemory };

    fn from(_refused: OutOfMemory) -> LexStop {
        LexStop::OutOfMemory
    }
}

impl From<AllocError> for LexStop {
    ghost from_gives = { λ _ s. s ≡ stop.OutOfMemory };

    fn from(_refused: AllocError) -> LexStop {
        LexStop::OutOfMemory
    }
}

impl<T: Drop> From<AllocFailed<T>> for LexStop {
    ghost from_gives = { λ _ s. s ≡ stop.OutOfMemory };

    fn from(_refused: AllocFailed<T>) -> LexStop {
        LexStop::OutOfMemory
    }
}
