ghost use Rattle.std.specs.Prelude.{◌≡◌, Err};
ghost use Rattle.sc_args.specs.Seen.{Refuses};
ghost use Rattle.sc_args.specs.Words.{usage};
ghost use Rattle.sc_args.specs.declared.stop.ArgsStop.TheVariants as stop;

use std::alloc::{AllocError, AllocFailed, Global};
use thiserror::Error;

/// Why the words ask for nothing.
#[derive(Debug, Drop, Error)]
pub enum ArgsStop {
    /// The words are no use of the command, or ask for help. The text says what to write.
    #[error("{0}")]
    Usage(String),
    /// The main file's name is empty or holds a byte below 32.
    #[error("bad file name")]
    BadFile,
    /// The number of items is no decimal from 1 to 100,000 without sign or leading zero.
    #[error("bad number of items")]
    BadCount,
    /// No memory was left.
    #[error("out of memory")]
    OutOfMemory,
}

impl ArgsStop {
    /// The words name no command, or not all that it requires.
    pub(crate) fn no_command(alloc: Global) -> ArgsStop
        ensures { Refuses result (Err usage) }
    {
        match String::from_str(alloc, "error: no command is named with its words\n") {
            Ok(text) => ArgsStop::Usage(text),
            Err(_) => ArgsStop::OutOfMemory,
        }
    }
}

impl From<AllocError> for ArgsStop {
    ghost from_gives = { λ _ s. s ≡ stop.OutOfMemory };

    fn from(_refused: AllocError) -> ArgsStop {
        ArgsStop::OutOfMemory
    }
}

impl<T: Drop> From<AllocFailed<T>> for ArgsStop {
    ghost from_gives = { λ _ s. s ≡ stop.OutOfMemory };

    fn from(_refused: AllocFailed<T>) -> ArgsStop {
        ArgsStop::OutOfMemory
    }
}
