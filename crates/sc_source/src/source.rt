ghost use Rattle.std.specs.Prelude.{◌≡◌, ℕ, ◌≤◌, Option, Some, IfOk, IsErrOf};
ghost use Rattle.std.specs.Option.{option_map};
ghost use Rattle.sc_model.specs.Outside.{Files, Rose};
ghost use Rattle.sc_source.specs.declared.source.SourceStop.TheVariants as stop;
ghost use Rattle.sc_source.specs.Source.{stop_of};

use sc_base::Stop;
use std::alloc::{AllocError, AllocFailed, Global};
use thiserror::Error;

/// Why a read gave no answer.
#[derive(Clone, Copy, Debug, PartialEq, Eq, Error)]
pub enum SourceStop {
    /// The file may be there, but it could not be read.
    #[error("read fault")]
    Failed,
    /// No memory was left for the file's bytes.
    #[error("out of memory")]
    OutOfMemory,
}

impl From<AllocError> for SourceStop {
    ghost from_gives = { λ _ s. s ≡ stop.OutOfMemory };

    fn from(_refused: AllocError) -> SourceStop {
        SourceStop::OutOfMemory
    }
}

impl<T: Drop> From<AllocFailed<T>> for SourceStop {
    ghost from_gives = { λ _ s. s ≡ stop.OutOfMemory };

    fn from(_refused: AllocFailed<T>) -> SourceStop {
        SourceStop::OutOfMemory
    }
}

impl From<SourceStop> for Stop {
    ghost from_gives = { λ s t. t ≡ stop_of s };

    fn from(stop: SourceStop) -> Stop {
        match stop {
            SourceStop::Failed => Stop::ReadFault,
            SourceStop::OutOfMemory => Stop::OutOfMemory,
        }
    }
}

/// Where files are read from, by their names.
pub trait Source {
    // What it holds, where it tells. No read changes it.
    ghost holds: { Self → Option Files };

    // How many reads failed, up to the last value of the count.
    ghost faults: { Self → ℕ };

    /// The bytes of the file with this name, or `None` where there is none. Want of memory may come
    /// at any read.
    fn read(&mut self, alloc: Global, name: &str) -> Result<Option<Vec<u8>>, SourceStop>
        ensures answer { (files : Files) → holds self.old ≡ Some files
            → IfOk result (λ text. option_map (λ bytes. bytes.items) text ≡ files name.now) }
        ensures kept { holds self.new ≡ holds self.old }
        ensures counted { faults self.old ≤ faults self.new }
        ensures failed { IsErrOf result SourceStop.Failed → Rose (faults self.old) (faults self.new) }
        ensures stays { (IsErrOf result SourceStop.Failed → ⊥) → faults self.new ≡ faults self.old };
}
