ghost use Rattle.std.specs.Prelude.{◌≡◌};
ghost use Rattle.sc_core.specs.declared.run_error.RunError.TheVariants as error;

use crate::Status;
use sc_args::ArgsStop;
use sc_base::{OutOfMemory, Stop};
use sc_source::SourceStop;

/// Why there is no text.
#[derive(Debug, Drop)]
pub enum RunError {
    /// The words ask for nothing that the program does. The text tells how they are meant.
    Usage(String),
    /// The file's name is empty or has a control character.
    BadFile,
    /// The number of items is none from 1 to 100,000 in decimal.
    BadCount,
    /// The space file is not there.
    NoSpace,
    /// The space file is refused; this line says why.
    BadSpace(Vec<u8>),
    /// Configurations differ at one place in more ways than the space allows. This line tells the
    /// limit and one more.
    BranchesFull(Vec<u8>),
    /// A file could not be read.
    ReadFault,
    /// No memory was left.
    OutOfMemory,
}

impl RunError {
    ghost use Rattle.sc_core.specs.RunError.{line_of, status_of};

    pub fn status(&self) -> Status
        ensures { result ≡ status_of self.now }
    {
        match self {
            RunError::Usage(_) | RunError::BadFile | RunError::BadCount => Status::BadWords,
            RunError::NoSpace | RunError::BadSpace(_) => Status::BadSpace,
            RunError::BranchesFull(_) => Status::BranchesFull,
            RunError::ReadFault => Status::ReadFault,
            RunError::OutOfMemory => Status::OutOfMemory,
        }
    }

    /// What the error output gets.
    pub fn line(&self) -> &[u8]
        ensures { result.now ≡ line_of self.now }
    {
        match self {
            RunError::Usage(text) => text.as_bytes(),
            RunError::BadFile => b"superc: bad file name\n",
            RunError::BadCount => b"superc: bad number of items\n",
            RunError::NoSpace => b"superc: space: Absent\n",
            RunError::BadSpace(line) | RunError::BranchesFull(line) => line.as_slice(),
            RunError::ReadFault => b"superc: read fault\n",
            RunError::OutOfMemory => b"superc: out of memory\n",
        }
    }
}

impl From<ArgsStop> for RunError {
    ghost use Rattle.sc_core.specs.RunError.{of_args};

    ghost from_gives = { λ s c. c ≡ of_args s };

    fn from(stop: ArgsStop) -> RunError {
        match stop {
            ArgsStop::Usage(text) => RunError::Usage(text),
            ArgsStop::BadFile => RunError::BadFile,
            ArgsStop::BadCount => RunError::BadCount,
            ArgsStop::OutOfMemory => RunError::OutOfMemory,
        }
    }
}

impl From<SourceStop> for RunError {
    ghost use Rattle.sc_core.specs.RunError.{of_source};

    ghost from_gives = { λ s c. c ≡ of_source s };

    fn from(stop: SourceStop) -> RunError {
        match stop {
            SourceStop::Failed => RunError::ReadFault,
            SourceStop::OutOfMemory => RunError::OutOfMemory,
        }
    }
}

impl From<OutOfMemory> for RunError {
    ghost from_gives = { λ _ c. c ≡ error.OutOfMemory };

    fn from(_refused: OutOfMemory) -> RunError {
        RunError::OutOfMemory
    }
}
