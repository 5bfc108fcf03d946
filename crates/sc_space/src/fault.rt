ghost use Rattle.std.specs.Prelude.{◌≡◌};
ghost use Rattle.sc_space.specs.declared.fault.SpaceStop.TheVariants as stop;

use sc_base::{Cause, OutOfMemory};
use std::alloc::{AllocError, AllocFailed};
use thiserror::Error;

/// Why a space file is refused: the first reason that applies, in this order. What is at fault is
/// told where it has a name. The last five are of the words for a configuration, and of what
/// `valid` says of configurations.
#[derive(Debug, Drop, Error)]
pub enum SpaceFault {
    /// The file has more than 16,777,216 bytes.
    #[error("the space file is too large")]
    TooLarge,
    /// The file is no TOML in UTF-8.
    #[error("the space file is no TOML")]
    NotToml,
    /// A key that no space file has, the least by its bytes.
    #[error("unknown key {0}")]
    UnknownKey(String),
    /// There is no table `variables`.
    #[error("no table of variables")]
    NoVariables,
    /// The name is no identifier, or it is protected.
    #[error("{0} can't be the name of a variable")]
    BadName(String),
    /// The variable's value is no list of 1 to 64 options.
    #[error("bad options of {0}")]
    BadOption(String),
    /// The variable has an option twice.
    #[error("repeated option of {0}")]
    RepeatedOption(String),
    /// There are more than 1,024 variables.
    #[error("too many variables")]
    TooMany,
    /// The value of the key is no whole number within its bounds.
    #[error("bad limit {0}")]
    BadLimit(String),
    /// At this place of the array `include`, in decimal, is no name of a directory.
    #[error("bad directory at place {0}")]
    BadInclude(String),
    /// The value of the key is no date or time of its length.
    #[error("bad {0}")]
    BadDate(String),
    /// The value of `standard` names no standard that there is.
    #[error("bad standard")]
    BadStandard,
    /// The value of `valid` is no text of one line, or it refuses a configuration.
    #[error("bad valid")]
    BadValid(Cause),
    /// The word names no variable. It is told whole where it has no `=`.
    #[error("unknown variable {0}")]
    UnknownVariable(String),
    /// An earlier word names the variable too.
    #[error("repeated variable {0}")]
    RepeatedVariable(String),
    /// The word gives none of the options of the variable.
    #[error("unknown option of {0}")]
    UnknownOption(String),
    /// No configuration is valid.
    #[error("no valid configuration")]
    NoConfiguration,
    /// The configuration is not valid.
    #[error("invalid configuration")]
    Invalid,
}

impl SpaceFault {
    ghost use Rattle.std.specs.Prelude.{◌≡◌, option_copied};
    ghost use Rattle.sc_space.specs.Seen.{seen_fault};
    ghost use Rattle.sc_space.specs.SpaceFile.{name_of, item_of};

    /// The name under which the fault is printed.
    pub fn name(&self) -> &'static str
        ensures { result.now ≡ name_of (seen_fault self.now) }
    {
        match self {
            SpaceFault::TooLarge => "TooLarge",
            SpaceFault::NotToml => "NotToml",
            SpaceFault::UnknownKey(_) => "UnknownKey",
            SpaceFault::NoVariables => "NoVariables",
            SpaceFault::BadName(_) => "BadName",
            SpaceFault::BadOption(_) => "BadOption",
            SpaceFault::RepeatedOption(_) => "RepeatedOption",
            SpaceFault::TooMany => "TooMany",
            SpaceFault::BadLimit(_) => "BadLimit",
            SpaceFault::BadInclude(_) => "BadInclude",
            SpaceFault::BadDate(_) => "BadDate",
            SpaceFault::BadStandard => "BadStandard",
            SpaceFault::BadValid(_) => "BadValid",
            SpaceFault::UnknownVariable(_) => "UnknownVariable",
            SpaceFault::RepeatedVariable(_) => "RepeatedVariable",
            SpaceFault::UnknownOption(_) => "UnknownOption",
            SpaceFault::NoConfiguration => "NoConfiguration",
            SpaceFault::Invalid => "Invalid",
        }
    }

    /// The key, the name, the place or the cause that is at fault, if there is one.
    pub fn item(&self) -> Option<&str>
        ensures { option_copied result ≡ item_of (seen_fault self.now) }
    {
        let item = match self {
            SpaceFault::UnknownKey(item)
            | SpaceFault::BadName(item)
            | SpaceFault::BadOption(item)
            | SpaceFault::RepeatedOption(item)
            | SpaceFault::BadLimit(item)
            | SpaceFault::BadInclude(item)
            | SpaceFault::BadDate(item)
            | SpaceFault::UnknownVariable(item)
            | SpaceFault::RepeatedVariable(item)
            | SpaceFault::UnknownOption(item) => item,
            SpaceFault::BadValid(cause) => return Some(cause.name()),
            SpaceFault::TooLarge
            | SpaceFault::NotToml
            | SpaceFault::NoVariables
            | SpaceFault::TooMany
            | SpaceFault::BadStandard
            | SpaceFault::NoConfiguration
            | SpaceFault::Invalid => return None,
        };
        Some(item.as_str())
    }
}

/// Why a space file or words for a configuration can't be read.
#[derive(Debug, Drop, Error)]
pub enum SpaceStop {
    /// The file, or a word, is refused.
    #[error("{0}")]
    Fault(SpaceFault),
    /// No memory was left.
    #[error("out of memory")]
    OutOfMemory,
}

impl From<SpaceFault> for SpaceStop {
    ghost from_gives = { λ f s. s ≡ stop.Fault f };

    fn from(fault: SpaceFault) -> SpaceStop {
        SpaceStop::Fault(fault)
    }
}

impl From<OutOfMemory> for SpaceStop {
    ghost from_gives = { λ _ s. s ≡ stop.OutOfMemory };

    fn from(_refused: OutOfMemory) -> SpaceStop {
        SpaceStop::OutOfMemory
    }
}

impl From<AllocError> for SpaceStop {
    ghost from_gives = { λ _ s. s ≡ stop.OutOfMemory };

    fn from(_refused: AllocError) -> SpaceStop {
        SpaceStop::OutOfMemory
    }
}

impl<T: Drop> From<AllocFailed<T>> for SpaceStop {
    ghost from_gives = { λ _ s. s ≡ stop.OutOfMemory };

    fn from(_refused: AllocFailed<T>) -> SpaceStop {
        SpaceStop::OutOfMemory
    }
}
