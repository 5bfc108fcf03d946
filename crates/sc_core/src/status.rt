/// How a run of the program ended.
#[derive(Clone, Copy, Debug, PartialEq, Eq)]
pub enum Status {
    /// Every configuration is accepted.
    Accepted,
    /// Some configuration is refused.
    Refused,
    /// The words ask for nothing that the program does.
    BadWords,
    /// The space file is not there, or it is refused.
    BadSpace,
    /// Configurations differ at one place in more ways than the space allows.
    BranchesFull,
    /// A file could not be read.
    ReadFault,
    /// The text could not be written whole.
    WriteFault,
    /// No memory was left.
    OutOfMemory,
}

impl Status {
    ghost use Rattle.std.specs.Prelude.{◌≡◌};
    ghost use Rattle.sc_core.specs.Status.{code_of};

    /// The exit status of the program.
    pub fn code(self) -> u8
        ensures { result ≡ code_of self }
    {
        match self {
            Status::Accepted => 0,
            Status::Refused => 1,
            Status::BadWords => 2,
            Status::BadSpace => 3,
            Status::BranchesFull => 5,
            Status::ReadFault => 6,
            Status::WriteFault => 7,
            Status::OutOfMemory => 8,
        }
    }
}
