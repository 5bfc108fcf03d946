ghost use Rattle.std.specs.Prelude.{◌≡◌};

/// Why a configuration is refused. The cause that comes first in the text is the one told.
#[derive(Clone, Copy, Debug, PartialEq, Eq)]
pub enum Cause {
    NotFound,
    FileTooLarge,
    UnterminatedComment,
    BadNesting,
    BadDirective,
    BadDefine,
    Redefined,
    ProtectedName,
    BadIf,
    IfDivision,
    IfOverflow,
    IfShift,
    DefinedFromMacro,
    BadInclude,
    IncludeDepth,
    ErrorDirective,
    UnterminatedCall,
    WrongArguments,
    BadPaste,
    BadStringize,
    BadToken,
    Syntax,
    BadPragma,
}

impl Cause {
    ghost use Rattle.sc_model.specs.Cause.{code_of, name_of};

    /// The number under which the cause is printed, from 1.
    pub fn code(self) -> u8
        ensures { result ≡ code_of self }
    {
        match self {
            Cause::NotFound => 1,
            Cause::FileTooLarge => 2,
            Cause::UnterminatedComment => 3,
            Cause::BadNesting => 4,
            Cause::BadDirective => 5,
            Cause::BadDefine => 6,
            Cause::Redefined => 7,
            Cause::ProtectedName => 8,
            Cause::BadIf => 9,
            Cause::IfDivision => 10,
            Cause::IfOverflow => 11,
            Cause::IfShift => 12,
            Cause::DefinedFromMacro => 13,
            Cause::BadInclude => 14,
            Cause::IncludeDepth => 15,
            Cause::ErrorDirective => 16,
            Cause::UnterminatedCall => 17,
            Cause::WrongArguments => 18,
            Cause::BadPaste => 19,
            Cause::BadStringize => 20,
            Cause::BadToken => 21,
            Cause::Syntax => 22,
            Cause::BadPragma => 23,
        }
    }

    /// The name under which the cause is printed.
    pub fn name(self) -> &'static str
        ensures { result.now ≡ name_of self }
    {
        match self {
            Cause::NotFound => "NotFound",
            Cause::FileTooLarge => "FileTooLarge",
            Cause::UnterminatedComment => "UnterminatedComment",
            Cause::BadNesting => "BadNesting",
            Cause::BadDirective => "BadDirective",
            Cause::BadDefine => "BadDefine",
            Cause::Redefined => "Redefined",
            Cause::ProtectedName => "ProtectedName",
            Cause::BadIf => "BadIf",
            Cause::IfDivision => "IfDivision",
            Cause::IfOverflow => "IfOverflow",
            Cause::IfShift => "IfShift",
            Cause::DefinedFromMacro => "DefinedFromMacro",
            Cause::BadInclude => "BadInclude",
            Cause::IncludeDepth => "IncludeDepth",
            Cause::ErrorDirective => "ErrorDirective",
            Cause::UnterminatedCall => "UnterminatedCall",
            Cause::WrongArguments => "WrongArguments",
            Cause::BadPaste => "BadPaste",
            Cause::BadStringize => "BadStringize",
            Cause::BadToken => "BadToken",
            Cause::Syntax => "Syntax",
            Cause::BadPragma => "BadPragma",
        }
    }
}
