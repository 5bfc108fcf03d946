/// What a line that begins with `#` is (C11 6.10).
#[derive(Clone, Copy, Debug, PartialEq, Eq)]
pub enum Directive {
    Conditional(Conditional),
    Include,
    Define,
    Undef,
    Line,
    Error,
    Pragma,
    /// No directive of C11: it is ignored as a pragma is.
    Warning,
    /// `#` alone.
    Null,
    Unknown,
}

/// The directives that select groups of lines (C11 6.10.1).
#[derive(Clone, Copy, Debug, PartialEq, Eq)]
pub enum Conditional {
    /// The first of a section: `#if`, `#ifdef` or `#ifndef`.
    Opening(Test),
    /// A later one with a test: `#elif`, and in C23 `#elifdef` and `#elifndef`.
    Alternative(Test),
    Else,
    Endif,
}

/// What a conditional directive asks, to take its group or to pass it over.
#[derive(Clone, Copy, Debug, PartialEq, Eq)]
pub enum Test {
    /// Whether an expression has a value other than 0.
    Expression,
    /// Whether a name is that of a macro.
    Defined,
    /// Whether it is not.
    Undefined,
}
