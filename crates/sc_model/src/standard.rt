/// The edition of the standard by which files are read.
#[derive(Clone, Copy, Debug, PartialEq, Eq)]
pub enum Standard {
    C11,
    /// C11 with `#elifdef`, `#elifndef` and binary integer constants.
    C23,
    /// C11 with the variadic macros of GNU C.
    Gnu11,
}
