/// How a header's name stands in an `#include` (C11 6.10.2).
#[derive(Clone, Copy, Debug, PartialEq, Eq)]
pub enum HeaderKind {
    /// `"name"`
    Quoted,
    /// `<name>`
    Angle,
}
