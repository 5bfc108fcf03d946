use crate::Hide;
use sc_base::Name;

/// How a hide set is made of others.
#[derive(Clone, Copy, Debug, PartialEq, Eq, Hash)]
pub enum SetOperation {
    /// The names of a set and this one.
    With(Hide, Name),
    /// The names that two sets have in common.
    Meet(Hide, Hide),
    /// The names of two sets.
    Union(Hide, Hide),
}
