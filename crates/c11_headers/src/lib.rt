//! The header that an `#include` names, and under which names its file is looked for (C11 6.10.2),
//! as definitions.
#![tactic(auto)]

mod kind;

pub use kind::HeaderKind;
