//! The header that an `#include` names, and where its file is looked for (C11 6.10.2).
#![tactic(auto)]

mod candidate;
mod header;
mod stop;

pub use c11_headers::HeaderKind;
pub use candidate::candidates;
pub use header::{Header, read_header};
pub use stop::IncludeStop;
