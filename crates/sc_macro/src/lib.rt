//! Macros: what a `#define` line defines, and when two definitions are the same (C11 6.10.3).
#![tactic(auto)]

mod define;
mod definition;
mod fit;
mod form;
mod head;
mod items;
mod same;
mod stop;

pub use define::{is_protected, read_define};
pub use definition::{Definition, Item, Replacement};
pub use form::{Form, Rest, counts};
pub use same::same_definition;
pub use stop::DefineStop;
