//! Which numbers are constants, and what integer constants have (C11 6.4.4.1, 6.4.4.2).
#![tactic(auto)]

mod digits;
mod floating;
mod integer;

pub use digits::{after_digits, has_digit, is_digit};
pub use floating::is_floating;
pub use integer::{IntegerForm, integer_form};
