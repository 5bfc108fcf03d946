//! The lines of `#if` and `#elif` (C11 6.10.1, 6.6): what `defined` becomes, what an expression
//! comes to, and which configurations take the group.
#![tactic(auto)]

mod answers;
mod character;
mod deciding;
mod expression;
mod frame;
mod halves;
mod integer;
mod operand;
mod pair;
mod piece;
mod reader;
mod reading;
mod readings;
mod replacing;
mod stop;
mod symbol;
mod value;

pub use deciding::{Decided, decide};
pub use expression::evaluate;
pub use replacing::replace_defined;
pub use stop::IfStop;
pub use value::Value;
