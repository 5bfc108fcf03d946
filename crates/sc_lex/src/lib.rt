//! From the bytes of a file to its tokens (C11 5.1.1.2 phases 1 to 3, and 6.4).
#![tactic(auto, using(sc_base::proofs::Growth::growth))]

mod cursor;
mod lexer;
mod line;
mod piece;
mod relex;
mod scan;
mod stop;
mod unclosed;

pub use lexer::{end, token, tokens};
pub use line::name_of;
pub use relex::relex_one;
pub use sc_base::{HasToken, Kind, Token};
pub use stop::LexStop;
