//! Substitution: what replaces a macro's name, and the hide sets of its tokens.
#![tactic(auto, using(sc_base::proofs::Growth::growth))]

mod filling;
mod glue;
mod groups;
mod hidden;
mod hide_sets;
mod lists;
mod literal;
mod operators;
mod part;
mod parts;
mod replacement;
mod set_operation;
mod slots;
mod sorted;
mod stop;
mod tokens;

pub use filling::{fill, hide_all};
pub use hidden::{Hidden, Hide};
pub use hide_sets::HideSets;
pub use lists::items_at;
pub use literal::stringize;
pub use operators::paste;
pub use part::Part;
pub use parts::expanded_parameters;
pub use replacement::{substitute, template};
pub use stop::SubstStop;
pub use tokens::Tokens;
