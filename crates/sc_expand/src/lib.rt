//! Macro expansion of C11 (6.10.3.4) in all configurations at once, and its steps at one of them.
#![tactic(auto)]

mod arguments;
mod beginning;
mod call;
mod closing;
mod expanding;
mod expansion;
mod filling;
mod first_calls;
mod frame;
mod gathering;
mod laws;
mod refusals;
mod role;
mod running;
mod settling;
mod source;
mod taking;
mod turns;
mod waiting;
mod work_list;

pub use closing::close;
pub use expanding::expand;
pub use laws::{
    expansion_commutes_with_maps_of_places, expansion_stays_on_one_line, runs_take_the_footprint,
    settled_list_closes, settled_list_is_thin, settling_commutes_with_maps_of_places,
    steps_depend_on_the_names_looked_up, steps_end, steps_give_the_expansion,
    steps_settle_the_list,
};
pub use settling::{Settled, settle};
