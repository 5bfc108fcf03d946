ghost use Rattle.std.specs.Prelude.{◌≡◌, ℕ, ◌+◌, ◌^◌, ◌<◌, ◌&&◌, ◌∷◌, Bool, true, List, All, drop, length, IfOk};
ghost use Rattle.sc_model.specs.Sets.{IsConfig, IsCond, Keeps};
ghost use Rattle.sc_hoist.specs.declared.state.State.{State};
ghost use Rattle.sc_hoist.specs.declared.state.State.TheVariants.{Alone};
ghost use Rattle.sc_hoist.specs.Places.{places_from};
ghost use Rattle.sc_hoist.specs.Reading.{AreEntries, in_states, state_after, taken_from};

use crate::TokenList;
use crate::state::{State, Test, role_of};
use crate::states::{Entry, advance, all_final, passing};
use sc_base::{Cond, Names, OutOfMemory};
use sc_presence::Conditions;
use std::alloc::Global;

/// The items of the calls of a name.
#[derive(Drop)]
pub struct CallItems {
    /// The configurations that have the name, and for each item behind it those that have it in
    /// their call.
    pub conds: Vec<Cond>,
    /// How far each configuration has read its call.
    pub states: Vec<Entry>,
}

/// Reads the calls of the name that is item `at`, until no item that follows can be of one.
pub fn call_items<C: Conditions, L: TokenList>(
    alloc: Global,
    conds: &mut C,
    names: &Names,
    list: &L,
    at: usize,
    cond: Cond,
) -> Result<CallItems, OutOfMemory>
    requires at { at < length (L.tokens list.now) }
    requires own { All (λ item. IsCond (C.sets conds.old) item.0.0) (L.tokens list.now) }
    requires held { All (λ item. item.1.spelling.0 < length names.now) (L.tokens list.now) }
    requires cond_own { IsCond (C.sets conds.old) cond.0 }
    ensures own { IfOk result (λ r. All (λ item. IsCond (C.sets conds.new) item.0) r.conds.items) }
    ensures states_own { IfOk result (λ r. AreEntries (C.sets conds.new) r.states.items) }
    ensures small { IfOk result (λ r. at + length r.conds.items < 2 ^ 64) }
    ensures states { IfOk result (λ r. (test : State → Bool) (c : List ℕ) → IsConfig (C.sets conds.old).arities c
        → in_states (C.sets conds.new) r.states.items test c
        ≡ ((C.sets conds.old).has cond.0 c && test (state_after (C.sets conds.old) names.now (drop (at + 1) (L.tokens list.now)) c Alone))) }
    ensures places { IfOk result (λ r. (c : List ℕ) → IsConfig (C.sets conds.old).arities c → (C.sets conds.old).has cond.0 c ≡ true
        → places_from (C.sets conds.new) at r.conds.items c
        ≡ at ∷ taken_from (C.sets conds.old) names.now Alone (at + 1) (drop (at + 1) (L.tokens list.now)) c) }

    // at every outcome
    ensures keeps { Keeps (C.sets conds.old) (C.sets conds.new) }
{
    let mut taken = Vec::new(alloc);
    taken.push(cond)?;
    let mut states = Vec::new(alloc);
    states.push(Entry {
        state: State::Alone,
        cond,
    })?;
    let count = list.len();
    for index in at + 1..count {
        if all_final(&states) {
            return Ok(CallItems {
                conds: taken,
                states,
            });
        }
        let item = list.item(index);
        let role = role_of(names, item.1);
        let taking = passing(conds, &states, Test::Takes(role))?;
        let having = conds.apply_and(item.0, taking)?;
        taken.push(having)?;
        states = advance(alloc, conds, states, item.0, role)?;
    }
    Ok(CallItems {
        conds: taken,
        states,
    })
}
