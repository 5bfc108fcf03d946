ghost use Rattle.std.specs.Prelude.{◌≡◌, ℕ, ◌+◌, ◌<◌, ◌&&◌, Bool, List, All, drop, length, IfOk};
ghost use Rattle.sc_model.specs.Sets.{IsConfig, IsCond, Denotes, Keeps};
ghost use Rattle.sc_hoist.specs.declared.state.State.{State};
ghost use Rattle.sc_hoist.specs.declared.state.State.TheVariants.{Alone};
ghost use Rattle.sc_hoist.specs.Calls.{call_end_at, closed, still, bare, alone, is_end};
ghost use Rattle.sc_hoist.specs.Reading.{AreEntries, in_states, state_after};

use crate::TokenList;
use crate::state::{State, Test, role_of};
use crate::states::{Entry, advance, all_final, passing};
use sc_base::{Cond, Names, OutOfMemory};
use sc_presence::Conditions;
use std::alloc::Global;

/// Configurations parted by how the call of a name goes on.
#[derive(Clone, Copy, Debug, PartialEq, Eq)]
pub struct CallEnds {
    /// A parenthesis opens it and one closes it.
    pub closed: Cond,
    /// A parenthesis opens it, and none closes it.
    pub still: Cond,
    /// Another token follows the name.
    pub bare: Cond,
    /// No token follows the name.
    pub alone: Cond,
}

/// Parts the configurations of `cond` by how the call whose name is item `at` goes on among the
/// items behind it that each configuration has.
pub fn call_ends<C: Conditions, L: TokenList>(
    alloc: Global,
    conds: &mut C,
    names: &Names,
    list: &L,
    at: usize,
    cond: Cond,
) -> Result<CallEnds, OutOfMemory>
    requires at { at < length (L.tokens list.now) }
    requires own { All (λ item. IsCond (C.sets conds.old) item.0.0) (L.tokens list.now) }
    requires held { All (λ item. item.1.spelling.0 < length names.now) (L.tokens list.now) }
    requires cond_own { IsCond (C.sets conds.old) cond.0 }
    ensures closed { IfOk result (λ r. Denotes (C.sets conds.new) r.closed.0 (λ c. (C.sets conds.old).has cond.0 c
        && is_end closed (call_end_at (C.sets conds.old) names.now (L.tokens list.now) at c))) }
    ensures still { IfOk result (λ r. Denotes (C.sets conds.new) r.still.0 (λ c. (C.sets conds.old).has cond.0 c
        && is_end still (call_end_at (C.sets conds.old) names.now (L.tokens list.now) at c))) }
    ensures bare { IfOk result (λ r. Denotes (C.sets conds.new) r.bare.0 (λ c. (C.sets conds.old).has cond.0 c
        && is_end bare (call_end_at (C.sets conds.old) names.now (L.tokens list.now) at c))) }
    ensures alone { IfOk result (λ r. Denotes (C.sets conds.new) r.alone.0 (λ c. (C.sets conds.old).has cond.0 c
        && is_end alone (call_end_at (C.sets conds.old) names.now (L.tokens list.now) at c))) }

    // at every outcome
    ensures keeps { Keeps (C.sets conds.old) (C.sets conds.new) }
{
    let states = states_behind(alloc, conds, names, list, at, cond)?;
    let closed = passing(conds, &states, Test::IsClosed)?;
    let still = passing(conds, &states, Test::IsStill)?;
    let bare = passing(conds, &states, Test::IsBare)?;
    let alone = passing(conds, &states, Test::IsAlone)?;
    Ok(CallEnds {
        closed,
        still,
        bare,
        alone,
    })
}

/// How far each configuration has read the call at the end of the list.
fn states_behind<C: Conditions, L: TokenList>(
    alloc: Global,
    conds: &mut C,
    names: &Names,
    list: &L,
    at: usize,
    cond: Cond,
) -> Result<Vec<Entry>, OutOfMemory>
    requires at { at < length (L.tokens list.now) }
    requires own { All (λ item. IsCond (C.sets conds.old) item.0.0) (L.tokens list.now) }
    requires held { All (λ item. item.1.spelling.0 < length names.now) (L.tokens list.now) }
    requires cond_own { IsCond (C.sets conds.old) cond.0 }
    ensures own { IfOk result (λ r. AreEntries (C.sets conds.new) r.items) }
    ensures states { IfOk result (λ r. (test : State → Bool) (c : List ℕ) → IsConfig (C.sets conds.old).arities c
        → in_states (C.sets conds.new) r.items test c
        ≡ ((C.sets conds.old).has cond.0 c && test (state_after (C.sets conds.old) names.now (drop (at + 1) (L.tokens list.now)) c Alone))) }

    // at every outcome
    ensures keeps { Keeps (C.sets conds.old) (C.sets conds.new) }
{
    let mut states = Vec::new(alloc);
    states.push(Entry {
        state: State::Alone,
        cond,
    })?;
    let count = list.len();
    for index in at + 1..count {
        if all_final(&states) {
            return Ok(states);
        }
        let item = list.item(index);
        let role = role_of(names, item.1);
        states = advance(alloc, conds, states, item.0, role)?;
    }
    Ok(states)
}
