//! How the calls of the first token of a list go on.
ghost use Rattle.std.specs.Prelude.{◌≡◌, ℕ, ◌+◌, ◌<◌, ◌&&◌, List, All, true, length, IfOk, IfSome};
ghost use Rattle.sc_expand.specs.FirstCalls.{IsKnownCall, indexes_from};
ghost use Rattle.sc_expand.specs.Having.{tokens_in};
ghost use Rattle.sc_hoist.specs.Calls.{alone, bare, call_end_at, call_places, closed, is_end, still};
ghost use Rattle.sc_model.specs.Sets.{Denotes, IsCond, Keeps};

use crate::work_list::WorkList;
use sc_base::{Cond, Names, OutOfMemory};
use sc_hoist::{CallEnds, FoundCalls, find_calls};
use sc_presence::Conditions;
use std::alloc::Global;

/// Parts the configurations of `cond` by how the calls of the first token go on, as `find_calls`
/// does. Where the list knows the end of their only call, its tokens are not read.
pub fn first_calls<C: Conditions>(
    alloc: Global,
    conds: &mut C,
    names: &Names,
    list: &WorkList,
    cond: Cond,
) -> Result<FoundCalls, OutOfMemory>
    requires some { 0 < length list.now }
    requires own { All (λ item. IsCond (C.sets conds.old) item.0.0) (tokens_in list.now) }
    requires held { All (λ item. item.1.spelling.0 < length names.now) (tokens_in list.now) }
    requires cond_own { IsCond (C.sets conds.old) cond.0 }
    ensures closed { IfOk result (λ r. Denotes (C.sets conds.new) r.ends.closed.0 (λ c. (C.sets conds.old).has cond.0 c
        && is_end closed (call_end_at (C.sets conds.old) names.now (tokens_in list.now) 0 c))) }
    ensures still { IfOk result (λ r. Denotes (C.sets conds.new) r.ends.still.0 (λ c. (C.sets conds.old).has cond.0 c
        && is_end still (call_end_at (C.sets conds.old) names.now (tokens_in list.now) 0 c))) }
    ensures bare { IfOk result (λ r. Denotes (C.sets conds.new) r.ends.bare.0 (λ c. (C.sets conds.old).has cond.0 c
        && is_end bare (call_end_at (C.sets conds.old) names.now (tokens_in list.now) 0 c))) }
    ensures alone { IfOk result (λ r. Denotes (C.sets conds.new) r.ends.alone.0 (λ c. (C.sets conds.old).has cond.0 c
        && is_end alone (call_end_at (C.sets conds.old) names.now (tokens_in list.now) 0 c))) }
    ensures places { IfOk result (λ r. IfSome r.places (λ places. (c : List ℕ) → (C.sets conds.new).has r.ends.closed.0 c ≡ true
        → call_places (C.sets conds.new) names.now (tokens_in list.now) 0 c ≡ places.items)) }

    // at every outcome
    ensures keeps { Keeps (C.sets conds.old) (C.sets conds.new) }
{
    match known_end(names, list, cond) {
        Some(close) => {
            let never = conds.never();
            Ok(FoundCalls {
                ends: CallEnds {
                    closed: cond,
                    still: never,
                    bare: never,
                    alone: never,
                },
                places: Some(indexes_to(alloc, close)?),
            })
        }
        None => find_calls(alloc, conds, names, list, 0, cond),
    }
}

/// The index of the parenthesis that closes the call of the first token, where that is known and
/// all tokens stand under the condition itself.
fn known_end(names: &Names, list: &WorkList, cond: Cond) -> Option<usize>
    requires { All (λ item. item.1.spelling.0 < length names.now) (tokens_in list.now) }
    ensures { IfSome result (IsKnownCall names.now list.now cond) }
{
    let tokens = list.all_under(cond)?;
    if tokens.len() < 2 {
        return None;
    }
    tokens.closing(names, 1)
}

/// The indexes up to the last one.
fn indexes_to(alloc: Global, last: usize) -> Result<Vec<usize>, OutOfMemory>
    ensures { IfOk result (λ made. made.items ≡ indexes_from 0 (last + 1)) }
{
    let mut made = Vec::new(alloc);
    for index in 0..last {
        made.push(index)?;
    }
    made.push(last)?;
    Ok(made)
}
