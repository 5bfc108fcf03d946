//! A long line of an `#if` read by halves, under all conditions at once.
//!
//! From left to right each element makes the conditions of all in front of it anew. So each half is
//! read by itself, from all that may have been read in front of it, and then both are joined.
ghost use Rattle.std.specs.Prelude.{◌≡◌, ◌<◌, ℕ, ◌++◌, ◌∷◌, [], List, Option, All, length, slice_index_or, IfOk, IfSome, OnOk};
ghost use Rattle.c11_expressions.proofs.Reader.{wanting};
ghost use Rattle.sc_base.specs.declared.id.Cond.{Cond};
ghost use Rattle.sc_if.specs.Halves.{AreFollowed, AreJoined, AreReadFrom, AreWays, OwnWays};
ghost use Rattle.sc_if.specs.Readings.{seen_reading, state_in};
ghost use Rattle.sc_if.specs.declared.symbol.Symbol.{Symbol};
ghost use Rattle.sc_model.specs.Sets.{IsCond, Keeps};

use crate::reading::Reading;
use crate::readings::{advance, put, unread};
use crate::symbol::Symbol;
use sc_base::{Cond, OutOfMemory};
use sc_presence::Conditions;
use std::alloc::Global;

/// From so many beginnings a part of a line is read at most, with so much that waits in each.
const MOST: usize = 16;

/// What reading a part of a line comes to.
#[derive(Drop)]
pub(crate) struct Way {
    /// What was read in front of it.
    pub(crate) start: Reading,
    /// What was read behind it, by condition.
    pub(crate) ends: Vec<(Cond, Option<Reading>)>,
}

/// What reading a line comes to, unless too much is told apart in it.
pub(crate) fn read_halves<C: Conditions>(
    alloc: Global,
    conds: &mut C,
    line: &[(Cond, Option<Symbol>)],
    live: Cond,
) -> Result<Option<Vec<(Cond, Option<Reading>)>>, OutOfMemory>
    requires own { All (λ element. IsCond (C.sets conds.old) element.0.0) line.now }
    requires live_own { IsCond (C.sets conds.old) live.0 }
    ensures read { IfOk result (λ read. IfSome read (λ ends. AreReadFrom (C.sets conds.old) (C.sets conds.new) line.now live.0 (wanting []) ends.items)) }

    // at every outcome
    ensures keeps { Keeps (C.sets conds.old) (C.sets conds.new) }
{
    let mut starts = Vec::new(alloc);
    starts.push(Reading::start(alloc))?;
    let Some(ways) = read_part(alloc, conds, line, live, starts)? else {
        return Ok(None);
    };
    let middle = unread(alloc, conds, live)?;
    go_through(alloc, conds, &middle, &ways)
}

/// What reading a part of a line comes to from each of these beginnings, unless too much is told
/// apart in it.
fn read_part<C: Conditions>(
    alloc: Global,
    conds: &mut C,
    line: &[(Cond, Option<Symbol>)],
    live: Cond,
    starts: Vec<Reading>,
) -> Result<Option<Vec<Way>>, OutOfMemory>
    requires own { All (λ element. IsCond (C.sets conds.old) element.0.0) line.now }
    requires live_own { IsCond (C.sets conds.old) live.0 }
    ensures read { IfOk result (λ read. IfSome read (λ ways. AreWays (C.sets conds.old) (C.sets conds.new) line.now live.0 ways.items)) }

    // at every outcome
    ensures keeps { Keeps (C.sets conds.old) (C.sets conds.new) }
{
    if !are_small(&starts) {
        return Ok(None);
    }
    match line {
        [] => Ok(None),
        [element] => read_element(alloc, conds, *element, live, starts),
        _ => {
            let (front, back) = line.split_at(line.len() / 2);
            let Some(firsts) = read_part(alloc, conds, front, live, starts)? else {
                return Ok(None);
            };
            let between = ends_of(alloc, &firsts)?;
            let Some(seconds) = read_part(alloc, conds, back, live, between)? else {
                return Ok(None);
            };
            join_ways(alloc, conds, &firsts, &seconds)
        }
    }
}

/// Whether there are few beginnings, and little waits in each, since each is copied.
fn are_small(starts: &[Reading]) -> bool {
    for start in starts {
        if start.depth() > MOST {
            return false;
        }
    }
    starts.len() <= MOST
}

/// What reading one element comes to.
fn read_element<C: Conditions>(
    alloc: Global,
    conds: &mut C,
    element: (Cond, Option<Symbol>),
    live: Cond,
    starts: Vec<Reading>,
) -> Result<Option<Vec<Way>>, OutOfMemory>
    requires own { IsCond (C.sets conds.old) element.0.0 }
    requires live_own { IsCond (C.sets conds.old) live.0 }
    ensures read { IfOk result (λ read. IfSome read (λ ways. AreWays (C.sets conds.old) (C.sets conds.new) (element ∷ []) live.0 ways.items)) }

    // at every outcome
    ensures keeps { Keeps (C.sets conds.old) (C.sets conds.new) }
{
    let mut ways = Vec::new(alloc);
    for start in starts {
        let way = way_of(alloc, conds, element, live, start)?;
        ways.push(way)?;
    }
    Ok(Some(ways))
}

/// What reading one element comes to from one beginning.
fn way_of<C: Conditions>(
    alloc: Global,
    conds: &mut C,
    element: (Cond, Option<Symbol>),
    live: Cond,
    start: Reading,
) -> Result<Way, OutOfMemory>
    requires own { IsCond (C.sets conds.old) element.0.0 }
    requires live_own { IsCond (C.sets conds.old) live.0 }
    ensures read { IfOk result (λ way. AreReadFrom (C.sets conds.old) (C.sets conds.new) (element ∷ []) live.0 (state_in way.start) way.ends.items) }

    // at every outcome
    ensures keeps { Keeps (C.sets conds.old) (C.sets conds.new) }
{
    let mut before = Vec::new(alloc);
    before.push((live, Some(start.copy()?)))?;
    let mut next = advance(alloc, conds, before, element.0, element.1)?;
    next.left.append(&mut next.moved)?;
    Ok(Way {
        start,
        ends: next.left,
    })
}

/// What was read at the ends of these ways, each once.
fn ends_of(alloc: Global, ways: &[Way]) -> Result<Vec<Reading>, OutOfMemory> {
    let mut found = Vec::new(alloc);
    for way in ways {
        for end in &way.ends {
            if let Some(reading) = &end.1 {
                add_reading(&mut found, reading)?;
            }
        }
    }
    Ok(found)
}

fn add_reading(found: &mut Vec<Reading>, reading: &Reading) -> Result<(), OutOfMemory> {
    for other in found.as_slice() {
        if other.is_same(reading) {
            return Ok(());
        }
    }
    found.push(reading.copy()?)?;
    Ok(())
}

/// The ways through both halves.
fn join_ways<C: Conditions>(
    alloc: Global,
    conds: &mut C,
    firsts: &[Way],
    seconds: &[Way],
) -> Result<Option<Vec<Way>>, OutOfMemory>
    requires firsts { OwnWays (C.sets conds.old) firsts.now }
    requires seconds { OwnWays (C.sets conds.old) seconds.now }
    ensures joined { IfOk result (λ joined. IfSome joined (λ ways. (front back : List (Cond × Option Symbol)) (live : ℕ)
        → All (λ element. IsCond (C.sets conds.old) element.0.0) (front ++ back) → IsCond (C.sets conds.old) live
        → AreWays (C.sets conds.old) (C.sets conds.old) front live firsts.now → AreWays (C.sets conds.old) (C.sets conds.old) back live seconds.now
        → AreWays (C.sets conds.old) (C.sets conds.new) (front ++ back) live ways.items)) }

    // at every outcome
    ensures keeps { Keeps (C.sets conds.old) (C.sets conds.new) }
{
    let mut ways = Vec::new(alloc);
    for first in firsts {
        let Some(ends) = go_through(alloc, conds, &first.ends, seconds)? else {
            return Ok(None);
        };
        ways.push(Way {
            start: first.start.copy()?,
            ends,
        })?;
    }
    Ok(Some(ways))
}

/// What those that came so far read at the end of the second half.
fn go_through<C: Conditions>(
    alloc: Global,
    conds: &mut C,
    middle: &[(Cond, Option<Reading>)],
    seconds: &[Way],
) -> Result<Option<Vec<(Cond, Option<Reading>)>>, OutOfMemory>
    requires middle { All (λ reading. IsCond (C.sets conds.old) reading.0.0) middle.now }
    requires seconds { OwnWays (C.sets conds.old) seconds.now }
    ensures joined { IfOk result (λ joined. IfSome joined (λ ends. (back : List (Cond × Option Symbol)) (live : ℕ)
        → AreWays (C.sets conds.old) (C.sets conds.old) back live seconds.now → AreJoined (C.sets conds.old) (C.sets conds.new) back live middle.now ends.items)) }

    // at every outcome
    ensures keeps { Keeps (C.sets conds.old) (C.sets conds.new) }
{
    let mut ends = Vec::new(alloc);
    for reading in middle {
        match &reading.1 {
            None => put(conds, &mut ends, reading.0, None)?,
            Some(before) => match way_from(seconds, before) {
                Some(index) => follow(conds, &mut ends, reading.0, &seconds[index].ends)?,
                None => return Ok(None),
            },
        }
    }
    Ok(Some(ends))
}

/// The index of the way with a beginning.
fn way_from(ways: &[Way], start: &Reading) -> Option<usize>
    ensures { IfSome result (λ k. (k < length ways.now) × ((other : Way) → state_in (slice_index_or ways.now k other).start ≡ state_in start.now)) }
{
    for index in 0..ways.len() {
        if ways[index].start.is_same(start) {
            return Some(index);
        }
    }
    None
}

/// Adds what the configurations of a condition read at the end of a way.
fn follow<C: Conditions>(
    conds: &mut C,
    ends: &mut Vec<(Cond, Option<Reading>)>,
    cond: Cond,
    more: &[(Cond, Option<Reading>)],
) -> Result<(), OutOfMemory>
    requires own { All (λ reading. IsCond (C.sets conds.old) reading.0.0) ends.old.items }
    requires cond_own { IsCond (C.sets conds.old) cond.0 }
    requires more_own { All (λ reading. IsCond (C.sets conds.old) reading.0.0) more.now }
    ensures followed { OnOk result (AreFollowed (C.sets conds.old) (C.sets conds.new) cond.0 more.now ends.old.items ends.new.items) }

    // at every outcome
    ensures keeps { Keeps (C.sets conds.old) (C.sets conds.new) }
{
    for reading in more {
        put_both(conds, ends, cond, reading.0, &reading.1)?;
    }
    Ok(())
}

/// Adds the configurations that two conditions have, if there are any.
#[tactic(auto, using(sc_model::proofs::SetLemmas::conditions))]
fn put_both<C: Conditions>(
    conds: &mut C,
    ends: &mut Vec<(Cond, Option<Reading>)>,
    cond: Cond,
    other: Cond,
    reading: &Option<Reading>,
) -> Result<(), OutOfMemory>
    requires own { All (λ reading. IsCond (C.sets conds.old) reading.0.0) ends.old.items }
    requires cond_own { IsCond (C.sets conds.old) cond.0 }
    requires other_own { IsCond (C.sets conds.old) other.0 }
    ensures followed { OnOk result ((r : Option Reading) → seen_reading r ≡ seen_reading reading.now
        → AreFollowed (C.sets conds.old) (C.sets conds.new) cond.0 ((other, r) ∷ []) ends.old.items ends.new.items) }

    // at every outcome
    ensures keeps { Keeps (C.sets conds.old) (C.sets conds.new) }
{
    let both = conds.apply_and(cond, other)?;
    if conds.is_never(both) {
        return Ok(());
    }
    let copy = copy_of(reading)?;
    put(conds, ends, both, copy)
}

fn copy_of(reading: &Option<Reading>) -> Result<Option<Reading>, OutOfMemory>
    ensures { IfOk result (λ copy. seen_reading copy ≡ seen_reading reading.now) }
{
    match reading {
        Some(reading) => Ok(Some(reading.copy()?)),
        None => Ok(None),
    }
}
