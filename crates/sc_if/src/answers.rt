//! What the line of an `#if` comes to, by condition.
ghost use Rattle.std.specs.Prelude.{◌≡◌, ℕ, ◌&&◌, ◌||◌, List, All, map, IfOk, IfErr};
ghost use Rattle.std.specs.List.{list_any};
ghost use Rattle.sc_base.specs.Seen.{IsHeld};
ghost use Rattle.sc_guarded.specs.Items.{items_at};
ghost use Rattle.sc_if.specs.Decided.{AreAnswers, is_left_over};
ghost use Rattle.sc_if.specs.Parts.{RefusesAt};
ghost use Rattle.sc_if.specs.Readings.{answer_of, seen_reading};
ghost use Rattle.sc_model.specs.Sets.{IsConfig, IsCond, Keeps};

use crate::reading::{Reading, answer_to};
use crate::readings::read_line;
use sc_base::{Cause, Cond, Kind, Names, OutOfMemory, Stop, Token, is_same};
use sc_guarded::Guarded;
use sc_model::Standard;
use sc_presence::Conditions;
use std::alloc::Global;

/// Whether the group of a line is taken or why the line is refused, for the configurations of a
/// condition.
pub(crate) fn answers<C: Conditions>(
    alloc: Global,
    conds: &mut C,
    names: &Names,
    list: &Guarded<Token>,
    live: Cond,
    limit: usize,
    standard: Standard,
) -> Result<Vec<(Cond, Result<bool, Cause>)>, Stop>
    requires own { All (λ item. IsCond (C.sets conds.old) item.0.0) list.now }
    requires held { All (λ item. IsHeld names.now item.1) list.now }
    requires live_own { IsCond (C.sets conds.old) live.0 }
    ensures answers { IfOk result (λ answers. AreAnswers standard (C.sets conds.old) (C.sets conds.new) names.now list.now live.0 answers.items) }
    ensures refused { IfErr result (RefusesAt standard (C.sets conds.old) names.now list.now ((C.sets conds.old).has live.0) limit) }

    // at every outcome
    ensures keeps { Keeps (C.sets conds.old) (C.sets conds.new) }
{
    let left_over = having_defined(conds, names, list, live)?;
    let rest = conds.apply_without(live, left_over)?;
    let readings = read_line(alloc, conds, names, list, rest, limit, standard)?;
    let mut answers = answers_to(alloc, readings)?;
    if conds.is_never(left_over) {
        return Ok(answers);
    }
    answers.push((left_over, Err(Cause::DefinedFromMacro)))?;
    Ok(answers)
}

/// The configurations in which a `defined` is left over.
fn having_defined<C: Conditions>(
    conds: &mut C,
    names: &Names,
    list: &Guarded<Token>,
    live: Cond,
) -> Result<Cond, OutOfMemory>
    requires own { All (λ item. IsCond (C.sets conds.old) item.0.0) list.now }
    requires held { All (λ item. IsHeld names.now item.1) list.now }
    requires live_own { IsCond (C.sets conds.old) live.0 }
    ensures own { IfOk result (λ found. IsCond (C.sets conds.new) found.0) }
    ensures meaning { IfOk result (λ found. (c : List ℕ) → IsConfig (C.sets conds.old).arities c → (C.sets conds.new).has found.0 c
        ≡ ((C.sets conds.old).has live.0 c && list_any (is_left_over names.now) (items_at (C.sets conds.old) list.now c))) }

    // at every outcome
    ensures keeps { Keeps (C.sets conds.old) (C.sets conds.new) }
{
    let mut found = conds.never();
    for index in 0..list.len() {
        let (item, token) = list.item(index);
        found = add_left_over(conds, names, live, found, item, token)?;
    }
    Ok(found)
}

/// The configurations found with those of `live` that have an item, where its token is a `defined`
/// that was not replaced.
#[tactic(auto, using(sc_model::proofs::SetLemmas::conditions))]
fn add_left_over<C: Conditions>(
    conds: &mut C,
    names: &Names,
    live: Cond,
    found: Cond,
    item: Cond,
    token: &Token,
) -> Result<Cond, OutOfMemory>
    requires held { IsHeld names.now token.now }
    requires live_own { IsCond (C.sets conds.old) live.0 }
    requires found_own { IsCond (C.sets conds.old) found.0 }
    requires item_own { IsCond (C.sets conds.old) item.0 }
    ensures own { IfOk result (λ r. IsCond (C.sets conds.new) r.0) }
    ensures meaning { IfOk result (λ r. (c : List ℕ) → IsConfig (C.sets conds.old).arities c → (C.sets conds.new).has r.0 c
        ≡ ((C.sets conds.old).has found.0 c || (is_left_over names.now token.now && ((C.sets conds.old).has live.0 c && (C.sets conds.old).has item.0 c)))) }

    // at every outcome
    ensures keeps { Keeps (C.sets conds.old) (C.sets conds.new) }
{
    if is_left_over(token, names) {
        let having = conds.apply_and(live, item)?;
        let either = conds.apply_or(found, having)?;
        return Ok(either);
    }
    Ok(found)
}

/// Whether a token is a `defined` that was not replaced.
fn is_left_over(token: &Token, names: &Names) -> bool
    requires { IsHeld names.now token.now }
    ensures { result ≡ is_left_over names.now token.now }
{
    matches!(token.kind, Kind::Identifier) && is_same(names.text(token.spelling), b"defined")
}

/// What each of them says of the line.
fn answers_to(
    alloc: Global,
    readings: Vec<(Cond, Option<Reading>)>,
) -> Result<Vec<(Cond, Result<bool, Cause>)>, OutOfMemory>
    ensures { IfOk result (λ answers. answers.items ≡ map (λ reading. (reading.0, answer_of (seen_reading reading.1))) readings.items) }
{
    let mut answers = Vec::new(alloc);
    for reading in readings {
        answers.push((reading.0, answer_to(reading.1)))?;
    }
    Ok(answers)
}
