//! The line of an `#if` read from left to right under all conditions at once.
ghost use Rattle.std.specs.Prelude.{◌≡◌, ℕ, ◌<◌, ◌++◌, ◌∷◌, ◌&&◌, [], List, All, length, slice_index_or, IfOk, IfErr, IfNone, IfSome, OnOk, None, Option, Some, option_map};
ghost use Rattle.c11_expressions.specs.Symbols.{symbol_of};
ghost use Rattle.sc_base.specs.Seen.{IsHeld, text_at};
ghost use Rattle.sc_if.specs.Halves.{line_of, seen_line};
ghost use Rattle.sc_if.specs.Parts.{RefusesAt};
ghost use Rattle.sc_if.specs.Readings.{AreMoved, ArePartedBy, AreReadings, HaveRead, IsPut, IsWithin, all_of, seen_reading, state_in};
ghost use Rattle.sc_if.specs.Symbols.{seen_symbol};
ghost use Rattle.sc_model.specs.Sets.{Denotes, Sets, IsCond, IsNever, Keeps};
ghost use Rattle.sc_model.specs.declared.standard.Standard.{Standard};

use crate::halves::read_halves;
use crate::reading::{Reading, is_same_reading};
use crate::symbol::{Symbol, symbol_of};
use sc_base::{Cond, Names, OutOfMemory, Stop, Token};
use sc_guarded::Guarded;
use sc_model::Standard;
use sc_presence::Conditions;
use std::alloc::Global;

/// So many elements are read from left to right.
const SHORT: usize = 64;

/// What was read by condition, behind an element of a line.
#[derive(Drop)]
pub(crate) struct Readings {
    /// Of those that lack the element, and of those that can't go on.
    pub(crate) left: Vec<(Cond, Option<Reading>)>,
    /// Of those that have it.
    pub(crate) moved: Vec<(Cond, Option<Reading>)>,
}

/// Reads a line under a condition: what was read for each of its configurations, or nothing where
/// its tokens are the beginning of no expression.
pub(crate) fn read_line<C: Conditions>(
    alloc: Global,
    conds: &mut C,
    names: &Names,
    list: &Guarded<Token>,
    live: Cond,
    limit: usize,
    standard: Standard,
) -> Result<Vec<(Cond, Option<Reading>)>, Stop>
    requires own { All (λ item. IsCond (C.sets conds.old) item.0.0) list.now }
    requires held { All (λ item. IsHeld names.now item.1) list.now }
    requires live_own { IsCond (C.sets conds.old) live.0 }
    ensures read { IfOk result (λ readings. AreReadings standard (C.sets conds.old) (C.sets conds.new) names.now list.now live.0 readings.items) }
    ensures refused { IfErr result (RefusesAt standard (C.sets conds.old) names.now list.now ((C.sets conds.old).has live.0) limit) }

    // at every outcome
    ensures keeps { Keeps (C.sets conds.old) (C.sets conds.new) }
{
    if list.len() > SHORT {
        let line = symbols(alloc, names, list, standard)?;
        if let Some(readings) = read_halves(alloc, conds, &line, live)? {
            return Ok(readings);
        }
    }
    read_through(alloc, conds, names, list, live, limit, standard)
}

/// The same from left to right.
fn read_through<C: Conditions>(
    alloc: Global,
    conds: &mut C,
    names: &Names,
    list: &Guarded<Token>,
    live: Cond,
    limit: usize,
    standard: Standard,
) -> Result<Vec<(Cond, Option<Reading>)>, Stop>
    requires own { All (λ item. IsCond (C.sets conds.old) item.0.0) list.now }
    requires held { All (λ item. IsHeld names.now item.1) list.now }
    requires live_own { IsCond (C.sets conds.old) live.0 }
    ensures read { IfOk result (λ readings. AreReadings standard (C.sets conds.old) (C.sets conds.new) names.now list.now live.0 readings.items) }
    ensures refused { IfErr result (RefusesAt standard (C.sets conds.old) names.now list.now ((C.sets conds.old).has live.0) limit) }

    // at every outcome
    ensures keeps { Keeps (C.sets conds.old) (C.sets conds.new) }
{
    conds.has_options();
    let mut readings = unread(alloc, conds, live)?;
    for index in 0..list.len() {
        let (item, token) = list.item(index);
        let symbol = symbol_at(token, names, standard);
        let mut next = advance(alloc, conds, readings, item, symbol)?;
        if next.moved.len() > limit {
            return Err(Stop::BranchesFull { count: limit + 1 });
        }
        next.left.append(&mut next.moved)?;
        readings = next.left;
    }
    Ok(readings)
}

/// The conditions of a line, and what each token is in an expression.
fn symbols(
    alloc: Global,
    names: &Names,
    list: &Guarded<Token>,
    standard: Standard,
) -> Result<Vec<(Cond, Option<Symbol>)>, OutOfMemory>
    requires { All (λ item. IsHeld names.now item.1) list.now }
    ensures { IfOk result (λ line. seen_line line.items ≡ line_of standard names.now list.now) }
{
    let mut line = Vec::new(alloc);
    for index in 0..list.len() {
        let (item, token) = list.item(index);
        line.push((item, symbol_at(token, names, standard)))?;
    }
    Ok(line)
}

/// What a token is in an expression.
fn symbol_at(token: &Token, names: &Names, standard: Standard) -> Option<Symbol>
    requires { IsHeld names.now token.now }
    ensures { option_map seen_symbol result ≡ symbol_of standard token.now.kind (text_at names.now token.now.spelling.0) }
{
    symbol_of(token.kind, names.text(token.spelling), standard)
}

/// What was read before any element.
pub(crate) fn unread<C: Conditions>(
    alloc: Global,
    conds: &C,
    live: Cond,
) -> Result<Vec<(Cond, Option<Reading>)>, OutOfMemory>
    requires { IsCond (C.sets conds.now) live.0 }
    ensures { IfOk result (λ readings. (standard : Standard) (names : List (List ℕ)) → AreReadings standard (C.sets conds.now) (C.sets conds.now) names [] live.0 readings.items) }
{
    let mut readings = Vec::new(alloc);
    if conds.is_never(live) {
        return Ok(readings);
    }
    readings.push((live, Some(Reading::start(alloc))))?;
    Ok(readings)
}

/// What was read once those that have an element have read its symbol.
pub(crate) fn advance<C: Conditions>(
    alloc: Global,
    conds: &mut C,
    readings: Vec<(Cond, Option<Reading>)>,
    item: Cond,
    symbol: Option<Symbol>,
) -> Result<Readings, OutOfMemory>
    requires own { All (λ reading. IsCond (C.sets conds.old) reading.0.0) readings.items }
    requires item_own { IsCond (C.sets conds.old) item.0 }
    ensures moved { IfOk result (λ next. AreMoved (C.sets conds.old) (C.sets conds.new) item.0 (option_map seen_symbol symbol) readings.items next) }

    // at every outcome
    ensures keeps { Keeps (C.sets conds.old) (C.sets conds.new) }
{
    let mut next = Readings {
        left: Vec::new(alloc),
        moved: Vec::new(alloc),
    };
    for reading in readings {
        next.part(conds, reading.0, reading.1, item, symbol)?;
    }
    Ok(next)
}

impl Readings {
    /// Adds the configurations of a condition: those that lack an element have read what they had,
    /// and those that have it its symbol too.
    fn part<C: Conditions>(
        &mut self,
        conds: &mut C,
        cond: Cond,
        reading: Option<Reading>,
        item: Cond,
        symbol: Option<Symbol>,
    ) -> Result<(), OutOfMemory>
        requires own { All (λ reading. IsCond (C.sets conds.old) reading.0.0) (all_of self.old) }
        requires cond_own { IsCond (C.sets conds.old) cond.0 }
        requires item_own { IsCond (C.sets conds.old) item.0 }
        ensures parted { OnOk result (ArePartedBy (C.sets conds.old) (C.sets conds.new) item.0 (option_map seen_symbol symbol) cond.0 (seen_reading reading) self.old self.new) }

        // at every outcome
        ensures keeps { Keeps (C.sets conds.old) (C.sets conds.new) }
    {
        match reading {
            Some(before) => self.divide(conds, cond, before, item, symbol),
            None => put(conds, &mut self.left, cond, None),
        }
    }

    /// The same for those that can go on.
    #[tactic(auto, using(sc_model::proofs::SetLemmas::conditions))]
    fn divide<C: Conditions>(
        &mut self,
        conds: &mut C,
        cond: Cond,
        before: Reading,
        item: Cond,
        symbol: Option<Symbol>,
    ) -> Result<(), OutOfMemory>
        requires own { All (λ reading. IsCond (C.sets conds.old) reading.0.0) (all_of self.old) }
        requires cond_own { IsCond (C.sets conds.old) cond.0 }
        requires item_own { IsCond (C.sets conds.old) item.0 }
        ensures parted { OnOk result (ArePartedBy (C.sets conds.old) (C.sets conds.new) item.0 (option_map seen_symbol symbol) cond.0 (Some (state_in before)) self.old self.new) }

        // at every outcome
        ensures keeps { Keeps (C.sets conds.old) (C.sets conds.new) }
    {
        let having = conds.apply_and(cond, item)?;
        if conds.is_never(having) {
            self.left.push((cond, Some(before)))?;
            return Ok(());
        }
        if having == cond {
            let after = before.after(symbol)?;
            return self.go_on(conds, cond, after);
        }
        self.halve(conds, cond, item, having, before, symbol)
    }

    /// The same where some of them have the item and some lack it.
    #[tactic(auto, using(sc_model::proofs::SetLemmas::conditions))]
    fn halve<C: Conditions>(
        &mut self,
        conds: &mut C,
        cond: Cond,
        item: Cond,
        having: Cond,
        before: Reading,
        symbol: Option<Symbol>,
    ) -> Result<(), OutOfMemory>
        requires own { All (λ reading. IsCond (C.sets conds.old) reading.0.0) (all_of self.old) }
        requires cond_own { IsCond (C.sets conds.old) cond.0 }
        requires item_own { IsCond (C.sets conds.old) item.0 }
        requires having { Denotes (C.sets conds.old) having.0 (λ c. (C.sets conds.old).has cond.0 c && (C.sets conds.old).has item.0 c) }
        requires some { IsNever (C.sets conds.old) having.0 → ⊥ }
        ensures parted { OnOk result (ArePartedBy (C.sets conds.old) (C.sets conds.new) item.0 (option_map seen_symbol symbol) cond.0 (Some (state_in before)) self.old self.new) }

        // at every outcome
        ensures keeps { Keeps (C.sets conds.old) (C.sets conds.new) }
    {
        let lacking = conds.apply_without(cond, item)?;
        let after = before.copy()?.after(symbol)?;
        self.left.push((lacking, Some(before)))?;
        self.go_on(conds, having, after)
    }

    /// Adds configurations that have read an element.
    fn go_on<C: Conditions>(
        &mut self,
        conds: &mut C,
        cond: Cond,
        reading: Option<Reading>,
    ) -> Result<(), OutOfMemory>
        requires own { All (λ reading. IsCond (C.sets conds.old) reading.0.0) (all_of self.old) }
        requires cond_own { IsCond (C.sets conds.old) cond.0 }
        requires some { IsNever (C.sets conds.old) cond.0 → ⊥ }
        ensures put { OnOk result (IsPut (C.sets conds.old) (C.sets conds.new) cond.0 (seen_reading reading) (all_of self.old) (all_of self.new)) }
        ensures read { OnOk result ((item : ℕ) → IsWithin (C.sets conds.old) cond.0 item
            → HaveRead (C.sets conds.old) item self.old.moved.items → HaveRead (C.sets conds.new) item self.new.moved.items) }

        // at every outcome
        ensures keeps { Keeps (C.sets conds.old) (C.sets conds.new) }
    {
        if reading.is_some() {
            put(conds, &mut self.moved, cond, reading)
        } else {
            put(conds, &mut self.left, cond, reading)
        }
    }
}

/// Adds configurations to those that have read the same.
pub(crate) fn put<C: Conditions>(
    conds: &mut C,
    readings: &mut Vec<(Cond, Option<Reading>)>,
    cond: Cond,
    reading: Option<Reading>,
) -> Result<(), OutOfMemory>
    requires own { All (λ reading. IsCond (C.sets conds.old) reading.0.0) readings.old.items }
    requires cond_own { IsCond (C.sets conds.old) cond.0 }
    ensures put { OnOk result (IsPut (C.sets conds.old) (C.sets conds.new) cond.0 (seen_reading reading) readings.old.items readings.new.items) }
    ensures read { OnOk result ((item : ℕ) → IsWithin (C.sets conds.old) cond.0 item → (IsNever (C.sets conds.old) cond.0 → ⊥) → (seen_reading reading ≡ None → ⊥)
        → HaveRead (C.sets conds.old) item readings.old.items → HaveRead (C.sets conds.new) item readings.new.items) }

    // at every outcome
    ensures keeps { Keeps (C.sets conds.old) (C.sets conds.new) }
{
    match index_of(readings, &reading) {
        Some(index) => join(conds, readings, index, cond),
        None => {
            readings.push((cond, reading))?;
            Ok(())
        }
    }
}

/// The index of those that have read the same.
fn index_of(readings: &[(Cond, Option<Reading>)], reading: &Option<Reading>) -> Option<usize>
    ensures some { IfSome result (λ k. (k < length readings.now) × ((other : Cond × Option Reading) → seen_reading (slice_index_or readings.now k other).1 ≡ seen_reading reading.now)) }
    ensures none { IfNone result (All (λ other. seen_reading other.1 ≡ seen_reading reading.now → ⊥) readings.now) }
{
    for index in 0..readings.len() {
        if is_same_reading(&readings[index].1, reading) {
            return Some(index);
        }
    }
    None
}

/// Adds configurations to those at an index.
#[tactic(auto, using(sc_model::proofs::SetLemmas::conditions))]
fn join<C: Conditions>(
    conds: &mut C,
    readings: &mut Vec<(Cond, Option<Reading>)>,
    index: usize,
    cond: Cond,
) -> Result<(), OutOfMemory>
    requires index { index < length readings.old.items }
    requires own { All (λ reading. IsCond (C.sets conds.old) reading.0.0) readings.old.items }
    requires cond_own { IsCond (C.sets conds.old) cond.0 }
    ensures put { OnOk result ((other : Cond × Option Reading)
        → IsPut (C.sets conds.old) (C.sets conds.new) cond.0 (seen_reading (slice_index_or readings.old.items index other).1) readings.old.items readings.new.items) }
    ensures read { OnOk result ((item : ℕ) → IsWithin (C.sets conds.old) cond.0 item → HaveRead (C.sets conds.old) item readings.old.items → HaveRead (C.sets conds.new) item readings.new.items) }

    // at every outcome
    ensures keeps { Keeps (C.sets conds.old) (C.sets conds.new) }
{
    let held = readings[index].0;
    let either = conds.apply_or(held, cond)?;
    readings[index].0 = either;
    Ok(())
}
