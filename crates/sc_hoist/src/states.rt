ghost use Rattle.std.specs.Prelude.{◌≡◌, ℕ, ◌+◌, ◌^◌, ◌<◌, ◌≤◌, ◌∷◌, [], ◌&&◌, ◌||◌, Bool, true, List, All, length, slice_index_or, if◌then◌else◌, IfOk, IfSome, OnOk};
ghost use Rattle.sc_model.specs.Sets.{IsConfig, IsCond, Denotes, Keeps};
ghost use Rattle.sc_hoist.specs.declared.state.State.{State};
ghost use Rattle.sc_hoist.specs.declared.states.Entry.{Entry};
ghost use Rattle.sc_hoist.specs.Reading.{AreEntries, AreShallow, depth_of, in_states, is_final, passes, step};

use crate::state::{Role, State, Test};
use sc_base::{Cond, OutOfMemory};
use sc_presence::Conditions;
use std::alloc::Global;

/// The configurations for which a call was read so far.
#[derive(Clone, Copy, Debug, PartialEq, Eq)]
pub struct Entry {
    pub state: State,
    pub cond: Cond,
}

/// The entries once those that have an item of this role have read it.
pub fn advance<C: Conditions>(
    alloc: Global,
    conds: &mut C,
    entries: Vec<Entry>,
    item: Cond,
    role: Role,
) -> Result<Vec<Entry>, OutOfMemory>
    requires own { AreEntries (C.sets conds.old) entries.items }
    requires item_own { IsCond (C.sets conds.old) item.0 }
    requires deep { All (λ entry. depth_of entry.state + 1 < 2 ^ 64) entries.items }
    ensures own { IfOk result (λ r. AreEntries (C.sets conds.new) r.items) }
    ensures states { IfOk result (λ r. (test : State → Bool) (c : List ℕ) → IsConfig (C.sets conds.old).arities c
        → in_states (C.sets conds.new) r.items test c
        ≡ in_states (C.sets conds.old) entries.items (λ st. test (if (C.sets conds.old).has item.0 c then step role st else st)) c) }
    ensures shallow { IfOk result (λ r. (bound : ℕ) → AreShallow bound entries.items → AreShallow (bound + 1) r.items) }

    // at every outcome
    ensures keeps { Keeps (C.sets conds.old) (C.sets conds.new) }
{
    if stay(&entries, role) {
        return Ok(entries);
    }
    let mut next = Vec::new(alloc);
    for index in 0..entries.len() {
        let entry = entries[index];
        advance_one(conds, &mut next, entry, item, role)?;
    }
    Ok(next)
}

/// Whether a token of this role changes no state.
fn stay(entries: &[Entry], role: Role) -> bool
    requires { All (λ entry. depth_of entry.state + 1 < 2 ^ 64) entries.now }
    ensures { result ≡ true → All (λ entry. step role entry.state ≡ entry.state) entries.now }
{
    for entry in entries {
        if entry.state.after(role) != entry.state {
            return false;
        }
    }
    true
}

/// Whether no token that follows changes a state.
pub fn all_final(entries: &[Entry]) -> bool
    ensures { result ≡ true → All (λ entry. is_final entry.state ≡ true) entries.now }
{
    for entry in entries {
        if !entry.state.is_final() {
            return false;
        }
    }
    true
}

/// Adds the configurations of an entry that lack an item, and those that have read it.
fn advance_one<C: Conditions>(
    conds: &mut C,
    next: &mut Vec<Entry>,
    entry: Entry,
    item: Cond,
    role: Role,
) -> Result<(), OutOfMemory>
    requires own { AreEntries (C.sets conds.old) next.old.items }
    requires entry_own { IsCond (C.sets conds.old) entry.cond.0 }
    requires item_own { IsCond (C.sets conds.old) item.0 }
    requires deep { depth_of entry.state + 1 < 2 ^ 64 }
    ensures own { OnOk result (AreEntries (C.sets conds.new) next.new.items) }
    ensures states { OnOk result ((test : State → Bool) (c : List ℕ) → IsConfig (C.sets conds.old).arities c
        → in_states (C.sets conds.new) next.new.items test c
        ≡ (in_states (C.sets conds.old) next.old.items test c
        || (test (if (C.sets conds.old).has item.0 c then step role entry.state else entry.state) && (C.sets conds.old).has entry.cond.0 c))) }
    ensures shallow { OnOk result ((bound : ℕ) → AreShallow (bound + 1) next.old.items → depth_of entry.state ≤ bound
        → AreShallow (bound + 1) next.new.items) }

    // at every outcome
    ensures keeps { Keeps (C.sets conds.old) (C.sets conds.new) }
{
    let state = entry.state.after(role);
    if state == entry.state {
        add(conds, next, entry.state, entry.cond)?;
        return Ok(());
    }
    divide(conds, next, entry, item, state)?;
    Ok(())
}

/// Adds the configurations of an entry that lack an item, and those that have it in another state.
fn divide<C: Conditions>(
    conds: &mut C,
    next: &mut Vec<Entry>,
    entry: Entry,
    item: Cond,
    state: State,
) -> Result<(), OutOfMemory>
    requires own { AreEntries (C.sets conds.old) next.old.items }
    requires entry_own { IsCond (C.sets conds.old) entry.cond.0 }
    requires item_own { IsCond (C.sets conds.old) item.0 }
    ensures own { OnOk result (AreEntries (C.sets conds.new) next.new.items) }
    ensures states { OnOk result ((test : State → Bool) (c : List ℕ) → IsConfig (C.sets conds.old).arities c
        → in_states (C.sets conds.new) next.new.items test c
        ≡ (in_states (C.sets conds.old) next.old.items test c
        || (test (if (C.sets conds.old).has item.0 c then state else entry.state) && (C.sets conds.old).has entry.cond.0 c))) }
    ensures shallow { OnOk result ((bound : ℕ) → AreShallow bound next.old.items → depth_of entry.state ≤ bound → depth_of state ≤ bound
        → AreShallow bound next.new.items) }

    // at every outcome
    ensures keeps { Keeps (C.sets conds.old) (C.sets conds.new) }
{
    let having = conds.apply_and(entry.cond, item)?;
    let lacking = conds.apply_without(entry.cond, item)?;
    add(conds, next, entry.state, lacking)?;
    add(conds, next, state, having)?;
    Ok(())
}

/// Adds configurations that are in a state.
fn add<C: Conditions>(
    conds: &mut C,
    entries: &mut Vec<Entry>,
    state: State,
    cond: Cond,
) -> Result<(), OutOfMemory>
    requires own { AreEntries (C.sets conds.old) entries.old.items }
    requires cond_own { IsCond (C.sets conds.old) cond.0 }
    ensures own { OnOk result (AreEntries (C.sets conds.new) entries.new.items) }
    ensures states { OnOk result ((test : State → Bool) (c : List ℕ) → IsConfig (C.sets conds.old).arities c
        → in_states (C.sets conds.new) entries.new.items test c
        ≡ (in_states (C.sets conds.old) entries.old.items test c || (test state && (C.sets conds.old).has cond.0 c))) }
    ensures shallow { OnOk result ((bound : ℕ) → AreShallow bound entries.old.items → depth_of state ≤ bound → AreShallow bound entries.new.items) }

    // at every outcome
    ensures keeps { Keeps (C.sets conds.old) (C.sets conds.new) }
{
    if conds.is_never(cond) {
        return Ok(());
    }
    if let Some(index) = index_of(entries, state) {
        join(conds, entries, index, cond)?;
        return Ok(());
    }
    entries.push(Entry { state, cond })?;
    Ok(())
}

/// The index of an entry of this state.
fn index_of(entries: &[Entry], state: State) -> Option<usize>
    ensures { IfSome result (λ i. (i < length entries.now) × ((other : Entry) → (slice_index_or entries.now i other).state ≡ state)) }
{
    for index in 0..entries.len() {
        if entries[index].state == state {
            return Some(index);
        }
    }
    None
}

/// Adds configurations to the entry of their state.
fn join<C: Conditions>(
    conds: &mut C,
    entries: &mut Vec<Entry>,
    index: usize,
    cond: Cond,
) -> Result<(), OutOfMemory>
    requires index { index < length entries.old.items }
    requires own { AreEntries (C.sets conds.old) entries.old.items }
    requires cond_own { IsCond (C.sets conds.old) cond.0 }
    ensures own { OnOk result (AreEntries (C.sets conds.new) entries.new.items) }
    ensures states { OnOk result ((state : State) → ((other : Entry) → (slice_index_or entries.old.items index other).state ≡ state)
        → (test : State → Bool) (c : List ℕ) → IsConfig (C.sets conds.old).arities c
        → in_states (C.sets conds.new) entries.new.items test c
        ≡ (in_states (C.sets conds.old) entries.old.items test c || (test state && (C.sets conds.old).has cond.0 c))) }
    ensures shallow { OnOk result ((bound : ℕ) → AreShallow bound entries.old.items → AreShallow bound entries.new.items) }

    // at every outcome
    ensures keeps { Keeps (C.sets conds.old) (C.sets conds.new) }
{
    let entry = entries[index];
    let either = conds.apply_or(entry.cond, cond)?;
    entries[index] = Entry {
        state: entry.state,
        cond: either,
    };
    Ok(())
}

/// The configurations whose state passes a test.
pub fn passing<C: Conditions>(
    conds: &mut C,
    entries: &[Entry],
    test: Test,
) -> Result<Cond, OutOfMemory>
    requires { AreEntries (C.sets conds.old) entries.now }
    ensures own { IfOk result (λ r. IsCond (C.sets conds.new) r.0) }
    ensures meaning { IfOk result (λ r. Denotes (C.sets conds.new) r.0 (λ c. in_states (C.sets conds.old) entries.now (passes test) c)) }

    // at every outcome
    ensures keeps { Keeps (C.sets conds.old) (C.sets conds.new) }
{
    let mut all = conds.never();
    for index in 0..entries.len() {
        all = add_passing(conds, all, entries[index], test)?;
    }
    Ok(all)
}

/// The configurations with those of an entry whose state passes a test.
#[tactic(auto, using(sc_model::proofs::SetLemmas::conditions))]
fn add_passing<C: Conditions>(
    conds: &mut C,
    all: Cond,
    entry: Entry,
    test: Test,
) -> Result<Cond, OutOfMemory>
    requires all_own { IsCond (C.sets conds.old) all.0 }
    requires entry_own { IsCond (C.sets conds.old) entry.cond.0 }
    ensures own { IfOk result (λ r. IsCond (C.sets conds.new) r.0) }
    ensures meaning { IfOk result (λ r. (c : List ℕ) → IsConfig (C.sets conds.old).arities c
        → (C.sets conds.new).has r.0 c ≡ ((C.sets conds.old).has all.0 c || (passes test entry.state && (C.sets conds.old).has entry.cond.0 c))) }

    // at every outcome
    ensures keeps { Keeps (C.sets conds.old) (C.sets conds.new) }
{
    if entry.state.passes(test) {
        let either = conds.apply_or(all, entry.cond)?;
        return Ok(either);
    }
    Ok(all)
}
