//! The loop over the elements of a list.
ghost use Rattle.std.specs.Prelude.{◌≡◌, ◌<◌, ◌≤◌, ◌+◌, ◌∷◌, [], ℕ, List, All, IfErr, IfOk, length, map};
ghost use Rattle.c11_parsing.specs.Classes.{Input};
ghost use Rattle.c11_parsing.specs.Core as core;
ghost use Rattle.sc_base.specs.Seen.{IsHeld};
ghost use Rattle.sc_fork.specs.Choices.{AddsLeaves, AreSound};
ghost use Rattle.sc_fork.specs.Cores.{event_of, IsFinished};
ghost use Rattle.sc_fork.specs.Owns.{HasC11Tables};
ghost use Rattle.sc_merge.specs.Merges.{tables_with};
ghost use Rattle.sc_model.specs.Growth.{Extends};
ghost use Rattle.sc_model.specs.Sets.{IsCond, Keeps};
ghost use Rattle.sc_parse.specs.Filed.{AreAllFiled};
ghost use Rattle.sc_parse.specs.Numbers.{AreNumbers, Each, IsAt, IsBetween, IsReady, Replaces};
ghost use Rattle.sc_parse.specs.MostClasses.{HasMostClasses};
ghost use Rattle.sc_parse.specs.Parses.{IsInputOf, IsParse, OwnsParsed, StopsFor};
ghost use Rattle.sc_parse.specs.Places.{HasPlace, IsSchedule};
ghost use Rattle.sc_parse.specs.Runs.{GoesOn, IsRun, OwnsSteps};
ghost use Rattle.sc_parse.specs.Turns.{HasBegun, HasShifted, IsAtPlace};
ghost use Rattle.sc_tree.specs.Lines.{OwnsBranches};

use crate::parsed::Parsed;
use crate::reductions::reduced;
use crate::rows::Rows;
use crate::steps::Steps;
use sc_base::{Cond, Limits, Names, OutOfMemory, Place, Stop, Token};
use sc_fork::{Core, Event, Kind};
use sc_guarded::Guarded;
use sc_lalr::Tables;
use sc_merge::Phase;
use sc_model::Standard;
use sc_presence::Conditions;
use sc_tree::Trees;
use std::alloc::Global;

/// What the list is in each live configuration: the tree of its tokens, or why they are refused.
/// The elements are taken once, from left to right, and at each place subparsers that are alike are
/// merged.
pub fn parse<C: Conditions>(
    alloc: Global,
    conds: &mut C,
    trees: &mut Trees,
    names: &Names,
    list: &Guarded<Token>,
    live: Cond,
    end: Place,
    tables: &Tables,
    limits: Limits,
    standard: Standard,
) -> Result<Parsed, Stop>
    requires tables { HasC11Tables tables.now }
    requires live { IsCond (C.sets conds.old) live.0 }
    requires items { All (λ item. IsCond (C.sets conds.old) item.0.0) list.now }
    requires held { All (λ item. IsHeld names.now item.1) list.now }
    requires branches { OwnsBranches (C.sets conds.old) trees.old }
    ensures parse { IfOk result (λ p. (files : List (List ℕ)) (input : Input) → IsInputOf (tables_with (C.sets conds.old) trees.old names.now files) list.now tables.now standard end live input
        → IsParse (tables_with (C.sets conds.new) trees.new names.now files) input p) }
    ensures schedule { IfOk result (λ p. (files : List (List ℕ)) (input : Input) → IsInputOf (tables_with (C.sets conds.old) trees.old names.now files) list.now tables.now standard end live input
        → IsSchedule input p.events.items) }
    ensures few { IfOk result (λ p. p.classes ≤ limits.branches) }
    ensures own { IfOk result (OwnsParsed (C.sets conds.new) (length trees.new) list.now end) }
    ensures leaves { IfOk result (λ p. AddsLeaves list.now trees.old trees.new) }
    ensures stops { IfErr result (λ stop. (files : List (List ℕ)) (input : Input) → IsInputOf (tables_with (C.sets conds.old) trees.old names.now files) list.now tables.now standard end live input
        → StopsFor input limits.branches stop) }
    ensures choices { IfOk result (λ p. (files : List (List ℕ)) (input : Input) → IsInputOf (tables_with (C.sets conds.old) trees.old names.now files) list.now tables.now standard end live input
        → AreSound (C.sets conds.old) trees.old → AreSound (C.sets conds.new) trees.new) }

    // at every outcome
    ensures keeps { Keeps (C.sets conds.old) (C.sets conds.new) }
    ensures grows { Extends trees.old trees.new }
    ensures owns { OwnsBranches (C.sets conds.new) trees.new }
{
    names.one_to_one();
    let core = Core::start(alloc, conds, names, list, live, end, tables, standard)?;
    let mut steps = Steps {
        core,
        events: Vec::new(alloc),
    };
    let classes = run_to_end(alloc, conds, trees, &mut steps, list.len(), limits.branches)?;
    let outcome = steps.core.result(alloc, conds, trees)?;
    Ok(Parsed {
        root: outcome.root,
        faults: outcome.faults,
        classes,
        events: steps.events,
    })
}

/// Takes all elements and the end, from left to right. The answer is the greatest number of classes
/// at one place: where all before it is done, there is one subparser for each class.
fn run_to_end<C: Conditions>(
    alloc: Global,
    conds: &mut C,
    trees: &mut Trees,
    steps: &mut Steps<'_>,
    elements: usize,
    branches: usize,
) -> Result<usize, Stop>
    requires own { OwnsSteps (C.sets conds.old) (length trees.old) steps.old }
    requires branches { OwnsBranches (C.sets conds.old) trees.old }
    requires long { elements ≡ length steps.old.core.source.list.now }
    requires begun { HasBegun steps.old.core }
    ensures goes_on { IfOk result (λ classes. GoesOn (C.sets conds.old) (C.sets conds.new) trees.old trees.new (elements + 1) steps.old steps.new) }
    ensures done { IfOk result (λ classes. IsFinished steps.new.core) }
    ensures places { IfOk result (λ classes. (names files : List (List ℕ)) (input : Input) (first : core.Core) → IsRun (tables_with (C.sets conds.old) trees.old names files) input first steps.old
        → (k : ℕ) → k < length input.items + 1 → HasPlace input first (map event_of steps.new.events.items) k) }
    ensures classes { IfOk result (λ classes. (names files : List (List ℕ)) (input : Input) (first : core.Core) → IsRun (tables_with (C.sets conds.old) trees.old names files) input first steps.old
        → HasMostClasses input classes) }
    ensures few { IfOk result (λ classes. classes ≤ branches) }
    ensures stops { IfErr result (λ stop. (names files : List (List ℕ)) (input : Input) (first : core.Core) → IsRun (tables_with (C.sets conds.old) trees.old names files) input first steps.old
        → StopsFor input branches stop) }

    // at every outcome
    ensures keeps { Keeps (C.sets conds.old) (C.sets conds.new) }
    ensures grows { Extends trees.old trees.new }
    ensures owns { OwnsBranches (C.sets conds.new) trees.new }
{
    let mut rows = Rows::new(alloc, elements, branches)?;
    if steps.core.look(0).is_some() {
        rows.part(alloc, conds, trees, steps, 0)?;
    }
    let mut classes: usize = 0;
    for at in 0..elements + 1 {
        classes = classes.max(rows.count);
        take_element(alloc, conds, trees, steps, &mut rows, at)?;
    }
    Ok(classes)
}

/// Does all that the element causes, or the end: reductions and the shift of each subparser for
/// which it comes next. What comes of these is parted by what comes next.
fn take_element<C: Conditions>(
    alloc: Global,
    conds: &mut C,
    trees: &mut Trees,
    steps: &mut Steps<'_>,
    rows: &mut Rows,
    at: usize,
) -> Result<(), Stop>
    requires own { OwnsSteps (C.sets conds.old) (length trees.old) steps.old }
    requires branches { OwnsBranches (C.sets conds.old) trees.old }
    requires filed { AreAllFiled steps.old.core rows.old at }
    requires within { at < length steps.old.core.source.list.now + 1 }
    ensures goes_on { IfOk result (λ u. GoesOn (C.sets conds.old) (C.sets conds.new) trees.old trees.new (at + 1) steps.old steps.new) }
    ensures filed { IfOk result (λ u. AreAllFiled steps.new.core rows.new (at + 1)) }
    ensures limit { IfOk result (λ u. rows.new.branches ≡ rows.old.branches) }
    ensures place { IfOk result (λ u. (names files : List (List ℕ)) (input : Input) (first : core.Core) → IsAtPlace (tables_with (C.sets conds.old) trees.old names files) input first steps.old rows.old at
        → IsAtPlace (tables_with (C.sets conds.new) trees.new names files) input first steps.new rows.new (at + 1)) }
    ensures stops { IfErr result (λ stop. (names files : List (List ℕ)) (input : Input) (first : core.Core) → IsAtPlace (tables_with (C.sets conds.old) trees.old names files) input first steps.old rows.old at
        → StopsFor input rows.old.branches stop) }

    // at every outcome
    ensures keeps { Keeps (C.sets conds.old) (C.sets conds.new) }
    ensures grows { Extends trees.old trees.new }
    ensures owns { OwnsBranches (C.sets conds.new) trees.new }
{
    let row = rows.take(alloc, at);
    for number in shifted(alloc, conds, trees, steps, row)? {
        rows.part(alloc, conds, trees, steps, number)?;
    }
    Ok(())
}

/// The subparsers that come of these behind the element that comes next for them.
fn shifted<C: Conditions>(
    alloc: Global,
    conds: &mut C,
    trees: &mut Trees,
    steps: &mut Steps<'_>,
    row: Vec<usize>,
) -> Result<Vec<usize>, OutOfMemory>
    requires own { OwnsSteps (C.sets conds.old) (length trees.old) steps.old }
    requires branches { OwnsBranches (C.sets conds.old) trees.old }
    requires numbers { AreNumbers steps.old.core.subparsers row.items }
    requires at { (j : ℕ) × Each (IsAt j) steps.old.core.subparsers row.items }
    ensures shifts { IfOk result (λ behind. (j : ℕ) → Each (IsAt j) steps.old.core.subparsers row.items
        → HasShifted (C.sets conds.old) (C.sets conds.new) trees.old trees.new j steps.old steps.new row.items behind.items) }

    // at every outcome
    ensures keeps { Keeps (C.sets conds.old) (C.sets conds.new) }
    ensures grows { Extends trees.old trees.new }
    ensures owns { OwnsBranches (C.sets conds.new) trees.new }
{
    let ready = reduced(alloc, conds, trees, steps, row)?;
    let behind = shift(alloc, conds, trees, steps, &ready)?;
    Ok(behind)
}

/// Shifts the element for each of these, and its kind where it is a name. The answer is what comes
/// of them.
fn shift<C: Conditions>(
    alloc: Global,
    conds: &mut C,
    trees: &mut Trees,
    steps: &mut Steps<'_>,
    ready: &[usize],
) -> Result<Vec<usize>, OutOfMemory>
    requires own { OwnsSteps (C.sets conds.old) (length trees.old) steps.old }
    requires branches { OwnsBranches (C.sets conds.old) trees.old }
    requires numbers { AreNumbers steps.old.core.subparsers ready.now }
    requires ready { (j : ℕ) × Each (IsReady steps.old.core.source j) steps.old.core.subparsers ready.now }
    ensures shifts { IfOk result (λ behind. (j : ℕ) → Each (IsReady steps.old.core.source j) steps.old.core.subparsers ready.now
        → HasShifted (C.sets conds.old) (C.sets conds.new) trees.old trees.new j steps.old steps.new ready.now behind.items) }

    // at every outcome
    ensures keeps { Keeps (C.sets conds.old) (C.sets conds.new) }
    ensures grows { Extends trees.old trees.new }
    ensures owns { OwnsBranches (C.sets conds.new) trees.new }
{
    let mut behind = Vec::new(alloc);
    for made in steps.apply_all(alloc, conds, trees, Kind::Shift, ready)? {
        if matches!(steps.key(made).phase(), Phase::Named(_)) {
            let mut kinds = steps.apply(alloc, conds, trees, Event::Classify(made))?;
            behind.append(&mut kinds)?;
        } else {
            behind.push(made)?;
        }
    }
    Ok(behind)
}
