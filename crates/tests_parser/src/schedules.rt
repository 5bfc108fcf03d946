ghost use Rattle.std.specs.Prelude.{◌≡◌, ◌∷◌, [], length};
ghost use Rattle.sc_fork.specs.Owns.{HasC11Tables, OwnsCore};
ghost use Rattle.sc_tree.specs.Lines.{OwnsBranches};

use crate::parse::{END, TYPE_OR_VARIABLE, c11_tables, checks_nodes, list_of};
use lr_tables::Action;
use sc_base::{Cond, Names};
use sc_fork::{Applied, Core, CoreStop, Event, Fact, Kind};
use sc_lalr::Tables;
use sc_merge::Phase;
use sc_model::Standard;
use sc_presence::{Conditions, PlainSets};
use sc_tree::Trees;
use std::alloc::Global;
use std::collections::VecDeque;
use std::process::Abort;
use std::test::Fail;

/// Which subparser is next: of all that have an event the first, or the last.
#[derive(Clone, Copy)]
enum Order {
    First,
    Last,
}

/// More events than any of these lists needs.
const ENOUGH: usize = 1000;

/// The number of the subparser that is next, which is taken off.
fn next(numbers: &mut VecDeque<usize>, order: Order) -> Option<usize> {
    match order {
        Order::First => numbers.pop_front(),
        Order::Last => numbers.pop_back(),
    }
}

/// The one event that the subparser has without another.
fn event_of(core: &Core<'_>, number: usize) -> Option<Event> {
    let (_, key) = core.look(number)?;
    match key.phase() {
        Phase::Between(_) => Some(Event::Split(number)),
        Phase::Named(_) => Some(Event::Classify(number)),
        Phase::At(_) => match core.action(number) {
            Some(Action::Reduce(_)) => Some(Event::Reduce(number)),
            _ => Some(Event::Shift(number)),
        },
    }
}

/// The condition, the phase and the height of the subparser.
fn seen(core: &Core<'_>, number: usize) -> Option<(Cond, Phase, usize)> {
    let (cond, key) = core.look(number)?;
    Some((cond, key.phase(), key.height()))
}

/// A subparser is not merged with itself, and is as before.
fn checks_refusal<C: Conditions>(
    rt: &impl Abort,
    alloc: Global,
    conds: &mut C,
    trees: &mut Trees,
    core: &mut Core<'_>,
    number: usize,
)
    requires own { OwnsCore (C.sets conds.old) (length trees.old) core.old }
    requires branches { OwnsBranches (C.sets conds.old) trees.old }
    ensures own { OwnsCore (C.sets conds.new) (length trees.new) core.new }
    ensures branches { OwnsBranches (C.sets conds.new) trees.new }
    ensures arities { (C.sets conds.new).arities ≡ (C.sets conds.old).arities }
{
    let before = seen(core, number);
    let answer = core.apply(alloc, conds, trees, Event::Merge(number, number));
    let same = Fact::SameSubparser;
    assert!(rt; matches!(answer, Err(CoreStop::NotEnabled { fact }) if fact == same));
    assert!(rt; before.is_some());
    assert_eq!(rt; seen(core, number), before);
}

/// Does the event: a reduction or a shift as one of a list.
fn apply_event<C: Conditions>(
    alloc: Global,
    conds: &mut C,
    trees: &mut Trees,
    core: &mut Core<'_>,
    event: Event,
) -> Result<Applied, CoreStop>
    requires own { OwnsCore (C.sets conds.old) (length trees.old) core.old }
    requires branches { OwnsBranches (C.sets conds.old) trees.old }
    ensures own { OwnsCore (C.sets conds.new) (length trees.new) core.new }
    ensures branches { OwnsBranches (C.sets conds.new) trees.new }
    ensures arities { (C.sets conds.new).arities ≡ (C.sets conds.old).arities }
{
    match event {
        Event::Reduce(number) => core.apply_all(alloc, conds, trees, Kind::Reduce, &[number]),
        Event::Shift(number) => core.apply_all(alloc, conds, trees, Kind::Shift, &[number]),
        event => core.apply(alloc, conds, trees, event),
    }
}

/// Does the event of the subparser, and adds the numbers of those that are made.
fn step<C: Conditions>(
    alloc: Global,
    conds: &mut C,
    trees: &mut Trees,
    core: &mut Core<'_>,
    numbers: &mut VecDeque<usize>,
    number: usize,
) -> Result<(), Fail>
    requires own { OwnsCore (C.sets conds.old) (length trees.old) core.old }
    requires branches { OwnsBranches (C.sets conds.old) trees.old }
    ensures own { OwnsCore (C.sets conds.new) (length trees.new) core.new }
    ensures branches { OwnsBranches (C.sets conds.new) trees.new }
    ensures arities { (C.sets conds.new).arities ≡ (C.sets conds.old).arities }
{
    let Some(event) = event_of(core, number) else {
        return Err(Fail::new("a subparser without an event"));
    };
    let applied = apply_event(alloc, conds, trees, core, event)?;
    for made in &applied.made {
        numbers.push_back(*made)?;
    }
    Ok(())
}

/// Does all events in this order. No subparser that has one is merged with itself.
fn run<C: Conditions>(
    rt: &impl Abort,
    alloc: Global,
    conds: &mut C,
    trees: &mut Trees,
    core: &mut Core<'_>,
    order: Order,
) -> Result<(), Fail>
    requires own { OwnsCore (C.sets conds.old) (length trees.old) core.old }
    requires branches { OwnsBranches (C.sets conds.old) trees.old }
    ensures own { OwnsCore (C.sets conds.new) (length trees.new) core.new }
    ensures branches { OwnsBranches (C.sets conds.new) trees.new }
    ensures arities { (C.sets conds.new).arities ≡ (C.sets conds.old).arities }
{
    let mut numbers = VecDeque::new(alloc);
    numbers.push_back(0)?;
    for _ in 0..ENOUGH {
        let Some(number) = next(&mut numbers, order) else {
            break;
        };
        checks_refusal(rt, alloc, conds, trees, core, number);
        step(alloc, conds, trees, core, &mut numbers, number)?;
    }
    Ok(())
}

/// The core is finished, and its tree has the nodes of the case at each configuration.
fn checks_result<C: Conditions>(
    rt: &impl Abort,
    alloc: Global,
    conds: &mut C,
    trees: &mut Trees,
    core: &Core<'_>,
) -> Result<(), Fail>
    requires own { OwnsCore (C.sets conds.old) (length trees.old) core.now }
    requires branches { OwnsBranches (C.sets conds.old) trees.old }
    requires arities { (C.sets conds.old).arities ≡ 2 ∷ (2 ∷ (2 ∷ [])) }
{
    if !core.finished() {
        return Err(Fail::new("not finished"));
    }
    let outcome = core.result(alloc, conds, trees)?;
    assert_eq!(rt; outcome.faults.len(), 0);
    let Some(root) = outcome.root else {
        return Err(Fail::new("no tree"));
    };
    let [without, with] = TYPE_OR_VARIABLE.nodes;
    checks_nodes(rt, alloc, conds, trees, root, &[0, 0, 0], without)?;
    checks_nodes(rt, alloc, conds, trees, root, &[1, 0, 0], with)
}

/// A list of events in this order leads to the trees of the case.
fn checks_order<C: Conditions>(
    rt: &impl Abort,
    alloc: Global,
    conds: &mut C,
    tables: &Tables,
    order: Order,
) -> Result<(), Fail>
    requires arities { (C.sets conds.old).arities ≡ 2 ∷ (2 ∷ (2 ∷ [])) }
    requires tables { HasC11Tables tables.now }
{
    let mut names = Names::new(alloc)?;
    let list = list_of(alloc, conds, &mut names, TYPE_OR_VARIABLE.texts)?;
    let live = conds.always();
    let mut core = Core::start(
        alloc,
        conds,
        &names,
        &list,
        live,
        END,
        tables,
        Standard::C11,
    )?;
    let mut trees = Trees::new(alloc);
    run(rt, alloc, conds, &mut trees, &mut core, order)?;
    checks_result(rt, alloc, conds, &mut trees, &core)
}

#[test]
fn first_and_last_subparser_first(rt: HostRuntime) -> Result<(), Fail> {
    let tables = c11_tables(rt.alloc())?;
    for order in [Order::First, Order::Last] {
        let mut conds = PlainSets::new(rt.alloc(), &[2, 2, 2])?;
        checks_order(&rt, rt.alloc(), &mut conds, &tables, order)?;
    }
    Ok(())
}
