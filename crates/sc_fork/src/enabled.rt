//! Which events a core can do.
ghost use Rattle.std.specs.Prelude.{◌≡◌, ℕ, None, Some, IfErr, IfOk, IfSome, OnOk};
ghost use Rattle.sc_fork.specs.declared.source.Source.{Source};
ghost use Rattle.sc_fork.specs.Bundles.{AreEnabled, IsFirstRefused};
ghost use Rattle.sc_fork.specs.Enabled.{Has, IsEnabled, IsMissing, IsNotLooking, IsRefused, LooksAt};

use crate::event::{Event, Fact, Kind};
use crate::held::Lent;
use crate::row::Row;
use crate::source::Source;
use lr_tables::Action;
use sc_merge::{Head, Phase};

/// An event with the subparsers that it names.
#[derive(Drop)]
pub(crate) enum Enabled<'a> {
    Split(Lent<'a>, usize),
    Reduce(Head<'a>, usize, usize),
    Shift(Head<'a>, usize),
    Classify(Head<'a>, usize),
    Merge(Head<'a>, Head<'a>),
}

/// The event with its subparsers, or the first fact that stands against it.
pub(crate) fn enabled_event<'a>(
    source: &Source<'_>,
    rows: &'a [Row],
    event: Event,
) -> Result<Enabled<'a>, Fact>
    ensures ok { IfOk result (IsEnabled source.now rows.now event) }
    ensures err { IfErr result (IsRefused source.now rows.now event) }
{
    match event {
        Event::Split(number) => {
            let parent = lent_at(rows, number)?;
            let whole = parent.head();
            match whole.phase {
                Phase::Between(from) => Ok(Enabled::Split(parent, from)),
                _ => Err(Fact::WrongPhase),
            }
        }
        Event::Reduce(number) => {
            let (parent, at) = looking(rows, number)?;
            match reduction(source.action(&parent, at)) {
                Some(production) => Ok(Enabled::Reduce(parent, at, production)),
                None => Err(Fact::ActionIsNoReduction),
            }
        }
        Event::Shift(number) => {
            let (parent, at) = looking(rows, number)?;
            match reduction(source.action(&parent, at)) {
                Some(_) => Err(Fact::ActionIsReduction),
                None => Ok(Enabled::Shift(parent, at)),
            }
        }
        Event::Classify(number) => {
            let parent = with_number(rows, number)?;
            match parent.phase {
                Phase::Named(at) => Ok(Enabled::Classify(parent, at)),
                _ => Err(Fact::WrongPhase),
            }
        }
        Event::Merge(number, other) => mergeable(rows, number, other),
    }
}

/// Whether the events can be done, each in the core as it is, or the first fact that stands against
/// one.
pub(crate) fn all_enabled(
    source: &Source<'_>,
    rows: &[Row],
    kind: Kind,
    members: &[usize],
) -> Result<(), Fact>
    ensures ok { OnOk result (AreEnabled source.now rows.now kind members.now) }
    ensures err { IfErr result (IsFirstRefused source.now rows.now kind members.now) }
{
    for at in 0..members.len() {
        let number = members[at];
        enabled_event(source, rows, kind.event(number))?;
        if members[..at].contains(&number) {
            return Err(Fact::SameSubparser);
        }
    }
    Ok(())
}

/// The production by which the action reduces.
fn reduction(action: Option<Action>) -> Option<usize>
    ensures some { IfSome result (λ production. action ≡ Some (Action.Reduce production)) }
    ensures none { result ≡ None → (production : ℕ) → action ≡ Some (Action.Reduce production) → ⊥ }
{
    match action? {
        Action::Reduce(production) => Some(production),
        Action::Shift(_) => None,
    }
}

fn with_number(rows: &[Row], number: usize) -> Result<Head<'_>, Fact>
    ensures ok { IfOk result (λ head. Has rows.now number head) }
    ensures err { IfErr result (λ fact. IsMissing rows.now number fact) }
{
    match lent_at(rows, number) {
        Ok(lent) => Ok(lent.head()),
        Err(fact) => Err(fact),
    }
}

fn lent_at(rows: &[Row], number: usize) -> Result<Lent<'_>, Fact>
    ensures ok { IfOk result (λ lent. Has rows.now number lent) }
    ensures err { IfErr result (λ fact. IsMissing rows.now number fact) }
{
    let Some(row) = rows.get(number) else {
        return Err(Fact::NoSuchSubparser);
    };
    match row.lent() {
        Some(lent) => Ok(lent),
        None => Err(Fact::NoSuchSubparser),
    }
}

/// The subparser of the number, and the element that comes next.
pub(crate) fn looking(rows: &[Row], number: usize) -> Result<(Head<'_>, usize), Fact>
    ensures ok { IfOk result (λ found. LooksAt rows.now number found.0 found.1) }
    ensures err { IfErr result (IsNotLooking rows.now number) }
{
    let parent = with_number(rows, number)?;
    match parent.phase {
        Phase::At(at) => Ok((parent, at)),
        _ => Err(Fact::WrongPhase),
    }
}

/// The subparsers of the two numbers, where they can be merged.
fn mergeable(rows: &[Row], number: usize, other: usize) -> Result<Enabled<'_>, Fact>
    ensures ok { (source : Source) → IfOk result (IsEnabled source rows.now (Event.Merge number other)) }
    ensures err { (source : Source) → IfErr result (IsRefused source rows.now (Event.Merge number other)) }
{
    let left = with_number(rows, number)?;
    let right = with_number(rows, other)?;
    if number == other {
        return Err(Fact::SameSubparser);
    }
    if left.phase != right.phase {
        return Err(Fact::OtherPhase);
    }
    if !left.stack.same_states(right.stack) {
        return Err(Fact::OtherStates);
    }
    if left.scopes.levels() != right.scopes.levels() {
        return Err(Fact::OtherLevels);
    }
    Ok(Enabled::Merge(left, right))
}
