//! The choice between a shift and reductions.
ghost use Rattle.std.specs.Prelude.{◌≡◌, ◌++◌, map, OnOk};
ghost use Rattle.sc_lalr.specs.Tables.{kept_of, conflicts_at, conflict_at};

use lr_tables::{Action, Conflict, Terminal};
use sc_base::OutOfMemory;

/// A shift is preferred to a reduction, and a lower production to a higher one.
pub fn kept(shift: Option<usize>, productions: &[usize]) -> Option<Action>
    ensures { result ≡ kept_of shift productions.now }
{
    match (shift, productions) {
        (Some(state), _) => Some(Action::Shift(state)),
        (None, [production, ..]) => Some(Action::Reduce(*production)),
        (None, []) => None,
    }
}

/// Adds the conflicts of one state at one terminal.
pub fn note_conflicts(
    conflicts: &mut Vec<Conflict>,
    state: usize,
    terminal: Terminal,
    shift: Option<usize>,
    productions: &[usize],
) -> Result<(), OutOfMemory>
    ensures { OnOk result (conflicts.new.items ≡ conflicts.old.items ++ conflicts_at state terminal.0 shift productions.now) }
{
    match shift {
        Some(target) => note_lost(
            conflicts,
            state,
            terminal,
            Action::Shift(target),
            productions,
        ),
        None => match productions.split_first() {
            None => Ok(()),
            Some((first, lost)) => note_lost(
                conflicts,
                state,
                terminal,
                Action::Reduce(*first),
                lost,
            ),
        },
    }
}

/// Adds a conflict for each reduction that is lost.
fn note_lost(
    conflicts: &mut Vec<Conflict>,
    state: usize,
    terminal: Terminal,
    kept: Action,
    lost: &[usize],
) -> Result<(), OutOfMemory>
    ensures { OnOk result (conflicts.new.items ≡ conflicts.old.items ++ map (conflict_at state terminal.0 kept) lost.now) }
{
    for production in lost {
        conflicts.push(Conflict {
            state,
            terminal,
            kept,
            lost: *production,
        })?;
    }
    Ok(())
}
