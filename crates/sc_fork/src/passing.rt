//! Reductions that pass the one tree of a right side on.
ghost use Rattle.std.specs.Prelude.{◌≡◌, ◌<◌, ◌++◌, ◌∷◌, [], ℕ, Ok, None, Some, List, IfOk, IfSome, length, slice_get, slice_set};
ghost use Rattle.sc_fork.specs.Enabled.{Has};
ghost use Rattle.sc_fork.specs.Owns.{IsSource, OwnsRow};
ghost use Rattle.sc_fork.specs.Passing.{Passes};
ghost use Rattle.sc_merge.specs.declared.subparser.Subparser.{Subparser};
ghost use Rattle.sc_model.specs.Sets.{Sets};
ghost use Rattle.sc_stack.specs.Entries.{with_state};

use crate::enabled::looking;
use crate::row::Row;
use crate::source::Source;
use lr_tables::Action;
use sc_base::OutOfMemory;
use sc_grammar::production;
use std::mem;

/// The state that follows where the subparser is reduced by a production without a mark that has
/// one symbol on its right side.
pub(crate) fn passed_state(source: &Source<'_>, rows: &[Row], number: usize) -> Option<usize>
    requires source { IsSource source.now }
    requires own { (s : Subparser) → Has rows.now number s → (sets : Sets) × ((count : ℕ) × OwnsRow sets count source.now s) }
    ensures { IfSome result (Passes source.now rows.now number) }
{
    let Ok((parent, at)) = looking(rows, number) else {
        return None;
    };
    let Action::Reduce(rule) = source.action(&parent, at)? else {
        return None;
    };
    let rule = production(rule);
    if rule.right.len() != 1 || rule.mark.is_some() {
        return None;
    }
    source.tables.goto(parent.stack.state_below(), rule.left)
}

/// Gives the subparser the next number, and its stack another state on top, unless others have that
/// stack too.
pub(crate) fn renumber(
    rows: &mut Vec<Row>,
    number: usize,
    state: usize,
) -> Result<Option<usize>, OutOfMemory>
    requires { number < length rows.old.items }
    ensures some { IfOk result (λ made. IfSome made (λ next. next ≡ length rows.old.items)) }
    ensures rows { (next : ℕ) (s : Subparser) → result ≡ Ok (Some next) → Has rows.old.items number s
        → rows.new.items ≡ slice_set rows.old.items number None ++ Some (record s { stack = with_state state s.stack }) ∷ [] }
    ensures none { result ≡ Ok None → rows.new.items ≡ rows.old.items }
{
    if !rows[number].set_state(state) {
        return Ok(None);
    }
    let next = rows.len();
    let row = mem::replace(&mut rows[number], Row::gone());
    rows.push(row)?;
    Ok(Some(next))
}
