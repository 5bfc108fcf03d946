//! The text of the conflicts of tables.
ghost use Rattle.std.specs.Prelude.{◌≡◌, ◌<◌, ◌++◌, All, IfOk, OnOk};
ghost use Rattle.std.specs.List.{concat};
ghost use Rattle.sc_lalr.specs.Tables.{conflicts_of};
ghost use Rattle.sc_show.specs.Conflicts.{IsNamed, action_text, conflict_text, conflict_pieces};
ghost use Rattle.sc_show.specs.Pieces.{split_lines_after};

use crate::lines::{write_end, write_number};
use lr_tables::{Action, Conflict};
use sc_base::OutOfMemory;
use sc_grammar::{TERMINALS, terminal_name};
use sc_lalr::Tables;
use std::alloc::Global;

fn write_action(text: &mut Vec<u8>, action: Action) -> Result<(), OutOfMemory>
    ensures { OnOk result (text.new.items ≡ text.old.items ++ action_text action) }
{
    match action {
        Action::Shift(_) => text.extend_from_slice(b"s")?,
        Action::Reduce(production) => {
            text.extend_from_slice(b"r")?;
            write_number(text, production)?;
        }
    }
    Ok(())
}

fn write_conflict(text: &mut Vec<u8>, conflict: &Conflict) -> Result<(), OutOfMemory>
    requires { conflict.now.terminal.0 < TERMINALS }
    ensures { OnOk result (text.new.items ≡ text.old.items ++ conflict_text conflict.now) }
{
    text.extend_from_slice(b"k ")?;
    write_number(text, conflict.state)?;
    text.extend_from_slice(b" ")?;
    text.extend_from_slice(terminal_name(conflict.terminal).as_bytes())?;
    text.extend_from_slice(b" ")?;
    write_action(text, conflict.kept)?;
    text.extend_from_slice(b" ")?;
    write_action(text, Action::Reduce(conflict.lost))?;
    text.extend_from_slice(b"\n")?;
    Ok(())
}

/// The conflicts of tables, a line for each in their order, as a state, a terminal, what was kept
/// and what was lost.
pub fn show_conflicts(alloc: Global, tables: &Tables) -> Result<Vec<u8>, OutOfMemory>
    requires { All IsNamed (conflicts_of tables.now) }
    ensures text { IfOk result (λ text. text.items ≡ concat (conflict_pieces (conflicts_of tables.now))) }
    ensures lines { IfOk result (λ text. split_lines_after text.items ≡ conflict_pieces (conflicts_of tables.now)) }
{
    let mut text = Vec::new(alloc);
    for conflict in tables.conflicts() {
        write_conflict(&mut text, conflict)?;
    }
    write_end(&mut text)?;
    Ok(text)
}
