//! Macro expansion of a list of tokens that differ by configuration.
ghost use Rattle.std.specs.Prelude.{◌≡◌, ℕ, ◌<◌, ◌++◌, [], List, All, true, false, length, map, IfErr, IfOk, OnOk};
ghost use Rattle.c11_macros.specs.Text.{place_alone, unhidden};
ghost use Rattle.sc_base.specs.Seen.{IsHeld, seen};
ghost use Rattle.sc_expand.specs.Alike.{DefineTextAlike};
ghost use Rattle.sc_hoist.specs.Alike.{AreAlike, AreAlikeFaults};
ghost use Rattle.sc_expand.specs.Answers.{IsEmpty, IsExpanded, IsHeldAnswer};
ghost use Rattle.sc_expand.specs.Footprints.{StopsAtName};
ghost use Rattle.sc_guarded.specs.Items.{items_at};
ghost use Rattle.sc_model.specs.Growth.{Extends};
ghost use Rattle.sc_model.specs.Sets.{IsConfig, IsCond, IsNever, Keeps, Sets};
ghost use Rattle.sc_subst.specs.Hides.{set_at};
ghost use Rattle.sc_subst.specs.Seen.{IsHeldHidden};
ghost use Rattle.sc_table.specs.Table.{IsTable, macros_at};

use crate::closing::close;
use crate::settling::{Settled, settle};
use sc_base::{Cond, Fault, Files, Names, OutOfMemory, Stop, Token};
use sc_guarded::{Expanded, Guarded};
use sc_presence::Conditions;
use sc_subst::{Hidden, HideSets};
use sc_table::MacroTable;
use std::alloc::Global;

/// Expands a list in the configurations of `live`, with the macros that each of them has in the
/// table. A configuration has its first fault, and then its tokens don't count, or none.
pub fn expand<C: Conditions>(
    alloc: Global,
    conds: &mut C,
    table: &MacroTable,
    list: &Guarded<Token>,
    live: Cond,
    limit: usize,
    names: &mut Names,
    files: &Files,
) -> Result<Expanded, Stop>
    requires table { IsTable (C.sets conds.old) names.old table.now }
    requires own { All (λ item. IsCond (C.sets conds.old) item.0.0) list.now }
    requires held { All (λ item. IsHeld names.old item.1) list.now }
    requires placed { All (λ item. item.1.place.file.0 < length files.now) list.now }
    requires live_own { IsCond (C.sets conds.old) live.0 }
    ensures expands { IfOk result (λ e. (c : List ℕ) → IsConfig (C.sets conds.old).arities c → (C.sets conds.old).has live.0 c ≡ true
        → IsExpanded (C.sets conds.new) names.new files.now e (macros_at (C.sets conds.old) names.old table.now c)
        (map (seen names.old files.now) (items_at (C.sets conds.old) list.now c)) c) }
    ensures others { IfOk result (λ e. (c : List ℕ) → IsConfig (C.sets conds.old).arities c → (C.sets conds.old).has live.0 c ≡ false
        → IsEmpty (C.sets conds.new) e c) }
    ensures held { IfOk result (IsHeldAnswer (C.sets conds.new) names.new (length files.now)) }
    ensures some { IfOk result (λ e. All (λ item. IsNever (C.sets conds.new) item.0.0 → ⊥) e.list) }
    ensures stops { IfErr result (StopsAtName (λ t. unhidden (seen names.old files.now t)) place_alone (macros_at (C.sets conds.old) names.old table.now)
        (C.sets conds.old) live.0 list.now limit) }
    ensures alike { IfOk result (λ e. (c d : List ℕ) → IsConfig (C.sets conds.old).arities c → IsConfig (C.sets conds.old).arities d
        → (C.sets conds.old).has live.0 c ≡ true → (C.sets conds.old).has live.0 d ≡ true → AreAlike (C.sets conds.old) c d list.now
        → DefineTextAlike (macros_at (C.sets conds.old) names.old table.now c) (macros_at (C.sets conds.old) names.old table.now d)
        (map (seen names.old files.now) (items_at (C.sets conds.old) list.now c))
        → AreAlike (C.sets conds.new) c d e.list × AreAlikeFaults (C.sets conds.new) c d e.faults.items) }

    // at every outcome
    ensures keeps { Keeps (C.sets conds.old) (C.sets conds.new) }
    ensures names { Extends names.old names.new }
    ensures table { IsTable (C.sets conds.new) names.new table.now }
    ensures still { (c text : List ℕ) → IsConfig (C.sets conds.old).arities c → macros_at (C.sets conds.new) names.new table.now c text
        ≡ macros_at (C.sets conds.old) names.old table.now c text }
{
    let mut sets = HideSets::new(alloc)?;
    let hidden = unhidden(alloc, &sets, list)?;
    let settled = settle(
        alloc, conds, table, &mut sets, hidden, live, limit, names, files,
    )?;
    let closed = close(alloc, conds, &settled.rest, live)?;
    let expanded = joined(settled, closed)?;
    Ok(expanded)
}

/// The tokens of a list, which hide no name.
fn unhidden(
    alloc: Global,
    sets: &HideSets,
    list: &Guarded<Token>,
) -> Result<Guarded<Hidden>, OutOfMemory>
    ensures tokens { IfOk result (λ made. map (λ item. (item.0, item.1.token)) made ≡ list.now) }
    ensures unhidden { IfOk result (λ made. All (λ item. set_at sets.now item.1.hide.0 ≡ []) made) }
    ensures held { IfOk result (λ made. (names : List (List ℕ)) → All (λ item. IsHeld names item.1) list.now
        → All (λ item. IsHeldHidden names sets.now item.1) made) }
{
    let mut items = Guarded::new(alloc)?;
    for index in 0..list.len() {
        let (cond, token) = list.item(index);
        let hidden = Hidden::new(sets, *token);
        items.push(cond, hidden)?;
    }
    Ok(items)
}

/// What a list is settled to, and behind it what was closed at its end.
fn joined(settled: Settled, closed: Expanded) -> Result<Expanded, OutOfMemory>
    ensures list { IfOk result (λ e. e.list ≡ settled.done ++ closed.list) }
    ensures faults { IfOk result (λ e. e.faults.items ≡ settled.held.items ++ closed.faults.items) }
{
    let mut list = settled.done;
    let mut faults = settled.held;
    append_tokens(&mut list, &closed.list)?;
    append_faults(&mut faults, &closed.faults)?;
    Ok(Expanded { list, faults })
}

/// Puts tokens behind others.
fn append_tokens(list: &mut Guarded<Token>, more: &Guarded<Token>) -> Result<(), OutOfMemory>
    ensures { OnOk result (list.new ≡ list.old ++ more.now) }
{
    for index in 0..more.len() {
        let (cond, token) = more.item(index);
        list.push(cond, *token)?;
    }
    Ok(())
}

/// Puts faults behind others.
fn append_faults(faults: &mut Vec<Fault>, more: &[Fault]) -> Result<(), OutOfMemory>
    ensures { OnOk result (faults.new.items ≡ faults.old.items ++ more.now) }
{
    for fault in more {
        faults.push(*fault)?;
    }
    Ok(())
}
