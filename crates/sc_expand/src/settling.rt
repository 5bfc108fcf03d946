//! Macro expansion of a list as far as it does not depend on what follows the list.
ghost use Rattle.std.specs.Prelude.{◌≡◌, ℕ, List, [], map, true, length, IfErr, IfOk};
ghost use Rattle.sc_expand.specs.Alike.{DefineAlike};
ghost use Rattle.sc_expand.specs.Having.{tokens_in};
ghost use Rattle.sc_expand.specs.Running.{IsUntouched};
ghost use Rattle.sc_expand.specs.Seen.{AreHeld, provenance_of, seen_at, stores};
ghost use Rattle.sc_expand.specs.Settling.{IsHeldSettled, IsSettled};
ghost use Rattle.sc_expand.specs.Spans.{StopsApart};
ghost use Rattle.sc_guarded.specs.Items.{items_at};
ghost use Rattle.sc_hoist.specs.Alike.{AreAlike, AreAlikeFaults};
ghost use Rattle.sc_model.specs.Growth.{Extends};
ghost use Rattle.sc_model.specs.Sets.{IsConfig, IsCond, IsNever, Keeps, Sets};
ghost use Rattle.sc_subst.specs.Seen.{seen_hidden};
ghost use Rattle.sc_table.specs.Table.{IsTable, macros_at};

use crate::expansion::Expansion;
use crate::frame::Frame;
use crate::refusals::Refusals;
use crate::work_list::WorkList;
use sc_base::{Cond, Fault, Files, Names, OutOfMemory, Stop, Token};
use sc_guarded::Guarded;
use sc_presence::Conditions;
use sc_subst::{Hidden, HideSets};
use sc_table::MacroTable;
use std::alloc::Global;
use std::mem;

/// What a list is settled to.
#[derive(Drop)]
pub struct Settled {
    /// What is put out, whatever follows the list.
    pub done: Guarded<Token>,
    /// What waits for that: a name that may be called by what follows, or whose call may be closed
    /// there, and all tokens behind it.
    pub rest: Guarded<Hidden>,
    /// The faults of those that are refused, whatever follows.
    pub held: Vec<Fault>,
}

/// Expands a list in the configurations of `live`, with the macros that each of them has in the
/// table, up to the name for which what follows the list decides.
pub fn settle<C: Conditions>(
    alloc: Global,
    conds: &mut C,
    table: &MacroTable,
    sets: &mut HideSets,
    list: Guarded<Hidden>,
    live: Cond,
    limit: usize,
    names: &mut Names,
    files: &Files,
) -> Result<Settled, Stop>
    requires table { IsTable (C.sets conds.old) names.old table.now }
    requires held { AreHeld (stores (C.sets conds.old) names.old sets.old) (length files.now) list }
    requires live_own { IsCond (C.sets conds.old) live.0 }
    ensures settles { IfOk result (IsSettled (stores (C.sets conds.old) names.old sets.old) (stores (C.sets conds.new) names.new sets.new) files.now
        (macros_at (C.sets conds.old) names.old table.now) list live.0) }
    ensures held { IfOk result (IsHeldSettled (stores (C.sets conds.new) names.new sets.new) (length files.now)) }
    ensures stops { IfErr result (StopsApart (seen_hidden names.old sets.old) (provenance_of files.now) (macros_at (C.sets conds.old) names.old table.now)
        (C.sets conds.old) live.0 list limit) }
    ensures alike { IfOk result (λ s. (c d : List ℕ) → IsConfig (C.sets conds.old).arities c → IsConfig (C.sets conds.old).arities d
        → (C.sets conds.old).has live.0 c ≡ true → (C.sets conds.old).has live.0 d ≡ true → AreAlike (C.sets conds.old) c d list
        → DefineAlike (provenance_of files.now) (macros_at (C.sets conds.old) names.old table.now c) (macros_at (C.sets conds.old) names.old table.now d)
        (seen_at (stores (C.sets conds.old) names.old sets.old) list c)
        → AreAlike (C.sets conds.new) c d s.done × AreAlike (C.sets conds.new) c d s.rest × AreAlikeFaults (C.sets conds.new) c d s.held.items) }

    // at every outcome
    ensures keeps { Keeps (C.sets conds.old) (C.sets conds.new) }
    ensures names { Extends names.old names.new }
    ensures sets { Extends sets.old sets.new }
{
    let never = conds.never();
    let mut expansion = begun(alloc, list, live, never)?;
    mem::swap(sets, &mut expansion.sets);
    let ran = expansion.run(conds, table, names, files, limit);
    mem::swap(sets, &mut expansion.sets);
    ran?;
    let settled = parts_of(expansion)?;
    Ok(settled)
}

/// The expansion of a list before its first turn.
fn begun(
    alloc: Global,
    list: Guarded<Hidden>,
    live: Cond,
    never: Cond,
) -> Result<Expansion, OutOfMemory>
    ensures untouched { IfOk result (λ e. (s : Sets) → IsNever s never.0 → IsUntouched s e) }
    ensures waiting { IfOk result (λ e. e.refusals.waiting ≡ never) }
    ensures live { IfOk result (λ e. e.refusals.live ≡ live) }
    ensures work { IfOk result (λ e. e.top.work ≡ list) }
{
    Ok(Expansion {
        alloc,
        sets: HideSets::new(alloc)?,
        refusals: Refusals {
            live,
            waiting: never,
            faults: Vec::new(alloc),
        },
        rest: Guarded::new(alloc)?,
        top: Frame {
            work: WorkList::over(alloc, list.into_items()),
            out: Guarded::new(alloc)?,
            calls: Vec::new(alloc),
        },
        below: Vec::new(alloc),
    })
}

/// What the list has become, without hide sets, and what waits.
fn parts_of(expansion: Expansion) -> Result<Settled, OutOfMemory>
    ensures done { IfOk result (λ s. s.done ≡ map (λ item. (item.0, item.1.token)) expansion.top.out) }
    ensures rest { IfOk result (λ s. s.rest ≡ expansion.rest) }
    ensures held { IfOk result (λ s. s.held ≡ expansion.refusals.faults) }
{
    let out = expansion.top.into_out();
    let done = without_hide_sets(expansion.alloc, &out)?;
    Ok(Settled {
        done,
        rest: expansion.rest,
        held: expansion.refusals.faults,
    })
}

/// The tokens of a list alone.
fn without_hide_sets(alloc: Global, out: &Guarded<Hidden>) -> Result<Guarded<Token>, OutOfMemory>
    ensures { IfOk result (λ done. done ≡ map (λ item. (item.0, item.1.token)) out.now) }
{
    let mut done = Guarded::new(alloc)?;
    for index in 0..out.len() {
        let (cond, hidden) = out.item(index);
        done.push(cond, hidden.token)?;
    }
    Ok(done)
}
