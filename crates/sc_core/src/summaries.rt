//! The summary of a file that is made.
ghost use Rattle.std.specs.Prelude.{◌≡◌, ℕ, List, [], All, IfErr, IfOk, Option, Result, false, true};
ghost use Rattle.c11_parsing.specs.Trees.{Tree};
ghost use Rattle.sc_args.specs.Words.{make as asked_make};
ghost use Rattle.sc_core.specs.Made.{made_name, made_space};
ghost use Rattle.sc_core.specs.Ordinary.{HasManyBranches};
ghost use Rattle.sc_core.specs.CommandTexts.{size_in};
ghost use Rattle.sc_core.specs.Outcome.{FailsFor, Reading, job_of};
ghost use Rattle.sc_core.specs.Texts.{HasAnswers, IsAnswerFor, Stands, StopsIn, Summarizes, TellsSummary, lines_of, seen_by};
ghost use Rattle.sc_guarded.specs.Items.{faults_at};
ghost use Rattle.sc_guarded.specs.Printable.{IsShowableFault};
ghost use Rattle.sc_model.specs.Fault as model;
ghost use Rattle.sc_model.specs.Outside.{Files as Outside};
ghost use Rattle.sc_model.specs.Sets.{IsAlways, IsCond, IsConfig};
ghost use Rattle.sc_model.specs.Space.{arities_of};
ghost use Rattle.sc_show.specs.Pieces.{IsLine};
ghost use Rattle.sc_space.specs.Seen.{seen_space};

use crate::made::{MADE_NAME, MadeFile, made_space};
use crate::output::Output;
use crate::run_error::RunError;
use crate::texts::{branches_line, conditions};
use crate::tree_texts::{ParsedFile, parsed};
use sc_base::{Cond, Fault, Files, Names, OutOfMemory, Stop};
use sc_presence::Conditions;
use sc_project::{TreeSize, tree_size};
use sc_show::{Summary, count_faults, show_make};
use sc_source::Source;
use sc_space::Space;
use std::alloc::Global;

/// The summary of the file of so many items. No source is read for it.
pub fn make_text(alloc: Global, items: u32) -> Result<Output, RunError>
    ensures text { (holds : Option Outside) → IfOk result (IsAnswerFor holds (asked_make items)) }
    ensures error { (reading : Reading) → IfErr result (FailsFor (job_of (asked_make items)) reading) }
{
    let space = made_space(alloc)?;
    let mut file = MadeFile::new(alloc, items)?;
    let mut conds = conditions(alloc, &space)?;
    let live = conds.always();
    match summary_under(alloc, &mut file, &mut conds, &space, live, items) {
        Ok(text) => Ok(text),
        Err(Stop::ReadFault) => unreachable!(),
        Err(Stop::OutOfMemory) => Err(RunError::OutOfMemory),
        Err(Stop::BranchesFull { count }) => {
            Err(RunError::BranchesFull(branches_line(alloc, count)?))
        }
    }
}

/// The summary under all configurations of the space.
fn summary_under<C: Conditions, S: Source>(
    alloc: Global,
    src: &mut S,
    conds: &mut C,
    space: &Space,
    live: Cond,
    items: u32,
) -> Result<Output, Stop>
    requires arities { (C.sets conds.old).arities ≡ arities_of (seen_space space.now) }
    requires space { seen_space space.now ≡ made_space }
    requires own { IsCond (C.sets conds.old) live.0 }
    requires live { IsAlways (C.sets conds.old) live.0 }
    ensures lines { IfOk result (λ text. All IsLine (lines_of text)) }
    ensures summary { IfOk result (TellsSummary (S.holds src.old) items) }
    ensures stops { IfErr result (StopsIn (λ s. HasManyBranches s) (S.holds src.old) (S.faults src.old) (S.faults src.new) made_space made_name) }
{
    let mut names = Names::new(alloc)?;
    let mut files = Files::new(alloc)?;
    let parsed = parsed(
        alloc, src, conds, space, live, &mut names, &mut files, MADE_NAME,
    )?;
    let summary = summary_of(alloc, conds, space, &files, &parsed, items)?;
    Ok(Output {
        lines: show_make(alloc, &summary)?,
        is_refused: summary.faults > 0,
    })
}

/// The summary of a file of so many items that was parsed under all configurations of the space.
fn summary_of<C: Conditions>(
    alloc: Global,
    conds: &C,
    space: &Space,
    files: &Files,
    parsed: &ParsedFile,
    items: u32,
) -> Result<Summary, OutOfMemory>
    requires arities { (C.sets conds.now).arities ≡ arities_of (seen_space space.now) }
    requires space { seen_space space.now ≡ made_space }
    requires shown { All (IsShowableFault (C.sets conds.now) files.now) parsed.now.faults.items }
    requires answered { (names : List (List ℕ)) × HasAnswers (IsConfig (C.sets conds.now).arities)
        (seen_by (C.sets conds.now) names files.now parsed.now) parsed.now.root parsed.now.faults.items }
    ensures { IfOk result (λ m. (names : List (List ℕ)) → Summarizes (C.sets conds.now) names files.now parsed.now items m) }
{
    let first = vec![in alloc; 0; space.variables.len()]?;
    let last = vec![in alloc; 1; space.variables.len()]?;
    Ok(Summary {
        items: items as usize,
        first: size_at(alloc, conds, parsed, &first)?,
        last: size_at(alloc, conds, parsed, &last)?,
        faults: count_faults(alloc, conds, space.variables.len(), files, &parsed.faults)?,
        classes: parsed.classes,
    })
}

/// The size of the tree at a configuration that is not refused.
fn size_at<C: Conditions>(
    alloc: Global,
    conds: &C,
    parsed: &ParsedFile,
    config: &[usize],
) -> Result<Option<TreeSize>, OutOfMemory>
    requires config { IsConfig (C.sets conds.now).arities config.now }
    requires own { All (λ fault. IsCond (C.sets conds.now) fault.cond.0) parsed.now.faults.items }
    requires answered { (names files : List (List ℕ)) × HasAnswers (IsConfig (C.sets conds.now).arities) (seen_by (C.sets conds.now) names files parsed.now) parsed.now.root parsed.now.faults.items }
    ensures { IfOk result (λ size. (names files : List (List ℕ)) (ordinary : Result Tree model.Fault)
        → Stands (seen_by (C.sets conds.now) names files parsed.now) parsed.now.root parsed.now.faults.items config.now ordinary → size ≡ size_in ordinary) }
{
    let Some(root) = parsed.root else {
        return Ok(None);
    };
    if is_refused(conds, &parsed.faults, config) {
        return Ok(None);
    }
    let size = tree_size(alloc, conds, &parsed.trees, root, config)?;
    Ok(Some(size))
}

/// Whether the configuration has a fault.
fn is_refused<C: Conditions>(conds: &C, faults: &[Fault], config: &[usize]) -> bool
    requires config { IsConfig (C.sets conds.now).arities config.now }
    requires own { All (λ fault. IsCond (C.sets conds.now) fault.cond.0) faults.now }
    ensures none { result ≡ false → faults_at (C.sets conds.now) faults.now config.now ≡ [] }
    ensures some { result ≡ true → faults_at (C.sets conds.now) faults.now config.now ≡ [] → ⊥ }
{
    for fault in faults {
        if conds.holds(fault.cond, config) {
            return true;
        }
    }
    false
}
