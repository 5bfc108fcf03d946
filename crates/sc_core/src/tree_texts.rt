//! The texts of trees.
ghost use Rattle.std.specs.Prelude.{◌≡◌, ◌≤◌, ℕ, List, Some, All, true, false, map, string_bytes, IfOk, IfErr};
ghost use Rattle.c11_directives.specs.Listed.{HasListed, IsListed};
ghost use Rattle.sc_args.specs.Words.{is_file_name, parse as asked_parse, project as asked_project};
ghost use Rattle.sc_core.specs.Cut.{first_config};
ghost use Rattle.sc_core.specs.Ordinary.{HasManyBranches};
ghost use Rattle.sc_core.specs.Outcome.{FailsFor, job_of};
ghost use Rattle.sc_core.specs.Texts.{AreTranslated, CanShowTree, FailsAlone, FailsUnder, HasAnswers, IsAnswerFor, IsPlain, lines_of, seen_by, StopsIn, TellsChoices, TellsPlain};
ghost use Rattle.sc_fork.specs.Choices.{AreSound};
ghost use Rattle.sc_model.specs.Bytes.{has_no_newline};
ghost use Rattle.sc_model.specs.Growth.{Extends};
ghost use Rattle.sc_model.specs.Sets.{IsConfig, IsNever, Keeps};
ghost use Rattle.sc_model.specs.Space.{arities_of};
ghost use Rattle.sc_prep.specs.Printable.{ArePlainPaths};
ghost use Rattle.sc_prep.specs.Valid.{IsValidSet};
ghost use Rattle.sc_show.specs.Pieces.{IsLine};
ghost use Rattle.sc_show.specs.TreeShows.{ShowsTree};
ghost use Rattle.sc_space.specs.Seen.{seen_space};
ghost use Rattle.sc_space.specs.Sound.{IsSound};

use crate::cut::cut;
use crate::listed::{listed, stopped};
use crate::output::Output;
use crate::run_error::RunError;
use crate::space_file::{chosen_config, read_space};
use crate::texts::{conditions, has_fault, tables};
use sc_base::{Cond, Fault, Files, Names, OutOfMemory, Stop, TreeId};
use sc_parse::parse;
use sc_prep::preprocess;
use sc_presence::Conditions;
use sc_project::project_tree;
use sc_show::show_tree;
use sc_source::Source;
use sc_space::{Space, SpaceFault};
use sc_tree::Trees;
use std::alloc::Global;

/// A tree with choices, and the faults of the configurations that have none.
#[derive(Drop)]
pub struct ParsedFile {
    pub trees: Trees,
    pub root: Option<TreeId>,
    pub faults: Vec<Fault>,
    /// The greatest number of classes of configurations at one place.
    pub classes: usize,
}

/// The tree and the faults of a file under all configurations that the space of another lists.
pub fn parse_text<S: Source>(
    alloc: Global,
    src: &mut S,
    space: &str,
    file: &str,
) -> Result<Output, RunError>
    requires { is_file_name file.now ≡ true }
    ensures text { IfOk result (IsAnswerFor (S.holds src.old) (asked_parse space.now file.now)) }
    ensures error { IfErr result (FailsFor (job_of (asked_parse space.now file.now)) (record { holds = S.holds src.old; before = S.faults src.old; after = S.faults src.new })) }

    // at every outcome
    ensures kept { S.holds src.new ≡ S.holds src.old }
    ensures counted { S.faults src.old ≤ S.faults src.new }
{
    let space = read_space(alloc, src, space)?;
    let text = tree_in(alloc, src, &space, file)?;
    Ok(text)
}

/// The tree and the faults of a file in a space.
fn tree_in<S: Source>(
    alloc: Global,
    src: &mut S,
    space: &Space,
    file: &str,
) -> Result<Output, RunError>
    requires sound { IsSound (seen_space space.now) }
    requires plain { has_no_newline file.now ≡ true }
    ensures lines { IfOk result (λ text. All IsLine (lines_of text)) }
    ensures tree { IfOk result (TellsChoices (S.holds src.old) (seen_space space.now) file.now) }
    ensures some { IfOk result (λ text. HasListed (seen_space space.now)) }
    ensures error { IfErr result (FailsUnder (λ s. HasManyBranches s) (S.holds src.old) (S.faults src.old) (S.faults src.new)
        (seen_space space.now) file.now) }

    // at every outcome
    ensures kept { S.holds src.new ≡ S.holds src.old }
    ensures counted { S.faults src.old ≤ S.faults src.new }
{
    let mut conds = conditions(alloc, space)?;
    let live = listed(alloc, &mut conds, space, SpaceFault::NoConfiguration)?;
    match tree_under(alloc, src, &mut conds, space, live, file) {
        Ok(text) => Ok(text),
        Err(stop) => Err(stopped(alloc, stop)?),
    }
}

/// The tree or the fault of a file under the configuration that words choose from the space of
/// another.
pub fn project_text<S: Source>(
    alloc: Global,
    src: &mut S,
    space: &str,
    file: &str,
    choices: &[String],
) -> Result<Output, RunError>
    requires { is_file_name file.now ≡ true }
    ensures text { IfOk result (IsAnswerFor (S.holds src.old) (asked_project space.now file.now (map string_bytes choices.now))) }
    ensures error { IfErr result (FailsFor (job_of (asked_project space.now file.now (map string_bytes choices.now))) (record { holds = S.holds src.old; before = S.faults src.old; after = S.faults src.new })) }

    // at every outcome
    ensures kept { S.holds src.new ≡ S.holds src.old }
    ensures counted { S.faults src.old ≤ S.faults src.new }
{
    let space = read_space(alloc, src, space)?;
    let config = chosen_config(alloc, &space, choices)?;
    let only = cut(alloc, space, &config)?;
    let text = text_alone(alloc, src, &only, file)?;
    Ok(text)
}

/// The tree or the fault of a file in a space of one configuration.
fn text_alone<S: Source>(
    alloc: Global,
    src: &mut S,
    space: &Space,
    file: &str,
) -> Result<Output, RunError>
    requires sound { IsSound (seen_space space.now) }
    requires plain { has_no_newline file.now ≡ true }
    requires formed { IsConfig (arities_of (seen_space space.now)) (first_config (seen_space space.now)) }
    requires one { (c : List ℕ) → IsConfig (arities_of (seen_space space.now)) c → c ≡ first_config (seen_space space.now) }
    ensures lines { IfOk result (λ text. All IsLine (lines_of text)) }
    ensures tree { IfOk result (TellsPlain (S.holds src.old) (seen_space space.now) file.now) }
    ensures listed { IfOk result (λ text. IsListed (seen_space space.now) (first_config (seen_space space.now))) }
    ensures error { IfErr result (FailsAlone (S.faults src.old) (S.faults src.new) (seen_space space.now)) }

    // at every outcome
    ensures kept { S.holds src.new ≡ S.holds src.old }
    ensures counted { S.faults src.old ≤ S.faults src.new }
{
    let mut conds = conditions(alloc, space)?;
    let live = listed(alloc, &mut conds, space, SpaceFault::Invalid)?;
    match plain_under(alloc, src, &mut conds, space, live, file) {
        Ok(text) => Ok(text),
        Err(stop) => Err(stopped(alloc, stop)?),
    }
}

/// The tree and the faults of a file under the configurations that a space lists.
fn tree_under<C: Conditions, S: Source>(
    alloc: Global,
    src: &mut S,
    conds: &mut C,
    space: &Space,
    live: Cond,
    file: &str,
) -> Result<Output, Stop>
    requires arities { (C.sets conds.old).arities ≡ arities_of (seen_space space.now) }
    requires sound { IsSound (seen_space space.now) }
    requires listed { IsValidSet (C.sets conds.old) (seen_space space.now) live.0 }
    requires some { IsNever (C.sets conds.old) live.0 → ⊥ }
    requires plain { has_no_newline file.now ≡ true }
    ensures lines { IfOk result (λ text. All IsLine (lines_of text)) }
    ensures tree { IfOk result (TellsChoices (S.holds src.old) (seen_space space.now) file.now) }
    ensures stops { IfErr result (StopsIn (λ s. HasManyBranches s) (S.holds src.old) (S.faults src.old) (S.faults src.new) (seen_space space.now) file.now) }

    // at every outcome
    ensures kept { S.holds src.new ≡ S.holds src.old }
    ensures counted { S.faults src.old ≤ S.faults src.new }
{
    let mut names = Names::new(alloc)?;
    let mut files = Files::new(alloc)?;
    let parsed = parsed(alloc, src, conds, space, live, &mut names, &mut files, file)?;
    Ok(text_of(alloc, conds, space, &names, &files, &parsed)?)
}

/// The tree without choices, or the fault, of a file in a space of one configuration.
fn plain_under<C: Conditions, S: Source>(
    alloc: Global,
    src: &mut S,
    conds: &mut C,
    space: &Space,
    live: Cond,
    file: &str,
) -> Result<Output, Stop>
    requires arities { (C.sets conds.old).arities ≡ arities_of (seen_space space.now) }
    requires sound { IsSound (seen_space space.now) }
    requires listed { IsValidSet (C.sets conds.old) (seen_space space.now) live.0 }
    requires some { IsNever (C.sets conds.old) live.0 → ⊥ }
    requires plain { has_no_newline file.now ≡ true }
    requires one { (c : List ℕ) → IsConfig (arities_of (seen_space space.now)) c → c ≡ first_config (seen_space space.now) }
    ensures lines { IfOk result (λ text. All IsLine (lines_of text)) }
    ensures tree { IfOk result (TellsPlain (S.holds src.old) (seen_space space.now) file.now) }
    ensures stops { IfErr result (StopsIn (λ s. HasManyBranches s) (S.holds src.old) (S.faults src.old) (S.faults src.new) (seen_space space.now) file.now) }

    // at every outcome
    ensures kept { S.holds src.new ≡ S.holds src.old }
    ensures counted { S.faults src.old ≤ S.faults src.new }
{
    let mut names = Names::new(alloc)?;
    let mut files = Files::new(alloc)?;
    let parsed = parsed(alloc, src, conds, space, live, &mut names, &mut files, file)?;
    let plain = plain(alloc, conds, space, &names, &files, parsed)?;
    Ok(text_of(alloc, conds, space, &names, &files, &plain)?)
}

/// The tree of a file, and the faults of preprocessing and of parsing it.
#[tactic(auto, using(sc_model::proofs::SetLemmas::conditions))]
pub fn parsed<C: Conditions, S: Source>(
    alloc: Global,
    src: &mut S,
    conds: &mut C,
    space: &Space,
    live: Cond,
    names: &mut Names,
    files: &mut Files,
    file: &str,
) -> Result<ParsedFile, Stop>
    requires arities { (C.sets conds.old).arities ≡ arities_of (seen_space space.now) }
    requires sound { IsSound (seen_space space.now) }
    requires listed { IsValidSet (C.sets conds.old) (seen_space space.now) live.0 }
    requires some { IsNever (C.sets conds.old) live.0 → ⊥ }
    requires plain { has_no_newline file.now ≡ true }
    requires paths { ArePlainPaths files.old }
    ensures shown { IfOk result (CanShowTree (C.sets conds.new) names.new files.new) }
    ensures translated { IfOk result (λ p. AreTranslated (S.holds src.old) (seen_space space.now) file.now
        (seen_by (C.sets conds.new) names.new files.new p) p.root p.faults.items p.classes) }
    ensures answered { IfOk result (λ p. HasAnswers (IsListed (seen_space space.now)) (seen_by (C.sets conds.new) names.new files.new p) p.root p.faults.items) }
    ensures choices { IfOk result (λ p. AreSound (C.sets conds.new) p.trees) }
    ensures stops { IfErr result (StopsIn (λ s. HasManyBranches s) (S.holds src.old) (S.faults src.old) (S.faults src.new) (seen_space space.now) file.now) }

    // at every outcome
    ensures kept { S.holds src.new ≡ S.holds src.old }
    ensures counted { S.faults src.old ≤ S.faults src.new }
    ensures keeps { Keeps (C.sets conds.old) (C.sets conds.new) }
{
    let prepared = preprocess(alloc, src, file, space, live, conds, names, files)?;
    let tables = tables(alloc)?;
    let mut trees = Trees::new(alloc);
    let mut parsed = parse(
        alloc,
        conds,
        &mut trees,
        names,
        &prepared.list,
        prepared.live,
        prepared.end,
        &tables,
        space.limits,
        space.standard,
    )?;
    let mut faults = prepared.faults;
    faults.append(&mut parsed.faults)?;
    Ok(ParsedFile {
        trees,
        root: parsed.root,
        faults,
        classes: parsed.classes,
    })
}

/// The tree at the one configuration of a space.
fn plain<C: Conditions>(
    alloc: Global,
    conds: &C,
    space: &Space,
    names: &Names,
    files: &Files,
    parsed: ParsedFile,
) -> Result<ParsedFile, OutOfMemory>
    requires arities { (C.sets conds.now).arities ≡ arities_of (seen_space space.now) }
    requires sound { IsSound (seen_space space.now) }
    requires one { (c : List ℕ) → IsConfig (arities_of (seen_space space.now)) c → c ≡ first_config (seen_space space.now) }
    requires shown { CanShowTree (C.sets conds.now) names.now files.now parsed }
    requires answered { HasAnswers (IsListed (seen_space space.now)) (seen_by (C.sets conds.now) names.now files.now parsed) parsed.root parsed.faults.items }
    ensures shown { IfOk result (CanShowTree (C.sets conds.now) names.now files.now) }
    ensures plain { IfOk result (IsPlain (seen_by (C.sets conds.now) names.now files.now parsed) (first_config (seen_space space.now)) parsed) }
{
    let Some(root) = parsed.root else {
        return Ok(ParsedFile {
            trees: Trees::new(alloc),
            root: None,
            faults: parsed.faults,
            classes: parsed.classes,
        });
    };
    let config = vec![in alloc; 0; space.variables.len()]?;
    let (trees, root) = project_tree(alloc, conds, &parsed.trees, root, &config)?;
    Ok(ParsedFile {
        trees,
        root: Some(root),
        faults: parsed.faults,
        classes: parsed.classes,
    })
}

/// The text of a tree and its faults.
fn text_of<C: Conditions>(
    alloc: Global,
    conds: &mut C,
    space: &Space,
    names: &Names,
    files: &Files,
    parsed: &ParsedFile,
) -> Result<Output, OutOfMemory>
    requires arities { (C.sets conds.old).arities ≡ arities_of (seen_space space.now) }
    requires sound { IsSound (seen_space space.now) }
    requires shown { CanShowTree (C.sets conds.old) names.now files.now parsed.now }
    ensures text { IfOk result (λ text. ShowsTree (seen_space space.now) (C.sets conds.new) names.now files.now parsed.now.trees parsed.now.root parsed.now.faults.items text.lines.items) }
    ensures none { IfOk result (λ text. text.is_refused ≡ false → All (λ fault. IsNever (C.sets conds.old) fault.cond.0) parsed.now.faults.items) }
    ensures some { IfOk result (λ text. text.is_refused ≡ true → All (λ fault. IsNever (C.sets conds.old) fault.cond.0) parsed.now.faults.items → ⊥) }

    // at every outcome
    ensures keeps { Keeps (C.sets conds.old) (C.sets conds.new) }
{
    let is_refused = has_fault(conds, &parsed.faults);
    let lines = show_tree(
        alloc,
        conds,
        space,
        names,
        files,
        &parsed.trees,
        parsed.root,
        &parsed.faults,
    )?;
    Ok(Output { lines, is_refused })
}
