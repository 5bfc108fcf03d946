ghost use Rattle.std.specs.Prelude.{◌≡◌, ◌≤◌, Option, true, false, not, map, length, string_bytes, All, IfOk, IfErr};
ghost use Rattle.sc_args.specs.Words.{is_file_name, conflicts as asked_conflicts, tokens as asked_tokens};
ghost use Rattle.sc_core.specs.Ordinary.{HasManyFootprints};
ghost use Rattle.sc_core.specs.Outcome.{FailsFor, FailsWith, job_of};
ghost use Rattle.sc_core.specs.RunError as lines;
ghost use Rattle.sc_fork.specs.Owns.{HasC11Tables};
ghost use Rattle.sc_core.specs.Texts.{FailsUnder, IsAnswer, IsAnswerFor, StopsIn, TellsTokens, lines_of};
ghost use Rattle.sc_model.specs.Outside.{Files as Outside};
ghost use Rattle.sc_model.specs.Sets.{IsCond, IsNever};
ghost use Rattle.sc_model.specs.Space.{arities_of};
ghost use Rattle.sc_model.specs.Bytes.{has_no_newline};
ghost use Rattle.sc_prep.specs.Valid.{IsValidSet};
ghost use Rattle.sc_show.specs.Pieces.{IsLine};
ghost use Rattle.sc_space.specs.Seen.{seen_space, seen_variable};
ghost use Rattle.sc_space.specs.Sound.{IsSound};

use crate::listed::{listed, stopped};
use crate::output::Output;
use crate::run_error::RunError;
use crate::space_file::read_space;
use crate::summaries::make_text;
use crate::tree_texts::{parse_text, project_text};
use itoa::Buffer;
use sc_args::Command;
use sc_base::{Cond, Fault, Files, Names, OutOfMemory, Stop};
use sc_lalr::Tables;
use sc_prep::preprocess;
use sc_presence::{Conditions, Diagrams};
use sc_show::{show_conflicts, show_tokens};
use sc_source::Source;
use sc_space::{Space, SpaceFault, Variable};
use std::alloc::Global;

/// The text that the words ask for.
pub fn text_for<S: Source>(alloc: Global, words: &[String], src: &mut S) -> Result<Output, RunError>
    ensures text { IfOk result (IsAnswer (S.holds src.old) (map string_bytes words.now)) }
    ensures error { IfErr result (FailsWith (record { holds = S.holds src.old; before = S.faults src.old; after = S.faults src.new }) (map string_bytes words.now)) }

    // at every outcome
    ensures kept { S.holds src.new ≡ S.holds src.old }
    ensures counted { S.faults src.old ≤ S.faults src.new }
{
    match Command::read(alloc, words)? {
        Command::Tokens { space, file } => {
            tokens_text(alloc, src, space.as_str(), file.as_str())
        }
        Command::Parse { space, file } => parse_text(alloc, src, space.as_str(), file.as_str()),
        Command::Project {
            space,
            file,
            choices,
        } => project_text(alloc, src, space.as_str(), file.as_str(), &choices),
        Command::Conflicts => Ok(conflicts_text(alloc)?),
        Command::Make(items) => make_text(alloc, items),
    }
}

/// The conflicts of the tables of C11.
fn conflicts_text(alloc: Global) -> Result<Output, OutOfMemory>
    ensures { (holds : Option Outside) → IfOk result (IsAnswerFor holds asked_conflicts) }
{
    let tables = tables(alloc)?;
    Ok(Output {
        lines: show_conflicts(alloc, &tables)?,
        is_refused: false,
    })
}

/// The tables of C11.
pub fn tables(alloc: Global) -> Result<Tables, OutOfMemory>
    ensures { IfOk result (λ tables. HasC11Tables tables) }
{
    let grammar = sc_grammar::grammar();
    let states = sc_items::states(alloc, &grammar)?;
    sc_lalr::build(alloc, &grammar, &states)
}

/// The tokens and the faults of a file under all configurations that the space of another lists.
fn tokens_text<S: Source>(
    alloc: Global,
    src: &mut S,
    space: &str,
    file: &str,
) -> Result<Output, RunError>
    requires { is_file_name file.now ≡ true }
    ensures text { IfOk result (IsAnswerFor (S.holds src.old) (asked_tokens space.now file.now)) }
    ensures error { IfErr result (FailsFor (job_of (asked_tokens space.now file.now)) (record { holds = S.holds src.old; before = S.faults src.old; after = S.faults src.new })) }

    // at every outcome
    ensures kept { S.holds src.new ≡ S.holds src.old }
    ensures counted { S.faults src.old ≤ S.faults src.new }
{
    let space = read_space(alloc, src, space)?;
    let text = tokens_in(alloc, src, &space, file)?;
    Ok(text)
}

/// The tokens and the faults of a file in a space.
fn tokens_in<S: Source>(
    alloc: Global,
    src: &mut S,
    space: &Space,
    file: &str,
) -> Result<Output, RunError>
    requires sound { IsSound (seen_space space.now) }
    requires plain { has_no_newline file.now ≡ true }
    ensures lines { IfOk result (λ text. All IsLine (lines_of text)) }
    ensures tokens { IfOk result (TellsTokens (S.holds src.old) (seen_space space.now) file.now) }
    ensures error { IfErr result (FailsUnder (λ s. HasManyFootprints s) (S.holds src.old) (S.faults src.old) (S.faults src.new)
        (seen_space space.now) file.now) }

    // at every outcome
    ensures kept { S.holds src.new ≡ S.holds src.old }
    ensures counted { S.faults src.old ≤ S.faults src.new }
{
    let mut conds = conditions(alloc, space)?;
    let live = listed(alloc, &mut conds, space, SpaceFault::NoConfiguration)?;
    match text_under(alloc, src, &mut conds, space, live, file) {
        Ok(text) => Ok(text),
        Err(stop) => Err(stopped(alloc, stop)?),
    }
}

/// What the error output gets where a call has so many branches or more.
#[tactic(auto, using(sc_text::proofs::Numerals::numeral_is))]
pub fn branches_line(alloc: Global, count: usize) -> Result<Vec<u8>, OutOfMemory>
    ensures { IfOk result (λ line. line.items ≡ lines.branches_line count) }
{
    let mut line = Vec::from_slice(alloc, b"superc: branches full: ")?;
    line.extend_from_slice(Buffer::new().format(count).as_bytes())?;
    line.extend_from_slice(b"\n")?;
    Ok(line)
}

/// The conditions over the configurations of a space.
pub fn conditions(alloc: Global, space: &Space) -> Result<Diagrams, OutOfMemory>
    requires { IsSound (seen_space space.now) }
    ensures { IfOk result (λ conds. (⟦<Diagrams as Conditions>⟧.sets conds).arities ≡ arities_of (seen_space space.now)) }
{
    let arities = arities(alloc, &space.variables)?;
    Diagrams::new(alloc, &arities)
}

/// How many options each variable has.
fn arities(alloc: Global, variables: &[Variable]) -> Result<Vec<usize>, OutOfMemory>
    ensures { IfOk result (λ arities. arities.items ≡ map (λ variable. length variable.options) (map seen_variable variables.now)) }
{
    let mut arities = Vec::new(alloc);
    for variable in variables {
        arities.push(variable.options.len())?;
    }
    Ok(arities)
}

/// The tokens and the faults of a file under the configurations that a space lists.
#[tactic(auto, using(sc_model::proofs::SetLemmas::conditions))]
fn text_under<C: Conditions, S: Source>(
    alloc: Global,
    src: &mut S,
    conds: &mut C,
    space: &Space,
    live: Cond,
    file: &str,
) -> Result<Output, Stop>
    requires arities { (C.sets conds.old).arities ≡ arities_of (seen_space space.now) }
    requires sound { IsSound (seen_space space.now) }
    requires listed { IsValidSet (C.sets conds.old) (seen_space space.now) live.0 }
    requires some { IsNever (C.sets conds.old) live.0 → ⊥ }
    requires plain { has_no_newline file.now ≡ true }
    ensures lines { IfOk result (λ text. All IsLine (lines_of text)) }
    ensures tokens { IfOk result (TellsTokens (S.holds src.old) (seen_space space.now) file.now) }
    ensures stops { IfErr result (StopsIn (λ s. HasManyFootprints s) (S.holds src.old) (S.faults src.old) (S.faults src.new) (seen_space space.now) file.now) }

    // at every outcome
    ensures kept { S.holds src.new ≡ S.holds src.old }
    ensures counted { S.faults src.old ≤ S.faults src.new }
{
    let mut names = Names::new(alloc)?;
    let mut files = Files::new(alloc)?;
    let prepared = preprocess(alloc, src, file, space, live, conds, &mut names, &mut files)?;
    let is_refused = has_fault(conds, &prepared.faults);
    let lines = show_tokens(
        alloc,
        conds,
        space,
        &names,
        &files,
        &prepared.list,
        &prepared.faults,
    )?;
    Ok(Output { lines, is_refused })
}

/// Whether some configuration has a fault.
pub fn has_fault<C: Conditions>(conds: &C, faults: &[Fault]) -> bool
    requires { All (λ fault. IsCond (C.sets conds.now) fault.cond.0) faults.now }
    ensures none { result ≡ false → All (λ fault. IsNever (C.sets conds.now) fault.cond.0) faults.now }
    ensures some { result ≡ true → All (λ fault. IsNever (C.sets conds.now) fault.cond.0) faults.now → ⊥ }
{
    for fault in faults {
        if !conds.is_never(fault.cond) {
            return true;
        }
    }
    false
}
