//! The configurations that a space lists: those for which its text `valid` holds (C11 6.10.1).
ghost use Rattle.std.specs.Prelude.{◌≡◌, ℕ, All, IfErr, IfOk, List, length};
ghost use Rattle.c11_directives.specs.Listed.{if_bytes, up_to};
ghost use Rattle.c11_tokens.specs.Lex.{is_newline};
ghost use Rattle.sc_base.specs.Seen.{IsHeld};
ghost use Rattle.sc_lex.specs.Spell.{AreTokensOf};
ghost use Rattle.sc_model.specs.Growth.{Extends};
ghost use Rattle.sc_model.specs.Sets.{IsCond, Keeps};
ghost use Rattle.sc_model.specs.Space.{arities_of};
ghost use Rattle.sc_prep.specs.declared.valid.ValidStop.TheVariants as stop;
ghost use Rattle.sc_prep.specs.Valid.{FailsValid, FindsLeast, IsValidSet, RefusesText, is_less};
ghost use Rattle.sc_space.specs.Seen.{seen_space};
ghost use Rattle.sc_space.specs.Sound.{IsSound};

use crate::content::first_place;
use crate::walk::Walk;
use sc_base::{Cause, Cond, Fault, FileId, Files, Kind, Names, OutOfMemory, Stop, Token};
use sc_lex::{LexStop, tokens};
use sc_presence::Conditions;
use sc_space::Space;
use std::alloc::Global;
use thiserror::Error;

/// Why it is not told which configurations are listed.
#[derive(Clone, Copy, Debug, PartialEq, Eq, Error)]
pub enum ValidStop {
    /// The text has no value at some configuration: the least cause.
    #[error("bad valid")]
    Fault(Cause),
    /// There is no answer.
    #[error("{0}")]
    Stop(Stop),
}

impl From<Stop> for ValidStop {
    ghost from_gives = { λ s v. v ≡ stop.Stop s };

    fn from(stop: Stop) -> ValidStop {
        ValidStop::Stop(stop)
    }
}

impl From<OutOfMemory> for ValidStop {
    ghost use Rattle.sc_base.specs.declared.stop.Stop.TheVariants.{OutOfMemory};

    ghost from_gives = { λ _ v. v ≡ stop.Stop OutOfMemory };

    fn from(_refused: OutOfMemory) -> ValidStop {
        ValidStop::Stop(Stop::OutOfMemory)
    }
}

/// The configurations for which the text `valid` of a space holds: all where there is none.
#[tactic(auto, using(sc_model::proofs::SetLemmas::conditions))]
pub fn valid_set<C: Conditions>(
    alloc: Global,
    conds: &mut C,
    space: &Space,
    branches: usize,
) -> Result<Cond, ValidStop>
    requires space { (C.sets conds.old).arities ≡ arities_of (seen_space space.now) }
    requires sound { IsSound (seen_space space.now) }
    ensures valid { IfOk result (λ valid. IsValidSet (C.sets conds.new) (seen_space space.now) valid.0) }
    ensures fails { IfErr result (FailsValid (seen_space space.now) branches) }

    // at every outcome
    ensures keeps { Keeps (C.sets conds.old) (C.sets conds.new) }
{
    let Some(text) = &space.valid else {
        return Ok(conds.always());
    };
    let mut names = Names::new(alloc)?;
    let mut files = Files::new(alloc)?;
    let file = files.intern("")?;
    let tokens = if_tokens(alloc, text.as_str(), file, &mut names)?;
    let line = first_line(&tokens);
    let mut walk = Walk::before_text(alloc, conds, space, &mut names, first_place(file))?;
    let all = conds.always();
    let valid = walk.decide_expression(
        alloc,
        conds,
        &mut names,
        &files,
        branches,
        space.standard,
        line,
        all,
    )?;
    match least_cause(alloc, conds, &walk.prepared.faults, space.variables.len())? {
        Some(cause) => Err(ValidStop::Fault(cause)),
        None => Ok(valid),
    }
}

/// The tokens of the file that is one `#if` with this text behind it.
fn if_tokens(
    alloc: Global,
    text: &str,
    file: FileId,
    names: &mut Names,
) -> Result<Vec<Token>, ValidStop>
    ensures ok { IfOk result (λ ts. AreTokensOf names.new file (if_bytes text.now) ts.items) }
    ensures held { IfOk result (λ ts. All (IsHeld names.new) ts.items) }
    ensures refused { IfErr result (RefusesText text.now) }

    // at every outcome
    ensures names { Extends names.old names.new }
{
    let line = if_bytes(alloc, text)?;
    match tokens(alloc, file, &line, names) {
        Ok(tokens) => Ok(tokens),
        Err(LexStop::Comment(_)) => Err(ValidStop::Fault(Cause::UnterminatedComment)),
        Err(LexStop::OutOfMemory) => Err(ValidStop::Stop(Stop::OutOfMemory)),
    }
}

fn if_bytes(alloc: Global, text: &str) -> Result<Vec<u8>, OutOfMemory>
    ensures { IfOk result (λ line. line.items ≡ if_bytes text.now) }
{
    let mut line = Vec::from_slice(alloc, b"#if ")?;
    line.extend_from_slice(text.as_bytes())?;
    line.extend_from_slice(b"\n")?;
    Ok(line)
}

/// The tokens before the first newline.
fn first_line(tokens: &[Token]) -> &[Token]
    ensures { result.now ≡ up_to (λ t. is_newline t.kind) tokens.now }
{
    match tokens
        .iter()
        .position(|token| matches!(token.kind, Kind::Newline))
    {
        Some(end) => &tokens[..end],
        None => tokens,
    }
}

/// The cause with the least code for which some configuration is refused.
fn least_cause<C: Conditions>(
    alloc: Global,
    conds: &C,
    faults: &[Fault],
    variables: usize,
) -> Result<Option<Cause>, OutOfMemory>
    requires own { All (λ fault. IsCond (C.sets conds.now) fault.cond.0) faults.now }
    requires variables { variables ≡ length (C.sets conds.now).arities }
    ensures { IfOk result (FindsLeast (C.sets conds.now) faults.now) }
{
    let mut least: Option<Cause> = None;
    for fault in faults {
        let mut config = vec![in alloc; 0; variables]?;
        if conds.example(fault.cond, &mut config) && is_less(fault.cause, least) {
            least = Some(fault.cause);
        }
    }
    Ok(least)
}

/// Whether a cause has a lower code than another, if there is another.
fn is_less(cause: Cause, other: Option<Cause>) -> bool
    ensures { result ≡ is_less cause other }
{
    match other {
        Some(other) => cause.code() < other.code(),
        None => true,
    }
}
