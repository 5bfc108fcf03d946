//! What the lines of `#include` and `#line` say behind the name of the directive.
ghost use Rattle.std.specs.Prelude.{◌≡◌, ◌<◌, All, List, ℕ, IfErr, IfOk, OnOk, drop, length, map};
ghost use Rattle.c11_directives.specs.Behind.{begins_with_header};
ghost use Rattle.c11_directives.specs.declared.directive.Directive.TheVariants as directive;
ghost use Rattle.c11_directives.specs.Pre.{Context};
ghost use Rattle.sc_base.specs.Seen.{IsHeld, seen};
ghost use Rattle.sc_lines.specs.Nests.{seen_line};
ghost use Rattle.sc_model.specs.declared.standard.Standard.{Standard};
ghost use Rattle.sc_model.specs.Growth.{Extends};
ghost use Rattle.sc_model.specs.Sets.{Keeps};
ghost use Rattle.sc_prep.specs.Machine.{Carried};
ghost use Rattle.sc_prep.specs.Printable.{IsPlaced};
ghost use Rattle.sc_prep.specs.Stages.{IsStored, SaysLine, Stage, StopsSaid};

use crate::alternatives::alternatives;
use crate::numbering::not_numbered;
use crate::walk::Walk;
use sc_base::{Cause, Cond, Files, Kind, Names, OutOfMemory, Stop, Token};
use sc_guarded::Guarded;
use sc_presence::Conditions;
use std::alloc::Global;

impl Walk {
    /// What a line says behind the name of its directive, in the configurations that act: a header
    /// name as it stands, and else what the tokens expand to. The configurations in which that
    /// fails are refused.
    #[tactic(auto, using(sc_model::proofs::SetLemmas::conditions))]
    pub fn said<C: Conditions>(
        &mut self,
        alloc: Global,
        conds: &mut C,
        names: &mut Names,
        files: &Files,
        limit: usize,
        line: &[Token],
    ) -> Result<Guarded<Token>, Stop>
        requires placed { All (IsPlaced names.old (length files.now)) line.now }
        requires stored { IsStored (C.sets conds.old) names.old (length files.now) self.old }
        ensures says { IfOk result (SaysLine files.now names.old (C.sets conds.old) self.old line.now names.new (C.sets conds.new) self.new) }
        ensures stops { IfErr result (StopsSaid (C.sets conds.old) names.old files.now self.old line.now limit) }

        // at every outcome
        ensures keeps { Keeps (C.sets conds.old) (C.sets conds.new) }
        ensures names { Extends names.old names.new }
    {
        let behind = behind_name(line);
        let list = guarded_by(alloc, behind, self.acting)?;
        if begins_with_header(behind) {
            return Ok(list);
        }
        self.expanded(alloc, conds, names, files, limit, &list, self.acting)
    }

    /// The number of a line is checked (C11 6.10.4). It has no effect.
    #[tactic(auto, using(sc_model::proofs::SetLemmas::conditions))]
    pub fn number_line<C: Conditions>(
        &mut self,
        alloc: Global,
        conds: &mut C,
        names: &mut Names,
        files: &Files,
        limit: usize,
        line: &[Token],
    ) -> Result<(), Stop>
        requires placed { All (IsPlaced names.old (length files.now)) line.now }
        requires line { 0 < length line.now }
        requires stored { IsStored (C.sets conds.old) names.old (length files.now) self.old }
        ensures carries { OnOk result ((standard : Standard) (x : Context)
            → Stage files.now names.old (C.sets conds.old) self.old names.new (C.sets conds.new) self.new
            (λ config m n. Carried x (seen_line standard names.old files.now line.now) directive.Line m n)) }
        ensures stops { IfErr result (StopsSaid (C.sets conds.old) names.old files.now self.old line.now limit) }

        // at every outcome
        ensures keeps { Keeps (C.sets conds.old) (C.sets conds.new) }
        ensures names { Extends names.old names.new }
    {
        let list = self.said(alloc, conds, names, files, limit, line)?;
        let parts = alternatives(alloc, conds, &list, self.acting, limit)?;
        let others = not_numbered(conds, names, &parts)?;
        self.refuse(conds, others, Cause::BadDirective, line)?;
        Ok(())
    }
}

/// What a line says behind the name of its directive.
pub fn behind_name(line: &[Token]) -> &[Token]
    ensures { result.now ≡ drop 2 line.now }
{
    match line {
        [_, _, behind @ ..] => behind,
        _ => &[],
    }
}

/// Whether a header name stands first (C11 6.4.7).
fn begins_with_header(tokens: &[Token]) -> bool
    ensures { (names files : List (List ℕ)) → result ≡ begins_with_header (map (seen names files) tokens.now) }
{
    match tokens {
        [first, ..] => matches!(first.kind, Kind::Header),
        [] => false,
    }
}

/// The tokens in the configurations of `by`.
fn guarded_by(alloc: Global, tokens: &[Token], by: Cond) -> Result<Guarded<Token>, OutOfMemory>
    ensures { IfOk result (λ list. list ≡ map (λ token. (by, token)) tokens.now) }
{
    let mut list = Guarded::new(alloc)?;
    for token in tokens {
        list.push(by, *token)?;
    }
    Ok(list)
}
