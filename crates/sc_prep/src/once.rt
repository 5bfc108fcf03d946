//! Files that are entered no more, where `#pragma once` stands in them.
ghost use Rattle.std.specs.List.{position};
ghost use Rattle.std.specs.Prelude.{◌≡◌, ◌<◌, ◌==◌, ◌&&◌, ℕ, not, All, IfOk, List, OnOk, length, Some};
ghost use Rattle.c11_directives.specs.declared.directive.Directive.TheVariants as kind;
ghost use Rattle.c11_directives.specs.Pre.{is_once};
ghost use Rattle.sc_base.specs.Seen.{IsHeld, text_at};
ghost use Rattle.sc_lines.specs.Nests.{seen_line};
ghost use Rattle.sc_model.specs.declared.standard.Standard.{Standard};
ghost use Rattle.sc_model.specs.Sets.{Denotes, IsCond, Keeps};
ghost use Rattle.sc_prep.specs.Machine.{plain_by};
ghost use Rattle.sc_prep.specs.Once.{AreOnceHeld, IsWithout, MarksFile, OwnsOnce, is_marked, once_at};
ghost use Rattle.sc_prep.specs.Printable.{StaysHeld};
ghost use Rattle.sc_prep.specs.Simulates.{Owns, SimulatesStep};

use crate::directives::operand;
use crate::walk::Walk;
use sc_base::{Cond, FileId, Files, Names, OutOfMemory, Token, is_same};
use sc_presence::Conditions;

/// A file that some configurations enter no more.
#[derive(Clone, Copy, Debug, PartialEq, Eq)]
pub struct OnceFile {
    pub file: FileId,
    pub cond: Cond,
}

impl Walk {
    /// A `#pragma`, which has an effect only as `#pragma once`: its file is entered no more.
    #[tactic(auto, using(sc_model::proofs::SetLemmas::conditions))]
    pub fn pragma<C: Conditions>(
        &mut self,
        conds: &mut C,
        names: &Names,
        line: &[Token],
    ) -> Result<(), OutOfMemory>
        requires held { All (IsHeld names.now) line.now }
        requires owns { Owns (C.sets conds.old) self.old }
        requires line { 0 < length line.now }
        ensures printable { OnOk result (StaysHeld names.now line.now self.old self.new) }
        ensures moved { OnOk result ((standard : Standard) → SimulatesStep names.now (C.sets conds.old) self.old (C.sets conds.new) self.new
            (λ files config m. plain_by m (seen_line standard names.now files line.now) (Some kind.Pragma))) }
        ensures runs { OnOk result (self.new.runs ≡ self.old.runs) }
        ensures list { OnOk result (self.new.prepared.list ≡ self.old.prepared.list) }
        ensures keeps { Keeps (C.sets conds.old) (C.sets conds.new) }
    {
        if is_once(names, line) {
            mark(conds, &mut self.once, line[0].place.file, self.acting)
        } else {
            Ok(())
        }
    }

    /// Those of a condition that act and may enter a file.
    #[tactic(auto, using(sc_model::proofs::SetLemmas::conditions))]
    pub fn entering<C: Conditions>(
        &self,
        conds: &mut C,
        files: &Files,
        cond: Cond,
        file: FileId,
    ) -> Result<Cond, OutOfMemory>
        requires owns { Owns (C.sets conds.old) self.now }
        requires own { IsCond (C.sets conds.old) cond.0 }
        requires file { file.0 < length files.now }
        requires once { AreOnceHeld (length files.now) self.now.once.items }
        ensures entering { IfOk result (λ r. Denotes (C.sets conds.new) r.0
            (λ c. ((C.sets conds.old).has cond.0 c && (C.sets conds.old).has self.now.acting.0 c)
            && not (once_at (C.sets conds.old) files.now self.now.once.items c (text_at files.now file.0)))) }

        // at every outcome
        ensures keeps { Keeps (C.sets conds.old) (C.sets conds.new) }
    {
        let inside = conds.apply_and(cond, self.acting)?;
        let entering = without_file(conds, files, &self.once, file, inside)?;
        Ok(entering)
    }
}

/// Whether a line is `#pragma once`, if it is a pragma.
fn is_once(names: &Names, line: &[Token]) -> bool
    requires { All (IsHeld names.now) line.now }
    ensures { (standard : Standard) (files : List (List ℕ)) → result ≡ is_once (seen_line standard names.now files line.now) }
{
    match operand(names, line) {
        None => false,
        Some(name) => is_same(names.text(name), b"once"),
    }
}

/// These configurations enter the file no more.
#[tactic(auto, using(sc_model::proofs::SetLemmas::conditions))]
fn mark<C: Conditions>(
    conds: &mut C,
    once: &mut Vec<OnceFile>,
    file: FileId,
    cond: Cond,
) -> Result<(), OutOfMemory>
    requires once { OwnsOnce (C.sets conds.old) once.old.items }
    requires cond { IsCond (C.sets conds.old) cond.0 }
    ensures marks { OnOk result (MarksFile (C.sets conds.old) once.old.items file.0 cond.0 (C.sets conds.new) once.new.items) }

    // at every outcome
    ensures keeps { Keeps (C.sets conds.old) (C.sets conds.new) }
{
    match index_of(once, file) {
        None => Ok(once.push(OnceFile { file, cond })?),
        Some(index) => {
            let either = conds.apply_or(once[index].cond, cond)?;
            once[index] = OnceFile { file, cond: either };
            Ok(())
        }
    }
}

/// The configurations of a condition in which the file is none of these.
#[tactic(auto, using(sc_model::proofs::SetLemmas::conditions))]
fn without_file<C: Conditions>(
    conds: &mut C,
    files: &Files,
    once: &[OnceFile],
    file: FileId,
    cond: Cond,
) -> Result<Cond, OutOfMemory>
    requires file { file.0 < length files.now }
    requires held { AreOnceHeld (length files.now) once.now }
    requires once { OwnsOnce (C.sets conds.old) once.now }
    requires own { IsCond (C.sets conds.old) cond.0 }
    ensures without { IfOk result (λ r. IsWithout (C.sets conds.old) files.now once.now file.0 cond.0 (C.sets conds.new) r.0) }

    // at every outcome
    ensures keeps { Keeps (C.sets conds.old) (C.sets conds.new) }
{
    let mut rest = cond;
    for marked in once {
        rest = unless_marked(conds, files, *marked, file, rest)?;
    }
    Ok(rest)
}

/// The configurations of a condition in which a file is not this one.
#[tactic(auto, using(sc_model::proofs::SetLemmas::conditions))]
fn unless_marked<C: Conditions>(
    conds: &mut C,
    files: &Files,
    marked: OnceFile,
    file: FileId,
    cond: Cond,
) -> Result<Cond, OutOfMemory>
    requires file { file.0 < length files.now }
    requires held { marked.file.0 < length files.now }
    requires marked { IsCond (C.sets conds.old) marked.cond.0 }
    requires own { IsCond (C.sets conds.old) cond.0 }
    ensures unless { IfOk result (λ r. Denotes (C.sets conds.new) r.0 (λ c. (C.sets conds.old).has cond.0 c
        && not (is_marked (C.sets conds.old) files.now c (text_at files.now file.0) marked))) }

    // at every outcome
    ensures keeps { Keeps (C.sets conds.old) (C.sets conds.new) }
{
    files.one_to_one();
    if marked.file.0 == file.0 {
        let rest = conds.apply_without(cond, marked.cond)?;
        return Ok(rest);
    }
    Ok(cond)
}

/// The index of a file.
fn index_of(once: &[OnceFile], file: FileId) -> Option<usize>
    ensures { result ≡ position (λ o. o.file.0 == file.0) once.now }
{
    once.iter().position(|marked| marked.file.0 == file.0)
}
