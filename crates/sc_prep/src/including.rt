//! The files that an `#include` enters (C11 6.10.2).
ghost use Rattle.std.specs.Prelude.{◌≡◌, ◌<◌, ◌≤◌, All, List, ℕ, IfErr, IfOk, OnOk, length, true, Some, slice_get};
ghost use Rattle.c11_directives.specs.declared.directive.Directive.{Directive};
ghost use Rattle.c11_directives.specs.Footprints.{DirectiveHas};
ghost use Rattle.c11_directives.specs.Pre.{is_said};
ghost use Rattle.sc_base.specs.Seen.{text_at};
ghost use Rattle.sc_lines.specs.Nests.{seen_line};
ghost use Rattle.sc_model.specs.declared.standard.Standard.{Standard};
ghost use Rattle.sc_model.specs.Growth.{Extends};
ghost use Rattle.sc_model.specs.Sets.{IsCond, Keeps};
ghost use Rattle.sc_model.specs.Space.{arities_of};
ghost use Rattle.sc_prep.specs.Going.{Gone, ReadsFiles};
ghost use Rattle.sc_prep.specs.Includes.{AreEntered, Finds, files_at};
ghost use Rattle.sc_prep.specs.Apart.{StandApart};
ghost use Rattle.sc_prep.specs.Footprints.{StopsWalk, any_machine};
ghost use Rattle.sc_prep.specs.Machine.{acts, refusing_if};
ghost use Rattle.sc_prep.specs.Naming.{ArePlainNames};
ghost use Rattle.sc_prep.specs.Preprocesses.{Stops};
ghost use Rattle.sc_prep.specs.Printable.{ArePlainPaths, IsPlaced, StaysHeld, is_plain};
ghost use Rattle.sc_prep.specs.Simulates.{IsIn, IsReady, Owns, PlainEach, SimulatesStep};
ghost use Rattle.sc_prep.specs.Stages.{IsStored, NamesHeaders, StopsSaid};
ghost use Rattle.sc_space.specs.Seen.{seen_space};

use crate::alternatives::alternatives;
use crate::content::{Content, Contents};
use crate::entry::Entry;
use crate::finding::Found;
use crate::naming::{Headers, Named};
use crate::walk::Walk;
use sc_base::{Cause, Cond, FileId, Files, Names, OutOfMemory, Stop, Token};
use sc_presence::Conditions;
use sc_source::Source;
use sc_space::Space;
use std::alloc::Global;
use std::rc::Rc;

/// A file that some configurations enter at an `#include`.
#[derive(Drop)]
pub struct Part {
    pub cond: Cond,
    pub file: FileId,
    pub content: Rc<Content>,
}

impl Walk {
    /// The files that an `#include` enters, each once, in the configurations that act; those in
    /// which it names no header, is nested too deep, or finds no file are refused.
    #[tactic(auto, using(sc_model::proofs::SetLemmas::conditions))]
    pub fn included<C: Conditions, S: Source>(
        &mut self,
        alloc: Global,
        space: &Space,
        src: &mut S,
        conds: &mut C,
        names: &mut Names,
        files: &mut Files,
        contents: &mut Contents,
        entry: Entry,
        line: &[Token],
    ) -> Result<Vec<Part>, Stop>
        requires placed { All (IsPlaced names.old (length files.old)) line.now }
        requires line { 0 < length line.now }
        requires entry { entry.file.0 < length files.old }
        requires ready { IsReady space.now.standard (C.sets conds.old) names.old files.old (S.holds src.old) self.old contents.old }
        ensures goes { IfOk result (λ parts. Gone (seen_space space.now) (C.sets conds.old) names.old files.old self.old contents.old
            (C.sets conds.new) names.new files.new self.new contents.new (All (λ token. is_plain names.old token ≡ true) line.now) (IsIn files.old entry)
            (λ x config m n. Finds x (seen_line space.now.standard names.old files.old line.now) files.new m
            (files_at (C.sets conds.new) parts.items config) n)) }
        ensures parts { IfOk result (λ parts. AreEntered (C.sets conds.new) contents.new entry.depth space.now.limits.include_depth parts.items) }
        ensures ready { OnOk result (IsReady space.now.standard (C.sets conds.new) names.new files.new (S.holds src.new) self.new contents.new) }
        ensures text { OnOk result ((self.new.runs ≡ self.old.runs) × (self.new.prepared.list ≡ self.old.prepared.list)) }
        ensures stops { IfErr result (Stops (C.sets conds.old).arities (seen_space space.now).branches (S.faults src.old) (S.faults src.new)) }
        ensures footprints { (d : Directive) → (seen_line space.now.standard names.old files.old line.now).directive ≡ Some d → is_said d ≡ true
            → StandApart line.now
            → IfErr result (StopsWalk (C.sets conds.old) names.old files.old self.old any_machine
            (λ config m f. (acts m ≡ true) × DirectiveHas m.state.macros (seen_line space.now.standard names.old files.old line.now) f)
            (seen_space space.now).branches) }

        // at every outcome
        ensures reads { ReadsFiles (S.holds src.old) (S.holds src.new) (S.faults src.old) (S.faults src.new) names.old names.new files.old files.new }
        ensures keeps { Keeps (C.sets conds.old) (C.sets conds.new) }
    {
        let limit = space.limits.branches;
        let named = self.named(alloc, conds, names, files, limit, line)?;
        if entry.depth >= space.limits.include_depth {
            self.refuse_all(conds, Cause::IncludeDepth, line)?;
            return Ok(Vec::new(alloc));
        }
        let found = Found::find(
            alloc,
            src,
            conds,
            names,
            files,
            contents,
            space.standard,
            entry.file,
            &space.include,
            &named,
        )?;
        self.refuse_acting(conds, found.missing, Cause::NotFound, line)?;
        Ok(found.parts)
    }

    /// The headers that an `#include` names in the configurations that act; those in which it names
    /// none are refused.
    #[tactic(auto, using(sc_model::proofs::SetLemmas::conditions))]
    fn named<C: Conditions>(
        &mut self,
        alloc: Global,
        conds: &mut C,
        names: &mut Names,
        files: &Files,
        limit: usize,
        line: &[Token],
    ) -> Result<Vec<Named>, Stop>
        requires placed { All (IsPlaced names.old (length files.now)) line.now }
        requires line { 0 < length line.now }
        requires stored { IsStored (C.sets conds.old) names.old (length files.now) self.old }
        ensures named { IfOk result (λ named. NamesHeaders files.now names.old (C.sets conds.old) self.old line.now
            names.new (C.sets conds.new) self.new named.items) }
        ensures plain { IfOk result (λ named. (entry : Entry) → All (λ token. is_plain names.old token ≡ true) line.now → ArePlainPaths files.now
            → PlainEach (C.sets conds.old) names.old files.now self.old (IsIn files.now entry) → ArePlainNames named.items) }
        ensures stops { IfErr result (StopsSaid (C.sets conds.old) names.old files.now self.old line.now limit) }

        // at every outcome
        ensures keeps { Keeps (C.sets conds.old) (C.sets conds.new) }
        ensures names { Extends names.old names.new }
    {
        let list = self.said(alloc, conds, names, files, limit, line)?;
        let alternatives = alternatives(alloc, conds, &list, self.acting, limit)?;
        let headers = Headers::read(alloc, conds, names, &alternatives)?;
        self.refuse_acting(conds, headers.unnamed, Cause::BadInclude, line)?;
        Ok(headers.named)
    }

    /// Those configurations of `part` that act are refused.
    #[tactic(auto, using(sc_model::proofs::SetLemmas::conditions))]
    fn refuse_acting<C: Conditions>(
        &mut self,
        conds: &mut C,
        part: Cond,
        cause: Cause,
        line: &[Token],
    ) -> Result<(), OutOfMemory>
        requires owns { Owns (C.sets conds.old) self.old }
        requires own { IsCond (C.sets conds.old) part.0 }
        requires line { 0 < length line.now }
        ensures printable { OnOk result ((names : List (List ℕ)) → StaysHeld names line.now self.old self.new) }
        ensures moved { OnOk result ((standard : Standard) (names : List (List ℕ)) → SimulatesStep names (C.sets conds.old) self.old (C.sets conds.new) self.new
            (λ files config m. refusing_if ((C.sets conds.old).has part.0 config) m (seen_line standard names files line.now) cause)) }
        ensures list { OnOk result (self.new.prepared.list ≡ self.old.prepared.list) }
        ensures runs { OnOk result (self.new.runs ≡ self.old.runs) }
        ensures keeps { Keeps (C.sets conds.old) (C.sets conds.new) }
    {
        let refused = conds.apply_and(part, self.acting)?;
        self.refuse(conds, refused, cause, line)
    }
}
