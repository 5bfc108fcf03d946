//! The walk of a file's lines, and of the files that they include.
ghost use Rattle.std.specs.Prelude.{◌≡◌, ◌<◌, ◌≤◌, ◌++◌, [], All, length, OnOk, IfErr, Some, true};
ghost use Rattle.c11_directives.specs.Footprints.{MomentsHave};
ghost use Rattle.c11_directives.specs.Pre.{Context};
ghost use Rattle.c11_directives.specs.declared.directive.Directive.TheVariants as kind;
ghost use Rattle.sc_base.specs.Seen.{text_at};
ghost use Rattle.sc_lines.specs.Nests.{seen_line, seen_lines};
ghost use Rattle.sc_lines.specs.Split.{directive_at};
ghost use Rattle.sc_model.specs.Sets.{IsCond, Keeps};
ghost use Rattle.sc_prep.specs.Contents.{AreHeldLines, content_at};
ghost use Rattle.sc_prep.specs.Apart.{GathersFrom, StandApart};
ghost use Rattle.sc_prep.specs.Footprints.{ComesAt, ComesInside, ComesOver, StopsWalk};
ghost use Rattle.sc_prep.specs.Going.{Gone, PutsOnce, ReadsFiles};
ghost use Rattle.sc_prep.specs.Includes.{EntersAt};
ghost use Rattle.sc_prep.specs.Machine.{Takes};
ghost use Rattle.sc_prep.specs.Preprocesses.{Stops};
ghost use Rattle.sc_prep.specs.Printable.{IsPlaced, is_plain};
ghost use Rattle.sc_prep.specs.Read.{tokens_read};
ghost use Rattle.sc_prep.specs.Simulates.{Covers, IsAtTop, IsBetweenRuns, IsContext, IsIn, IsReady};
ghost use Rattle.sc_prep.specs.Thin.{HaveOne, Shares};
ghost use Rattle.sc_space.specs.Seen.{seen_space};

use crate::content::{Content, Contents, FileLines};
use crate::entry::{Entry, deeper};
use crate::next_line::next_line;
use crate::walk::Walk;
use c11_directives::Directive;
use sc_base::{Cond, Fault, Files, Names, Stop, Token};
use sc_lines::Line;
use sc_presence::Conditions;
use sc_source::Source;
use sc_space::Space;
use std::alloc::Global;

impl Walk {
    /// The lines of a file are walked, and the last runs are closed. What no configuration takes is
    /// passed over: a group, or the rest of the file.
    #[cycle(files)]
    #[tactic(auto, using(sc_model::proofs::SetLemmas::conditions))]
    pub fn walk_lines<C: Conditions, S: Source>(
        &mut self,
        alloc: Global,
        space: &Space,
        src: &mut S,
        conds: &mut C,
        names: &mut Names,
        files: &mut Files,
        contents: &mut Contents,
        entry: Entry,
        file: &FileLines,
    ) -> Result<(), Stop>
        requires lines { AreHeldLines space.now.standard names.old (length files.old) entry.file file.now }
        requires deep { entry.depth ≤ space.now.limits.include_depth }
        requires top { self.old.sections.items ≡ [] }
        requires ready { IsReady space.now.standard (C.sets conds.old) names.old files.old (S.holds src.old) self.old contents.old }
        ensures goes { OnOk result (Gone (seen_space space.now) (C.sets conds.old) names.old files.old self.old contents.old
            (C.sets conds.new) names.new files.new self.new contents.new (Unit {0}) (IsAtTop files.old entry)
            (λ x config m n. Covers x (seen_lines space.now.standard names.old files.old file.now.tokens.items) m n)) }
        ensures once { OnOk result (PutsOnce (seen_space space.now) (C.sets conds.old) names.old files.old self.old
            (C.sets conds.new) names.new files.new self.new contents.new (IsAtTop files.old entry) (StandApart file.now.tokens.items)
            (λ x config m. ComesOver x (seen_lines space.now.standard names.old files.old file.now.tokens.items) m)
            (λ c d index. HaveOne (C.sets conds.new) self.new.prepared.list c d)) }
        ensures ready { OnOk result (IsReady space.now.standard (C.sets conds.new) names.new files.new (S.holds src.new) self.new contents.new) }
        ensures stops { IfErr result (Stops (C.sets conds.old).arities (seen_space space.now).branches (S.faults src.old) (S.faults src.new)) }
        ensures footprints { (x : Context) → IsContext (seen_space space.now) x → S.holds src.old ≡ Some x.files → self.old.runs.read ≡ []
            → StandApart file.now.tokens.items
            → IfErr result (StopsWalk (C.sets conds.old) names.old files.old self.old (IsAtTop files.old entry)
            (λ config m. MomentsHave (ComesOver x (seen_lines space.now.standard names.old files.old file.now.tokens.items) m))
            (seen_space space.now).branches) }

        // at every outcome
        ensures reads { ReadsFiles (S.holds src.old) (S.holds src.new) (S.faults src.old) (S.faults src.new) names.old names.new files.old files.new }
        ensures keeps { Keeps (C.sets conds.old) (C.sets conds.new) }
    {
        let mut number = 0;
        while number < file.lines.len() {
            let line = &file.lines[number];
            let tokens = &file.tokens[line.first..line.end];
            self.take_line(
                alloc, space, src, conds, names, files, contents, entry, line, tokens,
            )?;
            number = next_line(&file.lines, number, conds.is_never(self.acting));
        }
        self.close_runs(alloc, conds, names, files, space.limits.branches)
    }

    /// What a line of these tokens does.
    #[cycle(files)]
    #[tactic(auto, using(sc_model::proofs::SetLemmas::conditions))]
    fn take_line<C: Conditions, S: Source>(
        &mut self,
        alloc: Global,
        space: &Space,
        src: &mut S,
        conds: &mut C,
        names: &mut Names,
        files: &mut Files,
        contents: &mut Contents,
        entry: Entry,
        line: &Line,
        tokens: &[Token],
    ) -> Result<(), Stop>
        requires placed { All (IsPlaced names.old (length files.old)) tokens.now }
        requires directive { line.now.directive ≡ directive_at space.now.standard names.old tokens.now }
        requires entry { entry.file.0 < length files.old }
        requires deep { entry.depth ≤ space.now.limits.include_depth }
        requires ready { IsReady space.now.standard (C.sets conds.old) names.old files.old (S.holds src.old) self.old contents.old }
        ensures goes { OnOk result (Gone (seen_space space.now) (C.sets conds.old) names.old files.old self.old contents.old
            (C.sets conds.new) names.new files.new self.new contents.new (All (λ token. is_plain names.old token ≡ true) tokens.now) (IsIn files.old entry)
            (λ x config m n. Takes x m (seen_line space.now.standard names.old files.old tokens.now) n)) }
        ensures once { OnOk result (PutsOnce (seen_space space.now) (C.sets conds.old) names.old files.old self.old
            (C.sets conds.new) names.new files.new self.new contents.new (IsIn files.old entry) (StandApart tokens.now)
            (λ x config m. ComesAt x m (seen_line space.now.standard names.old files.old tokens.now))
            (Shares (C.sets conds.new) names.new files.new self.new)) }
        ensures ready { OnOk result (IsReady space.now.standard (C.sets conds.new) names.new files.new (S.holds src.new) self.new contents.new) }
        ensures stops { IfErr result (Stops (C.sets conds.old).arities (seen_space space.now).branches (S.faults src.old) (S.faults src.new)) }
        ensures gathers { OnOk result (GathersFrom tokens.now self.old self.new) }
        ensures footprints { (x : Context) → IsContext (seen_space space.now) x → S.holds src.old ≡ Some x.files
            → StandApart (tokens_read self.old.runs.read ++ tokens.now)
            → IfErr result (StopsWalk (C.sets conds.old) names.old files.old self.old (IsIn files.old entry)
            (λ config m. MomentsHave (ComesAt x m (seen_line space.now.standard names.old files.old tokens.now))) (seen_space space.now).branches) }

        // at every outcome
        ensures reads { ReadsFiles (S.holds src.old) (S.holds src.new) (S.faults src.old) (S.faults src.new) names.old names.new files.old files.new }
        ensures keeps { Keeps (C.sets conds.old) (C.sets conds.new) }
    {
        match line.directive {
            Some(Directive::Include) => self.include_line(
                alloc, space, src, conds, names, files, contents, entry, tokens,
            ),
            _ => {
                let limit = space.limits.branches;
                self.local_line(
                    alloc,
                    conds,
                    names,
                    files,
                    limit,
                    space.standard,
                    line,
                    tokens,
                )
            }
        }
    }

    /// An `#include` (C11 6.10.2). Each file that it finds is entered once, in the configurations
    /// that find it.
    #[cycle(files)]
    #[tactic(auto, using(sc_model::proofs::SetLemmas::conditions))]
    fn include_line<C: Conditions, S: Source>(
        &mut self,
        alloc: Global,
        space: &Space,
        src: &mut S,
        conds: &mut C,
        names: &mut Names,
        files: &mut Files,
        contents: &mut Contents,
        entry: Entry,
        line: &[Token],
    ) -> Result<(), Stop>
        requires placed { All (IsPlaced names.old (length files.old)) line.now }
        requires directive { directive_at space.now.standard names.old line.now ≡ Some kind.Include }
        requires entry { entry.file.0 < length files.old }
        requires deep { entry.depth ≤ space.now.limits.include_depth }
        requires ready { IsReady space.now.standard (C.sets conds.old) names.old files.old (S.holds src.old) self.old contents.old }
        ensures goes { OnOk result (Gone (seen_space space.now) (C.sets conds.old) names.old files.old self.old contents.old
            (C.sets conds.new) names.new files.new self.new contents.new (All (λ token. is_plain names.old token ≡ true) line.now) (IsIn files.old entry)
            (λ x config m n. Takes x m (seen_line space.now.standard names.old files.old line.now) n)) }
        ensures once { OnOk result (PutsOnce (seen_space space.now) (C.sets conds.old) names.old files.old self.old
            (C.sets conds.new) names.new files.new self.new contents.new (IsIn files.old entry) (StandApart line.now)
            (λ x config m. ComesAt x m (seen_line space.now.standard names.old files.old line.now))
            (Shares (C.sets conds.new) names.new files.new self.new)) }
        ensures ready { OnOk result (IsReady space.now.standard (C.sets conds.new) names.new files.new (S.holds src.new) self.new contents.new) }
        ensures stops { IfErr result (Stops (C.sets conds.old).arities (seen_space space.now).branches (S.faults src.old) (S.faults src.new)) }
        ensures gathers { OnOk result (GathersFrom line.now self.old self.new) }
        ensures footprints { (x : Context) → IsContext (seen_space space.now) x → S.holds src.old ≡ Some x.files
            → StandApart (tokens_read self.old.runs.read ++ line.now)
            → IfErr result (StopsWalk (C.sets conds.old) names.old files.old self.old (IsIn files.old entry)
            (λ config m. MomentsHave (ComesAt x m (seen_line space.now.standard names.old files.old line.now))) (seen_space space.now).branches) }

        // at every outcome
        ensures reads { ReadsFiles (S.holds src.old) (S.holds src.new) (S.faults src.old) (S.faults src.new) names.old names.new files.old files.new }
        ensures keeps { Keeps (C.sets conds.old) (C.sets conds.new) }
    {
        self.close_runs(alloc, conds, names, files, space.limits.branches)?;
        let parts = self.included(
            alloc, space, src, conds, names, files, contents, entry, line,
        )?;
        for part in &parts {
            let entered = Entry {
                file: part.file,
                depth: deeper(entry.depth, space.limits.include_depth),
            };
            self.enter(
                alloc,
                space,
                src,
                conds,
                names,
                files,
                contents,
                entered,
                part.cond,
                &part.content,
            )?;
        }
        files.one_to_one();
        Ok(())
    }

    /// A file is entered: these of the configurations that act walk its lines, or are refused.
    #[cycle(files)]
    #[tactic(auto, using(sc_model::proofs::SetLemmas::conditions))]
    pub fn enter<C: Conditions, S: Source>(
        &mut self,
        alloc: Global,
        space: &Space,
        src: &mut S,
        conds: &mut C,
        names: &mut Names,
        files: &mut Files,
        contents: &mut Contents,
        entry: Entry,
        cond: Cond,
        content: &Content,
    ) -> Result<(), Stop>
        requires own { IsCond (C.sets conds.old) cond.0 }
        requires content { content_at contents.old entry.file.0 ≡ Some (Some content.now) }
        requires deep { entry.depth ≤ space.now.limits.include_depth }
        requires ready { IsReady space.now.standard (C.sets conds.old) names.old files.old (S.holds src.old) self.old contents.old }
        ensures goes { OnOk result (Gone (seen_space space.now) (C.sets conds.old) names.old files.old self.old contents.old
            (C.sets conds.new) names.new files.new self.new contents.new (Unit {0}) IsBetweenRuns
            (λ x config m n. EntersAt x (text_at files.old entry.file.0) entry.depth m ((C.sets conds.old).has cond.0 config) n)) }
        ensures once { OnOk result (PutsOnce (seen_space space.now) (C.sets conds.old) names.old files.old self.old
            (C.sets conds.new) names.new files.new self.new contents.new IsBetweenRuns (Unit {0})
            (λ x config m chain k. ((C.sets conds.old).has cond.0 config ≡ true) × ComesInside x (text_at files.old entry.file.0) entry.depth m chain k)
            (λ c d index. HaveOne (C.sets conds.new) self.new.prepared.list c d)) }
        ensures ready { OnOk result (IsReady space.now.standard (C.sets conds.new) names.new files.new (S.holds src.new) self.new contents.new) }
        ensures stops { IfErr result (Stops (C.sets conds.old).arities (seen_space space.now).branches (S.faults src.old) (S.faults src.new)) }
        ensures runs { OnOk result (self.new.runs ≡ self.old.runs) }
        ensures footprints { (x : Context) → IsContext (seen_space space.now) x → S.holds src.old ≡ Some x.files
            → IfErr result (StopsWalk (C.sets conds.old) names.old files.old self.old IsBetweenRuns
            (λ config m f. ((C.sets conds.old).has cond.0 config ≡ true)
            × MomentsHave (ComesInside x (text_at files.old entry.file.0) entry.depth m) f) (seen_space space.now).branches) }

        // at every outcome
        ensures reads { ReadsFiles (S.holds src.old) (S.holds src.new) (S.faults src.old) (S.faults src.new) names.old names.new files.old files.new }
        ensures keeps { Keeps (C.sets conds.old) (C.sets conds.new) }
    {
        let inside = self.entering(conds, files, cond, entry.file)?;
        if conds.is_never(inside) {
            return Ok(());
        }
        match content {
            Content::Lines(file) => {
                let around = self.begin_file(alloc, conds, inside)?;
                self.walk_lines(
                    alloc, space, src, conds, names, files, contents, entry, file,
                )?;
                Ok(self.end_file(conds, around)?)
            }
            Content::Refused { cause, place } => {
                let fault = Fault {
                    cond: inside,
                    cause: *cause,
                    place: *place,
                };
                Ok(self.refuse_at(conds, fault)?)
            }
        }
    }
}
