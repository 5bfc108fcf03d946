//! The files of the headers that an `#include` names (C11 6.10.2).
ghost use Rattle.std.specs.Prelude.{◌≡◌, ℕ, ◌<◌, ◌≤◌, All, List, [], ◌∷◌, IfErr, IfOk, OnOk, Some, false, length, map, option_map, slice_get, string_bytes, true};
ghost use Rattle.c11_headers.specs.Headers as model;
ghost use Rattle.sc_base.specs.Seen.{text_at};
ghost use Rattle.sc_model.specs.Bytes.{has_no_newline};
ghost use Rattle.sc_model.specs.Growth.{Extends};
ghost use Rattle.sc_model.specs.Outside.{Files as Outside};
ghost use Rattle.sc_model.specs.Sets.{IsCond, IsConfig, Keeps};
ghost use Rattle.sc_prep.specs.Contents.{Agrees, AreContents, KeepsContents, content_at};
ghost use Rattle.sc_prep.specs.Finding.{AddsFile, AreFound, IsSearched, LooksUp, part_of};
ghost use Rattle.sc_prep.specs.Going.{ReadsFiles};
ghost use Rattle.sc_prep.specs.Includes.{AreOnce, ArePartsOf, files_at};
ghost use Rattle.sc_prep.specs.Preprocesses.{ReadsNothing};
ghost use Rattle.sc_prep.specs.Printable.{ArePlainPaths};

use crate::content::{Content, Contents};
use crate::including::Part;
use crate::naming::Named;
use sc_base::{Cond, FileId, Files, Names, OutOfMemory, Stop};
use sc_include::candidates;
use sc_model::Standard;
use sc_presence::Conditions;
use sc_source::Source;
use std::alloc::Global;
use std::rc::Rc;

/// The files that configurations enter, each once, and those that find none.
#[derive(Drop)]
pub struct Found {
    pub parts: Vec<Part>,
    pub missing: Cond,
}

impl Found {
    /// The file of each header, for an `#include` in this file.
    #[tactic(auto, using(sc_model::proofs::SetLemmas::conditions))]
    pub fn find<C: Conditions, S: Source>(
        alloc: Global,
        src: &mut S,
        conds: &mut C,
        names: &mut Names,
        files: &mut Files,
        contents: &mut Contents,
        standard: Standard,
        including: FileId,
        directories: &[String],
        named: &[Named],
    ) -> Result<Found, Stop>
        requires including { including.0 < length files.old }
        requires own { All (λ n. IsCond (C.sets conds.old) n.cond.0) named.now }
        requires contents { AreContents standard names.old files.old (S.holds src.old) contents.old }
        ensures found { IfOk result (AreFound standard (C.sets conds.old) named.now (text_at files.old including.0)
            (map string_bytes directories.now) names.new files.new contents.new (C.sets conds.new)) }
        ensures once { IfOk result (λ found. AreOnce found.parts.items) }
        ensures contents { OnOk result (AreContents standard names.new files.new (S.holds src.new) contents.new) }
        ensures paths { OnOk result (ArePlainPaths (map string_bytes directories.now)
            → All (λ n. has_no_newline (string_bytes n.header.name) ≡ true) named.now → ArePlainPaths files.old → ArePlainPaths files.new) }
        ensures read { OnOk result (KeepsContents contents.old contents.new) }
        ensures stops { IfErr result (ReadsNothing (S.faults src.old) (S.faults src.new)) }

        // at every outcome
        ensures reads { ReadsFiles (S.holds src.old) (S.holds src.new) (S.faults src.old) (S.faults src.new) names.old names.new files.old files.new }
        ensures keeps { Keeps (C.sets conds.old) (C.sets conds.new) }
    {
        let mut found = Found {
            parts: Vec::new(alloc),
            missing: conds.never(),
        };
        for name in named {
            let paths = candidates(alloc, &name.header, files.text(including), directories)?;
            let file = search(alloc, src, names, files, contents, standard, &paths)?;
            found.add(conds, name.cond, file)?;
        }
        Ok(found)
    }

    /// Adds what was found for a header of these configurations.
    #[tactic(auto, using(sc_model::proofs::SetLemmas::conditions))]
    fn add<C: Conditions>(
        &mut self,
        conds: &mut C,
        cond: Cond,
        found: Option<(FileId, Rc<Content>)>,
    ) -> Result<(), OutOfMemory>
        requires own { IsCond (C.sets conds.old) cond.0 }
        requires parts { All (λ part. IsCond (C.sets conds.old) part.cond.0) self.old.parts.items }
        requires missing { IsCond (C.sets conds.old) self.old.missing.0 }
        ensures adds { OnOk result (AddsFile (C.sets conds.old) cond.0 (option_map (λ pair. pair.0) found) self.old (C.sets conds.new) self.new) }
        ensures parts { OnOk result ((contents : Contents) → option_map (λ pair. content_at contents pair.0.0) found ≡ option_map
            (λ pair. Some (Some pair.1.value)) found
            → ArePartsOf (C.sets conds.old) contents self.old.parts.items → ArePartsOf (C.sets conds.new) contents self.new.parts.items) }
        ensures once { OnOk result (AreOnce self.old.parts.items → AreOnce self.new.parts.items) }

        // at every outcome
        ensures keeps { Keeps (C.sets conds.old) (C.sets conds.new) }
    {
        match found {
            Some((file, content)) => add_part(conds, &mut self.parts, cond, file, content),
            None => {
                self.missing = conds.apply_or(self.missing, cond)?;
                Ok(())
            }
        }
    }
}

/// The first of these names that a file has, and what the file holds.
fn search<S: Source>(
    alloc: Global,
    src: &mut S,
    names: &mut Names,
    files: &mut Files,
    contents: &mut Contents,
    standard: Standard,
    candidates: &[String],
) -> Result<Option<(FileId, Rc<Content>)>, Stop>
    requires contents { AreContents standard names.old files.old (S.holds src.old) contents.old }
    ensures searched { IfOk result (λ found. (held : Outside) → Agrees standard names.new files.new held contents.new
        → IsSearched held files.new (map string_bytes candidates.now) (option_map (λ pair. pair.0) found)) }
    ensures content { IfOk result (λ found. option_map (λ pair. content_at contents.new pair.0.0) found ≡ option_map (λ pair. Some (Some pair.1.value)) found) }
    ensures looks { OnOk result (LooksUp standard names.old files.old contents.old (S.holds src.old) names.new files.new contents.new
        (map string_bytes candidates.now)) }
    ensures stops { IfErr result (ReadsNothing (S.faults src.old) (S.faults src.new)) }

    // at every outcome
    ensures kept { S.holds src.new ≡ S.holds src.old }
    ensures counted { S.faults src.old ≤ S.faults src.new }
    ensures names { Extends names.old names.new }
    ensures files { Extends files.old files.new }
{
    for name in candidates {
        let (file, content) = look_up(alloc, src, names, files, contents, standard, name.as_str())?;
        if let Some(content) = content {
            return Ok(Some((file, content)));
        }
    }
    Ok(None)
}

/// A name, and what its file holds.
fn look_up<S: Source>(
    alloc: Global,
    src: &mut S,
    names: &mut Names,
    files: &mut Files,
    contents: &mut Contents,
    standard: Standard,
    name: &str,
) -> Result<(FileId, Option<Rc<Content>>), Stop>
    requires contents { AreContents standard names.old files.old (S.holds src.old) contents.old }
    ensures named { IfOk result (λ r. slice_get files.new r.0.0 ≡ Some name.now) }
    ensures content { IfOk result (λ r. content_at contents.new r.0.0 ≡ Some (option_map (λ shared. shared.value) r.1)) }
    ensures looks { OnOk result (LooksUp standard names.old files.old contents.old (S.holds src.old) names.new files.new contents.new (name.now ∷ [])) }
    ensures stops { IfErr result (ReadsNothing (S.faults src.old) (S.faults src.new)) }

    // at every outcome
    ensures kept { S.holds src.new ≡ S.holds src.old }
    ensures counted { S.faults src.old ≤ S.faults src.new }
    ensures names { Extends names.old names.new }
    ensures files { Extends files.old files.new }
{
    let file = files.intern(name)?;
    let content = contents.read(alloc, src, names, files, file, standard)?;
    Ok((file, content))
}

/// Adds the configurations that enter a file, which enter none of the parts so far.
fn add_part<C: Conditions>(
    conds: &mut C,
    parts: &mut Vec<Part>,
    cond: Cond,
    file: FileId,
    content: Rc<Content>,
) -> Result<(), OutOfMemory>
    requires own { IsCond (C.sets conds.old) cond.0 }
    requires parts { All (λ part. IsCond (C.sets conds.old) part.cond.0) parts.old.items }
    ensures parts { OnOk result ((contents : Contents) → content_at contents file.0 ≡ Some (Some content.value)
        → ArePartsOf (C.sets conds.old) contents parts.old.items
        → ArePartsOf (C.sets conds.new) contents parts.new.items) }
    ensures once { OnOk result (AreOnce parts.old.items → AreOnce parts.new.items) }
    ensures enters { OnOk result ((c : List ℕ) → IsConfig (C.sets conds.old).arities c → (C.sets conds.old).has cond.0 c ≡ true
        → files_at (C.sets conds.old) parts.old.items c ≡ []
        → files_at (C.sets conds.new) parts.new.items c ≡ file ∷ []) }
    ensures others { OnOk result ((c : List ℕ) → IsConfig (C.sets conds.old).arities c → (C.sets conds.old).has cond.0 c ≡ false
        → files_at (C.sets conds.new) parts.new.items c ≡ files_at (C.sets conds.old) parts.old.items c) }

    // at every outcome
    ensures keeps { Keeps (C.sets conds.old) (C.sets conds.new) }
{
    match index_of(parts, file) {
        Some(index) => {
            parts[index].cond = conds.apply_or(parts[index].cond, cond)?;
            Ok(())
        }
        None => Ok(parts.push(Part {
            cond,
            file,
            content,
        })?),
    }
}

/// The part of a file.
fn index_of(parts: &[Part], file: FileId) -> Option<usize>
    ensures { result ≡ part_of parts.now file.0 }
{
    parts.iter().position(|part| part.file.0 == file.0)
}
