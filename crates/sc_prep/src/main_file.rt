ghost use Rattle.std.specs.Prelude.{◌≡◌, ℕ, ◌<◌, ◌≤◌, ◌&&◌, length, true, List, Some, IfOk, IfErr, OnOk, slice_get};
ghost use Rattle.sc_model.specs.Bytes.{has_no_newline};
ghost use Rattle.sc_model.specs.Growth.{Extends};
ghost use Rattle.sc_model.specs.Outside.{Files as Outside};
ghost use Rattle.c11_directives.specs.Footprints.{FilesHave};
ghost use Rattle.sc_model.specs.Sets.{IsCond, IsConfig, Keeps};
ghost use Rattle.sc_model.specs.Space.{arities_of};
ghost use Rattle.sc_space.specs.Seen.{seen_space};
ghost use Rattle.sc_space.specs.Sound.{IsSound};
ghost use Rattle.sc_prep.specs.Closes.{has_none};
ghost use Rattle.sc_prep.specs.Footprints.{StopsAmong};
ghost use Rattle.sc_prep.specs.Going.{ReadsFiles};
ghost use Rattle.sc_prep.specs.MainFile.{PreparesMain};
ghost use Rattle.sc_prep.specs.New.{IsNew};
ghost use Rattle.sc_prep.specs.Preprocesses.{IsPreparedFrom, OwnsList, Stops};
ghost use Rattle.sc_prep.specs.Printable.{ArePlainPaths, CanBeShown};
ghost use Rattle.sc_prep.specs.Valid.{IsOf};

use crate::content::{Contents, end_place, first_place};
use crate::entry::Entry;
use crate::prepared::Prepared;
use crate::walk::Walk;
use sc_base::{Cause, Cond, Fault, FileId, Files, Names, Stop};
use sc_presence::Conditions;
use sc_source::Source;
use sc_space::Space;
use std::alloc::Global;

/// The tokens and the faults of the main file under the configurations of `live`.
#[tactic(auto, using(sc_model::proofs::SetLemmas::conditions))]
pub fn preprocess<C: Conditions, S: Source>(
    alloc: Global,
    src: &mut S,
    main: &str,
    space: &Space,
    live: Cond,
    conds: &mut C,
    names: &mut Names,
    files: &mut Files,
) -> Result<Prepared, Stop>
    requires space { (C.sets conds.old).arities ≡ arities_of (seen_space space.now) }
    requires sound { IsSound (seen_space space.now) }
    requires live_own { IsCond (C.sets conds.old) live.0 }
    ensures ordinary { IfOk result (λ p. IsPreparedFrom (C.sets conds.old) live.0 (C.sets conds.new) names.new files.new p (seen_space space.now) (S.holds
        src.old) main.now) }
    ensures end_held { IfOk result (λ p. p.end.file.0 < length files.new) }
    ensures live { IfOk result (λ p. (config : List ℕ) → IsConfig (C.sets conds.old).arities config
        → (C.sets conds.new).has p.live.0 config ≡ ((C.sets conds.old).has live.0 config && has_none (C.sets conds.new) p.faults.items config)) }
    ensures owns { IfOk result (OwnsList (C.sets conds.new)) }
    ensures shown { ArePlainPaths files.old → has_no_newline main.now ≡ true → IfOk result (CanBeShown (C.sets conds.new) names.new files.new) }
    ensures stops { IfErr result (Stops (C.sets conds.old).arities (seen_space space.now).branches (S.faults src.old) (S.faults src.new)) }
    ensures footprints { (outside : Outside) → S.holds src.old ≡ Some outside → IfErr result (StopsAmong (IsOf (C.sets conds.old) live.0)
        (FilesHave (seen_space space.now) outside main.now) (seen_space space.now).branches) }

    // at every outcome
    ensures kept { S.holds src.new ≡ S.holds src.old }
    ensures counted { S.faults src.old ≤ S.faults src.new }
    ensures names { Extends names.old names.new }
    ensures files { Extends files.old files.new }
    ensures keeps { Keeps (C.sets conds.old) (C.sets conds.new) }
{
    let file = files.intern(main)?;
    let mut walk = Walk::before_text(alloc, conds, space, names, first_place(file))?;
    walk.walk_main(alloc, space, src, conds, names, files, file, live)?;
    Ok(walk.into_prepared())
}

impl Walk {
    /// The main file is read, and the configurations of `live` walk its lines or are refused.
    #[tactic(auto, using(sc_model::proofs::SetLemmas::conditions))]
    fn walk_main<C: Conditions, S: Source>(
        &mut self,
        alloc: Global,
        space: &Space,
        src: &mut S,
        conds: &mut C,
        names: &mut Names,
        files: &mut Files,
        file: FileId,
        live: Cond,
    ) -> Result<(), Stop>
        requires file { file.0 < length files.old }
        requires end { self.old.prepared.end.file ≡ file }
        requires sound { IsSound (seen_space space.now) }
        requires live_own { IsCond (C.sets conds.old) live.0 }
        requires fresh { IsNew (C.sets conds.old) (seen_space space.now) names.old self.old }
        ensures prepares { (main : List ℕ) → slice_get files.old file.0 ≡ Some main → OnOk result (PreparesMain (C.sets conds.old) live.0 files.old
            (C.sets conds.new) names.new files.new self.new.prepared (seen_space space.now) (S.holds src.old) main) }
        ensures stops { IfErr result (Stops (C.sets conds.old).arities (seen_space space.now).branches (S.faults src.old) (S.faults src.new)) }
        ensures footprints { (outside : Outside) (main : List ℕ) → S.holds src.old ≡ Some outside → slice_get files.old file.0 ≡ Some main
            → IfErr result (StopsAmong (IsOf (C.sets conds.old) live.0) (FilesHave (seen_space space.now) outside main) (seen_space space.now).branches) }

        // at every outcome
        ensures reads { ReadsFiles (S.holds src.old) (S.holds src.new) (S.faults src.old) (S.faults src.new) names.old names.new files.old files.new }
        ensures keeps { Keeps (C.sets conds.old) (C.sets conds.new) }
    {
        let mut contents = Contents::new(alloc);
        let Some(content) = contents.read(alloc, src, names, files, file, space.standard)? else {
            let fault = Fault {
                cond: live,
                cause: Cause::NotFound,
                place: first_place(file),
            };
            self.refuse_at(conds, fault)?;
            self.prepared.live = conds.never();
            return Ok(());
        };
        let entry = Entry { file, depth: 0 };
        self.enter(
            alloc,
            space,
            src,
            conds,
            names,
            files,
            &mut contents,
            entry,
            live,
            &content,
        )?;
        let met = conds.apply_and(self.prepared.live, live)?;
        self.prepared.live = met;
        self.prepared.end = end_place(&content);
        Ok(())
    }
}
