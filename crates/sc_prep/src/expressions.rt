//! The expression of a line under all configurations at once (C11 6.10.1).
ghost use Rattle.std.specs.Prelude.{◌≡◌, ◌<◌, ◌∷◌, ◌&&◌, All, Some, IfErr, IfOk, Result, is_none, length, map, true};
ghost use Rattle.c11_directives.specs.declared.directive.Test.TheVariants.{Expression};
ghost use Rattle.c11_directives.specs.Footprints.{NameHas};
ghost use Rattle.c11_directives.specs.Lines.{test_of};
ghost use Rattle.sc_base.specs.declared.stop.Stop.TheVariants as stop;
ghost use Rattle.sc_base.specs.Seen.{IsHeld, seen};
ghost use Rattle.sc_expand.specs.Stops.{StopsBy};
ghost use Rattle.sc_guarded.specs.Items.{items_at};
ghost use Rattle.sc_if.specs.Parts.{RefusesAt};
ghost use Rattle.sc_lines.specs.Nests.{seen_line};
ghost use Rattle.sc_model.specs.Growth.{Extends};
ghost use Rattle.sc_model.specs.Sets.{IsCond, Keeps};
ghost use Rattle.sc_prep.specs.Apart.{AreDifferent};
ghost use Rattle.sc_prep.specs.Footprints.{StopsWalk, any_machine};
ghost use Rattle.sc_prep.specs.Printable.{ArePlaced, IsPlaced};
ghost use Rattle.sc_prep.specs.Simulates.{Owns};
ghost use Rattle.sc_prep.specs.Stages.{AskedHas, DecidesTest, EvaluatesList, ExpandsText, IsStored, ReplacesDefined, StopsStage, is_asked};
ghost use Rattle.sc_table.specs.Table.{IsTable};

use crate::behind::behind_name;
use crate::walk::Walk;
use sc_base::{Cond, Files, Names, Place, Stop, Token};
use sc_expand::expand;
use sc_guarded::Guarded;
use sc_if::{decide, replace_defined};
use sc_model::Standard;
use sc_presence::Conditions;
use std::alloc::Global;

impl Walk {
    /// The configurations of `among` for which the expression of this line holds. Those for which
    /// it fails are refused, and those refused before are not asked.
    #[tactic(auto, using(sc_model::proofs::SetLemmas::conditions))]
    pub fn decide_expression<C: Conditions>(
        &mut self,
        alloc: Global,
        conds: &mut C,
        names: &mut Names,
        files: &Files,
        limit: usize,
        standard: Standard,
        line: &[Token],
        among: Cond,
    ) -> Result<Cond, Stop>
        requires placed { All (IsPlaced names.old (length files.now)) line.now }
        requires line { test_of (seen_line standard names.old files.now line.now) ≡ Some Expression }
        requires among_own { IsCond (C.sets conds.old) among.0 }
        requires stored { IsStored (C.sets conds.old) names.old (length files.now) self.old }
        ensures decides { IfOk result (λ taken. DecidesTest files.now names.old (C.sets conds.old) self.old names.new (C.sets conds.new) self.new
            (seen_line standard names.old files.now line.now) among.0 taken.0) }
        ensures stops { IfErr result (StopsStage (C.sets conds.old) names.old files.now self.old line.now
            (AskedHas (C.sets conds.old) among.0 (seen_line standard names.old files.now line.now)) limit) }

        // at every outcome
        ensures keeps { Keeps (C.sets conds.old) (C.sets conds.new) }
        ensures names { Extends names.old names.new }
    {
        let live = conds.apply_and(among, self.prepared.live)?;
        if conds.is_never(live) {
            return Ok(conds.never());
        }
        let hash = line[0].place;
        let behind = behind_name(line);
        let replaced = self.replaced(alloc, conds, names, behind, live, hash)?;
        let expanded = self.expanded(alloc, conds, names, files, limit, &replaced, live)?;
        self.evaluated(alloc, conds, names, limit, standard, &expanded, live, hash)
    }

    /// These tokens with each `defined` replaced, in the configurations of `among`. Those in which
    /// it has no name are refused at this place.
    #[tactic(auto, using(sc_model::proofs::SetLemmas::conditions))]
    fn replaced<C: Conditions>(
        &mut self,
        alloc: Global,
        conds: &mut C,
        names: &mut Names,
        text: &[Token],
        among: Cond,
        hash: Place,
    ) -> Result<Guarded<Token>, Stop>
        requires held { All (IsHeld names.old) text.now }
        requires among_own { IsCond (C.sets conds.old) among.0 }
        requires owns { Owns (C.sets conds.old) self.old }
        requires table { IsTable (C.sets conds.old) names.old self.old.table }
        ensures replaces { IfOk result (ReplacesDefined names.old (C.sets conds.old) self.old text.now hash among.0 names.new (C.sets conds.new) self.new) }
        ensures memory { IfErr result (λ s. s ≡ stop.OutOfMemory) }

        // at every outcome
        ensures keeps { Keeps (C.sets conds.old) (C.sets conds.new) }
        ensures names { Extends names.old names.new }
    {
        let live = conds.apply_and(among, self.prepared.live)?;
        let replaced = replace_defined(alloc, conds, names, &mut self.table, text, live, hash)?;
        self.refuse_each(conds, &replaced.faults)?;
        Ok(replaced.list)
    }

    /// What the list expands to in the configurations of `among`. Those in which that fails are
    /// refused.
    #[tactic(auto, using(sc_model::proofs::SetLemmas::conditions))]
    pub fn expanded<C: Conditions>(
        &mut self,
        alloc: Global,
        conds: &mut C,
        names: &mut Names,
        files: &Files,
        limit: usize,
        list: &Guarded<Token>,
        among: Cond,
    ) -> Result<Guarded<Token>, Stop>
        requires list_own { All (λ item. IsCond (C.sets conds.old) item.0.0) list.now }
        requires placed { ArePlaced names.old (length files.now) list.now }
        requires among_own { IsCond (C.sets conds.old) among.0 }
        requires stored { IsStored (C.sets conds.old) names.old (length files.now) self.old }
        ensures expands { IfOk result (ExpandsText files.now names.old (C.sets conds.old) self.old list.now among.0 names.new (C.sets conds.new) self.new) }
        ensures stops { IfErr result (λ stop. StopsBy (C.sets conds.old).arities limit stop × (AreDifferent names.old files.now list.now
            → StopsWalk (C.sets conds.old) names.old files.now self.old any_machine
            (λ config m f. (((C.sets conds.old).has among.0 config && is_none m.fault) ≡ true)
            × NameHas m.state.macros (map (seen names.old files.now) (items_at (C.sets conds.old) list.now config)) f) limit stop)) }

        // at every outcome
        ensures keeps { Keeps (C.sets conds.old) (C.sets conds.new) }
        ensures names { Extends names.old names.new }
    {
        let live = conds.apply_and(among, self.prepared.live)?;
        let expanded = expand(alloc, conds, &self.table, list, live, limit, names, files)?;
        self.refuse_each(conds, &expanded.faults)?;
        Ok(expanded.list)
    }

    /// The configurations of `among` for which what is left of an expression holds. Those for which
    /// it has no value are refused at this place.
    #[tactic(auto, using(sc_model::proofs::SetLemmas::conditions))]
    fn evaluated<C: Conditions>(
        &mut self,
        alloc: Global,
        conds: &mut C,
        names: &Names,
        limit: usize,
        standard: Standard,
        list: &Guarded<Token>,
        among: Cond,
        hash: Place,
    ) -> Result<Cond, Stop>
        requires list_own { All (λ item. IsCond (C.sets conds.old) item.0.0) list.now }
        requires held { All (λ item. IsHeld names.now item.1) list.now }
        requires among_own { IsCond (C.sets conds.old) among.0 }
        requires owns { Owns (C.sets conds.old) self.old }
        requires table { IsTable (C.sets conds.old) names.now self.old.table }
        ensures evaluates { IfOk result (λ taken. EvaluatesList standard names.now (C.sets conds.old) self.old list.now hash among.0
            (C.sets conds.new) self.new taken.0) }
        ensures stops { IfErr result (λ stop. StopsBy (C.sets conds.old).arities limit stop
            × RefusesAt standard (C.sets conds.old) names.now list.now (is_asked (C.sets conds.old) self.old among.0) limit stop) }

        // at every outcome
        ensures keeps { Keeps (C.sets conds.old) (C.sets conds.new) }
    {
        let live = conds.apply_and(among, self.prepared.live)?;
        let decided = decide(alloc, conds, names, list, live, limit, hash, standard)?;
        self.refuse_each(conds, &decided.faults)?;
        Ok(decided.taken)
    }
}
