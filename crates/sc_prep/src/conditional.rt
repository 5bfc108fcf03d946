//! The sections of conditional directives, and what decides whether a group is taken (C11 6.10.1).
ghost use Rattle.std.specs.Prelude.{◌≡◌, ◌<◌, All, List, ℕ, Some, IfErr, IfOk, OnOk, length, true};
ghost use Rattle.c11_directives.specs.declared.directive.Conditional.TheVariants as conditional;
ghost use Rattle.c11_directives.specs.Footprints.{MomentsHave};
ghost use Rattle.c11_directives.specs.Lines.{conditional_of, test_of};
ghost use Rattle.c11_directives.specs.Pre.{Context};
ghost use Rattle.sc_base.specs.declared.stop.Stop.TheVariants as stop;
ghost use Rattle.sc_base.specs.Seen.{IsHeld, text_at};
ghost use Rattle.sc_lines.specs.Nests.{seen_line};
ghost use Rattle.sc_model.specs.declared.standard.Standard.{Standard};
ghost use Rattle.sc_model.specs.Growth.{Extends};
ghost use Rattle.sc_model.specs.Sets.{Denotes, IsCond, Keeps};
ghost use Rattle.sc_prep.specs.Machine.{Decided, is_taken, name_test, step};
ghost use Rattle.sc_prep.specs.Footprints.{ComesAt};
ghost use Rattle.sc_prep.specs.Printable.{IsHeldWalk, IsPlaced, any_token};
ghost use Rattle.sc_prep.specs.Simulates.{Owns};
ghost use Rattle.sc_prep.specs.Stages.{AskedHas, DecidesTest, IsStored, Stage, StopsStage};
ghost use Rattle.sc_table.specs.Table.{IsStill, IsTable, macros_at};

use crate::directives::operand;
use crate::walk::Walk;
use c11_directives::Test;
use sc_base::{Cause, Cond, Fault, Files, Name, Names, Stop, Token};
use sc_model::Standard;
use sc_presence::Conditions;
use sc_table::MacroTable;
use std::alloc::Global;

impl Walk {
    /// A section begins, whose first branch is taken where the test of this line holds.
    #[tactic(auto, using(sc_model::proofs::SetLemmas::conditions))]
    pub fn open_section<C: Conditions>(
        &mut self,
        alloc: Global,
        conds: &mut C,
        names: &mut Names,
        files: &Files,
        limit: usize,
        standard: Standard,
        line: &[Token],
        test: Test,
    ) -> Result<(), Stop>
        requires placed { All (IsPlaced names.old (length files.now)) line.now }
        requires line { conditional_of (seen_line standard names.old files.now line.now) ≡ Some (conditional.Opening test) }
        requires stored { IsStored (C.sets conds.old) names.old (length files.now) self.old }
        ensures decides { OnOk result ((x : Context) → Stage files.now names.old (C.sets conds.old) self.old names.new (C.sets conds.new) self.new
            (λ config m n. Decided x m (seen_line standard names.old files.now line.now) n)) }
        ensures stops { (x : Context) → IfErr result (StopsStage (C.sets conds.old) names.old files.now self.old line.now
            (λ config m. MomentsHave (ComesAt x m (seen_line standard names.old files.now line.now))) limit) }

        // at every outcome
        ensures keeps { Keeps (C.sets conds.old) (C.sets conds.new) }
        ensures names { Extends names.old names.new }
    {
        let acting = self.acting;
        let taken = self.decide_test(
            alloc, conds, names, files, limit, standard, line, test, acting,
        )?;
        self.begin_section(conds, taken)?;
        Ok(())
    }

    /// The next branch of the innermost section is taken where none was yet and the test of this
    /// line holds.
    #[tactic(auto, using(sc_model::proofs::SetLemmas::conditions))]
    pub fn continue_section<C: Conditions>(
        &mut self,
        alloc: Global,
        conds: &mut C,
        names: &mut Names,
        files: &Files,
        limit: usize,
        standard: Standard,
        line: &[Token],
        test: Test,
    ) -> Result<(), Stop>
        requires placed { All (IsPlaced names.old (length files.now)) line.now }
        requires line { conditional_of (seen_line standard names.old files.now line.now) ≡ Some (conditional.Alternative test) }
        requires stored { IsStored (C.sets conds.old) names.old (length files.now) self.old }
        ensures decides { OnOk result ((x : Context) → Stage files.now names.old (C.sets conds.old) self.old names.new (C.sets conds.new) self.new
            (λ config m n. Decided x m (seen_line standard names.old files.now line.now) n)) }
        ensures stops { (x : Context) → IfErr result (StopsStage (C.sets conds.old) names.old files.now self.old line.now
            (λ config m. MomentsHave (ComesAt x m (seen_line standard names.old files.now line.now))) limit) }

        // at every outcome
        ensures keeps { Keeps (C.sets conds.old) (C.sets conds.new) }
        ensures names { Extends names.old names.new }
    {
        let untaken = self.untaken();
        let taken = self.decide_test(
            alloc, conds, names, files, limit, standard, line, test, untaken,
        )?;
        self.begin_branch(conds, taken)?;
        Ok(())
    }

    /// The configurations of `among` for which the test of this line holds. Those for which it
    /// fails are refused, and those refused before are not asked.
    #[tactic(auto, using(sc_model::proofs::SetLemmas::conditions))]
    fn decide_test<C: Conditions>(
        &mut self,
        alloc: Global,
        conds: &mut C,
        names: &mut Names,
        files: &Files,
        limit: usize,
        standard: Standard,
        line: &[Token],
        test: Test,
        among: Cond,
    ) -> Result<Cond, Stop>
        requires placed { All (IsPlaced names.old (length files.now)) line.now }
        requires line { test_of (seen_line standard names.old files.now line.now) ≡ Some test }
        requires among_own { IsCond (C.sets conds.old) among.0 }
        requires stored { IsStored (C.sets conds.old) names.old (length files.now) self.old }
        ensures decides { IfOk result (λ taken. DecidesTest files.now names.old (C.sets conds.old) self.old names.new (C.sets conds.new) self.new
            (seen_line standard names.old files.now line.now) among.0 taken.0) }
        ensures stops { IfErr result (StopsStage (C.sets conds.old) names.old files.now self.old line.now
            (AskedHas (C.sets conds.old) among.0 (seen_line standard names.old files.now line.now)) limit) }

        // at every outcome
        ensures keeps { Keeps (C.sets conds.old) (C.sets conds.new) }
        ensures names { Extends names.old names.new }
    {
        match test {
            Test::Expression => {
                self.decide_expression(alloc, conds, names, files, limit, standard, line, among)
            }
            Test::Defined => self.decide_name(conds, names, line, true, among),
            Test::Undefined => self.decide_name(conds, names, line, false, among),
        }
    }

    /// The configurations of `among` in which the name of this line is that of a macro, or in which
    /// it is not. Where the line names nothing they are refused.
    #[tactic(auto, using(sc_model::proofs::SetLemmas::conditions))]
    fn decide_name<C: Conditions>(
        &mut self,
        conds: &mut C,
        names: &Names,
        line: &[Token],
        wanted: bool,
        among: Cond,
    ) -> Result<Cond, Stop>
        requires held { All (IsHeld names.now) line.now }
        requires line { 0 < length line.now }
        requires among_own { IsCond (C.sets conds.old) among.0 }
        requires owns { Owns (C.sets conds.old) self.old }
        requires table { IsTable (C.sets conds.old) names.now self.old.table }
        ensures decides { IfOk result (λ taken. (standard : Standard) (files : List (List ℕ))
            → test_of (seen_line standard names.now files line.now) ≡ Some (name_test wanted)
            → All (IsPlaced names.now (length files)) line.now → IsHeldWalk names.now (length files) any_token self.old
            → DecidesTest files names.now (C.sets conds.old) self.old names.now (C.sets conds.new) self.new
            (seen_line standard names.now files line.now) among.0 taken.0) }
        ensures memory { IfErr result (λ s. s ≡ stop.OutOfMemory) }
        ensures keeps { Keeps (C.sets conds.old) (C.sets conds.new) }
    {
        let live = conds.apply_and(among, self.prepared.live)?;
        if conds.is_never(live) {
            return Ok(conds.never());
        }
        match operand(names, line) {
            None => {
                let fault = Fault {
                    cond: live,
                    cause: Cause::BadDirective,
                    place: line[0].place,
                };
                self.refuse_at(conds, fault)?;
                Ok(conds.never())
            }
            Some(name) => {
                let found = taken(conds, names, &mut self.table, name, wanted)?;
                Ok(conds.apply_and(found, live)?)
            }
        }
    }
}

/// The configurations that define this name, or those that don't.
#[tactic(auto, using(sc_model::proofs::SetLemmas::conditions))]
fn taken<C: Conditions>(
    conds: &mut C,
    names: &Names,
    table: &mut MacroTable,
    name: Name,
    wanted: bool,
) -> Result<Cond, Stop>
    requires table { IsTable (C.sets conds.old) names.now table.old }
    requires held { name.0 < length names.now }
    ensures own { IfOk result (λ r. IsCond (C.sets conds.new) r.0) }
    ensures meaning { IfOk result (λ r. Denotes (C.sets conds.new) r.0
        (λ c. is_taken (macros_at (C.sets conds.old) names.now table.old c) wanted (text_at names.now name.0))) }
    ensures memory { IfErr result (λ s. s ≡ stop.OutOfMemory) }

    // at every outcome
    ensures table { IsTable (C.sets conds.new) names.now table.new }
    ensures still { IsStill (C.sets conds.old) (C.sets conds.new) names.now table.old table.new }
    ensures keeps { Keeps (C.sets conds.old) (C.sets conds.new) }
{
    let found = table.defined(conds, names, name)?;
    if wanted {
        Ok(found)
    } else {
        Ok(conds.negate(found)?)
    }
}
