ghost use Rattle.std.specs.Prelude.{◌≡◌, ℕ, ◌<◌, ◌&&◌, ◌++◌, List, All, None, Some, Ok, true, false, length, OnOk, IfErr, IfOk, IfSome, if◌then◌else◌, ◌+◌};
ghost use Rattle.std.specs.Option.{option_map};
ghost use Rattle.sc_base.specs.Seen.{IsHeld, text_at};
ghost use Rattle.sc_base.specs.declared.stop.Stop.TheVariants as stop;
ghost use Rattle.sc_lines.specs.Split.{directive_at};
ghost use Rattle.c11_directives.specs.declared.directive.Directive.TheVariants as kind;
ghost use Rattle.c11_directives.specs.Footprints.{MomentsHave};
ghost use Rattle.c11_directives.specs.Lines.{conditional_in};
ghost use Rattle.c11_directives.specs.Pre.{Context, is_barrier, operand_of, undefined};
ghost use Rattle.sc_base.specs.declared.token.Token as base;
ghost use Rattle.sc_model.specs.declared.cause.Cause.TheVariants.{BadDirective};
ghost use Rattle.sc_model.specs.Sets.{IsCond, Denotes, Keeps};
ghost use Rattle.sc_macro.specs.Reads.{seen_defined};
ghost use Rattle.sc_macro.specs.Seen.{IsHeldDefinition};
ghost use Rattle.sc_model.specs.declared.standard.Standard.{Standard};
ghost use Rattle.sc_model.specs.Growth.{Extends};
ghost use Rattle.sc_prep.specs.Apart.{GathersFrom, StandApart};
ghost use Rattle.sc_prep.specs.Footprints.{ComesAt};
ghost use Rattle.sc_prep.specs.Machine as machine;
ghost use Rattle.sc_prep.specs.Machine.{Decided, Takes, acts, changed_by, changing, defined_as, ends_run, plain_by};
ghost use Rattle.sc_prep.specs.Read.{tokens_read};
ghost use Rattle.sc_prep.specs.Simulates.{Owns, SimulatesStep, StepsBetweenRuns};
ghost use Rattle.sc_lines.specs.Nests.{seen_line};
ghost use Rattle.sc_prep.specs.Printable.{IsPlaced, StaysHeld};
ghost use Rattle.sc_prep.specs.Stages.{IsStored, LineStage, Stage, StopsStage};
ghost use Rattle.sc_prep.specs.Thin.{KeepsShares, SharesWithin, TextShares};
ghost use Rattle.sc_table.specs.Table.{IsTable, IsStill, macros_at};
ghost use Rattle.sc_expand.specs.Stops.{HasConfigs};

use crate::walk::Walk;
use c11_directives::{Conditional, Directive};
use sc_base::{Cause, Cond, Files, Kind, Name, Names, OutOfMemory, Stop, Token};
use sc_lines::Line;
use sc_macro::{DefineStop, Definition, read_define};
use sc_model::Standard;
use sc_presence::Conditions;
use sc_table::MacroTable;
use std::alloc::Global;

impl Walk {
    /// What a line of these tokens does that enters no file.
    #[tactic(auto, using(sc_model::proofs::SetLemmas::conditions))]
    pub fn local_line<C: Conditions>(
        &mut self,
        alloc: Global,
        conds: &mut C,
        names: &mut Names,
        files: &Files,
        limit: usize,
        standard: Standard,
        line: &Line,
        tokens: &[Token],
    ) -> Result<(), Stop>
        requires placed { All (IsPlaced names.old (length files.now)) tokens.now }
        requires directive { line.now.directive ≡ directive_at standard names.old tokens.now }
        requires local { line.now.directive ≡ Some kind.Include → ⊥ }
        requires stored { IsStored (C.sets conds.old) names.old (length files.now) self.old }
        ensures takes { OnOk result ((x : Context) → LineStage files.now names.old (C.sets conds.old) self.old tokens.now
            names.new (C.sets conds.new) self.new (λ config m n. Takes x m (seen_line standard names.old files.now tokens.now) n)) }
        ensures shares { OnOk result (SharesWithin limit files.now names.old (C.sets conds.old) self.old files.now names.new (C.sets conds.new) self.new) }
        ensures text { OnOk result ((HasConfigs (C.sets conds.old).arities (limit + 1) → ⊥) → StandApart tokens.now
            → TextShares files.now names.old (C.sets conds.old) self.old (seen_line standard names.old files.now tokens.now) names.new (C.sets conds.new) self.new) }
        ensures stops { (x : Context) → IfErr result (StopsStage (C.sets conds.old) names.old files.now self.old (tokens_read self.old.runs.read ++ tokens.now)
            (λ config m. MomentsHave (ComesAt x m (seen_line standard names.old files.now tokens.now))) limit) }

        // at every outcome
        ensures keeps { Keeps (C.sets conds.old) (C.sets conds.new) }
        ensures names { Extends names.old names.new }
    {
        match line.conditional() {
            Some(conditional) => {
                self.conditional_line(
                    alloc,
                    conds,
                    names,
                    files,
                    limit,
                    standard,
                    tokens,
                    conditional,
                )
            }
            None => {
                let directive = line.directive;
                self.unconditional_line(
                    alloc, conds, names, files, limit, standard, tokens, directive,
                )
            }
        }
    }

    /// What a line does that is no conditional directive and enters no file.
    #[tactic(auto, using(sc_model::proofs::SetLemmas::conditions))]
    fn unconditional_line<C: Conditions>(
        &mut self,
        alloc: Global,
        conds: &mut C,
        names: &mut Names,
        files: &Files,
        limit: usize,
        standard: Standard,
        line: &[Token],
        directive: Option<Directive>,
    ) -> Result<(), Stop>
        requires placed { All (IsPlaced names.old (length files.now)) line.now }
        requires directive { directive ≡ directive_at standard names.old line.now }
        requires local { (conditional_in directive ≡ None) × (directive ≡ Some kind.Include → ⊥) }
        requires stored { IsStored (C.sets conds.old) names.old (length files.now) self.old }
        ensures takes { OnOk result ((x : Context) → LineStage files.now names.old (C.sets conds.old) self.old line.now names.new (C.sets conds.new) self.new
            (λ config m n. Takes x m (seen_line standard names.old files.now line.now) n)) }
        ensures shares { OnOk result (SharesWithin limit files.now names.old (C.sets conds.old) self.old files.now names.new (C.sets conds.new) self.new) }
        ensures text { OnOk result ((HasConfigs (C.sets conds.old).arities (limit + 1) → ⊥) → StandApart line.now
            → TextShares files.now names.old (C.sets conds.old) self.old (seen_line standard names.old files.now line.now) names.new (C.sets conds.new) self.new) }
        ensures stops { (x : Context) → IfErr result (StopsStage (C.sets conds.old) names.old files.now self.old (tokens_read self.old.runs.read ++ line.now)
            (λ config m. MomentsHave (ComesAt x m (seen_line standard names.old files.now line.now))) limit) }

        // at every outcome
        ensures keeps { Keeps (C.sets conds.old) (C.sets conds.new) }
        ensures names { Extends names.old names.new }
    {
        match barrier_in(directive) {
            Some(barrier) => {
                self.barrier_line(alloc, conds, names, files, limit, standard, line, barrier)
            }
            None => {
                let count = if directive.is_none() { line.len() } else { 0 };
                self.settle_if_due(alloc, conds, names, files, limit, count)?;
                Ok(self.text_line(conds, line, directive)?)
            }
        }
    }

    /// What a directive does that ends the runs, but for `#include`.
    #[tactic(auto, using(sc_model::proofs::SetLemmas::conditions))]
    fn barrier_line<C: Conditions>(
        &mut self,
        alloc: Global,
        conds: &mut C,
        names: &mut Names,
        files: &Files,
        limit: usize,
        standard: Standard,
        line: &[Token],
        directive: Directive,
    ) -> Result<(), Stop>
        requires placed { All (IsPlaced names.old (length files.now)) line.now }
        requires directive { Some directive ≡ directive_at standard names.old line.now }
        requires barrier { (is_barrier directive ≡ true) × (directive ≡ kind.Include → ⊥) }
        requires stored { IsStored (C.sets conds.old) names.old (length files.now) self.old }
        ensures takes { OnOk result ((x : Context) → LineStage files.now names.old (C.sets conds.old) self.old line.now names.new (C.sets conds.new) self.new
            (λ config m n. Takes x m (seen_line standard names.old files.now line.now) n)) }
        ensures shares { OnOk result (SharesWithin limit files.now names.old (C.sets conds.old) self.old files.now names.new (C.sets conds.new) self.new) }
        ensures stops { (x : Context) → IfErr result (StopsStage (C.sets conds.old) names.old files.now self.old (tokens_read self.old.runs.read ++ line.now)
            (λ config m. MomentsHave (ComesAt x m (seen_line standard names.old files.now line.now))) limit) }

        // at every outcome
        ensures keeps { Keeps (C.sets conds.old) (C.sets conds.new) }
        ensures names { Extends names.old names.new }
    {
        self.close_runs(alloc, conds, names, files, limit)?;
        match directive {
            Directive::Line => self.number_line(alloc, conds, names, files, limit, line),
            _ => self.plain_directive(alloc, conds, names, standard, line, directive),
        }
    }

    /// What a conditional directive does.
    #[tactic(auto, using(sc_model::proofs::SetLemmas::conditions))]
    fn conditional_line<C: Conditions>(
        &mut self,
        alloc: Global,
        conds: &mut C,
        names: &mut Names,
        files: &Files,
        limit: usize,
        standard: Standard,
        line: &[Token],
        conditional: Conditional,
    ) -> Result<(), Stop>
        requires placed { All (IsPlaced names.old (length files.now)) line.now }
        requires directive { Some (kind.Conditional conditional) ≡ directive_at standard names.old line.now }
        requires stored { IsStored (C.sets conds.old) names.old (length files.now) self.old }
        ensures decides { OnOk result ((x : Context) → Stage files.now names.old (C.sets conds.old) self.old names.new (C.sets conds.new) self.new
            (λ config m n. Decided x m (seen_line standard names.old files.now line.now) n)) }
        ensures stops { (x : Context) → IfErr result (StopsStage (C.sets conds.old) names.old files.now self.old line.now
            (λ config m. MomentsHave (ComesAt x m (seen_line standard names.old files.now line.now))) limit) }

        // at every outcome
        ensures keeps { Keeps (C.sets conds.old) (C.sets conds.new) }
        ensures names { Extends names.old names.new }
    {
        match conditional {
            Conditional::Opening(test) => {
                self.open_section(alloc, conds, names, files, limit, standard, line, test)
            }
            Conditional::Alternative(test) => {
                self.continue_section(alloc, conds, names, files, limit, standard, line, test)
            }
            Conditional::Else => {
                let always = conds.always();
                Ok(self.begin_branch(conds, always)?)
            }
            Conditional::Endif => Ok(self.end_section(conds)?),
        }
    }

    /// A line that ends no runs. Text is gathered.
    fn text_line<C: Conditions>(
        &mut self,
        conds: &C,
        line: &[Token],
        directive: Option<Directive>,
    ) -> Result<(), OutOfMemory>
        requires owns { Owns (C.sets conds.now) self.old }
        requires mild { ends_run directive ≡ false }
        ensures printable { OnOk result ((names : List (List ℕ)) → StaysHeld names line.now self.old self.new) }
        ensures moved { OnOk result ((standard : Standard) (names : List (List ℕ)) → SimulatesStep names (C.sets conds.now) self.old (C.sets conds.now) self.new
            (λ files config m. plain_by m (seen_line standard names files line.now) directive)) }
        ensures gathers { OnOk result (GathersFrom line.now self.old self.new) }
        ensures shares { OnOk result ((names files : List (List ℕ)) → KeepsShares files names (C.sets conds.now) self.old files names (C.sets conds.now) self.new) }
        ensures text { OnOk result (directive ≡ None → (standard : Standard) (names files : List (List ℕ)) → StandApart line.now
            → TextShares files names (C.sets conds.now) self.old (seen_line standard names files line.now) names (C.sets conds.now) self.new) }
    {
        match directive {
            None => self.put(conds, line),
            Some(_) => Ok(()),
        }
    }

    /// What a directive does, once the runs were closed, that is no conditional one.
    #[tactic(auto, using(sc_model::proofs::SetLemmas::conditions))]
    fn plain_directive<C: Conditions>(
        &mut self,
        alloc: Global,
        conds: &mut C,
        names: &Names,
        standard: Standard,
        line: &[Token],
        directive: Directive,
    ) -> Result<(), Stop>
        requires held { All (IsHeld names.now) line.now }
        requires owns { Owns (C.sets conds.old) self.old }
        requires table { IsTable (C.sets conds.old) names.now self.old.table }
        requires line { 0 < length line.now }
        ensures printable { OnOk result (StaysHeld names.now line.now self.old self.new) }
        ensures moved { OnOk result (StepsBetweenRuns names.now (C.sets conds.old) self.old (C.sets conds.new) self.new
            (λ files config m. plain_by m (seen_line standard names.now files line.now) (Some directive))) }
        ensures memory { IfErr result (λ s. s ≡ stop.OutOfMemory) }
        ensures gathers { OnOk result (GathersFrom line.now self.old self.new) }
        ensures runs { OnOk result (self.new.runs ≡ self.old.runs) }
        ensures list { OnOk result (self.new.prepared.list ≡ self.old.prepared.list) }
        ensures keeps { Keeps (C.sets conds.old) (C.sets conds.new) }
    {
        match directive {
            Directive::Define => self.define(alloc, conds, names, standard, line),
            Directive::Undef => self.undef(conds, names, line),
            Directive::Pragma => Ok(self.pragma(conds, names, line)?),
            _ => self.other_line(conds, line, directive),
        }
    }

    /// A directive that has no effect, or is refused.
    #[tactic(auto, using(sc_model::proofs::SetLemmas::conditions))]
    fn other_line<C: Conditions>(
        &mut self,
        conds: &mut C,
        line: &[Token],
        directive: Directive,
    ) -> Result<(), Stop>
        requires owns { Owns (C.sets conds.old) self.old }
        requires line { 0 < length line.now }
        requires define { directive ≡ kind.Define → ⊥ }
        requires undef { directive ≡ kind.Undef → ⊥ }
        requires pragma { directive ≡ kind.Pragma → ⊥ }
        ensures printable { OnOk result ((names : List (List ℕ)) → StaysHeld names line.now self.old self.new) }
        ensures moved { OnOk result ((standard : Standard) (names : List (List ℕ)) → SimulatesStep names (C.sets conds.old) self.old (C.sets conds.new) self.new
            (λ files config m. plain_by m (seen_line standard names files line.now) (Some directive))) }
        ensures memory { IfErr result (λ s. s ≡ stop.OutOfMemory) }
        ensures runs { OnOk result (self.new.runs ≡ self.old.runs) }
        ensures list { OnOk result (self.new.prepared.list ≡ self.old.prepared.list) }
        ensures keeps { Keeps (C.sets conds.old) (C.sets conds.new) }
    {
        match refusal(directive) {
            Some(cause) => Ok(self.refuse_all(conds, cause, line)?),
            None => Ok(()),
        }
    }

    /// A macro is defined where the line does something, or it is refused.
    #[tactic(auto, using(sc_model::proofs::SetLemmas::conditions))]
    fn define<C: Conditions>(
        &mut self,
        alloc: Global,
        conds: &mut C,
        names: &Names,
        standard: Standard,
        line: &[Token],
    ) -> Result<(), Stop>
        requires held { All (IsHeld names.now) line.now }
        requires owns { Owns (C.sets conds.old) self.old }
        requires table { IsTable (C.sets conds.old) names.now self.old.table }
        requires line { 0 < length line.now }
        ensures printable { OnOk result (StaysHeld names.now line.now self.old self.new) }
        ensures moved { OnOk result (StepsBetweenRuns names.now (C.sets conds.old) self.old (C.sets conds.new) self.new
            (λ files config m. changing m (seen_line standard names.now files line.now) kind.Define
            (changed_by m.state.macros (seen_line standard names.now files line.now) kind.Define))) }
        ensures memory { IfErr result (λ s. s ≡ stop.OutOfMemory) }
        ensures runs { OnOk result (self.new.runs ≡ self.old.runs) }
        ensures list { OnOk result (self.new.prepared.list ≡ self.old.prepared.list) }
        ensures keeps { Keeps (C.sets conds.old) (C.sets conds.new) }
    {
        match read_define(alloc, names, standard, line) {
            Ok(definition) => self.define_macro(conds, names, definition, line),
            Err(DefineStop::Fault(cause)) => Ok(self.refuse_all(conds, cause, line)?),
            Err(DefineStop::OutOfMemory) => Err(Stop::OutOfMemory),
        }
    }

    /// This macro is defined where the line does something, but for where it is defined otherwise.
    #[tactic(auto, using(sc_model::proofs::SetLemmas::conditions))]
    fn define_macro<C: Conditions>(
        &mut self,
        conds: &mut C,
        names: &Names,
        definition: Definition,
        line: &[Token],
    ) -> Result<(), Stop>
        requires held { IsHeldDefinition names.now definition }
        requires owns { Owns (C.sets conds.old) self.old }
        requires table { IsTable (C.sets conds.old) names.now self.old.table }
        requires line { 0 < length line.now }
        ensures printable { OnOk result ((names : List (List ℕ)) → StaysHeld names line.now self.old self.new) }
        ensures moved { OnOk result ((standard : Standard) → StepsBetweenRuns names.now (C.sets conds.old) self.old (C.sets conds.new) self.new
            (λ files config m. changing m (seen_line standard names.now files line.now) kind.Define (defined_as m.state.macros (Ok (seen_defined names.now
            definition))))) }
        ensures memory { IfErr result (λ s. s ≡ stop.OutOfMemory) }
        ensures runs { OnOk result (self.new.runs ≡ self.old.runs) }
        ensures list { OnOk result (self.new.prepared.list ≡ self.old.prepared.list) }
        ensures keeps { Keeps (C.sets conds.old) (C.sets conds.new) }
    {
        let refused = self.table.define(conds, names, definition, self.acting)?;
        self.refuse(conds, refused, Cause::Redefined, line)?;
        Ok(())
    }

    /// A macro is taken back where the line does something, or that is refused.
    #[tactic(auto, using(sc_model::proofs::SetLemmas::conditions))]
    fn undef<C: Conditions>(
        &mut self,
        conds: &mut C,
        names: &Names,
        line: &[Token],
    ) -> Result<(), Stop>
        requires held { All (IsHeld names.now) line.now }
        requires owns { Owns (C.sets conds.old) self.old }
        requires table { IsTable (C.sets conds.old) names.now self.old.table }
        requires line { 0 < length line.now }
        ensures printable { OnOk result ((names : List (List ℕ)) → StaysHeld names line.now self.old self.new) }
        ensures moved { OnOk result ((standard : Standard) → StepsBetweenRuns names.now (C.sets conds.old) self.old (C.sets conds.new) self.new
            (λ files config m. changing m (seen_line standard names.now files line.now) kind.Undef
            (changed_by m.state.macros (seen_line standard names.now files line.now) kind.Undef))) }
        ensures memory { IfErr result (λ s. s ≡ stop.OutOfMemory) }
        ensures runs { OnOk result (self.new.runs ≡ self.old.runs) }
        ensures list { OnOk result (self.new.prepared.list ≡ self.old.prepared.list) }
        ensures keeps { Keeps (C.sets conds.old) (C.sets conds.new) }
    {
        match operand(names, line) {
            None => Ok(self.refuse_all(conds, Cause::BadDirective, line)?),
            Some(name) => self.undef_macro(conds, names, name, line),
        }
    }

    /// The macro of this name is taken back where the line does something, unless it is protected.
    #[tactic(auto, using(sc_model::proofs::SetLemmas::conditions))]
    fn undef_macro<C: Conditions>(
        &mut self,
        conds: &mut C,
        names: &Names,
        name: Name,
        line: &[Token],
    ) -> Result<(), Stop>
        requires held { name.0 < length names.now }
        requires owns { Owns (C.sets conds.old) self.old }
        requires table { IsTable (C.sets conds.old) names.now self.old.table }
        requires line { 0 < length line.now }
        ensures printable { OnOk result ((names : List (List ℕ)) → StaysHeld names line.now self.old self.new) }
        ensures moved { OnOk result ((standard : Standard) → StepsBetweenRuns names.now (C.sets conds.old) self.old (C.sets conds.new) self.new
            (λ files config m. changing m (seen_line standard names.now files line.now) kind.Undef (undefined m.state.macros (Some (text_at names.now
            name.0))))) }
        ensures memory { IfErr result (λ s. s ≡ stop.OutOfMemory) }
        ensures runs { OnOk result (self.new.runs ≡ self.old.runs) }
        ensures list { OnOk result (self.new.prepared.list ≡ self.old.prepared.list) }
        ensures keeps { Keeps (C.sets conds.old) (C.sets conds.new) }
    {
        let refused = self.table.undef(conds, names, name, self.acting)?;
        self.refuse(conds, refused, Cause::ProtectedName, line)?;
        Ok(())
    }
}

/// The directive, where it ends the runs that stand before it.
fn barrier_in(directive: Option<Directive>) -> Option<Directive>
    ensures { result ≡ (if ends_run directive then directive else None) }
{
    match directive {
        None | Some(Directive::Conditional(_) | Directive::Null) => None,
        _ => directive,
    }
}

/// The identifier after the directive's name.
pub fn operand(names: &Names, line: &[Token]) -> Option<Name>
    requires { All (IsHeld names.now) line.now }
    ensures text { (standard : Standard) (files : List (List ℕ)) → option_map (λ n. text_at names.now n.0) result
        ≡ operand_of (seen_line standard names.now files line.now) }
    ensures own { IfSome result (λ n. n.0 < length names.now) }
{
    let _ = names;
    match line {
        [_, _, name, ..] if matches!(name.kind, Kind::Identifier) => Some(name.spelling),
        _ => None,
    }
}

/// Why a directive is refused that changes no macro.
fn refusal(directive: Directive) -> Option<Cause>
    ensures { result ≡ machine.refusal_of directive }
{
    match directive {
        Directive::Error => Some(Cause::ErrorDirective),
        Directive::Include | Directive::Line | Directive::Unknown => Some(Cause::BadDirective),
        _ => None,
    }
}
