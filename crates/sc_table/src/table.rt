ghost use Rattle.sc_model.specs.Growth.{Extends};
ghost use Rattle.sc_model.specs.Sets.{Sets};
ghost use Rattle.sc_model.specs.Space.{arities_of};
ghost use Rattle.sc_space.specs.Seen.{seen_space};
ghost use Rattle.sc_space.specs.Sound.{IsSound};
ghost use Rattle.c11_macros.specs.Macros.{initial_macros};
ghost use Rattle.std.specs.Prelude.{◌≡◌, ℕ, ◌<◌, ◌&&◌, ◌∷◌, ◌↔◌, [], not, true, List, Some, None, All, is_some, length, map, slice_get, IfOk, IfErr, IfSome, OnOk, OnErr, if◌then◌else◌};
ghost use Rattle.std.specs.Option.{option_map, option_to_list};
ghost use Rattle.std.specs.Map.{update};
ghost use Rattle.c11_macros.specs.Defines.{is_protected};
ghost use Rattle.sc_base.specs.declared.stop.Stop.TheVariants as stop;
ghost use Rattle.sc_guarded.specs.Items.{items_at};
ghost use Rattle.sc_macro.specs.Seen.{IsHeldDefinition, seen_definition, text_of};
ghost use Rattle.sc_model.specs.Bytes.{same_bytes};
ghost use Rattle.sc_model.specs.Growth.{IsOneToOne};
ghost use Rattle.sc_model.specs.Sets.{Sets, IsConfig, IsCond, Denotes, Keeps, IsNever};
ghost use Rattle.sc_table.specs.Parts.{valued, AreParts, AreNamed};
ghost use Rattle.sc_table.specs.Change.{IsOther};
ghost use Rattle.sc_table.specs.Table.{IsTable, IsMade, macros_at, IsStill, Puts};

use crate::change::{redefinition, with_rest};
use crate::entry::Entry;
use crate::parts::union;
use crate::start::{add_predefined, add_variables};
use indexmap::IndexMap;
use sc_base::{Cond, Name, Names, OutOfMemory, Stop};
use sc_macro::{Definition, is_protected};
use sc_presence::Conditions;
use sc_space::Space;
use std::alloc::Global;
use std::rc::Rc;

/// The macros of all configurations at once: which names are defined, under which conditions.
///
/// A call that ends in an error leaves the macros of each configuration as they were.
#[derive(Drop)]
pub struct MacroTable {
    pub(crate) entries: IndexMap<Name, Entry>,
}

impl MacroTable {
    /// The macros with which the configurations of a space start (C11 6.10.8.1): those of every
    /// program, and each variable whose option is a number or a text.
    pub fn start(alloc: Global, space: &Space, names: &mut Names) -> Result<MacroTable, OutOfMemory>
        requires sound { IsSound (seen_space space.now) }
        ensures table { IfOk result (λ t. (s : Sets) → s.arities ≡ arities_of (seen_space space.now) → IsTable s names.new t) }
        ensures initial { IfOk result (λ t. (s : Sets) (c text : List ℕ) → s.arities ≡ arities_of (seen_space space.now) → IsConfig s.arities c
            → macros_at s names.new t c text ≡ initial_macros (seen_space space.now) c text) }
        ensures grows { Extends names.old names.new }
    {
        let mut table = MacroTable {
            entries: IndexMap::new(alloc),
        };
        add_variables(alloc, names, &mut table, space.variables.as_slice())?;
        add_predefined(
            alloc,
            names,
            &mut table,
            space.date.as_str(),
            space.time.as_str(),
        )?;
        Ok(table)
    }

    /// Defines a macro in the configurations of `live`, but for those that define it otherwise.
    /// These are the result: there the definition is refused (C11 6.10.3p1, p2).
    #[tactic(auto, using(sc_model::proofs::SetLemmas::conditions, crate::proofs::Growth::tables))]
    pub fn define<C: Conditions>(
        &mut self,
        conds: &mut C,
        names: &Names,
        definition: Definition,
        live: Cond,
    ) -> Result<Cond, Stop>
        requires table { IsTable (C.sets conds.old) names.now self.old }
        requires held { IsHeldDefinition names.now definition }
        requires live_own { IsCond (C.sets conds.old) live.0 }
        ensures own { IfOk result (λ refused. IsCond (C.sets conds.new) refused.0) }
        ensures refused { IfOk result (λ refused. (c : List ℕ) → IsConfig (C.sets conds.old).arities c
            → ((C.sets conds.new).has refused.0 c ≡ true)
            ↔ (((C.sets conds.old).has live.0 c ≡ true) × IsOther (seen_definition names.now definition) (macros_at (C.sets conds.old) names.now self.old c (text_of names.now definition.name)))) }
        ensures defined { IfOk result (λ refused. (c : List ℕ) (text : List ℕ) → IsConfig (C.sets conds.old).arities c
            → macros_at (C.sets conds.new) names.now self.new c text
            ≡ (if (C.sets conds.old).has live.0 c && not ((C.sets conds.new).has refused.0 c)
            then update same_bytes (macros_at (C.sets conds.old) names.now self.old c) (text_of names.now definition.name) (Some (seen_definition names.now definition)) text
            else macros_at (C.sets conds.old) names.now self.old c text)) }
        ensures err { OnErr result (IsStill (C.sets conds.old) (C.sets conds.new) names.now self.old self.new) }
        ensures memory { IfErr result (λ refusal. refusal ≡ stop.OutOfMemory) }

        // at every outcome
        ensures table { IsTable (C.sets conds.new) names.now self.new }
        ensures keeps { Keeps (C.sets conds.old) (C.sets conds.new) }
    {
        names.one_to_one();
        let name = definition.name;
        let parts = self.parts(conds, name, conds.always())?;
        let (parts, refused) = redefinition(
            *self.entries.allocator(),
            conds,
            parts,
            definition,
            live,
        )?;
        self.set(name, parts, None)?;
        Ok(refused)
    }

    /// Takes a macro back in the configurations of `live`. The result is the configurations where
    /// that is refused: those of `live` where the name is protected (C11 6.10.8p2), else none.
    #[tactic(auto, using(sc_model::proofs::SetLemmas::conditions, crate::proofs::Growth::tables))]
    pub fn undef<C: Conditions>(
        &mut self,
        conds: &mut C,
        names: &Names,
        name: Name,
        live: Cond,
    ) -> Result<Cond, Stop>
        requires table { IsTable (C.sets conds.old) names.now self.old }
        requires held { name.0 < length names.now }
        requires live_own { IsCond (C.sets conds.old) live.0 }
        ensures own { IfOk result (λ refused. IsCond (C.sets conds.new) refused.0) }
        ensures refused { IfOk result (λ refused. Denotes (C.sets conds.new) refused.0 (λ c. (C.sets conds.old).has live.0 c && is_protected (text_of names.now name))) }
        ensures removed { OnOk result ((c : List ℕ) (text : List ℕ) → IsConfig (C.sets conds.old).arities c
            → macros_at (C.sets conds.new) names.now self.new c text
            ≡ (if (C.sets conds.old).has live.0 c && not (is_protected (text_of names.now name))
            then update same_bytes (macros_at (C.sets conds.old) names.now self.old c) (text_of names.now name) None text
            else macros_at (C.sets conds.old) names.now self.old c text)) }
        ensures err { OnErr result (IsStill (C.sets conds.old) (C.sets conds.new) names.now self.old self.new) }
        ensures memory { IfErr result (λ refusal. refusal ≡ stop.OutOfMemory) }

        // at every outcome
        ensures table { IsTable (C.sets conds.new) names.now self.new }
        ensures keeps { Keeps (C.sets conds.old) (C.sets conds.new) }
    {
        names.one_to_one();
        if is_protected(names.text(name)) {
            return Ok(live);
        }
        let others = conds.negate(live)?;
        let parts = self.parts(conds, name, others)?;
        self.set(name, parts, None)?;
        Ok(conds.never())
    }

    /// Parts the configurations of `cond` by what the name is defined to be, `None` where it is
    /// not. No two parts have the same definition.
    #[tactic(auto, using(sc_model::proofs::SetLemmas::conditions, crate::proofs::Growth::tables))]
    pub fn lookup<C: Conditions>(
        &self,
        conds: &mut C,
        names: &Names,
        name: Name,
        cond: Cond,
    ) -> Result<Vec<(Cond, Option<Rc<Definition>>)>, Stop>
        requires table { IsTable (C.sets conds.old) names.now self.now }
        requires held { name.0 < length names.now }
        requires cond_own { IsCond (C.sets conds.old) cond.0 }

        // At each configuration of `cond` the parts have one definition or `None`, and elsewhere
        // nothing.
        ensures parts { IfOk result (λ parts. (c : List ℕ) → IsConfig (C.sets conds.old).arities c
            → map (option_map (λ shared. seen_definition names.now shared.value)) (items_at (C.sets conds.new) parts.items c)
            ≡ (if (C.sets conds.old).has cond.0 c then macros_at (C.sets conds.old) names.now self.now c (text_of names.now name) ∷ [] else [])) }
        ensures own { IfOk result (λ parts. All (λ part. IsCond (C.sets conds.new) part.0.0) parts.items) }
        ensures some { IfOk result (λ parts. All (λ part. IsNever (C.sets conds.new) part.0.0 → ⊥) parts.items) }
        ensures differ { IfOk result (λ parts. IsOneToOne (map (λ part. option_map (λ shared. seen_definition names.now shared.value) part.1) parts.items)) }
        ensures held { IfOk result (λ parts. All (λ part. IfSome part.1 (λ shared. IsHeldDefinition names.now shared.value)) parts.items) }
        ensures memory { IfErr result (λ refusal. refusal ≡ stop.OutOfMemory) }

        // at every outcome
        ensures table { IsTable (C.sets conds.new) names.now self.now }
        ensures still { IsStill (C.sets conds.old) (C.sets conds.new) names.now self.now self.now }
        ensures keeps { Keeps (C.sets conds.old) (C.sets conds.new) }
    {
        names.one_to_one();
        let parts = self.parts(conds, name, cond)?;
        Ok(with_rest(*self.entries.allocator(), conds, parts, cond)?)
    }

    /// The configurations that define the name. Where nothing has changed since, the answer is the
    /// one given before.
    #[tactic(auto, using(sc_model::proofs::SetLemmas::conditions, crate::proofs::Growth::tables))]
    pub fn defined<C: Conditions>(
        &mut self,
        conds: &mut C,
        names: &Names,
        name: Name,
    ) -> Result<Cond, Stop>
        requires table { IsTable (C.sets conds.old) names.now self.old }
        requires held { name.0 < length names.now }
        ensures own { IfOk result (λ r. IsCond (C.sets conds.new) r.0) }
        ensures meaning { IfOk result (λ r. Denotes (C.sets conds.new) r.0 (λ c. is_some (macros_at (C.sets conds.old) names.now self.old c (text_of names.now name)))) }
        ensures memory { IfErr result (λ refusal. refusal ≡ stop.OutOfMemory) }

        // at every outcome
        ensures table { IsTable (C.sets conds.new) names.now self.new }
        ensures still { IsStill (C.sets conds.old) (C.sets conds.new) names.now self.old self.new }
        ensures keeps { Keeps (C.sets conds.old) (C.sets conds.new) }
    {
        names.one_to_one();
        if let Some(known) = self.known(name) {
            return Ok(known);
        }
        let parts = self.parts(conds, name, conds.always())?;
        let all = union(conds, &parts)?;
        self.set(name, parts, Some(all))?;
        Ok(all)
    }

    /// The configurations that define the name, where they were asked for since its last change.
    fn known(&self, name: Name) -> Option<Cond>
        ensures { (names : List (List ℕ)) (s : Sets) → IsOneToOne names → IsTable s names self.now → name.0 < length names
            → IfSome result (λ r. Denotes s r.0 (λ c. is_some (macros_at s names self.now c (text_of names name)))) }
    {
        match self.entries.get(&name) {
            Some(Entry::Parts { defined, .. }) => *defined,
            _ => None,
        }
    }

    /// Gives the name these parts.
    fn set(
        &mut self,
        name: Name,
        parts: Vec<(Cond, Rc<Definition>)>,
        defined: Option<Cond>,
    ) -> Result<(), OutOfMemory>
        ensures ok { OnOk result ((s : Sets) (names : List (List ℕ)) → IsOneToOne names → IsTable s names self.old → name.0 < length names → AreParts s (valued parts.items)
            → AreNamed names (valued parts.items) → IfSome defined (λ cond. Denotes s cond.0 (λ c. is_some (slice_get (items_at s (valued parts.items) c) 0)))
            → Puts s names self.old self.new name (valued parts.items)) }
        ensures err { OnErr result (self.new.entries.entries ≡ self.old.entries.entries) }
    {
        self.entries.insert(name, Entry::Parts { parts, defined })?;
        Ok(())
    }

    /// The definitions of a name, each with its configurations among those of `by`.
    fn parts<C: Conditions>(
        &self,
        conds: &mut C,
        name: Name,
        by: Cond,
    ) -> Result<Vec<(Cond, Rc<Definition>)>, OutOfMemory>
        requires made { All (λ e. IsMade (C.sets conds.old) e.1) self.now.entries.entries }
        requires by_own { IsCond (C.sets conds.old) by.0 }
        ensures parts { IfOk result (λ met. AreParts (C.sets conds.new) (valued met.items)) }
        ensures named { (names : List (List ℕ)) → IsOneToOne names → IsTable (C.sets conds.old) names self.now → name.0 < length names
            → IfOk result (λ met. AreNamed names (valued met.items)) }
        ensures items { (names : List (List ℕ)) → IsOneToOne names → IsTable (C.sets conds.old) names self.now → name.0 < length names
            → IfOk result (λ met. (c : List ℕ) → IsConfig (C.sets conds.old).arities c
            → map (seen_definition names) (items_at (C.sets conds.new) (valued met.items) c)
            ≡ (if (C.sets conds.old).has by.0 c then option_to_list (macros_at (C.sets conds.old) names self.now c (text_of names name)) else [])) }

        // at every outcome
        ensures keeps { Keeps (C.sets conds.old) (C.sets conds.new) }
    {
        match self.entries.get(&name) {
            None => Ok(Vec::new(*self.entries.allocator())),
            Some(entry) => {
                let met = entry.parts_in(*self.entries.allocator(), conds, by)?;
                Ok(met)
            }
        }
    }
}
