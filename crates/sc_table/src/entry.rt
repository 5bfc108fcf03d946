ghost use Rattle.std.specs.Prelude.{◌≡◌, ℕ, ◌<◌, ◌==◌, ◌&&◌, ◌||◌, Bool, ◌++◌, ◌∷◌, List, [], Contains, length, slice_index, IfOk, IfSome, OnOk, if◌then◌else◌};
ghost use Rattle.std.specs.Option.{option_map, option_to_list};
ghost use Rattle.c11_macros.specs.Macros.{Definition as ModelDefinition};
ghost use Rattle.sc_guarded.specs.Items.{items_at};
ghost use Rattle.sc_macro.specs.Seen.{IsHeldDefinition, seen_definition};
ghost use Rattle.sc_model.specs.Sets.{IsConfig, IsCond, Denotes, Keeps};
ghost use Rattle.sc_table.specs.Parts.{valued, AreSome, AreParts, AreNamed, AreDrawn};
ghost use Rattle.sc_table.specs.Table.{IsMade, IsNamed, AreOptionsNamed, option_at, seen_options, stored_at};

use crate::parts::{add_part, restricted};
use sc_base::{Cond, OutOfMemory};
use sc_macro::Definition;
use sc_presence::Conditions;
use std::alloc::Global;
use std::rc::Rc;

/// What a name is defined to be.
#[derive(Drop)]
pub enum Entry {
    /// The same in every configuration, as at the start.
    Everywhere(Rc<Definition>),
    /// What the option of a variable tells, as at the start. No condition is made for it yet.
    Options {
        variable: usize,
        /// For each option of the variable the place of its definition.
        places: Vec<usize>,
        /// No two are the same.
        definitions: Vec<Option<Rc<Definition>>>,
    },
    /// Different definitions, each with its configurations.
    Parts {
        parts: Vec<(Cond, Rc<Definition>)>,
        /// The configurations of all parts, once they were asked for.
        defined: Option<Cond>,
    },
}

impl Entry {
    /// The definitions, each with its configurations among those of `by`.
    #[tactic(auto, using(sc_model::proofs::SetLemmas::conditions))]
    pub fn parts_in<C: Conditions>(
        &self,
        alloc: Global,
        conds: &mut C,
        by: Cond,
    ) -> Result<Vec<(Cond, Rc<Definition>)>, OutOfMemory>
        requires made { IsMade (C.sets conds.old) self.now }
        requires by_own { IsCond (C.sets conds.old) by.0 }
        ensures parts { IfOk result (λ met. AreParts (C.sets conds.new) (valued met.items)) }
        ensures items { IfOk result (λ met. (c : List ℕ) → IsConfig (C.sets conds.old).arities c
            → items_at (C.sets conds.new) (valued met.items) c
            ≡ (if (C.sets conds.old).has by.0 c then option_to_list (stored_at (C.sets conds.old) self.now c) else [])) }
        ensures named { IfOk result (λ met. (names : List (List ℕ)) → IsNamed names self.now → AreNamed names (valued met.items)) }

        // at every outcome
        ensures keeps { Keeps (C.sets conds.old) (C.sets conds.new) }
    {
        match self {
            Entry::Everywhere(definition) => {
                let mut met = Vec::new(alloc);
                add_part(conds, &mut met, by, by, definition)?;
                Ok(met)
            }
            Entry::Options {
                variable,
                places,
                definitions,
            } => {
                let met = chosen(alloc, conds, *variable, places, definitions, by)?;
                Ok(met)
            }
            Entry::Parts { parts, .. } => {
                let met = restricted(alloc, conds, parts, by)?;
                Ok(met)
            }
        }
    }
}

/// The definitions, each with the configurations of `by` whose option of the variable has its
/// place.
#[tactic(auto, using(sc_model::proofs::SetLemmas::conditions))]
fn chosen<C: Conditions>(
    alloc: Global,
    conds: &mut C,
    variable: usize,
    places: &[usize],
    definitions: &[Option<Rc<Definition>>],
    by: Cond,
) -> Result<Vec<(Cond, Rc<Definition>)>, OutOfMemory>
    requires variable { variable < length (C.sets conds.old).arities }
    requires places { length places.now ≡ slice_index (C.sets conds.old).arities variable }
    requires by_own { IsCond (C.sets conds.old) by.0 }
    ensures parts { IfOk result (λ met. AreSome (C.sets conds.new) (valued met.items)) }
    ensures items { IfOk result (λ met. (c : List ℕ) → IsConfig (C.sets conds.old).arities c
        → items_at (C.sets conds.new) (valued met.items) c
        ≡ (if (C.sets conds.old).has by.0 c then option_to_list (option_at places.now definitions.now (slice_index c variable)) else [])) }
    ensures named { IfOk result (λ met. (names : List (List ℕ)) → AreOptionsNamed names definitions.now → AreNamed names (valued met.items)) }

    // at every outcome
    ensures keeps { Keeps (C.sets conds.old) (C.sets conds.new) }
{
    let mut met = Vec::new(alloc);
    for (place, definition) in definitions.iter().enumerate() {
        let cond = at_place(conds, variable, places, place)?;
        add_option(conds, &mut met, cond, by, definition)?;
    }
    Ok(met)
}

/// The configurations whose option of the variable has this place.
#[tactic(auto, using(sc_model::proofs::SetLemmas::conditions))]
fn at_place<C: Conditions>(
    conds: &mut C,
    variable: usize,
    places: &[usize],
    place: usize,
) -> Result<Cond, OutOfMemory>
    requires variable { variable < length (C.sets conds.old).arities }
    requires places { length places.now ≡ slice_index (C.sets conds.old).arities variable }
    ensures meaning { IfOk result (λ r. Denotes (C.sets conds.new) r.0 (λ c. slice_index places.now (slice_index c variable) == place)) }

    // at every outcome
    ensures keeps { Keeps (C.sets conds.old) (C.sets conds.new) }
{
    let mut cond = conds.never();
    for (option, at) in places.iter().enumerate() {
        cond = with_option(conds, cond, variable, option, *at == place)?;
    }
    Ok(cond)
}

/// The configurations of `cond`, and where it is taken those with this option of the variable.
#[tactic(auto, using(sc_model::proofs::SetLemmas::conditions))]
fn with_option<C: Conditions>(
    conds: &mut C,
    cond: Cond,
    variable: usize,
    option: usize,
    is_taken: bool,
) -> Result<Cond, OutOfMemory>
    requires own { IsCond (C.sets conds.old) cond.0 }
    requires variable { variable < length (C.sets conds.old).arities }
    requires option { option < slice_index (C.sets conds.old).arities variable }
    ensures meaning { IfOk result (λ r. (f : List ℕ → Bool) → Denotes (C.sets conds.old) cond.0 f
        → Denotes (C.sets conds.new) r.0 (λ c. is_taken && (slice_index c variable == option) || f c)) }

    // at every outcome
    ensures keeps { Keeps (C.sets conds.old) (C.sets conds.new) }
{
    if !is_taken {
        return Ok(cond);
    }
    let chosen = conds.choose(variable, option)?;
    let more = conds.apply_or(chosen, cond)?;
    Ok(more)
}

/// Adds a definition, where it is one, with the configurations that both conditions have.
#[tactic(auto, using(sc_model::proofs::SetLemmas::conditions))]
fn add_option<C: Conditions>(
    conds: &mut C,
    parts: &mut Vec<(Cond, Rc<Definition>)>,
    cond: Cond,
    by: Cond,
    definition: &Option<Rc<Definition>>,
) -> Result<(), OutOfMemory>
    requires parts { AreSome (C.sets conds.old) (valued parts.old.items) }
    requires cond_own { IsCond (C.sets conds.old) cond.0 }
    requires by_own { IsCond (C.sets conds.old) by.0 }
    ensures parts { OnOk result (AreSome (C.sets conds.new) (valued parts.new.items)) }
    ensures items { OnOk result ((c : List ℕ) → IsConfig (C.sets conds.old).arities c
        → items_at (C.sets conds.new) (valued parts.new.items) c ≡ items_at (C.sets conds.old) (valued parts.old.items) c
        ++ (if (C.sets conds.old).has cond.0 c && (C.sets conds.old).has by.0 c then option_to_list (option_map (λ shared. shared.value) definition.now) else [])) }
    ensures drawn { OnOk result ((names : List (List ℕ)) (from : List ModelDefinition) → AreDrawn names from (valued parts.old.items)
        → IfSome definition.now (λ shared. IsHeldDefinition names shared.value)
        → IfSome definition.now (λ shared. Contains from (seen_definition names shared.value) → ⊥)
        → AreDrawn names (from ++ seen_options names (definition.now ∷ [])) (valued parts.new.items)) }

    // at every outcome
    ensures keeps { Keeps (C.sets conds.old) (C.sets conds.new) }
{
    match definition {
        None => Ok(()),
        Some(definition) => {
            add_part(conds, parts, cond, by, definition)?;
            Ok(())
        }
    }
}
