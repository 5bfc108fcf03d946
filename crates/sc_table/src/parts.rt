ghost use Rattle.std.specs.Prelude.{◌≡◌, ℕ, ◌&&◌, ◌++◌, ◌∷◌, [], List, Contains, IfOk, OnOk, if◌then◌else◌};
ghost use Rattle.std.specs.List.{list_any};
ghost use Rattle.c11_macros.specs.Macros.{Definition as ModelDefinition};
ghost use Rattle.sc_guarded.specs.Items.{items_at};
ghost use Rattle.sc_macro.specs.Seen.{IsHeldDefinition, seen_definition};
ghost use Rattle.sc_model.specs.Sets.{IsConfig, IsCond, Denotes, Keeps};
ghost use Rattle.sc_table.specs.Parts.{valued, AreSome, AreParts, AreNamed, AreDrawn, seen_all};

use sc_base::{Cond, OutOfMemory};
use sc_macro::Definition;
use sc_presence::Conditions;
use std::alloc::Global;
use std::rc::Rc;

/// Adds a definition with the configurations that both conditions have, where there are any.
#[tactic(auto, using(sc_model::proofs::SetLemmas::conditions))]
pub fn add_part<C: Conditions>(
    conds: &mut C,
    parts: &mut Vec<(Cond, Rc<Definition>)>,
    cond: Cond,
    by: Cond,
    definition: &Rc<Definition>,
) -> Result<(), OutOfMemory>
    requires parts { AreSome (C.sets conds.old) (valued parts.old.items) }
    requires cond_own { IsCond (C.sets conds.old) cond.0 }
    requires by_own { IsCond (C.sets conds.old) by.0 }
    ensures parts { OnOk result (AreSome (C.sets conds.new) (valued parts.new.items)) }
    ensures items { OnOk result ((c : List ℕ) → IsConfig (C.sets conds.old).arities c
        → items_at (C.sets conds.new) (valued parts.new.items) c ≡ items_at (C.sets conds.old) (valued parts.old.items) c
        ++ (if (C.sets conds.old).has cond.0 c && (C.sets conds.old).has by.0 c then definition.now.value ∷ [] else [])) }
    ensures drawn { OnOk result ((names : List (List ℕ)) (from : List ModelDefinition) → AreDrawn names from (valued parts.old.items)
        → IsHeldDefinition names definition.now.value → (Contains from (seen_definition names definition.now.value) → ⊥)
        → AreDrawn names (from ++ seen_definition names definition.now.value ∷ []) (valued parts.new.items)) }

    // at every outcome
    ensures keeps { Keeps (C.sets conds.old) (C.sets conds.new) }
{
    let met = conds.apply_and(cond, by)?;
    if conds.is_never(met) {
        return Ok(());
    }
    let shared = definition.clone()?;
    parts.push((met, shared))?;
    Ok(())
}

/// The parts, each with those of its configurations that `by` has, where it has any.
#[tactic(auto, using(sc_model::proofs::SetLemmas::conditions))]
pub fn restricted<C: Conditions>(
    alloc: Global,
    conds: &mut C,
    parts: &[(Cond, Rc<Definition>)],
    by: Cond,
) -> Result<Vec<(Cond, Rc<Definition>)>, OutOfMemory>
    requires parts { AreSome (C.sets conds.old) (valued parts.now) }
    requires by_own { IsCond (C.sets conds.old) by.0 }
    ensures parts { IfOk result (λ met. AreSome (C.sets conds.new) (valued met.items)) }
    ensures items { IfOk result (λ met. (c : List ℕ) → IsConfig (C.sets conds.old).arities c
        → items_at (C.sets conds.new) (valued met.items) c
        ≡ (if (C.sets conds.old).has by.0 c then items_at (C.sets conds.old) (valued parts.now) c else [])) }
    ensures named { IfOk result (λ met. (names : List (List ℕ)) → AreNamed names (valued parts.now) → AreNamed names (valued met.items)) }

    // at every outcome
    ensures keeps { Keeps (C.sets conds.old) (C.sets conds.new) }
{
    let mut met = Vec::new(alloc);
    for part in parts {
        add_part(conds, &mut met, part.0, by, &part.1)?;
    }
    Ok(met)
}

/// The configurations of all parts.
#[tactic(auto, using(sc_model::proofs::SetLemmas::conditions))]
pub fn union<C: Conditions>(
    conds: &mut C,
    parts: &[(Cond, Rc<Definition>)],
) -> Result<Cond, OutOfMemory>
    requires parts { AreSome (C.sets conds.old) (valued parts.now) }
    ensures own { IfOk result (λ r. IsCond (C.sets conds.new) r.0) }
    ensures meaning { IfOk result (λ r. Denotes (C.sets conds.new) r.0 (λ c. list_any (λ part. (C.sets conds.old).has part.0.0 c) (valued parts.now))) }

    // at every outcome
    ensures keeps { Keeps (C.sets conds.old) (C.sets conds.new) }
{
    let mut all = conds.never();
    for part in parts {
        all = conds.apply_or(all, part.0)?;
    }
    Ok(all)
}
