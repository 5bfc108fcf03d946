ghost use Rattle.std.specs.Prelude.{◌≡◌, ℕ, ◌+◌, ◌<◌, ◌≤◌, ◌&&◌, ◌||◌, ◌∷◌, ◌++◌, not, Bool, List, [], Some, None, All, Contains, IfOk, IfSome, OnOk, map, length, if◌then◌else◌};
ghost use Rattle.std.specs.List.{list_any};
ghost use Rattle.std.specs.Option.{option_map};
ghost use Rattle.sc_guarded.specs.Items.{items_at};
ghost use Rattle.sc_macro.specs.Seen.{IsHeldDefinition, seen_definition};
ghost use Rattle.sc_model.specs.Growth.{IsOneToOne};
ghost use Rattle.sc_model.specs.Sets.{IsConfig, IsCond, Denotes, Keeps, IsNever};
ghost use Rattle.sc_table.specs.Change.{Splits, Redefines, FindsSame};
ghost use Rattle.sc_table.specs.Parts.{valued, AreSome, AreParts, AreNamed, seen_all};

use crate::parts::union;
use sc_base::{Cond, OutOfMemory};
use sc_macro::{Definition, same_definition};
use sc_presence::Conditions;
use std::alloc::Global;
use std::rc::Rc;

/// The parts of a name once it is defined in the configurations of `live` that define it not or
/// the same, and the configurations of `live` that define it otherwise.
#[tactic(auto, using(sc_model::proofs::SetLemmas::conditions))]
pub fn redefinition<C: Conditions>(
    alloc: Global,
    conds: &mut C,
    mut parts: Vec<(Cond, Rc<Definition>)>,
    definition: Definition,
    live: Cond,
) -> Result<(Vec<(Cond, Rc<Definition>)>, Cond), OutOfMemory>
    requires parts { AreParts (C.sets conds.old) (valued parts.items) }
    requires live_own { IsCond (C.sets conds.old) live.0 }
    ensures parts { IfOk result (λ r. AreParts (C.sets conds.new) (valued r.0.items)) }
    ensures own { IfOk result (λ r. IsCond (C.sets conds.new) r.1.0) }
    ensures named { IfOk result (λ r. (names : List (List ℕ)) → IsOneToOne names → AreNamed names (valued parts.items) → IsHeldDefinition names definition
        → AreNamed names (valued r.0.items)) }
    ensures meaning { IfOk result (λ r. (names : List (List ℕ)) → IsOneToOne names → AreNamed names (valued parts.items) → IsHeldDefinition names definition
        → (c : List ℕ) → IsConfig (C.sets conds.old).arities c
        → Redefines (seen_definition names definition) (map (seen_definition names) (items_at (C.sets conds.old) (valued parts.items) c))
        ((C.sets conds.old).has live.0 c) ((C.sets conds.new).has r.1.0 c) (map (seen_definition names) (items_at (C.sets conds.new) (valued r.0.items) c))) }

    // at every outcome
    ensures keeps { Keeps (C.sets conds.old) (C.sets conds.new) }
{
    let mine = take_same(conds, &mut parts, &definition);
    let others = union(conds, &parts)?;
    let refused = conds.apply_and(live, others)?;
    let whole = with_free(conds, mine, live, others)?;
    put(alloc, conds, &mut parts, whole, definition)?;
    Ok((parts, refused))
}

/// Takes the part of the same definition out, and gives its configurations.
fn take_same<C: Conditions>(
    conds: &C,
    parts: &mut Vec<(Cond, Rc<Definition>)>,
    definition: &Definition,
) -> Cond
    requires { AreParts (C.sets conds.now) (valued parts.old.items) }
    ensures own { IsCond (C.sets conds.now) result.0 }
    ensures parts { AreParts (C.sets conds.now) (valued parts.new.items) }
    ensures one { (c : List ℕ) → IsConfig (C.sets conds.now).arities c
        → length (items_at (C.sets conds.now) (valued parts.new.items) c) + (if (C.sets conds.now).has result.0 c then 1 else 0) ≤ 1 }
    ensures named { (names : List (List ℕ)) → IsOneToOne names → AreNamed names (valued parts.old.items) → IsHeldDefinition names definition.now
        → AreNamed names (valued parts.new.items) }
    ensures lacks { (names : List (List ℕ)) → IsOneToOne names → AreNamed names (valued parts.old.items) → IsHeldDefinition names definition.now
        → Contains (seen_all names (valued parts.new.items)) (seen_definition names definition.now) → ⊥ }
    ensures splits { (names : List (List ℕ)) → IsOneToOne names → AreNamed names (valued parts.old.items) → IsHeldDefinition names definition.now
        → (c : List ℕ) → IsConfig (C.sets conds.now).arities c
        → Splits (seen_definition names definition.now) (map (seen_definition names) (items_at (C.sets conds.now) (valued parts.old.items) c))
        (map (seen_definition names) (items_at (C.sets conds.now) (valued parts.new.items) c)) ((C.sets conds.now).has result.0 c) }
{
    match same_part(parts, definition) {
        None => conds.never(),
        Some(index) => parts.remove(index).0,
    }
}

/// The index of the part of the same definition.
fn same_part(parts: &[(Cond, Rc<Definition>)], definition: &Definition) -> Option<usize>
    ensures within { IfSome result (λ i. i < length parts.now) }
    ensures found { (names : List (List ℕ)) → IsOneToOne names → AreNamed names (valued parts.now) → IsHeldDefinition names definition.now
        → FindsSame (seen_all names (valued parts.now)) (seen_definition names definition.now) result }
{
    for (index, part) in parts.iter().enumerate() {
        if same_definition(&part.1, definition) {
            return Some(index);
        }
    }
    None
}

/// The configurations of `mine`, and those of `live` without the others.
#[tactic(auto, using(sc_model::proofs::SetLemmas::conditions))]
fn with_free<C: Conditions>(
    conds: &mut C,
    mine: Cond,
    live: Cond,
    others: Cond,
) -> Result<Cond, OutOfMemory>
    requires mine_own { IsCond (C.sets conds.old) mine.0 }
    requires live_own { IsCond (C.sets conds.old) live.0 }
    requires others_own { IsCond (C.sets conds.old) others.0 }
    ensures own { IfOk result (λ r. IsCond (C.sets conds.new) r.0) }
    ensures meaning { IfOk result (λ r. (f g h : List ℕ → Bool) → Denotes (C.sets conds.old) mine.0 f → Denotes (C.sets conds.old) live.0 g
        → Denotes (C.sets conds.old) others.0 h → Denotes (C.sets conds.new) r.0 (λ c. f c || (g c && not (h c)))) }

    // at every outcome
    ensures keeps { Keeps (C.sets conds.old) (C.sets conds.new) }
{
    let taken = conds.apply_without(live, others)?;
    let whole = conds.apply_or(mine, taken)?;
    Ok(whole)
}

/// Adds a definition with its configurations, where there are any.
fn put<C: Conditions>(
    alloc: Global,
    conds: &C,
    parts: &mut Vec<(Cond, Rc<Definition>)>,
    cond: Cond,
    definition: Definition,
) -> Result<(), OutOfMemory>
    requires parts { AreSome (C.sets conds.now) (valued parts.old.items) }
    requires own { IsCond (C.sets conds.now) cond.0 }
    ensures parts { OnOk result (AreSome (C.sets conds.now) (valued parts.new.items)) }
    ensures items { OnOk result ((c : List ℕ) → IsConfig (C.sets conds.now).arities c
        → items_at (C.sets conds.now) (valued parts.new.items) c
        ≡ items_at (C.sets conds.now) (valued parts.old.items) c ++ (if (C.sets conds.now).has cond.0 c then definition ∷ [] else [])) }
    ensures named { OnOk result ((names : List (List ℕ)) → AreNamed names (valued parts.old.items) → IsHeldDefinition names definition
        → (Contains (seen_all names (valued parts.old.items)) (seen_definition names definition) → ⊥) → AreNamed names (valued parts.new.items)) }
{
    if conds.is_never(cond) {
        return Ok(());
    }
    let shared = Rc::new(alloc, definition)?;
    parts.push((cond, shared))?;
    Ok(())
}

/// The parts, and the rest of `cond` with none, where there is one.
#[tactic(auto, using(sc_model::proofs::SetLemmas::conditions))]
pub fn with_rest<C: Conditions>(
    alloc: Global,
    conds: &mut C,
    parts: Vec<(Cond, Rc<Definition>)>,
    cond: Cond,
) -> Result<Vec<(Cond, Option<Rc<Definition>>)>, OutOfMemory>
    requires parts { AreSome (C.sets conds.old) (valued parts.items) }
    requires cond_own { IsCond (C.sets conds.old) cond.0 }
    ensures own { IfOk result (λ all. All (λ part. IsCond (C.sets conds.new) part.0.0) all.items) }
    ensures some { IfOk result (λ all. All (λ part. IsNever (C.sets conds.new) part.0.0 → ⊥) all.items) }
    ensures items { IfOk result (λ all. (names : List (List ℕ)) (c : List ℕ) → IsConfig (C.sets conds.old).arities c
        → map (option_map (λ shared. seen_definition names shared.value)) (items_at (C.sets conds.new) all.items c)
        ≡ map (λ d. Some (seen_definition names d)) (items_at (C.sets conds.old) (valued parts.items) c)
        ++ (if (C.sets conds.old).has cond.0 c && not (list_any (λ part. (C.sets conds.old).has part.0.0 c) (valued parts.items)) then None ∷ [] else [])) }
    ensures differ { IfOk result (λ all. (names : List (List ℕ)) → AreNamed names (valued parts.items)
        → IsOneToOne (map (λ part. option_map (λ shared. seen_definition names shared.value) part.1) all.items)) }
    ensures held { IfOk result (λ all. (names : List (List ℕ)) → AreNamed names (valued parts.items)
        → All (λ part. IfSome part.1 (λ shared. IsHeldDefinition names shared.value)) all.items) }

    // at every outcome
    ensures keeps { Keeps (C.sets conds.old) (C.sets conds.new) }
{
    let all = union(conds, &parts)?;
    let rest = conds.apply_without(cond, all)?;
    let mut answer = with_options(alloc, parts)?;
    if conds.is_never(rest) {
        return Ok(answer);
    }
    answer.push((rest, None))?;
    Ok(answer)
}

/// The parts as those of an answer that may have none.
fn with_options(
    alloc: Global,
    parts: Vec<(Cond, Rc<Definition>)>,
) -> Result<Vec<(Cond, Option<Rc<Definition>>)>, OutOfMemory>
    ensures { IfOk result (λ all. all.items ≡ map (λ part. (part.0, Some part.1)) parts.items) }
{
    let all = parts
        .into_iter()
        .map(|part| (part.0, Some(part.1)))
        .collect(alloc)?;
    Ok(all)
}
