ghost use Rattle.std.specs.Prelude.{◌≡◌, ◌||◌, ℕ, Bool, List, length, map, is_some, IfOk};
ghost use Rattle.sc_merge.specs.Keys.{AreAlike};
ghost use Rattle.sc_merge.specs.Merges.{AddsChoices, AddsPartings, KeepsShown, KeepValues, OwnsSubparser, OwnsValues, Parts};
ghost use Rattle.sc_model.specs.Growth.{Extends};
ghost use Rattle.sc_model.specs.Sets.{Denotes, IsCond, Keeps};
ghost use Rattle.sc_scope.specs.Kinds.{KeepsKinds};
ghost use Rattle.sc_scope.specs.Numbered.{levels_made, HasNumbers};
ghost use Rattle.sc_scope.specs.Search.{OwnsLevels};
ghost use Rattle.sc_scope.specs.Seen.{levels_in};
ghost use Rattle.sc_stack.specs.Entries.{states_of, values_of};

use crate::subparser::{Head, Subparser};
use crate::values::merged_values;
use sc_base::{Cond, OutOfMemory};
use sc_presence::Conditions;
use sc_scope::{Numbers, Scopes};
use sc_stack::Stack;
use sc_tree::Trees;
use std::alloc::Global;

/// One subparser for the configurations of two that have equal keys. Where their trees differ it
/// has choices, and names are bound, under simple conditions that part the two. What it shows in a
/// configuration that both have is not told.
pub fn merge<C: Conditions>(
    alloc: Global,
    conds: &mut C,
    trees: &mut Trees,
    numbers: &mut Numbers,
    a: &Head<'_>,
    b: &Head<'_>,
) -> Result<Subparser, OutOfMemory>
    requires a_own { OwnsSubparser (C.sets conds.old) (length trees.old) a.now }
    requires b_own { OwnsSubparser (C.sets conds.old) (length trees.old) b.now }
    requires a_numbered { HasNumbers numbers.old a.now.scopes }
    requires b_numbered { HasNumbers numbers.old b.now.scopes }
    requires alike { AreAlike a.now b.now }
    requires silent { map is_some (values_of a.now.stack) ≡ map is_some (values_of b.now.stack) }
    ensures own { IfOk result (λ m. OwnsSubparser (C.sets conds.new) (length trees.new) m) }
    ensures cond { IfOk result (λ m. (f g : List ℕ → Bool) → Denotes (C.sets conds.old) a.now.cond.0 f
        → Denotes (C.sets conds.old) b.now.cond.0 g → Denotes (C.sets conds.new) m.cond.0 (λ c. f c || g c)) }
    ensures numbered { IfOk result (λ m. HasNumbers numbers.new m.scopes) }
    ensures alike { IfOk result (λ m. AreAlike a.now m) }
    ensures trees { IfOk result (λ m. map is_some (values_of m.stack) ≡ map is_some (values_of a.now.stack)) }
    ensures first { IfOk result (λ m. KeepsShown (C.sets conds.old) (C.sets conds.new) trees.old trees.new a.now.cond b.now.cond a.now m) }
    ensures second { IfOk result (λ m. KeepsShown (C.sets conds.old) (C.sets conds.new) trees.old trees.new b.now.cond a.now.cond b.now m) }

    // at every outcome
    ensures keeps { Keeps (C.sets conds.old) (C.sets conds.new) }
    ensures adds { AddsPartings (C.sets conds.new) a.now.cond b.now.cond trees.old trees.new }
    ensures grows { Extends trees.old trees.new }
    ensures numbers { Extends (levels_made numbers.old) (levels_made numbers.new) }
{
    let (here, there) = parted(conds, a.cond, b.cond)?;
    let stack = merged_stack(alloc, trees, here, a.stack, there, b.stack)?;
    let scopes = merged_scopes(conds, numbers, here, a.scopes, there, b.scopes)?;
    let cond = conds.apply_or(a.cond, b.cond)?;
    Ok(Subparser {
        cond,
        stack,
        scopes,
        phase: a.phase,
    })
}

/// Conditions by which the trees and names of the one and of the other are told apart. What they
/// say of the configurations that neither has is free, so they are simple.
#[tactic(auto, using(sc_model::proofs::SetLemmas::conditions))]
fn parted<C: Conditions>(conds: &mut C, a: Cond, b: Cond) -> Result<(Cond, Cond), OutOfMemory>
    requires a_own { IsCond (C.sets conds.old) a.0 }
    requires b_own { IsCond (C.sets conds.old) b.0 }
    ensures parts { IfOk result (λ pair. Parts (C.sets conds.new) a b pair.0 pair.1) }

    // at every outcome
    ensures keeps { Keeps (C.sets conds.old) (C.sets conds.new) }
{
    let either = conds.apply_or(a, b)?;
    let there = conds.simplify(b, either)?;
    let here = conds.negate(there)?;
    Ok((here, there))
}

/// The states of both, with the trees on both sides.
fn merged_stack(
    alloc: Global,
    trees: &mut Trees,
    here: Cond,
    left: &Stack,
    there: Cond,
    right: &Stack,
) -> Result<Stack, OutOfMemory>
    requires left_own { OwnsValues (length trees.old) (values_of left.now) }
    requires right_own { OwnsValues (length trees.old) (values_of right.now) }
    requires silent { map is_some (values_of left.now) ≡ map is_some (values_of right.now) }
    ensures own { IfOk result (λ stack. OwnsValues (length trees.new) (values_of stack)) }
    ensures states { IfOk result (λ stack. states_of stack ≡ states_of left.now) }
    ensures left { IfOk result (λ stack. KeepValues trees.old trees.new here there (values_of left.now) (values_of stack)) }
    ensures right { IfOk result (λ stack. KeepValues trees.old trees.new there here (values_of right.now) (values_of stack)) }

    // at every outcome
    ensures adds { AddsChoices here there trees.old trees.new }
    ensures grows { Extends trees.old trees.new }
{
    let left_values = left.values()?;
    let right_values = right.values()?;
    let values = merged_values(alloc, trees, here, &left_values, there, &right_values)?;
    let mut stack = left.share()?;
    stack.merge_values(&values)?;
    Ok(stack)
}

/// The scopes on both sides.
fn merged_scopes<C: Conditions>(
    conds: &mut C,
    numbers: &mut Numbers,
    here: Cond,
    left: &Scopes,
    there: Cond,
    right: &Scopes,
) -> Result<Scopes, OutOfMemory>
    requires here_own { IsCond (C.sets conds.old) here.0 }
    requires there_own { IsCond (C.sets conds.old) there.0 }
    requires left_own { OwnsLevels (C.sets conds.old) (levels_in left.now) }
    requires right_own { OwnsLevels (C.sets conds.old) (levels_in right.now) }
    requires count { length (levels_in left.now) ≡ length (levels_in right.now) }
    requires left_numbered { HasNumbers numbers.old left.now }
    requires right_numbered { HasNumbers numbers.old right.now }
    ensures numbered { IfOk result (λ scopes. HasNumbers numbers.new scopes) }
    ensures own { IfOk result (λ scopes. OwnsLevels (C.sets conds.new) (levels_in scopes)) }
    ensures count { IfOk result (λ scopes. length (levels_in scopes) ≡ length (levels_in left.now)) }
    ensures left { IfOk result (λ scopes. KeepsKinds (C.sets conds.old) (C.sets conds.new) here there (levels_in left.now) (levels_in scopes)) }
    ensures right { IfOk result (λ scopes. KeepsKinds (C.sets conds.old) (C.sets conds.new) there here (levels_in right.now) (levels_in scopes)) }

    // at every outcome
    ensures keeps { Keeps (C.sets conds.old) (C.sets conds.new) }
    ensures numbers { Extends (levels_made numbers.old) (levels_made numbers.new) }
{
    let mut scopes = left.share()?;
    scopes.merge(conds, numbers, here, right, there)?;
    Ok(scopes)
}
