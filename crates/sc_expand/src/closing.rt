//! What waits for what follows a list, where nothing follows.
ghost use Rattle.std.specs.Prelude.{◌≡◌, ℕ, ◌<◌, ◌&&◌, not, List, [], ◌∷◌, All, map, take, if◌then◌else◌, IfOk};
ghost use Rattle.sc_expand.specs.Closing.{IsClosed, is_several, unclosed_at};
ghost use Rattle.sc_expand.specs.Having.{tokens_in};
ghost use Rattle.sc_expand.specs.Seen.{failures_at};
ghost use Rattle.sc_expand.specs.Restricted.{IsRestricted};
ghost use Rattle.sc_guarded.specs.Items.{items_at};
ghost use Rattle.sc_hoist.specs.Alike.{AreAlike, AreAlikeFaults, IsAlike};
ghost use Rattle.sc_model.specs.Sets.{Denotes, IsCond, IsConfig, IsNever, Keeps};

use sc_base::{Cause, Cond, Fault, OutOfMemory, Token};
use sc_guarded::{Expanded, Guarded};
use sc_presence::Conditions;
use sc_subst::Hidden;
use std::alloc::Global;

/// Ends lists of tokens that wait, in the configurations of `under`: nothing follows them. A name
/// alone stays, and the call with which a longer list begins is not closed.
pub fn close<C: Conditions>(
    alloc: Global,
    conds: &mut C,
    rest: &Guarded<Hidden>,
    under: Cond,
) -> Result<Expanded, OutOfMemory>
    requires own { All (λ item. IsCond (C.sets conds.old) item.0.0) rest.now }
    requires under_own { IsCond (C.sets conds.old) under.0 }
    ensures closed { IfOk result (IsClosed (C.sets conds.old) (C.sets conds.new) rest.now under.0) }

    // at every outcome
    ensures keeps { Keeps (C.sets conds.old) (C.sets conds.new) }
{
    let several = with_several(conds, rest)?;
    let alone = conds.apply_without(under, several)?;
    let called = conds.apply_and(under, several)?;
    let list = tokens_under(alloc, conds, rest, alone)?;
    let faults = unclosed(alloc, conds, rest, called)?;
    Ok(Expanded { list, faults })
}

/// The configurations that have more than one token.
fn with_several<C: Conditions>(conds: &mut C, list: &Guarded<Hidden>) -> Result<Cond, OutOfMemory>
    requires own { All (λ item. IsCond (C.sets conds.old) item.0.0) list.now }
    ensures several { IfOk result (λ several. Denotes (C.sets conds.new) several.0 (λ c. is_several (items_at (C.sets conds.old) list.now c))) }

    // at every outcome
    ensures keeps { Keeps (C.sets conds.old) (C.sets conds.new) }
{
    let mut some = conds.never();
    let mut several = conds.never();
    for index in 0..list.len() {
        let (has, _) = list.item(index);
        let again = conds.apply_and(has, some)?;
        several = conds.apply_or(several, again)?;
        some = conds.apply_or(some, has)?;
    }
    Ok(several)
}

/// The tokens that the configurations of a condition have.
fn tokens_under<C: Conditions>(
    alloc: Global,
    conds: &mut C,
    list: &Guarded<Hidden>,
    cond: Cond,
) -> Result<Guarded<Token>, OutOfMemory>
    requires own { All (λ item. IsCond (C.sets conds.old) item.0.0) list.now }
    requires cond_own { IsCond (C.sets conds.old) cond.0 }
    ensures restricted { IfOk result (IsRestricted (C.sets conds.new) cond.0 (tokens_in list.now)) }

    // at every outcome
    ensures keeps { Keeps (C.sets conds.old) (C.sets conds.new) }
{
    let mut tokens = Guarded::new(alloc)?;
    for index in 0..list.len() {
        let (has, hidden) = list.item(index);
        let met = conds.apply_and(has, cond)?;
        if !conds.is_never(met) {
            tokens.push(met, hidden.token)?;
        }
    }
    Ok(tokens)
}

/// The faults of configurations whose first token is a name that begins a call without an end.
#[tactic(auto, using(sc_model::proofs::SetLemmas::conditions))]
fn unclosed<C: Conditions>(
    alloc: Global,
    conds: &mut C,
    list: &Guarded<Hidden>,
    cond: Cond,
) -> Result<Vec<Fault>, OutOfMemory>
    requires own { All (λ item. IsCond (C.sets conds.old) item.0.0) list.now }
    requires cond_own { IsCond (C.sets conds.old) cond.0 }
    ensures faults { IfOk result (λ faults. (c : List ℕ) → IsConfig (C.sets conds.old).arities c → failures_at (C.sets conds.new) faults.items c
        ≡ (if (C.sets conds.old).has cond.0 c then map unclosed_at (take 1 (items_at (C.sets conds.old) list.now c)) else [])) }
    ensures alike { IfOk result (λ faults. (c d : List ℕ) → IsConfig (C.sets conds.old).arities c → IsConfig (C.sets conds.old).arities d
        → IsAlike (C.sets conds.old) c d cond → AreAlike (C.sets conds.old) c d list.now → AreAlikeFaults (C.sets conds.new) c d faults.items) }
    ensures own { IfOk result (λ faults. All (λ f. IsCond (C.sets conds.new) f.cond.0) faults.items) }
    ensures some { IfOk result (λ faults. All (λ f. IsNever (C.sets conds.new) f.cond.0 → ⊥) faults.items) }
    ensures placed { IfOk result (λ faults. (files : ℕ) → All (λ item. item.1.token.place.file.0 < files) list.now
        → All (λ f. f.place.file.0 < files) faults.items) }

    // at every outcome
    ensures keeps { Keeps (C.sets conds.old) (C.sets conds.new) }
{
    let mut faults = Vec::new(alloc);
    let mut left = cond;
    for index in 0..list.len() {
        let (has, hidden) = list.item(index);
        let first = conds.apply_and(has, left)?;
        left = conds.apply_without(left, has)?;
        if !conds.is_never(first) {
            faults.push(Fault {
                cond: first,
                cause: Cause::UnterminatedCall,
                place: hidden.token.place,
            })?;
        }
    }
    Ok(faults)
}
