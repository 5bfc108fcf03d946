//! What a name stands for in the configurations of two conditions, each with its own bindings.

ghost use Rattle.std.specs.Prelude.{IfOk};
ghost use Rattle.sc_model.specs.Sets.{IsCond, Keeps};
ghost use Rattle.sc_scope.specs.Kept.{bindings_of, bindings_after};
ghost use Rattle.sc_scope.specs.Kinds.{AddsKind, AreEither, AreKinds, AreOfKinds, ArePartsOf, MergesBindings, NarrowsBindings};
ghost use Rattle.sc_scope.specs.Search.{AreOwn};

use crate::bindings::Bindings;
use crate::kind::NameKind;
use crate::search::{Search, search_bindings};
use sc_base::{Cond, OutOfMemory};
use sc_presence::Conditions;
use std::alloc::Global;

/// The configurations in which a name is a variable, and those in which it is a typedef.
#[derive(Clone, Copy)]
pub(crate) struct Kinds {
    variables: Cond,
    types: Cond,
}

/// The bindings on both sides as one list, or nothing where the left side's do for both.
pub(crate) fn merged_bindings<C: Conditions>(
    conds: &mut C,
    alloc: Global,
    here: Cond,
    left: &Bindings,
    there: Cond,
    right: &Bindings,
) -> Result<Option<Bindings>, OutOfMemory>
    requires here_own { IsCond (C.sets conds.old) here.0 }
    requires there_own { IsCond (C.sets conds.old) there.0 }
    requires left_own { AreOwn (C.sets conds.old) (bindings_of left.now) }
    requires right_own { AreOwn (C.sets conds.old) (bindings_of right.now) }
    ensures merges { IfOk result (λ merged. MergesBindings (C.sets conds.old) (C.sets conds.new) here there
        (bindings_of left.now) (bindings_of right.now) (bindings_after merged (bindings_of left.now))) }

    // at every outcome
    ensures keeps { Keeps (C.sets conds.old) (C.sets conds.new) }
{
    if left.same(right) {
        return Ok(None);
    }
    let left = kinds_under(conds, here, left)?;
    let right = kinds_under(conds, there, right)?;
    let both = either(conds, left, right)?;
    Ok(Some(bindings_of_kinds(conds, alloc, both)?))
}

/// The bindings as they are in the configurations of a condition, and none in any other.
pub(crate) fn narrowed_bindings<C: Conditions>(
    conds: &mut C,
    alloc: Global,
    cond: Cond,
    bindings: &Bindings,
) -> Result<Bindings, OutOfMemory>
    requires cond_own { IsCond (C.sets conds.old) cond.0 }
    requires own { AreOwn (C.sets conds.old) (bindings_of bindings.now) }
    ensures narrows { IfOk result (λ narrowed. NarrowsBindings (C.sets conds.old) (C.sets conds.new) cond
        (bindings_of bindings.now) (bindings_of narrowed)) }

    // at every outcome
    ensures keeps { Keeps (C.sets conds.old) (C.sets conds.new) }
{
    let kinds = kinds_under(conds, cond, bindings)?;
    bindings_of_kinds(conds, alloc, kinds)
}

/// The parts of a condition in which the first binding is a variable's and in which a typedef's.
fn kinds_under<C: Conditions>(
    conds: &mut C,
    cond: Cond,
    bindings: &Bindings,
) -> Result<Kinds, OutOfMemory>
    requires cond_own { IsCond (C.sets conds.old) cond.0 }
    requires own { AreOwn (C.sets conds.old) (bindings_of bindings.now) }
    ensures parts { IfOk result (λ kinds. ArePartsOf (C.sets conds.old) (C.sets conds.new) cond (bindings_of bindings.now) kinds) }

    // at every outcome
    ensures keeps { Keeps (C.sets conds.old) (C.sets conds.new) }
{
    let search = Search {
        left: cond,
        types: conds.never(),
    };
    let found = search_bindings(conds, search, bindings)?;
    let others = conds.apply_or(found.left, found.types)?;
    let variables = conds.apply_without(cond, others)?;
    Ok(Kinds {
        variables,
        types: found.types,
    })
}

/// The kinds on either side.
fn either<C: Conditions>(conds: &mut C, a: Kinds, b: Kinds) -> Result<Kinds, OutOfMemory>
    requires a { AreKinds (C.sets conds.old) a }
    requires b { AreKinds (C.sets conds.old) b }
    ensures either { IfOk result (λ both. AreEither (C.sets conds.old) (C.sets conds.new) a b both) }

    // at every outcome
    ensures keeps { Keeps (C.sets conds.old) (C.sets conds.new) }
{
    let variables = conds.apply_or(a.variables, b.variables)?;
    let types = conds.apply_or(a.types, b.types)?;
    Ok(Kinds { variables, types })
}

/// The bindings of a name that has these kinds.
fn bindings_of_kinds<C: Conditions>(
    conds: &C,
    alloc: Global,
    kinds: Kinds,
) -> Result<Bindings, OutOfMemory>
    requires { AreKinds (C.sets conds.now) kinds }
    ensures { IfOk result (λ bindings. AreOfKinds (C.sets conds.now) kinds (bindings_of bindings)) }
{
    let types = bound_under(
        conds,
        alloc,
        Bindings::Unbound,
        kinds.types,
        NameKind::Typedef,
    )?;
    bound_under(conds, alloc, types, kinds.variables, NameKind::Variable)
}

/// The bindings with one that is newer, if its condition has a configuration.
fn bound_under<C: Conditions>(
    conds: &C,
    alloc: Global,
    older: Bindings,
    cond: Cond,
    kind: NameKind,
) -> Result<Bindings, OutOfMemory>
    requires cond_own { IsCond (C.sets conds.now) cond.0 }
    requires own { AreOwn (C.sets conds.now) (bindings_of older) }
    ensures { IfOk result (λ bindings. AddsKind (C.sets conds.now) cond kind (bindings_of older) (bindings_of bindings)) }
{
    if conds.is_never(cond) {
        return Ok(older);
    }
    older.bound(alloc, cond, kind)
}
