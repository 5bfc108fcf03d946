ghost use Rattle.std.specs.Prelude.{◌∷◌, [], IfOk};
ghost use Rattle.sc_model.specs.Sets.{IsCond, Keeps};
ghost use Rattle.sc_scope.specs.Kept.{bindings_of, levels_of};
ghost use Rattle.sc_scope.specs.Search.{bindings_in, AreOwn, GoesOn};

use crate::bindings::Bindings;
use crate::kind::NameKind;
use crate::levels::Levels;
use sc_base::{Cond, Name, OutOfMemory};
use sc_presence::Conditions;

/// A search for the first binding of a name in all configurations of a condition: those that have
/// none yet, and those where it is a typedef.
#[derive(Clone, Copy)]
pub(crate) struct Search {
    pub(crate) left: Cond,
    pub(crate) types: Cond,
}

/// Goes over the bindings of the name in all levels.
pub(crate) fn search_levels<C: Conditions>(
    conds: &mut C,
    search: Search,
    levels: &Levels,
    name: Name,
) -> Result<Search, OutOfMemory>
    requires left { IsCond (C.sets conds.old) search.left.0 }
    requires types { IsCond (C.sets conds.old) search.types.0 }
    requires own { AreOwn (C.sets conds.old) (bindings_in name.0 (levels_of levels.now)) }
    ensures found { IfOk result (λ after. GoesOn (C.sets conds.old) (C.sets conds.new) search after (bindings_in name.0 (levels_of levels.now)) []) }

    // at every outcome
    ensures keeps { Keeps (C.sets conds.old) (C.sets conds.new) }
{
    let mut search = search;
    let mut levels = levels;
    while let Levels::Level(below, top) = levels {
        if conds.is_never(search.left) {
            return Ok(search);
        }
        let bindings = top.get(name.0)?;
        search = search_bindings(conds, search, &bindings)?;
        levels = below;
    }
    Ok(search)
}

/// Goes over the bindings of the name in one level.
pub(crate) fn search_bindings<C: Conditions>(
    conds: &mut C,
    search: Search,
    bindings: &Bindings,
) -> Result<Search, OutOfMemory>
    requires left { IsCond (C.sets conds.old) search.left.0 }
    requires types { IsCond (C.sets conds.old) search.types.0 }
    requires own { AreOwn (C.sets conds.old) (bindings_of bindings.now) }
    ensures found { IfOk result (λ after. GoesOn (C.sets conds.old) (C.sets conds.new) search after (bindings_of bindings.now) []) }

    // at every outcome
    ensures keeps { Keeps (C.sets conds.old) (C.sets conds.new) }
{
    let mut search = search;
    let mut bindings = bindings;
    while let Bindings::Bound(older, cond, kind) = bindings {
        if conds.is_never(search.left) {
            return Ok(search);
        }
        search = take(conds, search, *cond, *kind)?;
        bindings = older;
    }
    Ok(search)
}

/// Goes over one binding.
fn take<C: Conditions>(
    conds: &mut C,
    search: Search,
    cond: Cond,
    kind: NameKind,
) -> Result<Search, OutOfMemory>
    requires left { IsCond (C.sets conds.old) search.left.0 }
    requires types { IsCond (C.sets conds.old) search.types.0 }
    requires own { IsCond (C.sets conds.old) cond.0 }
    ensures found { IfOk result (λ after. GoesOn (C.sets conds.old) (C.sets conds.new) search after ((cond, kind) ∷ []) []) }

    // at every outcome
    ensures keeps { Keeps (C.sets conds.old) (C.sets conds.new) }
{
    match kind {
        NameKind::Typedef => take_typedef(conds, search, cond),
        NameKind::Variable => take_variable(conds, search, cond),
    }
}

fn take_typedef<C: Conditions>(
    conds: &mut C,
    search: Search,
    cond: Cond,
) -> Result<Search, OutOfMemory>
    requires left { IsCond (C.sets conds.old) search.left.0 }
    requires types { IsCond (C.sets conds.old) search.types.0 }
    requires own { IsCond (C.sets conds.old) cond.0 }
    ensures found { IfOk result (λ after. GoesOn (C.sets conds.old) (C.sets conds.new) search after ((cond, NameKind.Typedef) ∷ []) []) }

    // at every outcome
    ensures keeps { Keeps (C.sets conds.old) (C.sets conds.new) }
{
    let part = conds.apply_and(search.left, cond)?;
    let types = conds.apply_or(search.types, part)?;
    let left = conds.apply_without(search.left, cond)?;
    Ok(Search { left, types })
}

fn take_variable<C: Conditions>(
    conds: &mut C,
    search: Search,
    cond: Cond,
) -> Result<Search, OutOfMemory>
    requires left { IsCond (C.sets conds.old) search.left.0 }
    requires types { IsCond (C.sets conds.old) search.types.0 }
    requires own { IsCond (C.sets conds.old) cond.0 }
    ensures found { IfOk result (λ after. GoesOn (C.sets conds.old) (C.sets conds.new) search after ((cond, NameKind.Variable) ∷ []) []) }

    // at every outcome
    ensures keeps { Keeps (C.sets conds.old) (C.sets conds.new) }
{
    let left = conds.apply_without(search.left, cond)?;
    Ok(Search {
        left,
        types: search.types,
    })
}
