ghost use Rattle.std.specs.Prelude.{◌≡◌, [], ◌∷◌, All, List, drop, length, map, IfOk};
ghost use Rattle.sc_model.specs.Growth.{Extends};
ghost use Rattle.sc_model.specs.Sets.{IsCond, Keeps};
ghost use Rattle.sc_scope.specs.Kept.{bindings_at, levels_of};
ghost use Rattle.sc_scope.specs.Kinds.{MergesLevels};
ghost use Rattle.sc_scope.specs.Levels.{Level, bound, joined};
ghost use Rattle.sc_scope.specs.Numbered.{levels_made, AreNumbered, IsNumbered};
ghost use Rattle.sc_scope.specs.Search.{OwnsLevels};

use crate::bindings::Bindings;
use crate::kind::NameKind;
use crate::numbers::Numbers;
use crate::trie::Trie;
use sc_base::{Cond, Name, OutOfMemory};
use sc_presence::Conditions;
use std::alloc::Global;
use std::rc::Rc;

/// The levels of scopes, the top first. What is below a level may have other owners.
pub(crate) enum Levels {
    Bottom,
    Level(Rc<Levels>, Trie),
}

// A loop, since there are as many levels as the text is nested.
impl Drop for Levels {
    fn drop(mut self) {
        loop {
            match self {
                Levels::Bottom => return,
                Levels::Level(below, _) => match Rc::into_inner(below) {
                    Some(levels) => self = levels,
                    None => return,
                },
            }
        }
    }
}

impl Levels {
    /// Another owner of the same levels.
    pub(crate) fn share(&self) -> Result<Levels, OutOfMemory>
        ensures levels { IfOk result (λ levels. levels_of levels ≡ levels_of self.now) }
        ensures numbered { IfOk result (λ levels. (made : List Level) → AreNumbered made self.now → AreNumbered made levels) }
    {
        match self {
            Levels::Bottom => Ok(Levels::Bottom),
            Levels::Level(below, top) => Ok(Levels::Level(below.clone()?, top.share()?)),
        }
    }

    /// The levels below the top.
    pub(crate) fn popped(&self) -> Result<Levels, OutOfMemory>
        ensures levels { IfOk result (λ levels. levels_of levels ≡ drop 1 (levels_of self.now)) }
        ensures numbered { IfOk result (λ levels. (made : List Level) → AreNumbered made self.now → AreNumbered made levels) }
    {
        match self {
            Levels::Bottom => Ok(Levels::Bottom),
            Levels::Level(below, _) => below.share(),
        }
    }

    /// The levels with the bindings of the top before those of the level below, where there is one.
    pub(crate) fn joined(&self, numbers: &mut Numbers, alloc: Global) -> Result<Levels, OutOfMemory>
        requires { AreNumbered (levels_made numbers.old) self.now }
        ensures levels { IfOk result (λ levels. levels_of levels ≡ joined (levels_of self.now)) }
        ensures numbered { IfOk result (λ levels. AreNumbered (levels_made numbers.new) levels) }

        // at every outcome
        ensures grows { Extends (levels_made numbers.old) (levels_made numbers.new) }
    {
        match self {
            Levels::Bottom => Ok(Levels::Bottom),
            Levels::Level(below, top) => match below.as_ref() {
                Levels::Bottom => self.share(),
                Levels::Level(rest, next) => {
                    Ok(Levels::Level(rest.clone()?, top.before(numbers, alloc, next)?))
                }
            },
        }
    }

    /// The levels with one more binding of the name in the top one, where there is one.
    pub(crate) fn bound(
        &self,
        numbers: &mut Numbers,
        alloc: Global,
        name: Name,
        kind: NameKind,
        cond: Cond,
    ) -> Result<Levels, OutOfMemory>
        requires { AreNumbered (levels_made numbers.old) self.now }
        ensures levels { IfOk result (λ levels. levels_of levels ≡ bound name.0 (cond, kind) (levels_of self.now)) }
        ensures numbered { IfOk result (λ levels. AreNumbered (levels_made numbers.new) levels) }

        // at every outcome
        ensures grows { Extends (levels_made numbers.old) (levels_made numbers.new) }
    {
        match self {
            Levels::Bottom => Ok(Levels::Bottom),
            Levels::Level(below, top) => {
                let bindings = top.get(name.0)?.bound(alloc, cond, kind)?;
                let top = top.set(numbers, alloc, name.0, bindings)?;
                Ok(Levels::Level(below.clone()?, top))
            }
        }
    }

    /// As many levels, each as it is in these in the configurations of `here` and as it is in the
    /// others in those of `there`.
    pub(crate) fn merged<C: Conditions>(
        &self,
        conds: &mut C,
        numbers: &mut Numbers,
        alloc: Global,
        here: Cond,
        other: &Levels,
        there: Cond,
    ) -> Result<Levels, OutOfMemory>
        requires here_own { IsCond (C.sets conds.old) here.0 }
        requires there_own { IsCond (C.sets conds.old) there.0 }
        requires own { OwnsLevels (C.sets conds.old) (levels_of self.now) }
        requires other_own { OwnsLevels (C.sets conds.old) (levels_of other.now) }
        requires count { length (levels_of self.now) ≡ length (levels_of other.now) }
        requires numbered { AreNumbered (levels_made numbers.old) self.now }
        requires other_numbered { AreNumbered (levels_made numbers.old) other.now }
        ensures merges { IfOk result (λ levels. MergesLevels (C.sets conds.old) (C.sets conds.new) here there
            (levels_of self.now) (levels_of other.now) (levels_of levels)) }
        ensures numbered { IfOk result (λ levels. AreNumbered (levels_made numbers.new) levels) }

        // at every outcome
        ensures keeps { Keeps (C.sets conds.old) (C.sets conds.new) }
        ensures grows { Extends (levels_made numbers.old) (levels_made numbers.new) }
    {
        let tops = merged_tops(conds, numbers, alloc, here, self, there, other)?;
        stacked(alloc, tops)
    }
}

// The levels are gone through in loops, as many as there may be.

/// Each level as it is on both sides, the top first.
fn merged_tops<C: Conditions>(
    conds: &mut C,
    numbers: &mut Numbers,
    alloc: Global,
    here: Cond,
    left: &Levels,
    there: Cond,
    right: &Levels,
) -> Result<Vec<Trie>, OutOfMemory>
    requires here_own { IsCond (C.sets conds.old) here.0 }
    requires there_own { IsCond (C.sets conds.old) there.0 }
    requires left_own { OwnsLevels (C.sets conds.old) (levels_of left.now) }
    requires right_own { OwnsLevels (C.sets conds.old) (levels_of right.now) }
    requires count { length (levels_of left.now) ≡ length (levels_of right.now) }
    requires left_numbered { AreNumbered (levels_made numbers.old) left.now }
    requires right_numbered { AreNumbered (levels_made numbers.old) right.now }
    ensures merges { IfOk result (λ tops. MergesLevels (C.sets conds.old) (C.sets conds.new) here there
        (levels_of left.now) (levels_of right.now) (map bindings_at tops.items)) }
    ensures numbered { IfOk result (λ tops. All (IsNumbered (levels_made numbers.new)) tops.items) }

    // at every outcome
    ensures keeps { Keeps (C.sets conds.old) (C.sets conds.new) }
    ensures grows { Extends (levels_made numbers.old) (levels_made numbers.new) }
{
    let mut tops = Vec::new(alloc);
    let mut left = left;
    let mut right = right;
    loop {
        match left {
            Levels::Bottom => return Ok(tops),
            Levels::Level(left_below, left_top) => match right {
                Levels::Bottom => return Ok(tops),
                Levels::Level(right_below, right_top) => {
                    let top = left_top.merged(conds, numbers, alloc, here, right_top, there)?;
                    tops.push(top)?;
                    left = left_below;
                    right = right_below;
                }
            },
        }
    }
}

/// These as levels, the first on top.
fn stacked(alloc: Global, tops: Vec<Trie>) -> Result<Levels, OutOfMemory>
    ensures levels { IfOk result (λ levels. levels_of levels ≡ map bindings_at tops.items) }
    ensures numbered { IfOk result (λ levels. (made : List Level) → All (IsNumbered made) tops.items → AreNumbered made levels) }
{
    let mut tops = tops;
    let mut levels = Levels::Bottom;
    while let Some(top) = tops.pop() {
        levels = Levels::Level(Rc::new(alloc, levels)?, top);
    }
    Ok(levels)
}
