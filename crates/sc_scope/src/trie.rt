ghost use Rattle.std.specs.Prelude.{◌≡◌, ◌++◌, ◌==◌, ℕ, List, IfOk, IsTrue, if◌then◌else◌};
ghost use Rattle.sc_model.specs.Growth.{Extends};
ghost use Rattle.sc_model.specs.Sets.{IsCond, Keeps};
ghost use Rattle.sc_scope.specs.Kept.{at_branch, bindings_of, bindings_at, bindings_after, level_after};
ghost use Rattle.sc_scope.specs.Kinds.{MergesLevel, NarrowsLevel, OwnsLevel};
ghost use Rattle.sc_scope.specs.Levels.{Level};
ghost use Rattle.sc_scope.specs.Numbered.{levels_made, IsNumbered, IsNumberedIfSome};

use crate::bindings::Bindings;
use crate::merge::{merged_bindings, narrowed_bindings};
use crate::numbers::Numbers;
use sc_base::{Cond, OutOfMemory};
use sc_presence::Conditions;
use std::alloc::Global;
use std::rc::Rc;

/// The bindings of the names of one level. Name 0 stands at the root, and the name after `n` on the
/// side of the last bit of `n`, as name `n / 2`. Each part that is not empty has a number.
#[derive(Drop)]
pub(crate) enum Trie {
    Empty,
    Full(usize, Rc<Trie>, Bindings, Rc<Trie>),
}

impl Trie {
    /// Another owner of the same bindings.
    pub(crate) fn share(&self) -> Result<Trie, OutOfMemory>
        ensures bindings { IfOk result (λ trie. (n : ℕ) → bindings_at trie n ≡ bindings_at self.now n) }
        ensures numbered { IfOk result (λ trie. (made : List Level) → IsNumbered made self.now → IsNumbered made trie) }
    {
        match self {
            Trie::Empty => Ok(Trie::Empty),
            Trie::Full(number, left, here, right) => {
                Ok(Trie::Full(*number, left.clone()?, here.share()?, right.clone()?))
            }
        }
    }

    /// The bindings of a name.
    pub(crate) fn get(&self, name: usize) -> Result<Bindings, OutOfMemory>
        ensures { IfOk result (λ bindings. bindings_of bindings ≡ bindings_at self.now name) }
    {
        match self {
            Trie::Empty => Ok(Bindings::Unbound),
            Trie::Full(_, left, here, right) => {
                if name == 0 {
                    here.share()
                } else if (name - 1) % 2 == 0 {
                    left.get((name - 1) / 2)
                } else {
                    right.get((name - 1) / 2)
                }
            }
        }
    }

    /// The same but for one name, which has these bindings.
    pub(crate) fn set(
        &self,
        numbers: &mut Numbers,
        alloc: Global,
        name: usize,
        bindings: Bindings,
    ) -> Result<Trie, OutOfMemory>
        requires { IsNumbered (levels_made numbers.old) self.now }
        ensures bindings { IfOk result (λ trie. (n : ℕ) → bindings_at trie n ≡ (if n == name then bindings_of bindings else bindings_at self.now n)) }
        ensures numbered { IfOk result (λ trie. IsNumbered (levels_made numbers.new) trie) }

        // at every outcome
        ensures grows { Extends (levels_made numbers.old) (levels_made numbers.new) }
    {
        let (left, here, right) = self.parts(alloc)?;
        if name == 0 {
            return numbers.branch(left, bindings, right);
        }
        let half = (name - 1) / 2;
        if (name - 1) % 2 == 0 {
            let left = Rc::new(alloc, left.set(numbers, alloc, half, bindings)?)?;
            numbers.branch(left, here, right)
        } else {
            let right = Rc::new(alloc, right.set(numbers, alloc, half, bindings)?)?;
            numbers.branch(left, here, right)
        }
    }

    fn parts(&self, alloc: Global) -> Result<(Rc<Trie>, Bindings, Rc<Trie>), OutOfMemory>
        ensures bindings { IfOk result (λ parts. (n : ℕ) → at_branch (bindings_at parts.0.value) (bindings_of parts.1) (bindings_at parts.2.value) n ≡ bindings_at self.now n) }
        ensures numbered { IfOk result (λ parts. (made : List Level) → IsNumbered made self.now → IsNumbered made parts.0.value × IsNumbered made parts.2.value) }
    {
        match self {
            Trie::Empty => {
                let left = Rc::new(alloc, Trie::Empty)?;
                let right = Rc::new(alloc, Trie::Empty)?;
                Ok((left, Bindings::Unbound, right))
            }
            Trie::Full(_, left, here, right) => Ok((left.clone()?, here.share()?, right.clone()?)),
        }
    }

    /// The bindings of these names, before those that the names have below.
    pub(crate) fn before(
        &self,
        numbers: &mut Numbers,
        alloc: Global,
        below: &Trie,
    ) -> Result<Trie, OutOfMemory>
        requires numbered { IsNumbered (levels_made numbers.old) self.now }
        requires below_numbered { IsNumbered (levels_made numbers.old) below.now }
        ensures bindings { IfOk result (λ trie. (n : ℕ) → bindings_at trie n ≡ bindings_at self.now n ++ bindings_at below.now n) }
        ensures numbered { IfOk result (λ trie. IsNumbered (levels_made numbers.new) trie) }

        // at every outcome
        ensures grows { Extends (levels_made numbers.old) (levels_made numbers.new) }
    {
        match self {
            Trie::Empty => below.share(),
            Trie::Full(_, left, here, right) => match below {
                Trie::Empty => self.share(),
                Trie::Full(_, left_below, here_below, right_below) => {
                    let left = Rc::new(alloc, left.before(numbers, alloc, left_below)?)?;
                    let here = here.before(alloc, here_below)?;
                    let right = Rc::new(alloc, right.before(numbers, alloc, right_below)?)?;
                    numbers.branch(left, here, right)
                }
            },
        }
    }

    /// Whether both have the same number, or are empty.
    fn same(&self, other: &Trie) -> bool
        ensures { IsTrue result → (made : List Level) → IsNumbered made self.now → IsNumbered made other.now → bindings_at self.now ≡ bindings_at other.now }
    {
        match self {
            Trie::Empty => matches!(other, Trie::Empty),
            Trie::Full(number, _, _, _) => match other {
                Trie::Empty => false,
                Trie::Full(other_number, _, _, _) => *number == *other_number,
            },
        }
    }

    /// The bindings as they are in the configurations of a condition, and none in any other.
    fn narrowed<C: Conditions>(
        &self,
        conds: &mut C,
        numbers: &mut Numbers,
        alloc: Global,
        cond: Cond,
    ) -> Result<Trie, OutOfMemory>
        requires cond_own { IsCond (C.sets conds.old) cond.0 }
        requires own { OwnsLevel (C.sets conds.old) (bindings_at self.now) }
        ensures narrows { IfOk result (λ trie. NarrowsLevel (C.sets conds.old) (C.sets conds.new) cond (bindings_at self.now) (bindings_at trie)) }
        ensures numbered { IfOk result (λ trie. IsNumbered (levels_made numbers.new) trie) }

        // at every outcome
        ensures keeps { Keeps (C.sets conds.old) (C.sets conds.new) }
        ensures grows { Extends (levels_made numbers.old) (levels_made numbers.new) }
    {
        match self {
            Trie::Empty => Ok(Trie::Empty),
            Trie::Full(_, left, here, right) => {
                let left = Rc::new(alloc, left.narrowed(conds, numbers, alloc, cond)?)?;
                let here = narrowed_bindings(conds, alloc, cond, here)?;
                let right = Rc::new(alloc, right.narrowed(conds, numbers, alloc, cond)?)?;
                numbers.branch(left, here, right)
            }
        }
    }

    /// The bindings that a name has in these in the configurations of `here`, and in the others in
    /// those of `there`.
    pub(crate) fn merged<C: Conditions>(
        &self,
        conds: &mut C,
        numbers: &mut Numbers,
        alloc: Global,
        here: Cond,
        other: &Trie,
        there: Cond,
    ) -> Result<Trie, OutOfMemory>
        requires here_own { IsCond (C.sets conds.old) here.0 }
        requires there_own { IsCond (C.sets conds.old) there.0 }
        requires own { OwnsLevel (C.sets conds.old) (bindings_at self.now) }
        requires other_own { OwnsLevel (C.sets conds.old) (bindings_at other.now) }
        requires numbered { IsNumbered (levels_made numbers.old) self.now }
        requires other_numbered { IsNumbered (levels_made numbers.old) other.now }
        ensures merges { IfOk result (λ merged. MergesLevel (C.sets conds.old) (C.sets conds.new) here there
            (bindings_at self.now) (bindings_at other.now) (bindings_at merged)) }
        ensures numbered { IfOk result (λ merged. IsNumbered (levels_made numbers.new) merged) }

        // at every outcome
        ensures keeps { Keeps (C.sets conds.old) (C.sets conds.new) }
        ensures grows { Extends (levels_made numbers.old) (levels_made numbers.new) }
    {
        match self.merge(conds, numbers, alloc, here, other, there)? {
            Some(merged) => Ok(merged),
            None => self.share(),
        }
    }

    /// The bindings that a name has in these in the configurations of `here`, and in the others in
    /// those of `there`, or nothing where these do for both.
    fn merge<C: Conditions>(
        &self,
        conds: &mut C,
        numbers: &mut Numbers,
        alloc: Global,
        here: Cond,
        other: &Trie,
        there: Cond,
    ) -> Result<Option<Trie>, OutOfMemory>
        requires here_own { IsCond (C.sets conds.old) here.0 }
        requires there_own { IsCond (C.sets conds.old) there.0 }
        requires own { OwnsLevel (C.sets conds.old) (bindings_at self.now) }
        requires other_own { OwnsLevel (C.sets conds.old) (bindings_at other.now) }
        requires numbered { IsNumbered (levels_made numbers.old) self.now }
        requires other_numbered { IsNumbered (levels_made numbers.old) other.now }
        ensures merges { IfOk result (λ merged. MergesLevel (C.sets conds.old) (C.sets conds.new) here there
            (bindings_at self.now) (bindings_at other.now) (level_after merged (bindings_at self.now))) }
        ensures numbered { IfOk result (IsNumberedIfSome (levels_made numbers.new)) }

        // at every outcome
        ensures keeps { Keeps (C.sets conds.old) (C.sets conds.new) }
        ensures grows { Extends (levels_made numbers.old) (levels_made numbers.new) }
    {
        if self.same(other) {
            return Ok(None);
        }
        match self {
            Trie::Empty => match other {
                Trie::Empty => Ok(None),
                Trie::Full(..) => Ok(Some(other.narrowed(conds, numbers, alloc, there)?)),
            },
            Trie::Full(_, left, top, right) => match other {
                Trie::Empty => Ok(Some(self.narrowed(conds, numbers, alloc, here)?)),
                Trie::Full(_, other_left, other_top, other_right) => {
                    let new_left = left.merge(conds, numbers, alloc, here, other_left, there)?;
                    let new_top = merged_bindings(conds, alloc, here, top, there, other_top)?;
                    let new_right = right.merge(conds, numbers, alloc, here, other_right, there)?;
                    let changes = Changes {
                        left: new_left,
                        top: new_top,
                        right: new_right,
                    };
                    changes.applied(numbers, alloc, left, top, right)
                }
            },
        }
    }
}

/// What is new of a trie that is not empty.
#[derive(Drop)]
struct Changes {
    left: Option<Trie>,
    top: Option<Bindings>,
    right: Option<Trie>,
}

impl Changes {
    /// The trie after these changes, or nothing where there are none.
    fn applied(
        self,
        numbers: &mut Numbers,
        alloc: Global,
        left: &Rc<Trie>,
        top: &Bindings,
        right: &Rc<Trie>,
    ) -> Result<Option<Trie>, OutOfMemory>
        requires changes { IsNumberedIfSome (levels_made numbers.old) self.left × IsNumberedIfSome (levels_made numbers.old) self.right }
        requires left { IsNumbered (levels_made numbers.old) left.now.value }
        requires right { IsNumbered (levels_made numbers.old) right.now.value }
        ensures bindings { IfOk result (λ after. (n : ℕ) → level_after after (at_branch (bindings_at left.now.value) (bindings_of top.now) (bindings_at right.now.value)) n
            ≡ at_branch (level_after self.left (bindings_at left.now.value)) (bindings_after self.top (bindings_of top.now)) (level_after self.right (bindings_at right.now.value)) n) }
        ensures numbered { IfOk result (IsNumberedIfSome (levels_made numbers.new)) }

        // at every outcome
        ensures grows { Extends (levels_made numbers.old) (levels_made numbers.new) }
    {
        if self.left.is_none() && self.top.is_none() && self.right.is_none() {
            return Ok(None);
        }
        let Changes {
            left: new_left,
            top: new_top,
            right: new_right,
        } = self;
        let left = trie_after(alloc, new_left, left)?;
        let top = bindings_after(new_top, top)?;
        let right = trie_after(alloc, new_right, right)?;
        Ok(Some(numbers.branch(left, top, right)?))
    }
}

fn trie_after(
    alloc: Global,
    change: Option<Trie>,
    before: &Rc<Trie>,
) -> Result<Rc<Trie>, OutOfMemory>
    ensures bindings { IfOk result (λ after. bindings_at after.value ≡ level_after change (bindings_at before.now.value)) }
    ensures numbered { IfOk result (λ after. (made : List Level) → IsNumberedIfSome made change → IsNumbered made before.now.value → IsNumbered made after.value) }
{
    match change {
        Some(trie) => Ok(Rc::new(alloc, trie)?),
        None => Ok(before.clone()?),
    }
}

fn bindings_after(change: Option<Bindings>, before: &Bindings) -> Result<Bindings, OutOfMemory>
    ensures { IfOk result (λ after. bindings_of after ≡ bindings_after change (bindings_of before.now)) }
{
    match change {
        Some(bindings) => Ok(bindings),
        None => before.share(),
    }
}
