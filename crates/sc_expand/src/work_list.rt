ghost use Rattle.std.specs.Prelude.{◌≡◌, ◌^◌, ◌<◌, ◌≤◌, ◌++◌, List, All, map, drop, length, slice_get, Some, IfSome, OnOk};
ghost use Rattle.sc_expand.specs.WorkLists.{DropsAlike, KeepsItems, RestrictsFirst, items_left, items_of};
ghost use Rattle.sc_model.specs.Sets.{IsCond, Keeps};

use crate::source::{Behind, Rest, Source};
use sc_base::{Cond, OutOfMemory, Token};
use sc_hoist::TokenList;
use sc_presence::Conditions;
use sc_subst::{Hidden, Tokens};
use std::alloc::Global;
use std::collections::VecDeque;
use std::marker::Model;

/// The tokens that are still to be expanded, each under a condition. The list is used at its first
/// token, and what replaces a name is put in front, so what stands behind is never moved.
#[derive(Drop)]
pub struct WorkList {
    /// Tokens each of which has a condition of its own.
    front: VecDeque<(Cond, Hidden)>,
    behind: Behind,
}

impl Model for WorkList {
    ghost use Rattle.std.specs.Prelude.{◌++◌, List};
    ghost use Rattle.sc_base.specs.declared.id.Cond.{Cond};
    ghost use Rattle.sc_expand.specs.WorkLists.{items_behind};
    ghost use Rattle.sc_subst.specs.declared.hidden.Hidden.{Hidden};

    ghost Value = { List (Cond × Hidden) };

    ghost view = { λ list. list.front.items ++ items_behind list.behind };
}

impl WorkList {
    /// These tokens, all under one condition.
    pub fn of(alloc: Global, cond: Cond, tokens: Tokens) -> WorkList
        ensures { result ≡ map (λ t. (cond, t)) tokens }
    {
        WorkList {
            front: VecDeque::new(alloc),
            behind: Behind::Argument(Rest {
                tokens,
                cond,
                restricted: 0,
                by: cond,
            }),
        }
    }

    /// The tokens of the whole list.
    pub fn over(alloc: Global, items: Vec<(Cond, Hidden)>) -> WorkList
        ensures { result ≡ items.items }
    {
        WorkList {
            front: VecDeque::new(alloc),
            behind: Behind::Source(Source { items, next: 0 }),
        }
    }

    /// The tokens, where it is known that all stand under this condition itself.
    pub fn all_under(&self, cond: Cond) -> Option<&Tokens>
        ensures { IfSome result (λ tokens. self.now ≡ map (λ t. (cond, t)) tokens.now) }
    {
        match &self.behind {
            Behind::Argument(rest) => {
                if self.front.is_empty() && rest.restricted == 0 && rest.cond == cond {
                    return Some(&rest.tokens);
                }
                None
            }
            Behind::Source(_) => None,
        }
    }

    /// The number of tokens.
    pub fn len(&self) -> usize
        ensures { result ≡ length self.now }
    {
        self.front.len() + self.behind.len()
    }

    /// A list has no more tokens than an index can tell.
    pub fn is_small(&self)
        ensures { length self.now < 2 ^ 64 }
    {
        let _ = self.len();
    }

    /// The token of an index, with its condition.
    pub fn item(&self, index: usize) -> (Cond, Hidden)
        requires { index < length self.now }
        ensures { slice_get self.now index ≡ Some result }
    {
        let count = self.front.len();
        if index < count {
            return self.front[index];
        }
        self.behind.item(index - count)
    }

    /// The first token.
    pub fn first(&self) -> Option<(Cond, Hidden)>
        ensures { result ≡ slice_get self.now 0 }
    {
        if self.len() == 0 {
            return None;
        }
        Some(self.item(0))
    }

    /// Takes the first token away. A list that has become empty gives its memory back, since a
    /// list for each argument of a deep nest of calls is kept.
    pub fn drop_first(&mut self)
        ensures { self.new ≡ drop 1 self.old }
    {
        if self.front.pop_front().is_some() {
            if self.front.is_empty() {
                self.front.shrink_to_fit();
            }
        } else {
            self.behind.drop_first();
        }
    }

    /// Takes the first token away, and those behind it that were restricted with it.
    pub fn drop_alike(&mut self)
        ensures { DropsAlike self.old self.new }
    {
        if self.front.is_empty() {
            self.behind.drop_alike();
        } else {
            self.drop_first();
        }
    }

    /// Puts tokens in front of the others.
    pub fn put_first(&mut self, tokens: &[(Cond, Hidden)]) -> Result<(), OutOfMemory>
        ensures { OnOk result (self.new ≡ tokens.now ++ self.old) }
    {
        for index in (0..tokens.len()).rev() {
            self.front.push_front(tokens[index])?;
        }
        Ok(())
    }

    /// Restricts so many tokens from the first on to the configurations that `by` has.
    pub fn restrict_before<C: Conditions>(
        &mut self,
        conds: &mut C,
        count: usize,
        by: Cond,
    ) -> Result<(), OutOfMemory>
        requires count { count ≤ length self.old }
        requires own { All (λ item. IsCond (C.sets conds.old) item.0.0) self.old }
        requires by_own { IsCond (C.sets conds.old) by.0 }
        ensures restricts { OnOk result (RestrictsFirst (C.sets conds.old) (C.sets conds.new) by.0 count self.old self.new) }

        // at every outcome
        ensures items { KeepsItems (C.sets conds.new) self.old self.new }
        ensures keeps { Keeps (C.sets conds.old) (C.sets conds.new) }
    {
        match &mut self.behind {
            Behind::Argument(rest) => restrict_argument(conds, &mut self.front, rest, count, by),
            Behind::Source(source) => restrict_source(conds, &mut self.front, source, count, by),
        }
    }
}

/// Restricts so many of the tokens in front of a rest, and then of the rest.
fn restrict_argument<C: Conditions>(
    conds: &mut C,
    front: &mut VecDeque<(Cond, Hidden)>,
    rest: &mut Rest,
    count: usize,
    by: Cond,
) -> Result<(), OutOfMemory>
    requires count { count ≤ length (front.old.items ++ items_of rest.old) }
    requires own { All (λ item. IsCond (C.sets conds.old) item.0.0) (front.old.items ++ items_of rest.old) }
    requires by_own { IsCond (C.sets conds.old) by.0 }
    ensures restricts { OnOk result (RestrictsFirst (C.sets conds.old) (C.sets conds.new) by.0 count (front.old.items ++ items_of rest.old) (front.new.items
        ++ items_of rest.new)) }

    // at every outcome
    ensures items { KeepsItems (C.sets conds.new) (front.old.items ++ items_of rest.old) (front.new.items ++ items_of rest.new) }
    ensures keeps { Keeps (C.sets conds.old) (C.sets conds.new) }
{
    if count > front.len() {
        settle(front, rest)?;
    }
    let first = std::cmp::min(count, front.len());
    for index in 0..first {
        let pair = front[index];
        let met = conds.apply_and(pair.0, by)?;
        front[index] = (met, pair.1);
    }
    if count > first {
        rest.by = conds.apply_and(rest.cond, by)?;
        rest.restricted = count - first;
    }
    Ok(())
}

/// Restricts so many of the tokens in front of a source, and then of the source.
fn restrict_source<C: Conditions>(
    conds: &mut C,
    front: &mut VecDeque<(Cond, Hidden)>,
    source: &mut Source,
    count: usize,
    by: Cond,
) -> Result<(), OutOfMemory>
    requires count { count ≤ length (front.old.items ++ items_left source.old) }
    requires own { All (λ item. IsCond (C.sets conds.old) item.0.0) (front.old.items ++ items_left source.old) }
    requires by_own { IsCond (C.sets conds.old) by.0 }
    ensures restricts { OnOk result (RestrictsFirst (C.sets conds.old) (C.sets conds.new) by.0 count (front.old.items
        ++ items_left source.old) (front.new.items ++ items_left source.new)) }

    // at every outcome
    ensures items { KeepsItems (C.sets conds.new) (front.old.items ++ items_left source.old) (front.new.items ++ items_left source.new) }
    ensures keeps { Keeps (C.sets conds.old) (C.sets conds.new) }
{
    let first = std::cmp::min(count, front.len());
    for index in 0..first {
        let pair = front[index];
        let met = conds.apply_and(pair.0, by)?;
        front[index] = (met, pair.1);
    }
    for index in first..count {
        let place = source.next + (index - first);
        let pair = source.items[place];
        let met = conds.apply_and(pair.0, by)?;
        source.items[place] = (met, pair.1);
    }
    Ok(())
}

/// Moves the tokens of a rest that were restricted to the end of the list in front of it.
fn settle(front: &mut VecDeque<(Cond, Hidden)>, rest: &mut Rest) -> Result<(), OutOfMemory>
    ensures restricted { OnOk result (rest.new.restricted ≡ 0) }

    // at every outcome
    ensures is { front.new.items ++ items_of rest.new ≡ front.old.items ++ items_of rest.old }
    ensures cond { rest.new.cond ≡ rest.old.cond }
{
    while rest.restricted > 0 && rest.len() > 0 {
        front.push_back(rest.item(0))?;
        rest.drop_first(1);
    }
    rest.restricted = 0;
    Ok(())
}

impl TokenList for WorkList {
    ghost tokens = { λ list. map (λ item. (item.0, item.1.token)) list };

    fn len(&self) -> usize {
        self.len()
    }

    fn item(&self, index: usize) -> (Cond, Token) {
        let pair = self.item(index);
        (pair.0, pair.1.token)
    }
}
