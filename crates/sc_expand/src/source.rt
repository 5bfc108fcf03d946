ghost use Rattle.std.specs.Prelude.{◌≡◌, ◌<◌, ◌≤◌, ◌-◌, ◌^◌, drop, length, slice_get, Some};
ghost use Rattle.sc_expand.specs.WorkLists.{DropsAlike, items_behind, items_of, items_left};

use sc_base::Cond;
use sc_subst::{Hidden, Tokens};

/// What stands behind the tokens that were put in front.
#[derive(Drop)]
pub enum Behind {
    Argument(Rest),
    Source(Source),
}

/// The last tokens of an argument, which stand under one condition, but that some of the next ones
/// were restricted.
#[derive(Drop)]
pub struct Rest {
    pub tokens: Tokens,
    pub cond: Cond,
    /// So many of the next ones were restricted.
    pub restricted: usize,
    /// The condition of these.
    pub by: Cond,
}

/// The tokens of the whole list. Each keeps its index, and its condition alone changes.
#[derive(Drop)]
pub struct Source {
    pub items: Vec<(Cond, Hidden)>,
    /// The index of the first that is left.
    pub next: usize,
}

impl Behind {
    /// The number of tokens.
    pub fn len(&self) -> usize
        ensures is { result ≡ length (items_behind self.now) }
        ensures small { result < 2 ^ 63 }
    {
        match self {
            Behind::Argument(rest) => rest.len(),
            Behind::Source(source) => source.len(),
        }
    }

    /// The token of an index, with its condition.
    pub fn item(&self, index: usize) -> (Cond, Hidden)
        requires { index < length (items_behind self.now) }
        ensures { slice_get (items_behind self.now) index ≡ Some result }
    {
        match self {
            Behind::Argument(rest) => rest.item(index),
            Behind::Source(source) => source.items[source.next + index],
        }
    }

    /// Takes the first token away.
    pub fn drop_first(&mut self)
        ensures { items_behind self.new ≡ drop 1 (items_behind self.old) }
    {
        match self {
            Behind::Argument(rest) => rest.drop_next(),
            Behind::Source(source) => source.drop_next(),
        }
    }

    /// Takes the first token away, and those behind it that were restricted with it.
    pub fn drop_alike(&mut self)
        ensures { DropsAlike (items_behind self.old) (items_behind self.new) }
    {
        match self {
            Behind::Argument(rest) => rest.drop_alike(),
            Behind::Source(source) => source.drop_next(),
        }
    }
}

impl Rest {
    /// The number of tokens.
    pub fn len(&self) -> usize
        ensures is { result ≡ length (items_of self.now) }
        ensures small { result < 2 ^ 63 }
    {
        self.tokens.as_slice().len()
    }

    /// The token of an index, with its condition.
    pub fn item(&self, index: usize) -> (Cond, Hidden)
        requires { index < length (items_of self.now) }
        ensures { slice_get (items_of self.now) index ≡ Some result }
    {
        let token = self.tokens.get(index);
        if index < self.restricted {
            return (self.by, token);
        }
        (self.cond, token)
    }

    /// Takes so many of the first tokens away.
    pub fn drop_first(&mut self, count: usize)
        requires { count ≤ length (items_of self.old) }
        ensures is { items_of self.new ≡ drop count (items_of self.old) }
        ensures cond { self.new.cond ≡ self.old.cond }
        ensures restricted { self.new.restricted ≡ self.old.restricted - count }
    {
        self.tokens.drop_first(count);
        self.restricted = self.restricted.saturating_sub(count);
    }

    /// Takes the first token away.
    fn drop_next(&mut self)
        ensures { items_of self.new ≡ drop 1 (items_of self.old) }
    {
        if self.len() > 0 {
            self.drop_first(1);
        }
    }

    /// Takes the first token away, and those behind it that were restricted with it.
    fn drop_alike(&mut self)
        ensures { DropsAlike (items_of self.old) (items_of self.new) }
    {
        if self.restricted > 0 {
            let count = std::cmp::min(self.restricted, self.len());
            self.drop_first(count);
        } else {
            self.drop_next();
        }
    }
}

impl Source {
    /// The number of tokens that are left.
    fn len(&self) -> usize
        ensures is { result ≡ length (items_left self.now) }
        ensures small { result < 2 ^ 63 }
    {
        self.items.len().saturating_sub(self.next)
    }

    /// Takes the first token away.
    fn drop_next(&mut self)
        ensures { items_left self.new ≡ drop 1 (items_left self.old) }
    {
        if self.next < self.items.len() {
            self.next += 1;
        }
    }
}
