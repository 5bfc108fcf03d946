ghost use Rattle.sc_subst.specs.Groups.{AreGroups, IsParenthesized};
ghost use Rattle.std.specs.Prelude.{◌≡◌, ◌-◌, ◌<◌, ◌≤◌, [], All, IfSome, Some, take, drop, length, slice_get, IfOk};

use crate::Hidden;
use crate::groups::Groups;
use sc_base::{Names, OutOfMemory, is_same};
use std::alloc::Global;
use std::marker::Model;
use std::rc::Rc;

/// Tokens of a list that may have other owners: those from one index on, up to another.
#[derive(Drop)]
pub struct Tokens {
    list: Rc<Grouped>,
    from: usize,
    to: usize,
}

/// A list, and which of its parentheses belong together.
#[derive(Drop)]
pub struct Grouped {
    pub tokens: Vec<Hidden>,
    pub groups: Groups,
}

/// A shorter list is read sooner than its parentheses are found.
const SHORT: usize = 64;

impl Model for Tokens {
    ghost use Rattle.std.specs.Prelude.{◌-◌, ◌≤◌, List, take, drop, length};
    ghost use Rattle.sc_subst.specs.Groups.{AreGroups};
    ghost use Rattle.sc_subst.specs.declared.hidden.Hidden.{Hidden};

    ghost Value = { List Hidden };

    ghost view = { λ tokens. take (tokens.to - tokens.from) (drop tokens.from tokens.list.value.tokens.items) };

    ghost invariant = { λ tokens. (tokens.from ≤ tokens.to) × (tokens.to ≤ length tokens.list.value.tokens.items) × AreGroups tokens.list.value.tokens.items tokens.list.value.groups };
}

impl Tokens {
    /// No token.
    pub fn none(alloc: Global) -> Result<Tokens, OutOfMemory>
        ensures { IfOk result (λ tokens. tokens ≡ []) }
    {
        let list = Grouped {
            tokens: Vec::new(alloc),
            groups: Groups::unknown(alloc),
        };
        Tokens::all(alloc, list)
    }

    /// All tokens of a list, which the names spell.
    pub fn of(alloc: Global, names: &Names, list: Vec<Hidden>) -> Result<Tokens, OutOfMemory>
        requires { All (λ h. h.token.spelling.0 < length names.now) list.items }
        ensures { IfOk result (λ tokens. tokens ≡ list.items) }
    {
        let groups = if list.len() < SHORT {
            Groups::unknown(alloc)
        } else {
            Groups::of(alloc, names, &list)?
        };
        Tokens::all(
            alloc,
            Grouped {
                tokens: list,
                groups,
            },
        )
    }

    fn all(alloc: Global, list: Grouped) -> Result<Tokens, OutOfMemory>
        requires { AreGroups list.tokens.items list.groups }
        ensures { IfOk result (λ tokens. tokens ≡ list.tokens.items) }
    {
        let to = list.tokens.len();
        match Rc::new(alloc, list) {
            Ok(list) => Ok(Tokens { list, from: 0, to }),
            Err(_) => Err(OutOfMemory),
        }
    }

    /// The index of the parenthesis that closes what the token of this index opens, where that is
    /// known.
    pub fn closing(&self, names: &Names, index: usize) -> Option<usize>
        requires index { index < length self.now }
        requires names { All (λ h. h.token.spelling.0 < length names.now) self.now }
        ensures { IfSome result (λ close. (close < length self.now) × IsParenthesized names.now self.now index close) }
    {
        let place = self.from + index;
        let close = *self.list.groups.closes.get(place)?;
        if close == 0 || close >= self.to {
            return None;
        }
        let first = self.list.tokens[place].token.spelling;
        let last = self.list.tokens[close].token.spelling;
        if !is_same(names.text(first), b"(") || !is_same(names.text(last), b")") {
            return None;
        }
        names.one_to_one();
        Some(close - self.from)
    }

    /// The number of tokens.
    pub fn len(&self) -> usize
        ensures { result ≡ length self.now }
    {
        self.as_slice().len()
    }

    /// The token of an index.
    pub fn get(&self, index: usize) -> Hidden
        requires { index < length self.now }
        ensures { slice_get self.now index ≡ Some result }
    {
        self.list.tokens[self.from + index]
    }

    /// The tokens one behind the other.
    pub fn as_slice(&self) -> &[Hidden]
        ensures { result.now ≡ self.now }
    {
        &self.list.tokens[self.from..self.to]
    }

    /// Another owner of those from one index on, up to another.
    pub fn share(&self, from: usize, to: usize) -> Result<Tokens, OutOfMemory>
        requires from { from ≤ to }
        requires to { to ≤ length self.now }
        ensures { IfOk result (λ tokens. tokens ≡ take (to - from) (drop from self.now)) }
    {
        let list = self.list.clone()?;
        Ok(Tokens {
            list,
            from: self.from + from,
            to: self.from + to,
        })
    }

    /// Leaves so many of the first out.
    pub fn drop_first(&mut self, count: usize)
        requires { count ≤ length self.old }
        ensures { self.new ≡ drop count self.old }
    {
        self.from += count;
    }
}
