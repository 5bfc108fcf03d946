ghost use Rattle.std.specs.Prelude.{◌≡◌, ◌↔◌, IsTrue, IfOk, reverse, take, drop};
ghost use Rattle.sc_stack.specs.Entries.{states_of, values_of, with_state};
ghost use Rattle.sc_stack.specs.Links.{entries_of};

use sc_base::{OutOfMemory, TreeId};
use std::alloc::Global;
use std::rc::Rc;

/// The frames of a stack, the top first. What is below a frame may have other owners.
pub(crate) enum Link {
    Bottom,
    Frame(Rc<Link>, usize, Option<TreeId>),
}

// A loop, since a stack is as deep as the text is nested.
impl Drop for Link {
    fn drop(mut self) {
        loop {
            match self {
                Link::Bottom => return,
                Link::Frame(below, _, _) => match Rc::into_inner(below) {
                    Some(link) => self = link,
                    None => return,
                },
            }
        }
    }
}

impl Link {
    /// Another owner of the same frames.
    pub(crate) fn share(&self) -> Result<Link, OutOfMemory>
        ensures { IfOk result (λ link. entries_of link ≡ entries_of self.now) }
    {
        match self {
            Link::Bottom => Ok(Link::Bottom),
            Link::Frame(below, state, value) => Ok(Link::Frame(below.clone()?, *state, *value)),
        }
    }

    /// What is below the top `n` frames.
    pub(crate) fn below(&self, n: usize) -> &Link
        ensures { entries_of result.now ≡ drop n (entries_of self.now) }
    {
        let mut link = self;
        let mut left = n;
        while left > 0 {
            match link {
                Link::Bottom => return link,
                Link::Frame(below, _, _) => link = below,
            }
            left -= 1;
        }
        link
    }

    /// Gives the top frame, where there is one, another state.
    pub(crate) fn set_state(&mut self, state: usize)
        ensures { entries_of self.new ≡ with_state state (entries_of self.old) }
    {
        if let Link::Frame(_, top, _) = self {
            *top = state;
        }
    }

    /// The values of the top `n` frames, the lowest first.
    pub(crate) fn values(&self, alloc: Global, n: usize) -> Result<Vec<Option<TreeId>>, OutOfMemory>
        ensures { IfOk result (λ values. values.items ≡ reverse (values_of (take n (entries_of self.now)))) }
    {
        let mut values = Vec::new(alloc);
        let mut link = self;
        let mut left = n;
        while left > 0 {
            match link {
                Link::Bottom => break,
                Link::Frame(below, _, value) => {
                    values.push(*value)?;
                    link = below;
                }
            }
            left -= 1;
        }
        values.reverse();
        Ok(values)
    }

    /// The states, the lowest first.
    pub(crate) fn states(&self, alloc: Global) -> Result<Vec<usize>, OutOfMemory>
        ensures { IfOk result (λ states. states.items ≡ reverse (states_of (entries_of self.now))) }
    {
        let mut states = Vec::new(alloc);
        let mut link = self;
        while let Link::Frame(below, state, _) = link {
            states.push(*state)?;
            link = below;
        }
        states.reverse();
        Ok(states)
    }

    /// Whether both have the same states.
    pub(crate) fn same_states(&self, other: &Link) -> bool
        ensures { IsTrue result ↔ states_of (entries_of self.now) ≡ states_of (entries_of other.now) }
    {
        let mut here = self;
        let mut there = other;
        loop {
            match here {
                Link::Bottom => return matches!(there, Link::Bottom),
                Link::Frame(below, state, _) => match there {
                    Link::Bottom => return false,
                    Link::Frame(other_below, other_state, _) => {
                        if *state != *other_state {
                            return false;
                        }
                        here = below;
                        there = other_below;
                    }
                },
            }
        }
    }
}
