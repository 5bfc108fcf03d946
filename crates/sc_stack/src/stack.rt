ghost use Rattle.std.specs.Prelude.{◌≡◌, ◌↔◌, [], ◌∷◌, IsTrue, IfOk, OnOk, OnErr, length, reverse, take, drop};
ghost use Rattle.sc_stack.specs.Entries.{state_of, states_of, values_of, with_state};

use crate::link::Link;
use sc_base::{OutOfMemory, TreeId};
use std::alloc::Global;
use std::marker::Model;
use std::mem;
use std::rc::Rc;

/// The states of an LR parser and the trees of their symbols, the top first. A terminal that is no
/// token has no tree. What one owner does, no other sees.
#[derive(Drop)]
pub struct Stack {
    top: Link,
    height: usize,
    alloc: Global,
}

impl Model for Stack {
    ghost use Rattle.std.specs.Prelude.{◌≡◌, List, length as count};
    ghost use Rattle.sc_stack.specs.Entries.{Entry};
    ghost use Rattle.sc_stack.specs.Links.{entries_of};

    ghost Value = { List Entry };

    ghost view = { λ s. entries_of s.top };

    ghost invariant = { λ s. s.height ≡ count (entries_of s.top) };
}

impl Stack {
    /// A stack without frames, which keeps `alloc` for those that come.
    pub fn new(alloc: Global) -> Self
        ensures { result ≡ [] }
    {
        Stack {
            top: Link::Bottom,
            height: 0,
            alloc,
        }
    }

    /// Another owner of the same list.
    pub fn share(&self) -> Result<Stack, OutOfMemory>
        ensures { IfOk result (λ stack. stack ≡ self.now) }
    {
        Ok(Stack {
            top: self.top.share()?,
            height: self.height,
            alloc: self.alloc,
        })
    }

    /// How many frames there are.
    pub fn height(&self) -> usize
        ensures { result ≡ length self.now }
    {
        self.height
    }

    /// The state on top, or 0, the lowest, where there is no frame.
    pub fn state(&self) -> usize
        ensures { result ≡ state_of self.now }
    {
        match &self.top {
            Link::Bottom => 0,
            Link::Frame(_, state, _) => *state,
        }
    }

    /// The state below the top frame, or 0, the lowest, where there is no other frame.
    pub fn state_below(&self) -> usize
        ensures { result ≡ state_of (drop 1 self.now) }
    {
        match self.top.below(1) {
            Link::Bottom => 0,
            Link::Frame(_, state, _) => *state,
        }
    }

    /// Gives the top frame, where there is one, another state. Its value stays.
    pub fn set_state(&mut self, state: usize)
        ensures { self.new ≡ with_state state self.old }
    {
        self.top.set_state(state);
    }

    /// Puts a frame on top.
    pub fn push(&mut self, state: usize, value: Option<TreeId>) -> Result<(), OutOfMemory>
        ensures ok { OnOk result (self.new ≡ record { state = state; value = value } ∷ self.old) }
        ensures err { OnErr result (self.new ≡ self.old) }
    {
        let Some(height) = self.height.checked_add(1) else {
            return Err(OutOfMemory);
        };
        let below = mem::replace(&mut self.top, Link::Bottom);
        match Rc::new(self.alloc, below) {
            Ok(below) => {
                self.top = Link::Frame(below, state, value);
                self.height = height;
                Ok(())
            }
            Err(refused) => {
                self.top = refused.value;
                Err(OutOfMemory)
            }
        }
    }

    /// Takes the top `n` frames, or all where there are fewer. Their values are the answer, the
    /// lowest first.
    pub fn pop(&mut self, n: usize) -> Result<Vec<Option<TreeId>>, OutOfMemory>
        ensures values { IfOk result (λ values. values.items ≡ reverse (values_of (take n self.old))) }
        ensures ok { OnOk result (self.new ≡ drop n self.old) }
        ensures err { OnErr result (self.new ≡ self.old) }
    {
        let values = self.top.values(self.alloc, n)?;
        self.top = self.top.below(n).share()?;
        self.height -= values.len();
        Ok(values)
    }

    /// The values of all frames, the lowest first.
    pub fn values(&self) -> Result<Vec<Option<TreeId>>, OutOfMemory>
        ensures { IfOk result (λ values. values.items ≡ reverse (values_of self.now)) }
    {
        self.top.values(self.alloc, self.height)
    }

    /// Gives the frames these values, the lowest first, and leaves their states.
    pub fn merge_values(&mut self, values: &[Option<TreeId>]) -> Result<(), OutOfMemory>
        requires { length values.now ≡ length self.old }
        ensures states { OnOk result (states_of self.new ≡ states_of self.old) }
        ensures values { OnOk result (values_of self.new ≡ reverse values.now) }
        ensures err { OnErr result (self.new ≡ self.old) }
    {
        let states = self.top.states(self.alloc)?;
        *self = stacked(self.alloc, &states, values)?;
        Ok(())
    }

    /// Whether both have the same states.
    pub fn same_states(&self, other: &Stack) -> bool
        ensures { IsTrue result ↔ states_of self.now ≡ states_of other.now }
    {
        self.height == other.height && self.top.same_states(&other.top)
    }
}

/// The stack of these states and values, the lowest first.
fn stacked(alloc: Global, states: &[usize], values: &[Option<TreeId>]) -> Result<Stack, OutOfMemory>
    requires { length values.now ≡ length states.now }
    ensures states { IfOk result (λ stack. states_of stack ≡ reverse states.now) }
    ensures values { IfOk result (λ stack. values_of stack ≡ reverse values.now) }
{
    let mut stack = Stack::new(alloc);
    for (i, state) in states.iter().enumerate() {
        stack.push(*state, values[i])?;
    }
    Ok(stack)
}
