ghost use Rattle.std.specs.Prelude.{◌≡◌, ◌⊎◌, Contains, IfSome, Some, []};
ghost use Rattle.sc_diagram.specs.Applied.{Adds, IsForgotten};

use crate::slot::{more_slots, slot};
use std::alloc::Global;
use std::marker::Model;

/// A node, and the node of the configurations in which it is asked for.
#[derive(Clone, Copy, Debug, PartialEq, Eq, Hash)]
pub struct Question {
    pub node: usize,
    pub within: usize,
}

/// What questions came to, to be looked up where one comes again: each at the slot that its nodes
/// name, until another takes its place.
#[derive(Drop)]
pub struct Answers {
    slots: Vec<Option<(Question, usize)>>,
}

impl Model for Answers {
    ghost use Rattle.std.specs.Prelude.{List, ℕ, Option};
    ghost use Rattle.sc_diagram.specs.declared.answers.Question.{Question};

    ghost Value = { List (Option (Question × ℕ)) };

    ghost view = { λ k. k.slots.items };
}

impl Answers {
    pub fn new(alloc: Global) -> Answers
        ensures { result ≡ [] }
    {
        Answers {
            slots: Vec::new(alloc),
        }
    }

    /// Forgets all, and has more slots, where there are too few of them for so many nodes.
    pub fn fit(&mut self, nodes: usize)
        ensures { (self.new ≡ self.old) ⊎ IsForgotten self.new }
    {
        let len = more_slots(self.slots.len(), nodes);
        if len == self.slots.len() {
            return;
        }
        let mut slots = Vec::new(*self.slots.allocator());
        if slots.resize(len, None).is_ok() {
            self.slots = slots;
        }
    }

    /// What the question came to, where that is kept.
    pub fn find(&self, asked: Question) -> Option<usize>
        ensures { IfSome result (λ r. Contains self.now (Some (asked, r))) }
    {
        let at = slot(self.slots.len(), 0, asked.node, asked.within)?;
        let (kept, result) = self.slots[at]?;
        if kept == asked { Some(result) } else { None }
    }

    /// Notes what a question came to.
    pub fn add(&mut self, asked: Question, node: usize)
        ensures { Adds self.old self.new asked node }
    {
        if let Some(at) = slot(self.slots.len(), 0, asked.node, asked.within) {
            self.slots[at] = Some((asked, node));
        }
    }
}
