ghost use Rattle.std.specs.Prelude.{◌≡◌, ◌⊎◌, Contains, IfSome, Some, []};
ghost use Rattle.sc_diagram.specs.Applied.{Adds, IsForgotten};
ghost use Rattle.sc_diagram.specs.Entries.{operation_at, result_of};

use crate::operation::{Application, Operation};
use crate::slot::{more_slots, slot};
use std::alloc::Global;
use std::marker::Model;

/// What an operation made of two nodes. The operation is two numbers.
#[derive(Clone, Copy)]
struct Entry {
    kind: u32,
    option: u32,
    left: u32,
    right: u32,
    result: u32,
}

/// A slot in which nothing is kept.
const NOTHING: Entry = Entry {
    kind: 4,
    option: 0,
    left: 0,
    right: 0,
    result: 0,
};

/// What operations made, to be looked up where an operation comes again: each at the slot that its
/// nodes name, until another takes its place (Brace, Rudell and Bryant 1990).
#[derive(Drop)]
pub struct Known {
    slots: Vec<Entry>,
}

impl Model for Known {
    ghost use Rattle.std.specs.Prelude.{List, ℕ, Option, map};
    ghost use Rattle.sc_diagram.specs.declared.operation.Application.{Application};
    ghost use Rattle.sc_diagram.specs.Entries.{result_of};

    ghost Value = { List (Option (Application × ℕ)) };

    ghost view = { λ k. map result_of k.slots.items };
}

impl Known {
    pub fn new(alloc: Global) -> Known
        ensures { result ≡ [] }
    {
        Known {
            slots: Vec::new(alloc),
        }
    }

    /// Forgets all, and has more slots, where there are too few of them for so many nodes.
    pub fn fit(&mut self, nodes: usize)
        ensures { (self.new ≡ self.old) ⊎ IsForgotten self.new }
    {
        let len = more_slots(self.slots.len(), nodes);
        if len == self.slots.len() {
            return;
        }
        let mut slots = Vec::new(*self.slots.allocator());
        if slots.resize(len, NOTHING).is_ok() {
            self.slots = slots;
        }
    }

    /// What the operation made, where that is kept.
    pub fn find(&self, what: Application) -> Option<usize>
        ensures { IfSome result (λ r. Contains self.now (Some (what, r))) }
    {
        let (kind, option) = code_of(what.operation)?;
        let at = slot(
            self.slots.len(),
            kind.wrapping_add(option),
            what.left,
            what.right,
        )?;
        let entry = &self.slots[at];
        if entry.left as usize == what.left
            && entry.right as usize == what.right
            && entry.kind as usize == kind
            && entry.option as usize == option
        {
            Some(entry.result as usize)
        } else {
            None
        }
    }

    /// Notes what an operation made.
    pub fn add(&mut self, what: Application, node: usize)
        ensures { Adds self.old self.new what node }
    {
        if let Some(entry) = entry_of(what, node) {
            let key = (entry.kind as usize).wrapping_add(entry.option as usize);
            if let Some(at) = slot(self.slots.len(), key, what.left, what.right) {
                self.slots[at] = entry;
            }
        }
    }
}

/// What the operation made, where its numbers have room.
fn entry_of(what: Application, node: usize) -> Option<Entry>
    ensures { IfSome result (λ entry. result_of entry ≡ Some (what, node)) }
{
    let (kind, option) = code_of(what.operation)?;
    Some(Entry {
        kind: u32::try_from(kind).ok()?,
        option: u32::try_from(option).ok()?,
        left: u32::try_from(what.left).ok()?,
        right: u32::try_from(what.right).ok()?,
        result: u32::try_from(node).ok()?,
    })
}

/// The operation as two numbers.
fn code_of(operation: Operation) -> Option<(usize, usize)>
    ensures { IfSome result (λ code. operation_at code.0 code.1 ≡ Some operation) }
{
    match operation {
        Operation::And => Some((0, 0)),
        Operation::Or => Some((1, 0)),
        Operation::Without => Some((2, 0)),
        Operation::Negate => Some((3, 0)),
        Operation::Part(variable, option) => Some((variable, option.checked_add(1)?)),
    }
}
