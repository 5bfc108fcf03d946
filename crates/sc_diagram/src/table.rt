ghost use Rattle.std.specs.Prelude.{◌≡◌, ℕ, ◌+◌, ◌<◌, ◌≤◌, ◌==◌, [], ◌∷◌, length, slice_index, IfOk, IfSome, IfNone};
ghost use Rattle.sc_model.specs.Sets.{HasOptions, IsCanonical};
ghost use Rattle.sc_diagram.specs.Diagram.{IsDiagram, branch_of, ends_over, variable_of, sets_of};
ghost use Rattle.sc_diagram.specs.Grown.{Grows, IsChoice};
ghost use Rattle.sc_diagram.specs.Applied.{cofactor};

use crate::unique::UniqueTable;
use sc_base::OutOfMemory;
use std::alloc::Global;
use std::marker::Model;

/// The node that no configuration leads on from.
pub const NEVER: usize = 0;

/// The node that each configuration ends at.
pub const ALWAYS: usize = 1;

/// The nodes, each kept once: the two ends, then those that decide by a variable.
#[derive(Drop)]
pub struct Table {
    alloc: Global,
    arities: Vec<usize>,
    nodes: UniqueTable,
}

impl Model for Table {
    ghost use Rattle.sc_diagram.specs.Diagram.{Diagram, IsDiagram};

    ghost Value = { Diagram };

    ghost view = { λ t. record { arities = t.arities.items; nodes = t.nodes } };

    ghost invariant = { λ t. IsDiagram (record { arities = t.arities.items; nodes = t.nodes }) };
}

impl Table {
    /// The two ends, over variables with these numbers of options. `alloc` serves all that is made
    /// later.
    pub fn new(alloc: Global, arities: &[usize]) -> Result<Table, OutOfMemory>
        requires { HasOptions arities.now }
        ensures arities { IfOk result (λ table. table.arities ≡ arities.now) }
        ensures nodes { IfOk result (λ table. table.nodes ≡ ends_over arities.now) }
        ensures valid { IfOk result (λ table. IsDiagram table) }
    {
        let mut nodes = UniqueTable::new(alloc);
        nodes.insert(arities.len(), &[NEVER])?;
        nodes.insert(arities.len(), &[ALWAYS])?;
        Ok(Table {
            alloc,
            arities: Vec::from_slice(alloc, arities)?,
            nodes,
        })
    }

    /// Nodes that stand for the same set are one. This takes no time: it tells a proof.
    pub fn canonical(&self)
        ensures { IsCanonical (sets_of self.now) }
    {
        let _nodes = &self.nodes;
    }

    pub fn allocator(&self) -> Global {
        self.alloc
    }

    /// How many nodes there are, the ends included.
    pub fn count(&self) -> usize
        ensures count { result ≡ length self.now.nodes }
        ensures valid { IsDiagram self.now }
    {
        self.nodes.len()
    }

    /// How many options a variable has.
    pub fn arity(&self, variable: usize) -> usize
        requires { variable < length self.now.arities }
        ensures { result ≡ slice_index self.now.arities variable }
    {
        self.arities[variable]
    }

    /// The variable by which a node decides; of an end, the place after all variables.
    pub fn variable(&self, node: usize) -> usize
        requires { node < length self.now.nodes }
        ensures variable { result ≡ variable_of self.now node }
        ensures valid { IsDiagram self.now }
    {
        self.nodes.variable(node)
    }

    /// The children of a node.
    pub fn children(&self, node: usize) -> &[u32]
        requires { node < length self.now.nodes }
        ensures children { result.now ≡ (branch_of self.now node).children }
        ensures valid { IsDiagram self.now }
    {
        self.nodes.children(node)
    }

    /// What remains of a node where a variable, none after its own, has the option.
    pub fn cofactor(&self, node: usize, variable: usize, option: usize) -> usize
        requires own { node < length self.now.nodes }
        requires variable { variable < length self.now.arities }
        requires option { option < slice_index self.now.arities variable }
        ensures { result ≡ cofactor self.now node variable option }
    {
        if self.variable(node) == variable {
            self.children(node)[option] as usize
        } else {
            node
        }
    }

    /// What remains of a node with each of the two options of a variable, none after its own.
    pub fn cofactors(&self, node: usize, variable: usize) -> (usize, usize)
        requires own { node < length self.now.nodes }
        requires variable { variable < length self.now.arities }
        requires two { slice_index self.now.arities variable ≡ 2 }
        ensures first { result.0 ≡ cofactor self.now node variable 0 }
        ensures second { result.1 ≡ cofactor self.now node variable 1 }
    {
        if self.variable(node) == variable {
            let children = self.children(node);
            (children[0] as usize, children[1] as usize)
        } else {
            (node, node)
        }
    }

    /// The node that decides by a variable between these children: the one that there is, or else a
    /// new one. There is none between children that are all the same: it is that child.
    pub fn choice(&mut self, variable: usize, children: &[usize]) -> Result<usize, OutOfMemory>
        requires variable { variable < length self.old.arities }
        requires wide { length children.now ≡ slice_index self.old.arities variable }
        requires own { (k : ℕ) → k < length children.now → slice_index children.now k < length self.old.nodes }
        requires later { (k : ℕ) → k < length children.now → variable < variable_of self.old (slice_index children.now k) }
        ensures own { IfOk result (λ r. r < length self.new.nodes) }
        ensures choice { IfOk result (λ r. IsChoice self.new r variable children.now) }
        ensures adds { IfOk result (λ r. (n : ℕ) → length self.old.nodes ≤ n → n < length self.new.nodes → n ≡ r) }

        // at every outcome
        ensures grows { Grows self.old self.new }
    {
        let _nodes = &self.nodes;
        if let Some(only) = only(children) {
            return Ok(only);
        }
        let node = self.nodes.insert(variable, children)?;
        Ok(node)
    }
}

/// The child that all of these are.
fn only(children: &[usize]) -> Option<usize>
    requires { 0 < length children.now }
    ensures some { IfSome result (λ child. (k : ℕ) → k < length children.now → slice_index children.now k ≡ child) }
    ensures none { IfNone result (((k : ℕ) → k < length children.now → slice_index children.now k ≡ slice_index children.now 0) → ⊥) }
{
    let first = children[0];
    for child in children {
        if *child != first {
            return None;
        }
    }
    Some(first)
}
