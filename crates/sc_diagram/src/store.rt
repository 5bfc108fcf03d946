ghost use Rattle.std.specs.Prelude.{◌≡◌, ℕ, ◌+◌, ◌<◌, ◌==◌, ◌&&◌, ◌||◌, ◌⊎◌, ◌↔◌, not, All, Bool, true, false, List, length, slice_index, slice_set, IsNone, IfSome, IfOk};
ghost use Rattle.std.specs.Bool.{OnTrue, OnFalse};
ghost use Rattle.sc_model.specs.Sets.{HasOptions, IsConfig, IsCond, Denotes, Keeps, IsNever, IsAlways, IsTop, DependsFrom, IsCanonical};
ghost use Rattle.sc_diagram.specs.Decision.{IsDecisionOf, numbers_of};
ghost use Rattle.sc_diagram.specs.Diagram.{IsDiagram, ends_over, sets_of};
ghost use Rattle.sc_diagram.specs.Grown.{Grows, AddsOnly};
ghost use Rattle.sc_diagram.specs.Applied.{IsApplication, Applies, application};
ghost use Rattle.sc_diagram.specs.Simplified.{AreAnswers, SaysWithin};

use crate::answers::{Answers, Question};
use crate::apply::apply;
use crate::between::between;
use crate::choose::choose;
use crate::example::example;
use crate::known::Known;
use crate::node::{Decision, Node};
use crate::operation::{Application, Operation};
use crate::simplify::simplify;
use crate::table::{ALWAYS, NEVER, Table};
use crate::walk::leads_to_always;
use sc_base::OutOfMemory;
use std::alloc::Global;
use std::marker::Model;

/// Decision diagrams over the configurations of some variables.
///
/// Each node stands for one set of configurations, for good: the store only grows, also where a
/// call finds no memory. Nodes of one store that stand for the same set are one. An operation adds
/// no node but those of its result's diagram, `simplify` aside, and goes as deep as there are
/// variables. What operations made is looked up while it is kept: there is a slot for every four
/// nodes, at most 32,768, which the next result of that slot takes (Brace, Rudell and Bryant 1990).
#[derive(Drop)]
pub struct Store {
    table: Table,
    known: Known,
    answers: Answers,
}

impl Model for Store {
    ghost use Rattle.sc_diagram.specs.Diagram.{Diagram};
    ghost use Rattle.sc_diagram.specs.Applied.{IsKnown};
    ghost use Rattle.sc_diagram.specs.Simplified.{AreAnswers};

    ghost Value = { Diagram };

    ghost view = { λ s. s.table };

    ghost invariant = { λ s. IsKnown s.table s.known × AreAnswers s.table s.answers };
}

impl Store {
    /// The nodes never and always, over variables with these numbers of options. `alloc` serves all
    /// that is made later.
    pub fn new(alloc: Global, arities: &[usize]) -> Result<Store, OutOfMemory>
        requires { HasOptions arities.now }
        ensures arities { IfOk result (λ store. store.arities ≡ arities.now) }
        ensures nodes { IfOk result (λ store. store.nodes ≡ ends_over arities.now) }
        ensures valid { IfOk result (λ store. IsDiagram store) }
    {
        Ok(Store {
            table: Table::new(alloc, arities)?,
            known: Known::new(alloc),
            answers: Answers::new(alloc),
        })
    }

    /// The node that every configuration has.
    pub fn always(&self) -> Node
        ensures own { IsCond (sets_of self.now) result.0 }
        ensures meaning { Denotes (sets_of self.now) result.0 (λ _. true) }
    {
        let _count = self.table.count();
        Node(ALWAYS)
    }

    /// The node that no configuration has.
    pub fn never(&self) -> Node
        ensures own { IsCond (sets_of self.now) result.0 }
        ensures meaning { Denotes (sets_of self.now) result.0 (λ _. false) }
    {
        let _count = self.table.count();
        Node(NEVER)
    }

    /// How many nodes decide by a variable, which are all but always and never.
    pub fn len(&self) -> usize
        ensures len { result + 2 ≡ length self.now.nodes }
        ensures valid { IsDiagram self.now }
    {
        self.table.count() - 2
    }

    /// The configurations in which the variable has this option.
    pub fn choose(&mut self, variable: usize, option: usize) -> Result<Node, OutOfMemory>
        requires variable { variable < length self.old.arities }
        requires option { option < slice_index self.old.arities variable }
        ensures own { IfOk result (λ r. IsCond (sets_of self.new) r.0) }
        ensures meaning { IfOk result (λ r. Denotes (sets_of self.new) r.0 (λ c. slice_index c variable == option)) }
        ensures adds { IfOk result (λ r. AddsOnly self.old self.new r.0) }

        // at every outcome
        ensures grows { Grows self.old self.new }
        ensures keeps { Keeps (sets_of self.old) (sets_of self.new) }
    {
        let node = choose(&mut self.table, variable, option)?;
        Ok(Node(node))
    }

    /// The node that decides by a variable between these children, one for each of its options: it
    /// has what the child for a configuration's option has.
    pub fn node(&mut self, variable: usize, children: &[Node]) -> Result<Node, OutOfMemory>
        requires variable { variable < length self.old.arities }
        requires wide { length children.now ≡ slice_index self.old.arities variable }
        requires own { All (λ child. IsCond (sets_of self.old) child.0) children.now }
        requires later { All (λ child. DependsFrom (sets_of self.old) child.0 (variable + 1)) children.now }
        ensures own { IfOk result (λ r. IsCond (sets_of self.new) r.0) }
        ensures meaning { IfOk result (λ r. Denotes (sets_of self.new) r.0
            (λ c. (sets_of self.old).has (slice_index (numbers_of children.now) (slice_index c variable)) c)) }
        ensures adds { IfOk result (λ r. AddsOnly self.old self.new r.0) }

        // at every outcome
        ensures grows { Grows self.old self.new }
        ensures keeps { Keeps (sets_of self.old) (sets_of self.new) }
    {
        let node = between(&mut self.table, variable, children)?;
        Ok(Node(node))
    }

    /// The configurations that both nodes have.
    pub fn apply_and(&mut self, a: Node, b: Node) -> Result<Node, OutOfMemory>
        requires a_own { IsCond (sets_of self.old) a.0 }
        requires b_own { IsCond (sets_of self.old) b.0 }
        ensures own { IfOk result (λ r. IsCond (sets_of self.new) r.0) }
        ensures meaning { IfOk result (λ r. (f g : List ℕ → Bool) → Denotes (sets_of self.old) a.0 f
            → Denotes (sets_of self.old) b.0 g → Denotes (sets_of self.new) r.0 (λ c. f c && g c)) }
        ensures adds { IfOk result (λ r. AddsOnly self.old self.new r.0) }

        // at every outcome
        ensures grows { Grows self.old self.new }
        ensures keeps { Keeps (sets_of self.old) (sets_of self.new) }
    {
        self.make(Operation::And, a, b)
    }

    /// The configurations that either node has.
    pub fn apply_or(&mut self, a: Node, b: Node) -> Result<Node, OutOfMemory>
        requires a_own { IsCond (sets_of self.old) a.0 }
        requires b_own { IsCond (sets_of self.old) b.0 }
        ensures own { IfOk result (λ r. IsCond (sets_of self.new) r.0) }
        ensures meaning { IfOk result (λ r. (f g : List ℕ → Bool) → Denotes (sets_of self.old) a.0 f
            → Denotes (sets_of self.old) b.0 g → Denotes (sets_of self.new) r.0 (λ c. f c || g c)) }
        ensures adds { IfOk result (λ r. AddsOnly self.old self.new r.0) }

        // at every outcome
        ensures grows { Grows self.old self.new }
        ensures keeps { Keeps (sets_of self.old) (sets_of self.new) }
    {
        self.make(Operation::Or, a, b)
    }

    /// The configurations that the first node has and the second one has not.
    pub fn apply_without(&mut self, a: Node, b: Node) -> Result<Node, OutOfMemory>
        requires a_own { IsCond (sets_of self.old) a.0 }
        requires b_own { IsCond (sets_of self.old) b.0 }
        ensures own { IfOk result (λ r. IsCond (sets_of self.new) r.0) }
        ensures meaning { IfOk result (λ r. (f g : List ℕ → Bool) → Denotes (sets_of self.old) a.0 f
            → Denotes (sets_of self.old) b.0 g → Denotes (sets_of self.new) r.0 (λ c. f c && not (g c))) }
        ensures adds { IfOk result (λ r. AddsOnly self.old self.new r.0) }

        // at every outcome
        ensures grows { Grows self.old self.new }
        ensures keeps { Keeps (sets_of self.old) (sets_of self.new) }
    {
        self.make(Operation::Without, a, b)
    }

    /// The configurations that the node has not.
    pub fn negate(&mut self, a: Node) -> Result<Node, OutOfMemory>
        requires { IsCond (sets_of self.old) a.0 }
        ensures own { IfOk result (λ r. IsCond (sets_of self.new) r.0) }
        ensures meaning { IfOk result (λ r. (f : List ℕ → Bool) → Denotes (sets_of self.old) a.0 f
            → Denotes (sets_of self.new) r.0 (λ c. not (f c))) }
        ensures adds { IfOk result (λ r. AddsOnly self.old self.new r.0) }

        // at every outcome
        ensures grows { Grows self.old self.new }
        ensures keeps { Keeps (sets_of self.old) (sets_of self.new) }
    {
        self.make(Operation::Negate, a, a)
    }

    /// What remains of the node where the variable has this option: the configurations that it has
    /// once the variable is set to the option.
    pub fn part(&mut self, a: Node, variable: usize, option: usize) -> Result<Node, OutOfMemory>
        requires own { IsCond (sets_of self.old) a.0 }
        requires variable { variable < length self.old.arities }
        requires option { option < slice_index self.old.arities variable }
        ensures own { IfOk result (λ r. IsCond (sets_of self.new) r.0) }
        ensures meaning { IfOk result (λ r. (f : List ℕ → Bool) → Denotes (sets_of self.old) a.0 f
            → Denotes (sets_of self.new) r.0 (λ c. f (slice_set c variable option))) }
        ensures adds { IfOk result (λ r. AddsOnly self.old self.new r.0) }

        // at every outcome
        ensures grows { Grows self.old self.new }
        ensures keeps { Keeps (sets_of self.old) (sets_of self.new) }
    {
        self.make(Operation::Part(variable, option), a, a)
    }

    /// A node that says what the given one says in the configurations of `within`. What it says of
    /// another one, the given one says of one of these. It decides by none but the variables of
    /// that one, and often by fewer.
    pub fn simplify(&mut self, a: Node, within: Node) -> Result<Node, OutOfMemory>
        requires a_own { IsCond (sets_of self.old) a.0 }
        requires within_own { IsCond (sets_of self.old) within.0 }
        ensures own { IfOk result (λ r. IsCond (sets_of self.new) r.0) }
        ensures meaning { IfOk result (λ r. (c : List ℕ) → IsConfig self.old.arities c → (sets_of self.old).has within.0 c ≡ true
            → (sets_of self.new).has r.0 c ≡ (sets_of self.old).has a.0 c) }
        ensures said { IfOk result (λ r. (b c : List ℕ) → IsConfig self.old.arities b → (sets_of self.old).has within.0 b ≡ true
            → IsConfig self.old.arities c → SaysWithin (sets_of self.old) a.0 within.0 ((sets_of self.new).has r.0 c)) }

        // at every outcome
        ensures grows { Grows self.old self.new }
        ensures keeps { Keeps (sets_of self.old) (sets_of self.new) }
    {
        self.answers.fit(self.table.count());
        let asked = Question {
            node: a.0,
            within: within.0,
        };
        let node = simplify(&mut self.table, &mut self.known, &mut self.answers, asked)?;
        Ok(Node(node))
    }

    /// Whether the node has the configuration.
    pub fn eval(&self, node: Node, config: &[usize]) -> bool
        requires own { IsCond (sets_of self.now) node.0 }
        requires config { IsConfig self.now.arities config.now }
        ensures { result ≡ (sets_of self.now).has node.0 config.now }
    {
        leads_to_always(&self.table, node.0, config)
    }

    /// The first variable on which the node depends.
    pub fn top(&self, node: Node) -> Option<usize>
        requires { IsCond (sets_of self.now) node.0 }
        ensures some { IfSome result (IsTop (sets_of self.now) node.0) }
        ensures none { IsNone result ↔ (IsNever (sets_of self.now) node.0 ⊎ IsAlways (sets_of self.now) node.0) }
    {
        let variable = self.table.variable(node.0);
        if node.0 > ALWAYS {
            Some(variable)
        } else {
            None
        }
    }

    /// How the node decides, where it is not always or never.
    pub fn read(&self, node: Node) -> Option<Decision<'_>>
        requires { IsCond (sets_of self.now) node.0 }
        ensures some { IfSome result (λ d. IsDecisionOf (sets_of self.now) node.0 d.variable d.children) }
        ensures none { IsNone result ↔ (IsNever (sets_of self.now) node.0 ⊎ IsAlways (sets_of self.now) node.0) }
    {
        let variable = self.top(node)?;
        Some(Decision::new(variable, self.table.children(node.0)))
    }

    /// Writes a configuration that the node has.
    pub fn example(&self, node: Node, into: &mut [usize]) -> bool
        requires own { IsCond (sets_of self.now) node.0 }
        requires long { length into.old ≡ length self.now.arities }
        ensures never { (result ≡ false) ↔ IsNever (sets_of self.now) node.0 }
        ensures config { OnTrue result (IsConfig self.now.arities into.new) }
        ensures has { OnTrue result ((sets_of self.now).has node.0 into.new ≡ true) }
        ensures untouched { OnFalse result (into.new ≡ into.old) }
    {
        example(&self.table, node.0, into)
    }

    /// Nodes that stand for the same set are one. This takes no time: it tells a proof.
    pub fn canonical(&self)
        ensures { IsCanonical (sets_of self.now) }
    {
        self.table.canonical();
    }

    /// Each variable has an option, so always is not never. This takes no time: it tells a proof.
    pub fn has_options(&self)
        ensures { HasOptions self.now.arities }
    {
        let _count = self.table.count();
    }

    /// What an operation makes.
    fn make(&mut self, operation: Operation, left: Node, right: Node) -> Result<Node, OutOfMemory>
        requires { IsApplication self.old (application operation left.0 right.0) }
        ensures applies { IfOk result (λ r. Applies self.new (application operation left.0 right.0) r.0) }
        ensures adds { IfOk result (λ r. AddsOnly self.old self.new r.0) }

        // at every outcome
        ensures grows { Grows self.old self.new }
    {
        self.known.fit(self.table.count());
        let what = Application {
            operation,
            left: left.0,
            right: right.0,
        };
        let node = apply(&mut self.table, &mut self.known, what)?;
        Ok(Node(node))
    }
}
