ghost use Rattle.std.specs.Prelude.{◌≡◌, IfOk};
ghost use Rattle.sc_model.specs.Sets.{HasOptions};
ghost use Rattle.sc_diagram.specs.Diagram.{sets_of};

use crate::Conditions;
use sc_base::{Cond, OutOfMemory};
use sc_diagram::{Node, Store};
use std::alloc::Global;

/// Conditions as decision diagrams, over any number of configurations.
#[derive(Drop)]
pub struct Diagrams {
    store: Store,
}

impl Diagrams {
    /// The conditions `never` and `always` over variables with these numbers of options. `alloc`
    /// serves all that are made later.
    pub fn new(alloc: Global, arities: &[usize]) -> Result<Diagrams, OutOfMemory>
        requires { HasOptions arities.now }
        ensures { IfOk result (λ conditions. (⟦<Diagrams as Conditions>⟧.sets conditions).arities ≡ arities.now) }
    {
        let store = Store::new(alloc, arities)?;
        Ok(Diagrams { store })
    }
}

impl Conditions for Diagrams {
    ghost sets = { λ d. sets_of d.store };

    fn always(&self) -> Cond {
        Cond(self.store.always().0)
    }

    fn never(&self) -> Cond {
        Cond(self.store.never().0)
    }

    fn choose(&mut self, variable: usize, option: usize) -> Result<Cond, OutOfMemory> {
        let node = self.store.choose(variable, option)?;
        Ok(Cond(node.0))
    }

    fn apply_and(&mut self, a: Cond, b: Cond) -> Result<Cond, OutOfMemory> {
        let node = self.store.apply_and(Node(a.0), Node(b.0))?;
        Ok(Cond(node.0))
    }

    fn apply_or(&mut self, a: Cond, b: Cond) -> Result<Cond, OutOfMemory> {
        let node = self.store.apply_or(Node(a.0), Node(b.0))?;
        Ok(Cond(node.0))
    }

    fn apply_without(&mut self, a: Cond, b: Cond) -> Result<Cond, OutOfMemory> {
        let node = self.store.apply_without(Node(a.0), Node(b.0))?;
        Ok(Cond(node.0))
    }

    fn negate(&mut self, a: Cond) -> Result<Cond, OutOfMemory> {
        let node = self.store.negate(Node(a.0))?;
        Ok(Cond(node.0))
    }

    fn simplify(&mut self, a: Cond, within: Cond) -> Result<Cond, OutOfMemory> {
        let node = self.store.simplify(Node(a.0), Node(within.0))?;
        Ok(Cond(node.0))
    }

    fn part(&mut self, a: Cond, variable: usize, option: usize) -> Result<Cond, OutOfMemory> {
        let node = self.store.part(Node(a.0), variable, option)?;
        Ok(Cond(node.0))
    }

    fn top(&self, a: Cond) -> Option<usize> {
        self.store.top(Node(a.0))
    }

    fn holds(&self, a: Cond, config: &[usize]) -> bool {
        self.store.eval(Node(a.0), config)
    }

    fn example(&self, a: Cond, into: &mut [usize]) -> bool {
        self.store.example(Node(a.0), into)
    }

    fn canonical(&self) {
        self.store.canonical();
    }

    fn has_options(&self) {
        self.store.has_options();
    }
}
