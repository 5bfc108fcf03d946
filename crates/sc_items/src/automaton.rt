//! The states as they are kept.
use indexmap::IndexSet;

/// An LR(0) state.
#[derive(Drop)]
pub struct State {
    /// Whether it has an item.
    pub items: Vec<bool>,
    /// The items that it has, in rising order.
    pub members: Vec<usize>,
    /// Where a symbol leads from it.
    pub gotos: Vec<Option<usize>>,
}

/// The LR(0) states of a grammar, numbered in the order in which they are found.
#[derive(Drop)]
pub struct States {
    /// Of each state the items that its closure does not add.
    pub kernels: IndexSet<Vec<usize>>,
    pub rows: Vec<State>,
}

impl States {
    ghost use Rattle.std.specs.Prelude.{◌≡◌, ◌↔◌, length, IsTrue, MatchOption};
    ghost use Rattle.lr_tables.specs.Tables.{IsGoto, NoGoto};
    ghost use Rattle.lr_tables.specs.Grammar.{IsGrammar};
    ghost use Rattle.lr_tables.specs.declared.grammar.Grammar.{Grammar};
    ghost use Rattle.sc_items.specs.States.{AreStates, HasItem, kernels_of, has_item, goto_of};

    /// How many there are.
    pub fn len(&self) -> usize
        ensures { result ≡ length (kernels_of self.now) }
    {
        self.kernels.len()
    }

    /// Whether the state has the item.
    pub fn has(&self, state: usize, item: usize) -> bool
        ensures value { result ≡ has_item self.now state item }
        ensures exact { (g : Grammar) → AreStates g self.now → IsTrue result ↔ HasItem g (kernels_of self.now) state item }
    {
        match self.rows.get(state) {
            None => false,
            Some(row) => row.items.get(item).copied().unwrap_or(false),
        }
    }

    /// The state to which the symbol leads.
    pub fn goto(&self, state: usize, symbol: usize) -> Option<usize>
        ensures value { result ≡ goto_of self.now state symbol }
        ensures exact { (g : Grammar) → IsGrammar g → AreStates g self.now
            → MatchOption result (NoGoto g (kernels_of self.now) state symbol) (IsGoto g (kernels_of self.now) state symbol) }
    {
        *self.rows.get(state)?.gotos.get(symbol)?
    }
}
