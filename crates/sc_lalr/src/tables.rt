//! The tables.
use lr_tables::{Action, Conflict, Nonterminal, Terminal};

/// The LALR(1) tables of a grammar.
#[derive(Drop)]
pub struct Tables {
    /// Of each state the action at each terminal.
    pub(crate) actions: Vec<Vec<Option<Action>>>,
    /// Of each state the goto by each nonterminal.
    pub(crate) gotos: Vec<Vec<Option<usize>>>,
    pub(crate) conflicts: Vec<Conflict>,
}

impl Tables {
    ghost use Rattle.std.specs.Prelude.{◌≡◌};
    ghost use Rattle.sc_lalr.specs.Tables.{action_of, goto_of, conflicts_of};

    /// What is done in the state at the terminal.
    pub fn action(&self, state: usize, terminal: Terminal) -> Option<Action>
        ensures { result ≡ action_of self.now state terminal.0 }
    {
        *self.actions.get(state)?.get(terminal.0)?
    }

    /// The state that follows after the nonterminal.
    pub fn goto(&self, state: usize, nonterminal: Nonterminal) -> Option<usize>
        ensures { result ≡ goto_of self.now state nonterminal.0 }
    {
        *self.gotos.get(state)?.get(nonterminal.0)?
    }

    /// The actions that lost against another one, ordered by state, terminal and production.
    pub fn conflicts(&self) -> &[Conflict]
        ensures { result.now ≡ conflicts_of self.now }
    {
        &self.conflicts
    }
}
