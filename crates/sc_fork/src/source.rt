ghost use Rattle.std.specs.Prelude.{◌≡◌, All, IfOk, option_map};
ghost use Rattle.sc_base.specs.Seen.{IsHeld};
ghost use Rattle.sc_fork.specs.Seen.{action_in, place_in, state_after, terminal_in};
ghost use Rattle.sc_fork.specs.Owns.{AreTerminals};
ghost use Rattle.sc_guarded.specs.Blocks.{AreBlocks};
ghost use Rattle.sc_model.specs.Sets.{IsCond, Keeps};

use lr_tables::{Action, Terminal};
use sc_base::{Names, OutOfMemory, Place, Token};
use sc_grammar::terminal as terminals;
use sc_guarded::{Blocks, Guarded};
use sc_kinds::terminal;
use sc_lalr::Tables;
use sc_merge::Head;
use sc_model::Standard;
use sc_presence::Conditions;
use std::alloc::Global;

/// What is parsed: a list with its blocks, the first terminal of each element and the place of its
/// end, by these tables.
#[derive(Drop)]
pub struct Source<'a> {
    pub list: &'a Guarded<Token>,
    pub blocks: Blocks,
    pub terminals: Vec<Option<Terminal>>,
    pub tables: &'a Tables,
    pub end: Place,
}

impl<'a> Source<'a> {
    /// The list with its blocks and the terminal of each element.
    pub fn new<C: Conditions>(
        alloc: Global,
        conds: &mut C,
        names: &Names,
        list: &'a Guarded<Token>,
        end: Place,
        tables: &'a Tables,
        standard: Standard,
    ) -> Result<Source<'a>, OutOfMemory>
        requires own { All (λ item. IsCond (C.sets conds.old) item.0.0) list.now }
        requires held { All (λ item. IsHeld names.now item.1) list.now }
        ensures list { IfOk result (λ source. source.list.now ≡ list.now) }
        ensures tables { IfOk result (λ source. source.tables.now ≡ tables.now) }
        ensures end { IfOk result (λ source. source.end ≡ end) }
        ensures terminals { IfOk result (λ source. AreTerminals standard names.now list.now source.terminals.items) }
        ensures blocks { IfOk result (λ source. AreBlocks (C.sets conds.new) list.now source.blocks) }

        // at every outcome
        ensures keeps { Keeps (C.sets conds.old) (C.sets conds.new) }
    {
        let blocks = list.blocks(alloc, conds)?;
        let mut first = Vec::new(alloc);
        for index in 0..list.len() {
            let token = list.item(index).1;
            first.push(terminal(token.kind, names.text(token.spelling), standard))?;
        }
        Ok(Source {
            list,
            blocks,
            terminals: first,
            tables,
            end,
        })
    }

    /// The first terminal of the element, or that of the end.
    pub fn terminal(&self, at: usize) -> Option<Terminal>
        ensures { option_map (λ terminal. terminal.0) result ≡ terminal_in self.now at }
    {
        if at < self.terminals.len() {
            self.terminals[at]
        } else {
            Some(terminals::END)
        }
    }

    /// Where the element stands, or the end.
    pub fn place(&self, at: usize) -> Place
        ensures { result ≡ place_in self.now at }
    {
        if at < self.list.len() {
            self.list.item(at).1.place
        } else {
            self.end
        }
    }

    /// What the subparser does at the element.
    pub fn action(&self, subparser: &Head<'_>, at: usize) -> Option<Action>
        ensures { result ≡ action_in self.now subparser.now at }
    {
        self.tables
            .action(subparser.stack.state(), self.terminal(at)?)
    }

    /// The state behind the terminal, where the subparser shifts it.
    pub fn state_after(&self, subparser: &Head<'_>, terminal: Terminal) -> Option<usize>
        ensures { result ≡ state_after self.now subparser.now terminal.0 }
    {
        match self.tables.action(subparser.stack.state(), terminal)? {
            Action::Shift(state) => Some(state),
            Action::Reduce(_) => None,
        }
    }
}
