//! Grammars as values, and what tables that are built of them hold.

/// A terminal of a grammar, by its number from 0.
#[derive(Clone, Copy, Debug, PartialEq, Eq)]
pub struct Terminal(pub usize);

/// A nonterminal of a grammar, by its number from 0.
#[derive(Clone, Copy, Debug, PartialEq, Eq)]
pub struct Nonterminal(pub usize);

/// A symbol on the right side of a production.
#[derive(Clone, Copy, Debug, PartialEq, Eq)]
pub enum Symbol {
    Terminal(Terminal),
    Nonterminal(Nonterminal),
}

/// What the reduction of a production does to the scopes (C11 6.2.1).
#[derive(Clone, Copy, Debug, PartialEq, Eq)]
pub enum Mark {
    /// Pushes an empty level.
    Push,
    /// Pushes a level, and binds each parameter in it as a variable, in order.
    PushParameters,
    /// Pops the top level.
    Pop,
    /// Pops the top level and puts its bindings before those of the level below.
    Join,
    /// Binds the declared name as a variable.
    BindVariable,
    /// Binds the declared name as a typedef.
    BindTypedef,
}

/// One entry of a grammar: the left side of a production, or the next symbol of the right side that
/// follows it.
#[derive(Clone, Copy, Debug, PartialEq, Eq)]
pub enum Entry {
    /// A production begins. Its reduction may do something to the scopes.
    Left(Nonterminal, Option<Mark>),
    Right(Symbol),
}

/// A grammar, its productions one after the other. They are numbered from 1, and 1 and 2 are those
/// of the symbol that a whole text is derived from.
#[derive(Clone, Copy, Debug)]
pub struct Grammar {
    pub terminals: usize,
    pub nonterminals: usize,
    pub entries: &'static [Entry],
}

/// What a parser does in a state at a terminal.
#[derive(Clone, Copy, Debug, PartialEq, Eq)]
pub enum Action {
    /// Goes to this state.
    Shift(usize),
    /// Reduces by the production of this number.
    Reduce(usize),
}

/// Two actions of one state at one terminal: the one that was kept, and a reduction that was not.
#[derive(Clone, Copy, Debug, PartialEq, Eq)]
pub struct Conflict {
    pub state: usize,
    pub terminal: Terminal,
    pub kept: Action,
    /// The production of the lost reduction.
    pub lost: usize,
}
