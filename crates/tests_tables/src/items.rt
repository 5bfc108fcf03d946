use lr_tables::{Entry, Grammar, Nonterminal, Symbol, Terminal};
use sc_items::states;
use std::test::Fail;

const NUMBER: Symbol = Symbol::Terminal(Terminal(0));

const PLUS: Symbol = Symbol::Terminal(Terminal(1));

const END: Symbol = Symbol::Terminal(Terminal(2));

const SUM: Symbol = Symbol::Nonterminal(Nonterminal(1));

/// A text is a sum and its end, or the end alone. A sum is a sum, a plus and a sum, or a number.
pub const SUMS: Grammar = Grammar {
    terminals: 3,
    nonterminals: 2,
    entries: &[
        Entry::Left(Nonterminal(0), None),
        Entry::Right(SUM),
        Entry::Right(END),
        Entry::Left(Nonterminal(0), None),
        Entry::Right(END),
        Entry::Left(Nonterminal(1), None),
        Entry::Right(SUM),
        Entry::Right(PLUS),
        Entry::Right(SUM),
        Entry::Left(Nonterminal(1), None),
        Entry::Right(NUMBER),
    ],
};

/// A state, a symbol and where it leads.
const GOTOS: [(usize, usize, Option<usize>); 9] = [
    (0, 0, Some(1)),
    (0, 2, Some(2)),
    (0, 4, Some(3)),
    (3, 1, Some(4)),
    (3, 2, Some(5)),
    (4, 0, Some(1)),
    (4, 4, Some(6)),
    (6, 1, Some(4)),
    (6, 2, None),
];

#[test]
fn finds_the_states_of_sums(rt: HostRuntime) -> Result<(), Fail> {
    let states = states(rt.alloc(), &SUMS)?;
    assert_eq!(rt; states.len(), 7);
    for (state, symbol, next) in GOTOS {
        assert_eq!(rt; states.goto(state, symbol), next);
    }
    assert!(rt; states.has(4, 9) && !states.has(4, 0));
    Ok(())
}
