use crate::items::SUMS;
use lr_tables::{Action, Conflict, Nonterminal, Terminal};
use sc_items::states;
use sc_lalr::build;
use std::test::Fail;

/// A state, a terminal and the action there.
const ACTIONS: [(usize, usize, Option<Action>); 5] = [
    (0, 0, Some(Action::Shift(1))),
    (1, 1, Some(Action::Reduce(4))),
    (2, 2, None),
    (6, 1, Some(Action::Shift(4))),
    (6, 2, Some(Action::Reduce(3))),
];

const LOST: Conflict = Conflict {
    state: 6,
    terminal: Terminal(1),
    kept: Action::Shift(4),
    lost: 3,
};

#[test]
fn builds_the_tables_of_sums(rt: HostRuntime) -> Result<(), Fail> {
    let grammar = SUMS;
    let states = states(rt.alloc(), &grammar)?;
    let tables = build(rt.alloc(), &grammar, &states)?;
    for (state, terminal, action) in ACTIONS {
        assert_eq!(rt; tables.action(state, Terminal(terminal)), action);
    }
    assert_eq!(rt; tables.goto(4, Nonterminal(1)), Some(6));
    assert_eq!(rt; tables.conflicts(), [LOST].as_slice());
    Ok(())
}
