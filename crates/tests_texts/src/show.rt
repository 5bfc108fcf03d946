ghost use Rattle.std.specs.Prelude.{◌≡◌, ◌∷◌, [], IfOk};
ghost use Rattle.sc_model.specs.Space.{arities_of};
ghost use Rattle.sc_show.specs.Prints.{HasWordNames};
ghost use Rattle.sc_space.specs.Seen.{seen_space};

use lr_tables::{Entry, Grammar, Nonterminal, Symbol};
use sc_base::{Cause, Fault, Files, Limits, Names, OutOfMemory, Place};
use sc_grammar::terminal::{ELSE, END, IF, SEMICOLON};
use sc_guarded::Guarded;
use sc_items::states;
use sc_lalr::build;
use sc_model::Standard;
use sc_presence::{Conditions, PlainSets};
use sc_show::{show_conflicts, show_tokens};
use sc_space::{Space, Variable, VariableOption};
use std::alloc::Global;
use std::test::Fail;

const STATEMENT: Symbol = Symbol::Nonterminal(Nonterminal(1));

const EMPTY: Symbol = Symbol::Nonterminal(Nonterminal(2));

/// A text is a statement and its end, or the end alone. A statement is an `if` with or without an
/// `else`, a semicolon, or an empty one, which is a semicolon too.
const STATEMENTS: Grammar = Grammar {
    terminals: 96,
    nonterminals: 3,
    entries: &[
        Entry::Left(Nonterminal(0), None),
        Entry::Right(STATEMENT),
        Entry::Right(Symbol::Terminal(END)),
        Entry::Left(Nonterminal(0), None),
        Entry::Right(Symbol::Terminal(END)),
        Entry::Left(Nonterminal(1), None),
        Entry::Right(Symbol::Terminal(IF)),
        Entry::Right(STATEMENT),
        Entry::Left(Nonterminal(1), None),
        Entry::Right(Symbol::Terminal(IF)),
        Entry::Right(STATEMENT),
        Entry::Right(Symbol::Terminal(ELSE)),
        Entry::Right(STATEMENT),
        Entry::Left(Nonterminal(1), None),
        Entry::Right(Symbol::Terminal(SEMICOLON)),
        Entry::Left(Nonterminal(1), None),
        Entry::Right(EMPTY),
        Entry::Left(Nonterminal(2), None),
        Entry::Right(Symbol::Terminal(SEMICOLON)),
    ],
};

#[test]
fn shows_the_conflicts_of_statements(rt: HostRuntime) -> Result<(), Fail> {
    let grammar = STATEMENTS;
    let states = states(rt.alloc(), &grammar)?;
    let tables = build(rt.alloc(), &grammar, &states)?;
    let text = show_conflicts(rt.alloc(), &tables)?;
    let lines = b"k 2 else r5 r7\nk 2 END r5 r7\nk 6 else s r3\nend\n";
    assert_eq!(rt; text.as_slice(), lines.as_slice());
    Ok(())
}

/// A space of one variable with two options.
fn space(alloc: Global) -> Result<Space, OutOfMemory>
    ensures arities { IfOk result (λ space. arities_of (seen_space space) ≡ 2 ∷ []) }
    ensures names { IfOk result (λ space. HasWordNames (seen_space space)) }
{
    let mut options = Vec::new(alloc);
    options.push(VariableOption::Undefined)?;
    options.push(VariableOption::Number(1))?;
    let name = String::from_str(alloc, "A")?;
    let mut variables = Vec::new(alloc);
    variables.push(Variable { name, options })?;
    Ok(Space {
        variables,
        include: Vec::new(alloc),
        limits: Limits {
            branches: 1,
            include_depth: 15,
        },
        date: String::new(alloc),
        time: String::new(alloc),
        standard: Standard::C11,
        valid: None,
    })
}

/// The text of two faults of one cause and place, under the two options of the variable.
fn text_of_two_faults<C: Conditions>(
    alloc: Global,
    conds: &mut C,
    space: &Space,
) -> Result<Vec<u8>, OutOfMemory>
    requires arities { (C.sets conds.old).arities ≡ arities_of (seen_space space.now) }
    requires options { (C.sets conds.old).arities ≡ 2 ∷ [] }
    requires names { HasWordNames (seen_space space.now) }
{
    let mut files = Files::new(alloc)?;
    let file = files.intern("m.c")?;
    let place = Place {
        file,
        line: 1,
        column: 1,
    };
    let with = conds.choose(0, 1)?;
    let without = conds.negate(with)?;
    let first = Fault {
        cond: with,
        cause: Cause::BadNesting,
        place,
    };
    let faults = [
        first,
        Fault {
            cond: without,
            ..first
        },
    ];
    let names = Names::new(alloc)?;
    show_tokens(
        alloc,
        conds,
        space,
        &names,
        &files,
        &Guarded::new(alloc)?,
        &faults,
    )
}

#[test]
fn faults_of_one_cause_and_place_are_one_line(rt: HostRuntime) -> Result<(), Fail> {
    let alloc = rt.alloc();
    let space = space(alloc)?;
    let text = text_of_two_faults(alloc, &mut PlainSets::new(alloc, &[2])?, &space)?;
    let lines = b"s 0 m.c\nf 1 4 BadNesting 0:1:1\nend\n";
    assert_eq!(rt; text.as_slice(), lines.as_slice());
    Ok(())
}
