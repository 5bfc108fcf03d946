ghost use Rattle.std.specs.Prelude.{◌<◌, All, IfOk, length};
ghost use Rattle.sc_base.specs.Seen.{IsHeld};
ghost use Rattle.sc_subst.specs.Seen.{IsHeldHidden};

use sc_base::{FileId, Names, OutOfMemory, Token};
use sc_lex::tokens;
use sc_subst::{Hidden, HideSets, Tokens};
use std::alloc::Global;
use std::test::Fail;

/// The tokens of a line, which hide no name.
fn hidden_of(
    alloc: Global,
    sets: &HideSets,
    names: &Names,
    line: &[Token],
) -> Result<Vec<Hidden>, OutOfMemory>
    requires { All (IsHeld names.now) line.now }
    ensures { IfOk result (λ list. All (IsHeldHidden names.now sets.now) list.items) }
{
    let _names = names;
    let mut list = Vec::new(alloc);
    for token in line {
        list.push(Hidden::new(sets, *token))?;
    }
    Ok(list)
}

/// What closes the first, the 40th and the 41st of 80 tokens and a newline, and, without the two
/// parentheses at the ends, the first.
fn closings(names: &Names, list: &Tokens) -> Result<[Option<usize>; 4], Fail>
    requires { All (λ h. h.token.spelling.0 < length names.now) list.now }
{
    if list.len() != 81 {
        return Err(Fail::new("not 80 tokens and a newline"));
    }
    let inner = list.share(1, 79)?;
    Ok([
        list.closing(names, 0),
        list.closing(names, 39),
        list.closing(names, 40),
        inner.closing(names, 0),
    ])
}

/// The tokens of a line in a shared list.
fn shared_of(alloc: Global, names: &Names, line: &[Token]) -> Result<Tokens, OutOfMemory>
    requires { All (IsHeld names.now) line.now }
    ensures { IfOk result (λ list. All (λ h. h.token.spelling.0 < length names.now) list) }
{
    let sets = HideSets::new(alloc)?;
    let list = hidden_of(alloc, &sets, names, line)?;
    Tokens::of(alloc, names, list)
}

/// What `closings` answers for the tokens of a text.
fn closings_in(alloc: Global, text: &[u8]) -> Result<[Option<usize>; 4], Fail> {
    let mut names = Names::new(alloc)?;
    let line = tokens(alloc, FileId(0), text, &mut names)?;
    let list = shared_of(alloc, &names, &line)?;
    closings(&names, &list)
}

/// 40 parentheses that open groups, and the 40 that close them.
const NESTED: &[u8] =
    b"(((((((((((((((((((((((((((((((((((((((())))))))))))))))))))))))))))))))))))))))";

/// In a list that is long enough for its parentheses to be known, and in a part of it.
#[test]
fn closing_finds_the_parenthesis_that_belongs_to_another(rt: HostRuntime) -> Result<(), Fail> {
    let found = closings_in(rt.alloc(), NESTED)?;
    assert_eq!(rt; found, [Some(79), Some(40), None, Some(77)]);
    Ok(())
}
