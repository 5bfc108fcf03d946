use sc_base::{FileId, Names};
use sc_if::{Value, evaluate};
use sc_lex::tokens;
use sc_model::Standard;
use std::alloc::Global;
use std::test::Fail;

/// What the expression of a line comes to.
fn value_of(alloc: Global, line: &[u8]) -> Result<Value, Fail> {
    let mut names = Names::new(alloc)?;
    let mut tokens = tokens(alloc, FileId(0), line, &mut names)?;
    let _newline = tokens.pop();
    Ok(evaluate(alloc, &tokens, &names, Standard::C11)?)
}

/// Operators by their precedence, and a comparison of unsigned numbers.
#[test]
fn an_expression_has_a_value(rt: HostRuntime) -> Result<(), Fail> {
    let value = value_of(rt.alloc(), b"(1 + 2) * 3 == 9 && -1 > 0u\n")?;
    assert_eq!(rt; value, Value::Signed(1));
    Ok(())
}
