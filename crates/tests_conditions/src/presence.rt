ghost use Rattle.std.specs.Prelude.{◌≡◌, ◌∷◌, []};

use sc_base::OutOfMemory;
use sc_presence::{Conditions, PlainSets};
use std::process::Abort;
use std::test::Fail;

fn checks_a_choice<C: Conditions>(rt: &impl Abort, conds: &mut C) -> Result<(), OutOfMemory>
    requires { (C.sets conds.old).arities ≡ 2 ∷ 3 ∷ [] }
{
    let chosen = conds.choose(1, 2)?;
    assert!(rt; conds.holds(chosen, &[1, 2]) && !conds.holds(chosen, &[1, 1]));
    assert_eq!(rt; conds.top(chosen), Some(1));
    assert!(rt; !conds.is_never(chosen) && !conds.same(chosen, conds.always()));
    let mut config = [7, 7];
    assert!(rt; conds.example(chosen, &mut config));
    assert_eq!(rt; config, [0, 2]);
    Ok(())
}

fn checks_negation<C: Conditions>(rt: &impl Abort, conds: &mut C) -> Result<(), OutOfMemory>
    requires { (C.sets conds.old).arities ≡ 2 ∷ 3 ∷ [] }
{
    let chosen = conds.choose(0, 1)?;
    let others = conds.negate(chosen)?;
    let both = conds.apply_and(chosen, others)?;
    assert_eq!(rt; both, conds.never());
    Ok(())
}

fn checks_parts<C: Conditions>(rt: &impl Abort, conds: &mut C) -> Result<(), OutOfMemory>
    requires { (C.sets conds.old).arities ≡ 2 ∷ 3 ∷ [] }
{
    let chosen = conds.choose(0, 1)?;
    let either = conds.apply_or(conds.never(), chosen)?;
    let whole = conds.part(either, 0, 1)?;
    assert_eq!(rt; whole, conds.always());
    Ok(())
}

#[test]
fn operations(rt: HostRuntime) -> Result<(), Fail> {
    checks_a_choice(&rt, &mut PlainSets::new(rt.alloc(), &[2, 3])?)?;
    checks_negation(&rt, &mut PlainSets::new(rt.alloc(), &[2, 3])?)?;
    checks_parts(&rt, &mut PlainSets::new(rt.alloc(), &[2, 3])?)?;
    Ok(())
}
