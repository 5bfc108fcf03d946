ghost use Rattle.std.specs.Prelude.{◌≡◌, ◌∷◌, []};

use sc_base::Name;
use sc_presence::{Conditions, PlainSets};
use sc_scope::{NameKind, Numbers, Scopes, scopes_own_their_conditions};
use std::alloc::Global;
use std::process::Abort;
use std::test::Fail;

const NAME: Name = Name(5);

/// In some configurations the inner binding, a variable, hides the outer one, a typedef (C11
/// 6.2.1p4).
fn checks_hiding<C: Conditions>(rt: &impl Abort, alloc: Global, conds: &mut C) -> Result<(), Fail>
    requires { (C.sets conds.old).arities ≡ 2 ∷ [] }
{
    let chosen = conds.choose(0, 1)?;
    let mut numbers = Numbers::new();
    let mut scopes = Scopes::new(alloc);
    scopes.push()?;
    scopes.bind(&mut numbers, NAME, NameKind::Typedef, conds.always())?;
    scopes.push()?;
    scopes.bind(&mut numbers, NAME, NameKind::Variable, chosen)?;
    scopes_own_their_conditions();
    let types = scopes.typedef_under(conds, NAME, conds.always())?;
    assert!(rt; conds.holds(types, &[0]) && !conds.holds(types, &[1]));
    Ok(())
}

/// Of two owners one takes off the inner level, in which the name is bound, and the other joins it
/// to the outer one.
fn checks_join<C: Conditions>(rt: &impl Abort, alloc: Global, conds: &mut C) -> Result<(), Fail> {
    let mut numbers = Numbers::new();
    let mut scopes = Scopes::new(alloc);
    scopes.push()?;
    scopes.push()?;
    scopes.bind(&mut numbers, NAME, NameKind::Typedef, conds.always())?;
    let mut other = scopes.share()?;
    other.join(&mut numbers)?;
    scopes.pop()?;
    assert_eq!(rt; (scopes.levels(), other.levels()), (1, 1));
    scopes_own_their_conditions();
    let types = other.typedef_under(conds, NAME, conds.always())?;
    assert_eq!(rt; types, conds.always());
    Ok(())
}

#[test]
fn joined_levels_keep_bindings(rt: HostRuntime) -> Result<(), Fail> {
    checks_join(&rt, rt.alloc(), &mut PlainSets::new(rt.alloc(), &[2])?)
}

#[test]
fn inner_bindings_hide(rt: HostRuntime) -> Result<(), Fail> {
    checks_hiding(&rt, rt.alloc(), &mut PlainSets::new(rt.alloc(), &[2])?)
}
