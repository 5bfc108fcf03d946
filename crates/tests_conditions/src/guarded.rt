ghost use Rattle.std.specs.Prelude.{◌≡◌, ◌<◌, ℕ, ◌∷◌, [], All, length, IfOk};
ghost use Rattle.sc_model.specs.Sets.{IsCond};

use sc_base::{Cond, FileId, Kind, Name, OutOfMemory, Place, Token};
use sc_guarded::{Guarded, Steps};
use sc_presence::{Conditions, PlainSets};
use sc_project::project_tokens;
use std::alloc::Global;
use std::marker::Brand;
use std::process::Abort;
use std::sync::ledger::{Blank, Ledger};
use std::test::Fail;

const TOKEN: Token = Token {
    kind: Kind::Identifier,
    name: Name(0),
    spelling: Name(0),
    space: false,
    place: Place {
        file: FileId(0),
        line: 1,
        column: 1,
    },
};

/// A token everywhere, and one where the first variable has its second option.
fn two_tokens<C: Conditions>(
    alloc: Global,
    conds: &C,
    chosen: Cond,
) -> Result<Guarded<Token>, OutOfMemory>
    requires { IsCond (C.sets conds.now) chosen.0 }
    ensures own { IfOk result (λ list. All (λ item. IsCond (C.sets conds.now) item.0.0) list) }
    ensures long { IfOk result (λ list. length list ≡ 2) }
{
    let mut list = Guarded::new(alloc)?;
    list.push(conds.always(), TOKEN)?;
    list.push(chosen, TOKEN)?;
    Ok(list)
}

fn checks_list<C: Conditions>(rt: &impl Abort, alloc: Global, conds: &mut C) -> Result<(), Fail>
    requires { (C.sets conds.old).arities ≡ 2 ∷ [] }
{
    let chosen = conds.choose(0, 1)?;
    let mut list = two_tokens(alloc, conds, chosen)?;
    let parts = list.follow(alloc, conds, 1, conds.always())?;
    assert_eq!(rt; parts.len(), 2);
    list.restrict(conds, 0, chosen)?;
    assert_eq!(rt; project_tokens(alloc, conds, &list, &[1])?.len(), 2);
    assert_eq!(rt; list.project(alloc, conds, &[0])?.len(), 0);
    Ok(())
}

#[test]
fn lists(rt: HostRuntime) -> Result<(), Fail> {
    checks_list(&rt, rt.alloc(), &mut PlainSets::new(rt.alloc(), &[2])?)
}

/// The same parts, each block looked at once.
fn checks_blocks<C: Conditions, L: Ledger>(
    rt: &impl Abort,
    alloc: Global,
    conds: &mut C,
    blank: Blank,
) -> Result<(), Fail>
    requires arities { (C.sets conds.old).arities ≡ 2 ∷ [] }
    requires name { blank.name ≡ L.name }
    requires parts { blank.parts ≡ L.parts }
    requires some { 0 < blank.parts }
{
    let chosen = conds.choose(0, 1)?;
    let list = two_tokens(alloc, conds, chosen)?;
    let blocks = list.blocks(alloc, conds)?;
    let mut steps = Steps::<L>::new(blank);
    let always = conds.always();
    let parts = list.follow_counted(alloc, conds, &blocks, 1, always, &mut steps)?;
    assert_eq!(rt; parts.len(), 2);
    Ok(())
}

#[test]
fn blocks(rt: HostRuntime) -> Result<(), Fail> {
    let mut conds = PlainSets::new(rt.alloc(), &[2])?;
    checks_blocks::<PlainSets, Brand>(&rt, rt.alloc(), &mut conds, Blank::new(1))
}
