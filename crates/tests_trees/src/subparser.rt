use sc_base::{Cond, OutOfMemory, TreeId};
use sc_merge::{Phase, Subparser, key};
use sc_scope::Scopes;
use sc_stack::Stack;
use std::alloc::Global;
use std::test::Fail;

/// A subparser before the first element, with one tree on its stack.
fn subparser(alloc: Global, cond: Cond, tree: TreeId) -> Result<Subparser, OutOfMemory> {
    let mut stack = Stack::new(alloc);
    stack.push(4, Some(tree))?;
    Ok(Subparser {
        cond,
        stack,
        scopes: Scopes::new(alloc),
        phase: Phase::Between(0),
    })
}

#[test]
fn keys_tell_phases_apart(rt: HostRuntime) -> Result<(), Fail> {
    let left = subparser(rt.alloc(), Cond(1), TreeId(1))?;
    let right = subparser(rt.alloc(), Cond(2), TreeId(2))?;
    let mut later = subparser(rt.alloc(), Cond(1), TreeId(1))?;
    later.phase = Phase::At(0);
    let (left, right, later) = (left.head(), right.head(), later.head());
    assert!(rt; key(&left) == key(&right) && key(&left) != key(&later));
    Ok(())
}
