use sc_base::TreeId;
use sc_stack::Stack;
use std::test::Fail;

#[test]
fn what_one_owner_of_a_stack_does_no_other_sees(rt: HostRuntime) -> Result<(), Fail> {
    let mut stack = Stack::new(rt.alloc());
    stack.push(4, None)?;
    stack.push(7, Some(TreeId(1)))?;
    let mut other = stack.share()?;
    other.push(9, Some(TreeId(2)))?;
    let popped = other.pop(2)?;
    assert_eq!(rt;
        popped.as_slice(),
        [Some(TreeId(1)), Some(TreeId(2))].as_slice()
    );
    assert_eq!(rt; (other.height(), other.state()), (1, 4));
    assert_eq!(rt;
        stack.values()?.as_slice(),
        [None, Some(TreeId(1))].as_slice()
    );
    assert_eq!(rt; (stack.height(), stack.state()), (2, 7));
    Ok(())
}

#[test]
fn a_frame_in_the_place_of_a_shared_one_is_its_owners_alone(rt: HostRuntime) -> Result<(), Fail> {
    let mut stack = Stack::new(rt.alloc());
    stack.push(4, Some(TreeId(1)))?;
    let mut other = stack.share()?;
    let _popped = other.pop(1)?;
    other.push(9, Some(TreeId(2)))?;
    assert_eq!(rt; other.values()?.as_slice(), [Some(TreeId(2))].as_slice());
    assert_eq!(rt; stack.values()?.as_slice(), [Some(TreeId(1))].as_slice());
    assert_eq!(rt; (stack.height(), stack.state()), (1, 4));
    Ok(())
}

#[test]
fn merged_values_are_those_of_one_owner(rt: HostRuntime) -> Result<(), Fail> {
    let mut stack = Stack::new(rt.alloc());
    stack.push(4, Some(TreeId(3)))?;
    stack.push(7, Some(TreeId(1)))?;
    let other = stack.share()?;
    stack.merge_values(&[Some(TreeId(5)), Some(TreeId(6))])?;
    assert_eq!(rt;
        stack.values()?.as_slice(),
        [Some(TreeId(5)), Some(TreeId(6))].as_slice()
    );
    assert_eq!(rt;
        other.values()?.as_slice(),
        [Some(TreeId(3)), Some(TreeId(1))].as_slice()
    );
    assert!(rt; stack.same_states(&other));
    Ok(())
}
