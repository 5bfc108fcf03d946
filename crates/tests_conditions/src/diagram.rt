use sc_diagram::Store;
use std::test::Fail;

/// A node that leads to never and to always is the only one of its diagram.
#[test]
fn a_node_leads_to_its_children(rt: HostRuntime) -> Result<(), Fail> {
    let mut store = Store::new(rt.alloc(), &[2, 2])?;
    let node = store.node(0, &[store.never(), store.always()])?;
    let first = store.eval(node, &[0, 1]);
    let second = store.eval(node, &[1, 0]);
    assert_eq!(rt; [first, second], [false, true]);
    assert_eq!(rt; store.len(), 1);
    Ok(())
}
