use sc_base::LARGEST_FILE;
use sc_space::{Space, SpaceStop};
use std::alloc::Global;
use std::test::Fail;

/// Whether a space file is refused for the fault of this name.
fn is_refused(alloc: Global, text: &[u8], name: &str) -> bool {
    match Space::read(alloc, text) {
        Err(SpaceStop::Fault(fault)) => fault.name() == name,
        _ => false,
    }
}

/// A space file with so many variables of two options each.
fn with_variables(alloc: Global, count: usize) -> Result<String, Fail> {
    let mut text = String::from_str(alloc, "[variables]\n")?;
    for variable in 0..count {
        text.push_str(&format!(in alloc; "V{variable} = [0, 1]\n")?)?;
    }
    Ok(text)
}

#[test]
fn keeps_to_the_sizes(rt: HostRuntime) -> Result<(), Fail> {
    let large = vec![in rt.alloc(); b' '; LARGEST_FILE + 1]?;
    assert!(rt; is_refused(rt.alloc(), &large, "TooLarge"));
    let most = with_variables(rt.alloc(), 1024)?;
    let space = Space::read(rt.alloc(), most.as_bytes())?;
    assert_eq!(rt; space.variables.len(), 1024);
    let more = with_variables(rt.alloc(), 1025)?;
    assert!(rt; is_refused(rt.alloc(), more.as_bytes(), "TooMany"));
    Ok(())
}
