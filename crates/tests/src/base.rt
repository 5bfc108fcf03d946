use sc_base::{Files, Names};
use std::test::Fail;

#[test]
fn names(rt: HostRuntime) -> Result<(), Fail> {
    let mut names = Names::new(rt.alloc())?;
    let name = names.intern(b"int")?;
    assert_eq!(rt; names.text(name), b"int".as_slice());
    Ok(())
}

#[test]
fn files(rt: HostRuntime) -> Result<(), Fail> {
    let mut files = Files::new(rt.alloc())?;
    let file = files.intern("m.c")?;
    assert_eq!(rt; files.text(file), "m.c");
    Ok(())
}
