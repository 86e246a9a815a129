use crate::Registry;
use std::test::Fail;

#[test]
fn names_processes(rt: HostRuntime) -> Result<(), Fail> {
    let mut registry = Registry::new(rt.alloc());
    registry.put(b"a", 2)?;
    assert_eq!(rt; registry.get(b"a"), Some(2));
    registry.put(b"b", 3)?;
    registry.put(b"b", 4)?;
    assert_eq!(rt; registry.get(b"b"), Some(4));
    registry.remove_process(2);
    assert_eq!(rt; registry.get(b"a"), None);
    assert_eq!(rt; registry.get(b"b"), Some(4));
    registry.remove(b"b");
    assert_eq!(rt; registry.get(b"b"), None);
    Ok(())
}
