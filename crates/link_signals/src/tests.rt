use crate::{Links, Signal};
use memory_refusal::NoMemory;
use std::alloc::Global;
use std::test::Fail;

/// Processes 2, 3 and 4, linked in a ring.
fn ring(alloc: Global) -> Result<Links, NoMemory> {
    let mut links = Links::new(alloc);
    links.add(2)?;
    links.add(3)?;
    links.add(4)?;
    links.link(2, 3, 23)?;
    links.link(3, 4, 34)?;
    links.link(4, 2, 42)?;
    Ok(links)
}

#[test]
fn a_ring_falls(rt: HostRuntime) -> Result<(), Fail> {
    let mut links = ring(rt.alloc())?;
    assert!(rt; !links.fallen(2));
    links.fall(2);
    for pid in [2, 3, 4] {
        assert!(rt; links.fallen(pid), "process {pid}");
    }
    assert_eq!(rt; links.next_signal(), None);
    links.remove(2);
    assert!(rt; links.fallen(2));
    Ok(())
}

#[test]
fn one_that_asks_for_signals_stays(rt: HostRuntime) -> Result<(), Fail> {
    let mut links = ring(rt.alloc())?;
    links.dies(4, false);
    links.fall(2);
    assert!(rt; links.fallen(3));
    assert!(rt; !links.fallen(4));
    assert_eq!(rt; links.next_signal(), Some(Signal { to: 4, tag: 42 }));
    assert_eq!(rt; links.next_signal(), Some(Signal { to: 4, tag: 34 }));
    assert_eq!(rt; links.next_signal(), None);
    Ok(())
}

#[test]
fn links_change(rt: HostRuntime) -> Result<(), Fail> {
    let mut links = Links::new(rt.alloc());
    links.add(2)?;
    links.add(4)?;
    links.link(2, 4, 42)?;
    links.link(4, 2, 7)?;
    links.dies(4, false);
    links.fall(2);
    assert_eq!(rt; links.next_signal(), Some(Signal { to: 4, tag: 7 }));
    assert_eq!(rt; links.next_signal(), None);
    links.dies(4, true);
    links.unlink(4, 2);
    links.fall(2);
    assert!(rt; !links.fallen(4));
    assert_eq!(rt; links.next_signal(), None);
    Ok(())
}
