use crate::Queue;
use std::test::Fail;

#[test]
fn keeps_the_order(rt: HostRuntime) -> Result<(), Fail> {
    let mut queue = Queue::new(rt.alloc());
    queue.reserve(3)?;
    queue.push_reserved(4);
    queue.push_reserved(2);
    queue.push_reserved(9);
    queue.remove(2);
    assert_eq!(rt; queue.pop(), Some(4));
    assert_eq!(rt; queue.pop(), Some(9));
    assert_eq!(rt; queue.pop(), None);
    Ok(())
}

#[test]
#[tactic(auto, using(crate::proofs::Dues::insert_le, crate::proofs::Dues::no_deadlines))]
fn wakes_the_least(rt: HostRuntime) -> Result<(), Fail> {
    let mut queue = Queue::new(rt.alloc());
    queue.reserve(3)?;
    queue.set_deadline(8, 10);
    queue.set_deadline(3, 10);
    assert!(rt; queue.timed());
    assert_eq!(rt; queue.due(9), None);
    assert_eq!(rt; queue.due(10), Some(3));
    queue.clear_deadline(8);
    assert!(rt; !queue.timed());
    Ok(())
}

#[test]
#[tactic(auto, using(crate::proofs::Dues::insert_le, crate::proofs::Dues::no_deadlines))]
fn wakes_after_an_early_look(rt: HostRuntime) -> Result<(), Fail> {
    let mut queue = Queue::new(rt.alloc());
    queue.reserve(2)?;
    queue.set_deadline(8, 20);
    assert_eq!(rt; queue.due(19), None);
    queue.set_deadline(3, 10);
    assert_eq!(rt; queue.due(10), Some(3));
    assert_eq!(rt; queue.due(19), None);
    assert_eq!(rt; queue.due(20), Some(8));
    assert_eq!(rt; queue.due(20), None);
    Ok(())
}
