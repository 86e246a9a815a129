use crate::{Plan, Tally, add_in_turn, run_workers};
use log_lock::LogLock;
use std::test::Fail;

#[test]
fn passes_in_turn_keep_their_order(rt: HostRuntime) -> Result<(), Fail> {
    let tally = add_in_turn(&rt, rt.alloc(), 7, 30, 40).map_err(|_| "no memory")?;
    assert_eq!(rt; tally.start, 7);
    assert_eq!(rt; tally.entries.len(), 2);
    for (entry, (by, amount)) in tally.entries.iter().zip([(0, 30), (1, 40)]) {
        assert!(rt; entry.by == by && entry.amount == amount);
    }
    Ok(())
}

#[test]
fn sixty_four_passes_join_into_the_first(rt: HostRuntime) {
    let tally = Tally {
        start: 7,
        entries: Vec::new(rt.alloc()),
    };
    let Ok((lock, mut passes)) = LogLock::new(rt.alloc(), tally, 64) else {
        panic!(rt; "no memory")
    };
    let Some(mut all) = passes.next() else {
        unreachable!()
    };
    assert_eq!(rt; all.number(), 0);
    let mut count = 1;
    while let Some(pass) = passes.next() {
        assert_eq!(rt; pass.number(), count);
        all = lock.join(all, pass);
        count += 1;
    }
    assert_eq!(rt; count, 64);
    assert_eq!(rt; all.number(), 0);
    let tally = lock.close(all);
    assert!(rt; tally.start == 7 && tally.entries.is_empty());
}

#[test]
fn threads_add_all_amounts_in_their_order(rt: HostRuntime) -> Result<(), Fail> {
    for workers in [2, 4] {
        let mut amounts = Vec::new(rt.alloc());
        for amount in 0..100 {
            amounts.push(amount)?;
        }
        assert!(rt; 0 < workers && workers <= 64);
        let plan = Plan {
            start: 7,
            workers,
            amounts,
        };
        let tally = run_workers(&rt, rt.alloc(), &plan).map_err(|_| "no memory")?;
        assert_eq!(rt; tally.start, 7);
        assert_eq!(rt; tally.entries.len(), 100 * usize::from(workers));
        for by in 0..workers {
            let own = tally.entries.iter().filter(|entry| entry.by == by);
            for (entry, amount) in own.zip(0..100) {
                assert_eq!(rt; entry.amount, amount);
            }
            let count = tally.entries.iter().filter(|entry| entry.by == by).count();
            assert_eq!(rt; count, 100);
        }
    }
    Ok(())
}
