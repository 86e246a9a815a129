use crate::{Journal, entry_text};
use host_port::{Calls, Reply};
use std::alloc::Global;
use std::test::Fail;
use world_rules::{Entry, Halt, Side};

fn give(alloc: Global, fuel: u64, halt: Halt, side: Side) -> Entry {
    Entry::Give {
        worker: 3,
        pid: 1,
        calls: Calls::new(alloc),
        fuel,
        halt,
        side,
    }
}

#[test]
fn a_journal_keeps_what_is_added(rt: HostRuntime) -> Result<(), Fail> {
    let mut journal = Journal::new(rt.alloc());
    journal.reserve(2)?;
    journal.add(Entry::Take { worker: 0, pid: 1 });
    journal.add(Entry::Stall { worker: 0 });
    assert_eq!(rt; journal.len(), 2);
    assert!(rt; matches!(journal.get(0), Some(Entry::Take { worker: 0, pid: 1 })));
    assert!(rt; journal.get(2).is_none());
    assert!(rt; journal.ends().is_empty());
    Ok(())
}

#[test]
fn an_entry_is_a_line(rt: HostRuntime) -> Result<(), Fail> {
    let alloc = rt.alloc();
    let answer = Reply {
        result: Some(4),
        word: None,
        text: None,
    };
    let table: [(Entry, &[u8]); 6] = [
        (Entry::Take { worker: 0, pid: 1 }, b"Take worker 0 pid 1"),
        (
            give(alloc, 2, Halt::Done, Side::Nothing),
            b"Give worker 3 pid 1 calls 0 fuel 2 Done Nothing",
        ),
        (
            give(alloc, 9, Halt::NoMemory, Side::Clock(5)),
            b"Give worker 3 pid 1 calls 0 fuel 9 NoMemory Clock 5",
        ),
        (
            give(alloc, 9, Halt::Again, Side::Answer(answer)),
            b"Give worker 3 pid 1 calls 0 fuel 9 Again Answer 4",
        ),
        (Entry::Tick { worker: 2, now: 70 }, b"Tick worker 2 now 70"),
        (Entry::Starve { worker: 15 }, b"Starve worker 15"),
    ];
    for (entry, text) in &table {
        assert_eq!(rt; entry_text(alloc, entry)?.as_slice(), *text);
    }
    Ok(())
}
