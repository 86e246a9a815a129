use crate::plays::{
    MINUS_ONE, answered, asks, begin, connect, ends, give, naps, plain, read_reply, read_stream,
    receive_any, receive_tag, reply, request, spawn, start_of, step, take, turn, written_reply,
};
use crate::{PlainRun, PlainWorld, apply};
use host_port::{Call, Limits, Param, Request, Start};
use memory_refusal::NoMemory;
use std::alloc::Global;
use std::test::Fail;
use wasm_ops::{Num, Trap};
use world_rules::{Birth, Entry, Halt, HostFault, Side};

/// A new scratch message with this tag.
fn create(alloc: Global, tag: u64) -> Result<Call, NoMemory> {
    Ok(answered(plain(alloc, 0, [tag, 0, 0])?, None))
}

/// A stream goes into the slot of this number.
fn push(alloc: Global, handle: u64, slot: u64) -> Result<Call, NoMemory> {
    Ok(answered(plain(alloc, 6, [handle, 0, 0])?, Some(slot)))
}

fn send(alloc: Global, pid: u64) -> Result<Request, NoMemory> {
    plain(alloc, 8, [pid, 0, 0])
}

/// Process 1 sends a message of this tag to another.
fn sends(alloc: Global, run: PlainRun, tag: u64, to: u64, fuel: u64) -> Result<PlainRun, Fail> {
    let calls = vec![in alloc; create(alloc, tag)?]?;
    turn(
        run,
        1,
        calls,
        fuel,
        Halt::Asks(send(alloc, to)?),
        Side::Nothing,
    )
}

/// The tag of the scratch message, as a process is told it in a turn that ends with this request.
fn sees_tag(
    alloc: Global,
    run: PlainRun,
    tag: u64,
    fuel: u64,
    request: Request,
    now: u64,
) -> Result<PlainRun, Fail> {
    let calls = vec![in alloc; answered(plain(alloc, 5, [0, 0, 0])?, Some(tag))]?;
    turn(run, 1, calls, fuel, Halt::Asks(request), Side::Clock(now))
}

#[test]
fn messages_come_by_tag(rt: HostRuntime) -> Result<(), Fail> {
    let alloc = rt.alloc();
    let mut run = begin(alloc, 0)?;
    run = sends(alloc, run, 5, 1, 5)?;
    run = sends(alloc, run, 7, 1, 10)?;
    run = sends(alloc, run, 6, 1, 15)?;
    run = asks(
        alloc,
        run,
        1,
        20,
        receive_tag(alloc, 7, MINUS_ONE)?,
        Side::Clock(10),
    )?;
    run = sees_tag(alloc, run, 7, 25, receive_any(alloc, MINUS_ONE)?, 9)?;
    run = sees_tag(alloc, run, 5, 30, receive_tag(alloc, 7, 0)?, 12)?;
    run = sees_tag(alloc, run, 5, 35, receive_any(alloc, 0)?, 12)?;
    run = sees_tag(alloc, run, 6, 40, receive_any(alloc, MINUS_ONE)?, 12)?;
    run = step(run, Entry::Stall { worker: 0 })?;
    assert_eq!(rt;
        run.report(alloc)?.as_slice(),
        b"process 1 stalled fuel 40 pages 0 mark 0\ntotal processes 1 messages 3 streams 0\n".as_slice()
    );
    Ok(())
}

#[test]
fn a_mailbox_holds_1024_messages(rt: HostRuntime) -> Result<(), Fail> {
    let alloc = rt.alloc();
    let mut run = begin(alloc, 0)?;
    for sent in 0..1024 {
        run = sends(alloc, run, sent, 1, 1)?;
    }
    let calls = vec![in alloc; create(alloc, 9)?]?;
    run = step(run, take(1))?;
    let refused = give(1, calls, 1, Halt::Asks(send(alloc, 1)?), Side::NoMemory);
    assert!(rt; !run.allows(&refused)?);
    let calls = vec![in alloc; create(alloc, 9)?]?;
    run = step(
        run,
        give(1, calls, 1, Halt::Asks(send(alloc, 1)?), Side::Nothing),
    )?;
    run = sees_tag(alloc, run, 9, 2, receive_any(alloc, 0)?, 0)?;
    run = sees_tag(alloc, run, 0, 2, receive_any(alloc, 0)?, 0)?;
    run = ends(alloc, run, 1, 2, Halt::Done)?;
    assert_eq!(rt;
        run.report(alloc)?.as_slice(),
        b"process 1 done fuel 2 pages 0 mark 0\ntotal processes 1 messages 1024 streams 0\n".as_slice()
    );
    Ok(())
}

/// Processes 1, 2 and 3, with a stream in the table of 2; 2 is out to worker 0, and doomed to be killed by 1.
fn killing(alloc: Global) -> Result<PlainRun, Fail> {
    let mut run = begin(alloc, 2)?;
    run = asks(alloc, run, 1, 1, spawn(alloc, 0)?, Side::Nothing)?;
    run = asks(alloc, run, 2, 1, connect(alloc)?, Side::Opened)?;
    run = asks(alloc, run, 1, 2, spawn(alloc, 0)?, Side::Nothing)?;
    run = step(run, take(2))?;
    run = step(run, Entry::Take { worker: 1, pid: 3 })?;
    run = step(
        run,
        Entry::Give {
            worker: 1,
            pid: 3,
            calls: host_port::Calls::new(alloc),
            fuel: 10_000,
            halt: Halt::Slice,
            side: Side::Nothing,
        },
    )?;
    asks(
        alloc,
        run,
        1,
        3,
        plain(alloc, 13, [2, 0, 0])?,
        Side::Nothing,
    )
}

#[test]
fn a_process_that_is_out_is_killed_with_its_stream(rt: HostRuntime) -> Result<(), Fail> {
    let alloc = rt.alloc();
    let mut run = killing(alloc)?;
    let elsewhere = Entry::Give {
        worker: 1,
        pid: 2,
        calls: host_port::Calls::new(alloc),
        fuel: 4,
        halt: Halt::Done,
        side: Side::Nothing,
    };
    assert!(rt; !run.allows(&elsewhere)?);
    let calls = vec![in alloc; create(alloc, 9)?, push(alloc, 0, 0)?]?;
    run = step(
        run,
        give(2, calls, 4, Halt::Asks(send(alloc, 3)?), Side::Nothing),
    )?;
    assert_eq!(rt; run.world().closed.as_slice(), [0].as_slice());
    assert_eq!(rt; run.world().sends, 0);
    run = ends(alloc, run, 3, 10_001, Halt::Done)?;
    run = ends(alloc, run, 1, 4, Halt::Done)?;
    assert_eq!(rt;
        run.report(alloc)?.as_slice(),
        b"process 2 killed fuel 4 pages 0 mark 0\nprocess 3 done fuel 10001 pages 0 mark 0\n\
          process 1 done fuel 4 pages 0 mark 0\ntotal processes 3 messages 0 streams 1\n"
            .as_slice()
    );
    Ok(())
}

#[test]
fn a_stream_opened_for_a_doomed_process_is_closed(rt: HostRuntime) -> Result<(), Fail> {
    let alloc = rt.alloc();
    let mut run = killing(alloc)?;
    let opens = Halt::Asks(connect(alloc)?);
    run = step(run, give(2, Vec::new(alloc), 4, opens, Side::Opened))?;
    assert_eq!(rt; run.world().closed.as_slice(), [1, 0].as_slice());
    assert_eq!(rt; run.world().streams, 2);
    Ok(())
}

/// Process 1 has stream 0 in its table, and is out.
fn holding(alloc: Global) -> Result<PlainRun, Fail> {
    let mut run = begin(alloc, 0)?;
    run = asks(alloc, run, 1, 1, connect(alloc)?, Side::Opened)?;
    step(run, take(1))
}

#[test]
fn the_stream_of_another_table_is_not_pushed(rt: HostRuntime) -> Result<(), Fail> {
    let alloc = rt.alloc();
    let run = holding(alloc)?;
    let calls = vec![in alloc; create(alloc, 5)?, push(alloc, 1, 0)?]?;
    assert!(rt; !run.allows(&give(1, calls, 2, Halt::Done, Side::Nothing))?);
    let pushes = plain(alloc, 6, [1, 0, 0])?;
    let calls = vec![in alloc; create(alloc, 5)?]?;
    let faults = Halt::Host(HostFault::NoSuchHandle, pushes);
    assert!(rt; run.allows(&give(1, calls, 2, faults, Side::Nothing))?);
    Ok(())
}

#[test]
fn a_stream_comes_back_from_an_ended_process(rt: HostRuntime) -> Result<(), Fail> {
    let alloc = rt.alloc();
    let mut run = holding(alloc)?;
    let calls = vec![in alloc; create(alloc, 5)?, push(alloc, 0, 0)?]?;
    run = step(
        run,
        give(1, calls, 2, Halt::Asks(send(alloc, 9)?), Side::Nothing),
    )?;
    let calls = vec![in alloc; answered(plain(alloc, 7, [0, 0, 0])?, Some(0))]?;
    let again = Halt::Host(HostFault::EmptyPlace, plain(alloc, 7, [0, 0, 0])?);
    run = turn(run, 1, calls, 3, again, Side::Nothing)?;
    assert_eq!(rt;
        run.report(alloc)?.as_slice(),
        b"process 1 host emptyplace fuel 3 pages 0 mark 0\ntotal processes 1 messages 0 streams 1\n".as_slice()
    );
    Ok(())
}

/// A link of a process with another.
fn links(
    alloc: Global,
    run: PlainRun,
    pid: u64,
    fuel: u64,
    tag: u64,
    other: u64,
) -> Result<PlainRun, Fail> {
    asks(
        alloc,
        run,
        pid,
        fuel,
        plain(alloc, 14, [tag, other, 0])?,
        Side::Nothing,
    )
}

/// Processes 2, 3 and 4 are linked in a ring and ready, in this order; process 1 waits.
fn ring(alloc: Global) -> Result<PlainRun, Fail> {
    let mut run = begin(alloc, 3)?;
    run = asks(alloc, run, 1, 1, spawn(alloc, 0)?, Side::Nothing)?;
    run = naps(alloc, run, 2, 1)?;
    run = asks(alloc, run, 1, 2, spawn(alloc, 0)?, Side::Nothing)?;
    run = links(alloc, run, 2, 2, 23, 3)?;
    run = naps(alloc, run, 3, 1)?;
    run = asks(alloc, run, 1, 3, spawn(alloc, 0)?, Side::Nothing)?;
    run = naps(alloc, run, 2, 3)?;
    run = links(alloc, run, 3, 2, 34, 4)?;
    run = links(alloc, run, 4, 1, 42, 2)?;
    asks(
        alloc,
        run,
        1,
        4,
        receive_any(alloc, MINUS_ONE)?,
        Side::Clock(0),
    )
}

#[test]
fn a_ring_of_links_falls(rt: HostRuntime) -> Result<(), Fail> {
    let alloc = rt.alloc();
    let mut run = ring(alloc)?;
    run = ends(alloc, run, 2, 4, Halt::Trap(Trap::Unreachable))?;
    run = step(run, Entry::Stall { worker: 0 })?;
    assert_eq!(rt;
        run.report(alloc)?.as_slice(),
        b"process 2 trap unreachable fuel 4 pages 0 mark 0\nprocess 3 linked fuel 2 pages 0 mark 0\n\
          process 4 linked fuel 1 pages 0 mark 0\nprocess 1 stalled fuel 4 pages 0 mark 0\n\
          total processes 4 messages 0 streams 0\n"
            .as_slice()
    );
    Ok(())
}

#[test]
fn one_that_asks_for_signals_lives(rt: HostRuntime) -> Result<(), Fail> {
    let alloc = rt.alloc();
    let mut run = ring(alloc)?;
    run = naps(alloc, run, 2, 4)?;
    run = naps(alloc, run, 3, 3)?;
    run = asks(
        alloc,
        run,
        4,
        2,
        plain(alloc, 16, [0, 0, 0])?,
        Side::Nothing,
    )?;
    run = ends(alloc, run, 2, 5, Halt::Trap(Trap::Bounds))?;
    run = asks(alloc, run, 4, 3, receive_any(alloc, 0)?, Side::Clock(0))?;
    let calls = vec![in alloc; answered(plain(alloc, 5, [0, 0, 0])?, Some(42))]?;
    run = turn(
        run,
        4,
        calls,
        4,
        Halt::Asks(receive_any(alloc, 0)?),
        Side::Clock(0),
    )?;
    let calls = vec![in alloc; answered(plain(alloc, 5, [0, 0, 0])?, Some(34))]?;
    run = turn(run, 4, calls, 5, Halt::Done, Side::Nothing)?;
    run = step(run, Entry::Stall { worker: 0 })?;
    assert_eq!(rt;
        run.report(alloc)?.as_slice(),
        b"process 2 trap bounds fuel 5 pages 0 mark 0\nprocess 3 linked fuel 3 pages 0 mark 0\n\
          process 4 done fuel 5 pages 0 mark 0\nprocess 1 stalled fuel 4 pages 0 mark 0\n\
          total processes 4 messages 0 streams 0\n"
            .as_slice()
    );
    Ok(())
}

#[test]
fn sleeps_and_late_receives_end_by_ticks(rt: HostRuntime) -> Result<(), Fail> {
    let alloc = rt.alloc();
    let mut run = begin(alloc, 0)?;
    run = asks(
        alloc,
        run,
        1,
        1,
        plain(alloc, 17, [5, 0, 0])?,
        Side::Clock(100),
    )?;
    assert!(rt; !run.allows(&Entry::Stall { worker: 0 })?);
    assert!(rt; !run.allows(&take(1))?);
    run = step(
        run,
        Entry::Tick {
            worker: 0,
            now: 104,
        },
    )?;
    assert!(rt; !run.allows(&take(1))?);
    run = step(
        run,
        Entry::Tick {
            worker: 0,
            now: 105,
        },
    )?;
    assert!(rt;
        !run.allows(&Entry::Tick {
            worker: 0,
            now: 106
        })?
    );
    run = asks(alloc, run, 1, 2, receive_any(alloc, 7)?, Side::Clock(50))?;
    run = step(
        run,
        Entry::Tick {
            worker: 0,
            now: 111,
        },
    )?;
    assert!(rt; !run.allows(&take(1))?);
    run = step(
        run,
        Entry::Tick {
            worker: 0,
            now: 112,
        },
    )?;
    run = asks(
        alloc,
        run,
        1,
        3,
        receive_any(alloc, MINUS_ONE)?,
        Side::Clock(1),
    )?;
    run = step(run, Entry::Stall { worker: 0 })?;
    assert!(rt; !run.allows(&Entry::Starve { worker: 0 })?);
    assert_eq!(rt;
        run.report(alloc)?.as_slice(),
        b"process 1 stalled fuel 3 pages 0 mark 0\ntotal processes 1 messages 0 streams 0\n".as_slice()
    );
    Ok(())
}

#[test]
fn a_run_that_only_tries_again_is_idle(rt: HostRuntime) -> Result<(), Fail> {
    let alloc = rt.alloc();
    let mut run = begin(alloc, 0)?;
    run = asks(alloc, run, 1, 1, connect(alloc)?, Side::Opened)?;
    run = asks(alloc, run, 1, 2, read_stream(alloc, 0)?, Side::Pending)?;
    run = step(run, take(1))?;
    assert!(rt; !run.allows(&give(1, Vec::new(alloc), 3, Halt::Again, Side::Pending))?);
    assert!(rt; !run.allows(&give(1, Vec::new(alloc), 2, Halt::Done, Side::Nothing))?);
    run = step(run, give(1, Vec::new(alloc), 2, Halt::Again, Side::Pending))?;
    assert_eq!(rt; run.world().row, 2);
    run = step(run, Entry::Idle { worker: 0 })?;
    assert_eq!(rt;
        run.report(alloc)?.as_slice(),
        b"process 1 idle fuel 2 pages 0 mark 0\ntotal processes 1 messages 0 streams 1\n".as_slice()
    );
    Ok(())
}

#[test]
fn two_connections_are_echoed(rt: HostRuntime) -> Result<(), Fail> {
    let alloc = rt.alloc();
    let mut run = begin(alloc, 0)?;
    // bind answers the listener 0, and each accept opens a stream
    let bound = host_port::Reply {
        result: Some(0),
        word: Some(host_port::Word {
            addr: 100,
            width: 8,
            value: 0,
        }),
        text: None,
    };
    run = asks(
        alloc,
        run,
        1,
        1,
        plain(alloc, 27, [0, 0, 100])?,
        Side::Answer(bound),
    )?;
    for handle in 0..2 {
        run = asks(
            alloc,
            run,
            1,
            2,
            plain(alloc, 29, [0, 200, 0])?,
            Side::Opened,
        )?;
        let read = read_reply(alloc, b"hi")?;
        run = asks(
            alloc,
            run,
            1,
            2,
            read_stream(alloc, handle)?,
            Side::Answer(read),
        )?;
        let write = request(alloc, 32, [handle, 300, 2, 400, 0, 0, 0, 0], b"hi", b"")?;
        run = asks(alloc, run, 1, 2, write, Side::Answer(written_reply(2)))?;
    }
    let calls = vec![in alloc; answered(plain(alloc, 33, [0, 0, 0])?, None)]?;
    run = turn(run, 1, calls, 3, Halt::Done, Side::Nothing)?;
    assert_eq!(rt; run.world().closed.as_slice(), [0, 1].as_slice());
    assert_eq!(rt;
        run.report(alloc)?.as_slice(),
        b"process 1 done fuel 3 pages 0 mark 0\ntotal processes 1 messages 0 streams 2\n".as_slice()
    );
    Ok(())
}

/// A call of the registry with this name and this number.
fn named(alloc: Global, call: u8, name: &[u8], number: u64) -> Result<Request, NoMemory> {
    request(alloc, call, [0, 1, number, 0, 0, 0, 0, 0], name, b"")
}

#[test]
fn names_name_live_processes(rt: HostRuntime) -> Result<(), Fail> {
    let alloc = rt.alloc();
    let mut run = begin(alloc, 1)?;
    run = asks(alloc, run, 1, 1, spawn(alloc, 0)?, Side::Nothing)?;
    run = naps(alloc, run, 2, 1)?;
    run = asks(alloc, run, 1, 2, named(alloc, 24, b"a", 2)?, Side::Nothing)?;
    run = naps(alloc, run, 2, 2)?;
    run = asks(alloc, run, 1, 3, named(alloc, 25, b"a", 80)?, Side::Nothing)?;
    run = ends(alloc, run, 2, 3, Halt::Done)?;
    run = asks(alloc, run, 1, 4, named(alloc, 25, b"a", 80)?, Side::Nothing)?;
    run = asks(alloc, run, 1, 5, named(alloc, 24, b"b", 9)?, Side::Nothing)?;
    let calls = run.world().at(1).ok_or("nobody")?.calls.as_slice();
    let results = [Some(0), Some(0), Some(0), Some(1), Some(1)];
    assert_eq!(rt; calls.len(), 5);
    for (call, result) in calls.iter().zip(results.iter()) {
        assert_eq!(rt; call.reply.result, *result);
    }
    Ok(())
}

/// Process 1 is out and may ask for a child with a parameter and a config of two pages; the births have this one.
fn asking(alloc: Global, birth: Birth) -> Result<(PlainRun, Entry), Fail> {
    let mut run = begin(alloc, 0)?.born(birth)?;
    run = step(run, take(1))?;
    let pages = plain(alloc, 20, [0, 2, 0])?;
    let calls = vec![in alloc;
        answered(plain(alloc, 18, [0, 0, 0])?, Some(0)),
        answered(pages, None),
    ]?;
    let params = [0x7F, 5, 0, 0, 0, 0, 0, 0, 0, 0, 0, 0, 0, 0, 0, 0, 0];
    let asks = request(alloc, 12, [77, 0, 0, 0, 6, 0, 17, 100], b"_start", &params)?;
    Ok((run, give(1, calls, 1, Halt::Asks(asks), Side::Nothing)))
}

/// The start of process 2 with this parameter and so many pages.
fn child(alloc: Global, param: u64, pages: u32) -> Result<Start, NoMemory> {
    let mut start = start_of(alloc, 2)?;
    if param < 256 {
        start.params.push(Param::new(Num::I32, param))?;
    }
    if pages <= 64 {
        start.limits = Limits::new(pages, 1_000_000_000, 67_108_864);
    }
    Ok(start)
}

#[test]
fn a_child_starts_as_its_parent_asks(rt: HostRuntime) -> Result<(), Fail> {
    let alloc = rt.alloc();
    let (run, spawns) = asking(alloc, Birth::Born(child(alloc, 5, 2)?))?;
    let run = step(run, spawns)?;
    assert_eq!(rt; run.world().ready(), [2, 1].as_slice());
    let (run, spawns) = asking(alloc, Birth::Born(child(alloc, 6, 2)?))?;
    assert!(rt; !run.allows(&spawns)?);
    let (run, spawns) = asking(alloc, Birth::Born(child(alloc, 5, 64)?))?;
    assert!(rt; !run.allows(&spawns)?);
    let (run, spawns) = asking(alloc, Birth::Refused(3))?;
    assert!(rt; !run.allows(&spawns)?);
    let (run, spawns) = asking(alloc, Birth::Refused(2))?;
    let run = step(run, spawns)?;
    assert_eq!(rt; run.world().numbers_drawn, 1);
    assert_eq!(rt; run.world().spawns, 1);
    Ok(())
}

#[test]
fn what_is_not_allowed_is_refused(rt: HostRuntime) -> Result<(), Fail> {
    let alloc = rt.alloc();
    let births = vec![in alloc; Birth::Born(start_of(alloc, 1)?)]?;
    let refused = [
        take(2),
        Entry::Stall { worker: 0 },
        give(1, Vec::new(alloc), 1, Halt::Done, Side::Nothing),
    ];
    for entry in &refused {
        let world = PlainWorld::new(alloc, start_of(alloc, 1)?)?;
        assert!(rt; apply(world, births.as_slice(), entry)?.is_none());
    }
    let world = PlainWorld::new(alloc, start_of(alloc, 1)?)?;
    let out = apply(world, births.as_slice(), &take(1))?.ok_or("refused")?;
    let wrong = vec![in alloc; answered(plain(alloc, 10, [0, 0, 0])?, Some(2))]?;
    let refused = [
        take(1),
        give(1, Vec::new(alloc), 10_001, Halt::Done, Side::Nothing),
        give(1, wrong, 1, Halt::Done, Side::Nothing),
        give(
            1,
            Vec::new(alloc),
            1,
            Halt::Asks(plain(alloc, 10, [0, 0, 0])?),
            Side::Nothing,
        ),
        give(
            1,
            Vec::new(alloc),
            1,
            Halt::Asks(receive_any(alloc, 5)?),
            Side::Nothing,
        ),
        give(1, Vec::new(alloc), 1, Halt::Again, Side::Pending),
        give(
            1,
            Vec::new(alloc),
            1,
            Halt::Asks(spawn(alloc, 0)?),
            Side::Nothing,
        ),
        give(1, Vec::new(alloc), 1, Halt::Slice, Side::Nothing),
    ];
    for entry in &refused {
        assert!(rt; !out.allows(births.as_slice(), entry)?);
    }
    let prints = request(alloc, 35, [0, 3, 0, 0, 0, 0, 0, 0], b"hi\n", b"")?;
    let calls = vec![in alloc; answered(prints, None)]?;
    assert!(rt;
        out.allows(
            births.as_slice(),
            &give(1, calls, 1, Halt::Done, Side::Nothing)
        )?
    );
    let none = reply(Some(2));
    assert!(rt;
        !out.allows(
            births.as_slice(),
            &give(
                1,
                Vec::new(alloc),
                1,
                Halt::Asks(connect(alloc)?),
                Side::Answer(none)
            )
        )?
    );
    Ok(())
}

#[test]
fn what_is_printed_stands_before_the_ends(rt: HostRuntime) -> Result<(), Fail> {
    let alloc = rt.alloc();
    let mut run = begin(alloc, 0)?;
    let prints = request(alloc, 35, [0, 3, 0, 0, 0, 0, 0, 0], b"hi\n", b"")?;
    let calls = vec![in alloc; answered(prints, None)]?;
    run = turn(run, 1, calls, 10_000, Halt::Slice, Side::Nothing)?;
    run = step(run, Entry::Starve { worker: 3 })?;
    assert_eq!(rt;
        run.report(alloc)?.as_slice(),
        b"hi\nprocess 1 nomemory fuel 10000 pages 0 mark 0\ntotal processes 1 messages 0 streams 0\n".as_slice()
    );
    Ok(())
}
