ghost use Rattle.std.specs.Prelude.{◌≡◌, ◌≤◌, None, [], length, IfOk};
ghost use Rattle.host_calls.specs.Steps.{AreInOrder};

use crate::{Judgement, LocalStep, Proc, judge, local};
use host_port::{Ask, Bytes, Engine, Limits, Params, Request, Start, is_local};
use memory_refusal::NoMemory;
use outside::{MemOutside, MemStream};
use resource_table::{Owned, Resources, Shed};
use script_engine::{Script, ScriptEngine};
use std::alloc::Global;
use std::sync::Arc;
use std::test::Fail;
use world_rules::HostFault;

/// Process 3 at its birth, which may have so much traffic.
fn proc_with(alloc: Global, traffic: u64) -> Result<Proc<ScriptEngine, MemOutside>, Fail>
    ensures scratch { IfOk result (λ proc. proc.scratch ≡ None) }
    ensures table { IfOk result (λ proc. proc.table ≡ []) }
    ensures shed { IfOk result (λ proc. proc.shed ≡ []) }
    ensures order { IfOk result AreInOrder }
{
    let script = Script {
        asks: Vec::new(alloc),
        end: None,
    };
    let start = Start {
        pid: 3,
        module: 0,
        entry: Bytes::new(alloc),
        params: Params::new(alloc),
        limits: Limits::new(64, 1000, traffic),
    };
    let engine = ScriptEngine::start(alloc, &Arc::new(alloc, script)?, &start)
        .ok()
        .ok_or("start")?;
    Ok(Proc::new(alloc, engine, start)?)
}

/// A stream at its end, without room.
fn stream(alloc: Global) -> Result<MemStream, NoMemory> {
    MemStream::new(alloc, Vec::new(alloc), Vec::new(alloc), 0)
}

/// Puts a stream into an empty table, under the number 9.
fn put_ninth(table: &mut Resources<MemStream>, stream: MemStream)
    requires { table.old ≡ [] }
    ensures { length table.new ≤ 1 }
{
    match table.put(Owned::of(9, stream)) {
        Ok(()) => {}
        Err(back) => {
            let _stream = back.into_stream();
        }
    }
}

/// Process 3 with a stream in its table.
fn proc_with_stream(alloc: Global) -> Result<Proc<ScriptEngine, MemOutside>, Fail>
    ensures { IfOk result AreInOrder }
{
    let stream = stream(alloc)?;
    let mut proc = proc_with(alloc, 1000)?;
    put_ninth(&mut proc.table, stream);
    Ok(proc)
}

/// Lets go of the streams of a shed, and tells how many there were.
fn count_out(mut shed: Shed<MemStream>) -> u32 {
    let mut count: u32 = 0;
    while let Some(handle) = shed.pop() {
        count = count.saturating_add(1);
        let _stream = handle.into_stream();
    }
    shed.destroy_empty();
    count
}

/// Ends a process, and tells how many streams were shut then and before.
fn end(proc: Proc<ScriptEngine, MemOutside>) -> u32
    requires { AreInOrder proc }
{
    count_out(proc.end())
}

/// A request whose areas fit, with these arguments and these bytes.
fn request(alloc: Global, call: u8, args: (u64, u64), bytes: Vec<u8>) -> Request {
    Request {
        ask: Ask {
            call,
            args: [args.0, args.1, 0, 0, 0, 0, 0, 0],
        },
        fits: true,
        first: Bytes::from_vec(bytes),
        second: Bytes::new(alloc),
    }
}

/// A request without bytes.
fn bare(alloc: Global, call: u8, args: (u64, u64)) -> Request {
    request(alloc, call, args, Vec::new(alloc))
}

/// What becomes of a request, if its call is local.
fn step<E: Engine>(
    alloc: Global,
    proc: &mut Proc<E, MemOutside>,
    request: &Request,
) -> Option<LocalStep>
    requires { AreInOrder proc.old }
    ensures { AreInOrder proc.new }
{
    if is_local(request.ask.call) {
        Some(local(alloc, proc, request))
    } else {
        None
    }
}

/// The number that a request is answered.
fn number(
    alloc: Global,
    proc: &mut Proc<ScriptEngine, MemOutside>,
    request: &Request,
) -> Option<u64>
    requires { AreInOrder proc.old }
    ensures { AreInOrder proc.new }
{
    match step(alloc, proc, request) {
        Some(LocalStep::Reply(reply)) => reply.result,
        _ => None,
    }
}

/// A request is answered nothing.
fn passes(alloc: Global, proc: &mut Proc<ScriptEngine, MemOutside>, request: &Request) -> bool
    requires { AreInOrder proc.old }
    ensures { AreInOrder proc.new }
{
    match step(alloc, proc, request) {
        Some(LocalStep::Reply(reply)) => reply.result.is_none() && reply.text.is_none(),
        _ => false,
    }
}

/// A read of so many bytes to the address 100 gives these.
fn reads(alloc: Global, proc: &mut Proc<ScriptEngine, MemOutside>, len: u64, want: &[u8]) -> bool
    requires { AreInOrder proc.old }
    ensures { AreInOrder proc.new }
{
    match step(alloc, proc, &bare(alloc, 2, (100, len))) {
        Some(LocalStep::Reply(reply)) => match &reply.text {
            Some(text) => {
                reply.result == Some(want.len() as u64)
                    && text.addr == 100
                    && text.bytes.as_slice() == want
            }
            None => false,
        },
        _ => false,
    }
}

#[test]
fn a_message_is_written_and_read(rt: HostRuntime) -> Result<(), Fail> {
    let alloc = rt.alloc();
    let many = request(alloc, 1, (0, 1_048_574), vec![in alloc; 0u8; 1_048_574]?);
    let few = request(alloc, 1, (0, 3), b"abc".to_vec(alloc)?);
    let mut proc = proc_with(alloc, 2_000_000)?;
    assert!(rt; passes(alloc, &mut proc, &bare(alloc, 0, (7, 0))));
    assert_eq!(rt; number(alloc, &mut proc, &many), Some(1_048_574));
    assert_eq!(rt; number(alloc, &mut proc, &few), Some(2));
    assert_eq!(rt;
        number(alloc, &mut proc, &bare(alloc, 4, (0, 0))),
        Some(1_048_576)
    );
    assert_eq!(rt; number(alloc, &mut proc, &bare(alloc, 5, (0, 0))), Some(7));
    assert!(rt; passes(alloc, &mut proc, &bare(alloc, 3, (1_048_573, 0))));
    assert!(rt; reads(alloc, &mut proc, 2, b"\0a"));
    assert!(rt; reads(alloc, &mut proc, 9, b"b"));
    assert_eq!(rt; number(alloc, &mut proc, &bare(alloc, 10, (0, 0))), Some(3));
    // Nine calls of 64 bytes, and the areas of two writes and two reads.
    assert_eq!(rt; proc.traffic, 9 * 64 + 1_048_574 + 3 + 2 + 9);
    assert_eq!(rt; end(proc), 0);
    Ok(())
}

#[test]
fn a_stream_is_pushed_taken_and_closed(rt: HostRuntime) -> Result<(), Fail> {
    let alloc = rt.alloc();
    let push = bare(alloc, 6, (9, 0));
    let mut proc = proc_with_stream(alloc)?;
    assert_eq!(rt;
        judge(&proc, &push),
        Judgement::Faulty(HostFault::NoMessage)
    );
    assert!(rt; passes(alloc, &mut proc, &bare(alloc, 0, (7, 0))));
    assert_eq!(rt; number(alloc, &mut proc, &push), Some(0));
    assert_eq!(rt;
        judge(&proc, &push),
        Judgement::Faulty(HostFault::NoSuchHandle)
    );
    assert_eq!(rt; number(alloc, &mut proc, &bare(alloc, 7, (0, 0))), Some(9));
    assert_eq!(rt;
        judge(&proc, &bare(alloc, 7, (0, 0))),
        Judgement::Faulty(HostFault::EmptyPlace)
    );
    assert!(rt; passes(alloc, &mut proc, &bare(alloc, 33, (9, 0))));
    assert_eq!(rt;
        judge(&proc, &bare(alloc, 34, (0, 0))),
        Judgement::Faulty(HostFault::NoSuchListener)
    );
    assert_eq!(rt; end(proc), 1);
    Ok(())
}

#[test]
fn traffic_has_its_limit(rt: HostRuntime) -> Result<(), Fail> {
    let alloc = rt.alloc();
    let mut print = bare(alloc, 35, (0, 0));
    let mut proc = proc_with(alloc, 64)?;
    assert!(rt; passes(alloc, &mut proc, &print));
    assert!(rt; matches!(step(alloc, &mut proc, &print), Some(LocalStep::Spent)));
    // An area that doesn't fit comes first.
    print.fits = false;
    assert!(rt;
        matches!(
            step(alloc, &mut proc, &print),
            Some(LocalStep::Fault(HostFault::BadPointer))
        )
    );
    assert_eq!(rt; end(proc), 0);
    Ok(())
}
