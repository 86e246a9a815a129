ghost use Rattle.std.specs.Prelude.{◌≡◌, IfOk};

use crate::PlainRun;
use host_port::{Ask, Bytes, Call, Calls, Limits, Params, Reply, Request, Start, Text, Word};
use memory_refusal::NoMemory;
use std::alloc::Global;
use std::test::Fail;
use world_rules::{Birth, Entry, Halt, Side};

/// An i64 of -1.
pub(crate) const MINUS_ONE: u64 = u64::MAX;

pub(crate) fn bytes(alloc: Global, text: &[u8]) -> Result<Bytes, NoMemory> {
    let mut items = Vec::new(alloc);
    items.extend_from_slice(text)?;
    Ok(Bytes::from_vec(items))
}

/// How a process of this number starts, with the limits that are the default.
pub(crate) fn start_of(alloc: Global, pid: u64) -> Result<Start, NoMemory>
    ensures { IfOk result (λ start. start.pid ≡ pid) }
{
    Ok(Start {
        pid,
        module: 0,
        entry: bytes(alloc, b"_start")?,
        params: Params::new(alloc),
        limits: Limits::new(64, 1_000_000_000, 67_108_864),
    })
}

/// A run of process 1 with these further births, each of the next number.
pub(crate) fn begin(alloc: Global, children: u64) -> Result<PlainRun, NoMemory> {
    let mut run = PlainRun::new(alloc, start_of(alloc, 1)?)?;
    for earlier in 0..children {
        run = run.born(Birth::Born(start_of(alloc, earlier.saturating_add(2))?))?;
    }
    Ok(run)
}

/// A request that reads these areas.
pub(crate) fn request(
    alloc: Global,
    call: u8,
    args: [u64; 8],
    first: &[u8],
    second: &[u8],
) -> Result<Request, NoMemory> {
    Ok(Request {
        ask: Ask { call, args },
        fits: true,
        first: bytes(alloc, first)?,
        second: bytes(alloc, second)?,
    })
}

/// A request that reads nothing, with at most three arguments.
pub(crate) fn plain(alloc: Global, call: u8, args: [u64; 3]) -> Result<Request, NoMemory> {
    let [first, second, third] = args;
    request(alloc, call, [first, second, third, 0, 0, 0, 0, 0], b"", b"")
}

/// A receive of anything, for so many milliseconds.
pub(crate) fn receive_any(alloc: Global, ms: u64) -> Result<Request, NoMemory> {
    plain(alloc, 9, [0, 0, ms])
}

/// A receive of one tag of at most 255.
pub(crate) fn receive_tag(alloc: Global, tag: u8, ms: u64) -> Result<Request, NoMemory> {
    request(
        alloc,
        9,
        [0, 1, ms, 0, 0, 0, 0, 0],
        &[tag, 0, 0, 0, 0, 0, 0, 0],
        b"",
    )
}

/// A spawn with this link and no config, of module 0 and `_start`, without parameters; the number is written at 100.
pub(crate) fn spawn(alloc: Global, tag: u64) -> Result<Request, NoMemory> {
    request(
        alloc,
        12,
        [tag, MINUS_ONE, 0, 0, 6, 0, 0, 100],
        b"_start",
        b"",
    )
}

/// A read of 64 bytes at 300, the count at 400.
pub(crate) fn read_stream(alloc: Global, handle: u64) -> Result<Request, NoMemory> {
    request(alloc, 31, [handle, 300, 64, 400, 0, 0, 0, 0], b"", b"")
}

/// A connect, the number of the stream written at 200.
pub(crate) fn connect(alloc: Global) -> Result<Request, NoMemory> {
    plain(alloc, 30, [0, 0, 200])
}

pub(crate) fn reply(number: Option<u64>) -> Reply {
    Reply {
        result: number,
        word: None,
        text: None,
    }
}

pub(crate) fn answered(request: Request, number: Option<u64>) -> Call {
    Call {
        request,
        reply: reply(number),
    }
}

/// A read that gave these bytes.
pub(crate) fn read_reply(alloc: Global, text: &[u8]) -> Result<Reply, NoMemory> {
    Ok(Reply {
        result: Some(0),
        word: Some(Word {
            addr: 400,
            width: 4,
            value: text.len() as u64,
        }),
        text: Some(Text {
            addr: 300,
            bytes: bytes(alloc, text)?,
        }),
    })
}

/// A write that took so many bytes.
pub(crate) fn written_reply(count: u64) -> Reply {
    Reply {
        result: Some(0),
        word: Some(Word {
            addr: 400,
            width: 4,
            value: count,
        }),
        text: None,
    }
}

pub(crate) fn take(pid: u64) -> Entry {
    Entry::Take { worker: 0, pid }
}

/// Worker 0 gives a process back.
pub(crate) fn give(pid: u64, calls: Vec<Call>, fuel: u64, halt: Halt, side: Side) -> Entry {
    Entry::Give {
        worker: 0,
        pid,
        calls: Calls::from_vec(calls),
        fuel,
        halt,
        side,
    }
}

/// The run with this entry, which is to be allowed.
pub(crate) fn step(run: PlainRun, entry: Entry) -> Result<PlainRun, Fail> {
    Ok(run.take(entry)?.ok_or("an entry is refused")?)
}

/// Worker 0 takes a process, and its turn ends so.
pub(crate) fn turn(
    run: PlainRun,
    pid: u64,
    calls: Vec<Call>,
    fuel: u64,
    halt: Halt,
    side: Side,
) -> Result<PlainRun, Fail> {
    let run = step(run, take(pid))?;
    step(run, give(pid, calls, fuel, halt, side))
}

/// A turn without local calls that ends by asking so, with this beside.
pub(crate) fn asks(
    alloc: Global,
    run: PlainRun,
    pid: u64,
    fuel: u64,
    request: Request,
    side: Side,
) -> Result<PlainRun, Fail> {
    turn(run, pid, Vec::new(alloc), fuel, Halt::Asks(request), side)
}

/// A turn that ends with a sleep of 0 milliseconds: the process goes to the back of the list.
pub(crate) fn naps(alloc: Global, run: PlainRun, pid: u64, fuel: u64) -> Result<PlainRun, Fail> {
    let sleep = plain(alloc, 17, [0, 0, 0])?;
    asks(alloc, run, pid, fuel, sleep, Side::Clock(0))
}

/// A turn without local calls that ends with this halt.
pub(crate) fn ends(
    alloc: Global,
    run: PlainRun,
    pid: u64,
    fuel: u64,
    halt: Halt,
) -> Result<PlainRun, Fail> {
    turn(run, pid, Vec::new(alloc), fuel, halt, Side::Nothing)
}
