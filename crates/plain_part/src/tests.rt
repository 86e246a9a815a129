use crate::{MailItem, Message, PlainPart, has_row_form};
use host_port::{Ask, Bytes, Call, Limits, Params, Reply, Request, Start, Text};
use memory_refusal::NoMemory;
use std::alloc::Global;
use std::test::Fail;

/// The start of process 3.
fn start(alloc: Global) -> Start {
    Start {
        pid: 3,
        module: 0,
        entry: Bytes::new(alloc),
        params: Params::new(alloc),
        limits: Limits::new(64, 1000, 2000),
    }
}

/// These bytes, on their own.
fn bytes(alloc: Global, text: &[u8]) -> Result<Bytes, NoMemory> {
    Ok(Bytes::from_vec(text.to_vec(alloc)?))
}

/// A call with two arguments that reads these bytes and writes nothing.
fn call(
    alloc: Global,
    number: u8,
    args: (u64, u64),
    read: &[u8],
    given: Option<u64>,
) -> Result<Call, NoMemory> {
    Ok(Call {
        request: Request {
            ask: Ask {
                call: number,
                args: [args.0, args.1, 0, 0, 0, 0, 0, 0],
            },
            fits: true,
            first: bytes(alloc, read)?,
            second: Bytes::new(alloc),
        },
        reply: Reply {
            result: given,
            word: None,
            text: None,
        },
    })
}

/// A call that reads two bytes of the message, `bc`, to the address 100.
fn reading(alloc: Global) -> Result<Call, NoMemory> {
    let mut read = call(alloc, 2, (100, 9), b"", Some(2))?;
    read.reply.text = Some(Text {
        addr: 100,
        bytes: bytes(alloc, b"bc")?,
    });
    Ok(read)
}

/// The part of a process whose table has the streams 3 and 5.
fn with_two_streams(alloc: Global) -> Result<PlainPart, NoMemory> {
    let mut part = PlainPart::new(alloc);
    part.open_stream(5)?;
    part.open_stream(3)?;
    Ok(part)
}

/// A turn that writes a message and reads it, hands a stream over and takes it back, and asks for a config.
fn turn(alloc: Global) -> Result<Vec<Call>, NoMemory> {
    let mut calls = Vec::new(alloc);
    calls.push(call(alloc, 0, (7, 0), b"", None)?)?;
    calls.push(call(alloc, 1, (8, 3), b"abc", Some(3))?)?;
    calls.push(call(alloc, 3, (1, 0), b"", None)?)?;
    calls.push(reading(alloc)?)?;
    calls.push(call(alloc, 4, (0, 0), b"", Some(3))?)?;
    calls.push(call(alloc, 5, (0, 0), b"", Some(7))?)?;
    calls.push(call(alloc, 6, (3, 0), b"", Some(0))?)?;
    calls.push(call(alloc, 7, (0, 0), b"", Some(3))?)?;
    calls.push(call(alloc, 10, (0, 0), b"", Some(3))?)?;
    calls.push(call(alloc, 18, (0, 0), b"", Some(0))?)?;
    calls.push(call(alloc, 21, (0, 5), b"", None)?)?;
    calls.push(call(alloc, 23, (0, 0), b"", Some(5))?)?;
    calls.push(call(alloc, 19, (0, 0), b"", None)?)?;
    Ok(calls)
}

#[test]
fn a_turn_of_local_calls(rt: HostRuntime) -> Result<(), Fail> {
    let alloc = rt.alloc();
    let start = start(alloc);
    let calls = turn(alloc)?;
    let mut part = with_two_streams(alloc)?;
    let mut copy = part.try_clone()?;
    assert!(rt; part.run_answered(&start, &calls)?);
    // Thirteen calls of 64 bytes, the three bytes that were written, and the nine that could have been read.
    assert_eq!(rt; part.traffic, 844);
    assert_eq!(rt; part.handles.as_slice(), [3, 5].as_slice());
    // Its number is 3.
    assert!(rt; !part.answers(&start, &call(alloc, 10, (0, 0), b"", Some(4))?));
    copy.run_all_local(&start, &calls)?;
    assert_eq!(rt; copy.traffic, 844);
    assert!(rt;
        calls
            .iter()
            .all(|call| has_row_form(&call.request, &call.reply))
    );
    Ok(())
}

#[test]
fn what_settles_calls(rt: HostRuntime) -> Result<(), Fail> {
    let alloc = rt.alloc();
    let mut part = with_two_streams(alloc)?;
    part.bind_listener()?;
    assert_eq!(rt; part.next_listener, 1);
    let mut message = Message::new(alloc, 4);
    message.push_stream(9)?;
    let item = MailItem::Letter(0, message);
    part.deliver(alloc, item.try_clone()?);
    assert_eq!(rt; part.scratch_handles(alloc)?.as_slice(), [9].as_slice());
    let sent = part.take_message().ok_or("a message")?;
    assert_eq!(rt; sent.tag(), 4);
    assert!(rt; part.take_message().is_none());
    part.deliver(alloc, MailItem::Signal(6));
    assert!(rt; part.scratch_handles(alloc)?.is_empty());
    Ok(())
}
