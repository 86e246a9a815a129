use crate::{
    AcceptStep, Failed, FileStep, Files, IoStep, MakeStep, MemFiles, MemListener, MemOutside,
    MemSink, MemStream, Offer, Outside, Piece, Sink, Stream,
};
use memory_refusal::NoMemory;
use std::alloc::Global;
use std::test::Fail;

#[test]
fn a_store_answers_by_name_limit_and_number(rt: HostRuntime) -> Result<(), Fail> {
    let alloc = rt.alloc();
    let first = (String::from_str(alloc, "a")?, vec![in alloc; 1u8, 2, 3]?);
    let second = (String::from_str(alloc, "a")?, vec![in alloc; 9u8]?);
    let mut store = MemFiles::new(vec![in alloc; first, second]?, vec![in alloc; 3u64]?);
    let three: &[u8] = &[1, 2, 3];
    for (name, limit, want, bytes) in [
        ("a", 3, FileStep::Done, three),
        ("a", 2, FileStep::TooLong, &[]),
        ("b", 3, FileStep::Missing, &[]),
        ("a", 3, FileStep::Failed, &[]),
        ("a", 4, FileStep::Done, three),
    ] {
        let mut into = Vec::new(alloc);
        assert_eq!(rt; store.read(name, &mut into, limit), want);
        assert_eq!(rt; into.as_slice(), bytes);
    }
    Ok(())
}

#[test]
fn a_sink_takes_short_pieces_until_its_room_ends(rt: HostRuntime) -> Result<(), Fail> {
    let alloc = rt.alloc();
    let mut sink = MemSink::new(alloc, 5, 2, vec![in alloc; 1u64]?, vec![in alloc; 2u64]?)?;
    for want in [Ok(2), Err(Failed), Ok(0), Ok(2), Ok(1), Err(Failed)] {
        assert_eq!(rt; sink.write(b"abcd"), want);
    }
    assert_eq!(rt; sink.written(), b"ababa".as_slice());
    Ok(())
}

/// Reads with a buffer of 2, and says how many bytes were moved.
fn read_two<S: Stream>(stream: &mut S) -> Option<usize> {
    let mut buffer = [0u8; 2];
    match stream.read(&mut buffer) {
        IoStep::Done(count) => Some(count),
        IoStep::NotReady => Some(100),
        IoStep::Failed => None,
    }
}

#[test]
fn a_stream_is_read_along_its_script_and_written_until_its_room_ends(
    rt: HostRuntime,
) -> Result<(), Fail> {
    let alloc = rt.alloc();
    let abc = Piece::Bytes(vec![in alloc; b'a', b'b', b'c']?);
    let d = Piece::Bytes(vec![in alloc; b'd']?);
    let script = vec![in alloc; abc, Piece::Wait, Piece::Fail, d]?;
    let mut stream = MemStream::new(alloc, script, vec![in alloc; 1u64]?, 5)?;
    for want in [Some(2), Some(1), Some(100), None, Some(1), Some(0), Some(0)] {
        assert_eq!(rt; read_two(&mut stream), want);
    }
    assert_eq!(rt; stream.taken(), b"abcd".as_slice());
    for want in [
        IoStep::Done(4),
        IoStep::Failed,
        IoStep::Done(1),
        IoStep::Failed,
    ] {
        assert_eq!(rt; stream.write(b"pong"), want);
    }
    assert_eq!(rt; stream.put(), b"pongp".as_slice());
    stream.shut();
    Ok(())
}

/// Binds a listener, accepts and connects, and says what came: a letter for each answer.
fn letters<O: Outside>(outside: &mut O, asks: &str, alloc: Global) -> Result<String, NoMemory>
where
    O::Stream: Drop,
{
    let mut text = String::new(alloc);
    outside.enter(1);
    let MakeStep::Done(mut listener) = outside.bind(0, 80) else {
        return Err(NoMemory);
    };
    for ask in asks.chars() {
        let letter = match ask {
            'a' => match outside.accept(&mut listener) {
                AcceptStep::Done(_) => 'd',
                AcceptStep::NotReady => 'w',
                AcceptStep::Failed => 'f',
                AcceptStep::NoMemory => 'm',
            },
            'c' => match outside.connect(0, 80) {
                MakeStep::Done(_) => 'd',
                MakeStep::Failed => 'f',
                MakeStep::NoMemory => 'm',
            },
            _ => {
                outside.rest();
                'r'
            }
        };
        text.push(letter)?;
    }
    Ok(text)
}

#[test]
fn an_outside_gives_what_it_has_in_order(rt: HostRuntime) -> Result<(), Fail> {
    let alloc = rt.alloc();
    let first = MemStream::new(alloc, Vec::new(alloc), Vec::new(alloc), 0)?;
    let second = MemStream::new(alloc, Vec::new(alloc), Vec::new(alloc), 0)?;
    let offers = vec![in alloc; Offer::Wait, Offer::Stream(first)]?;
    let listeners = vec![in alloc; MemListener::new(80, offers)]?;
    let streams = vec![in alloc; second]?;
    let mut outside = MemOutside::new(listeners, streams, vec![in alloc; 2u64]?, None);
    assert_eq!(rt; outside.now(), 0);
    assert_eq!(rt;
        letters(&mut outside, "aaaaccr", alloc)?.as_str(),
        "wfdwdfr"
    );
    assert_eq!(rt; outside.now(), 1);
    Ok(())
}
