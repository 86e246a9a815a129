use crate::{RealListener, RealOutside, RealStream};
use outside::{AcceptStep, IoStep, Listener, MakeStep, Outside, Stream};
use std::test::Fail;
use std::time::Instant;

/// 127.0.0.1.
const LOOPBACK: u32 = 0x7f00_0001;

/// How often a call that is not ready is made again.
const TRIES: u32 = 10_000_000;

/// The next connection to this listener.
fn accepted<O: Outside<Listener = RealListener, Stream = RealStream>>(
    outside: &mut O,
    listener: &mut RealListener,
) -> Option<RealStream> {
    for _ in 0..TRIES {
        match outside.accept(listener) {
            AcceptStep::Done(stream) => return Some(stream),
            AcceptStep::NotReady => {}
            _ => return None,
        }
    }
    None
}

/// What a read of this stream answers once it is ready.
fn read(stream: &mut RealStream, buffer: &mut [u8]) -> IoStep {
    for _ in 0..TRIES {
        match stream.read(buffer) {
            IoStep::NotReady => {}
            step => return step,
        }
    }
    IoStep::NotReady
}

#[test]
fn both_ends_of_a_connection_on_the_loopback(rt: HostRuntime) -> Result<(), Fail> {
    let mut outside = RealOutside::new(&rt, Instant::now(&rt).ok());
    let MakeStep::Done(mut listener) = outside.bind(LOOPBACK, 0) else {
        assert!(rt; false, "no listener");
        return Ok(());
    };
    let silent = outside.accept(&mut listener);
    assert!(rt; matches!(silent, AcceptStep::NotReady));
    let MakeStep::Done(mut near) = outside.connect(LOOPBACK, listener.port()) else {
        assert!(rt; false, "no connection");
        return Ok(());
    };
    let Some(mut far) = accepted(&mut outside, &mut listener) else {
        assert!(rt; false, "nobody connected");
        return Ok(());
    };
    let mut buffer = [0u8; 8];
    let ping: &[u8] = b"ping";
    assert_eq!(rt; far.read(&mut buffer), IoStep::NotReady);
    assert_eq!(rt; near.write(ping), IoStep::Done(4));
    assert_eq!(rt; read(&mut far, &mut buffer), IoStep::Done(4));
    assert_eq!(rt; &buffer[..4], ping);
    near.shut();
    assert_eq!(rt; read(&mut far, &mut buffer), IoStep::Done(0));
    assert_eq!(rt; near.read(&mut buffer), IoStep::Done(0));
    // Where nobody listens, a connection is refused.
    let port = listener.port();
    listener.shut();
    assert!(rt; matches!(outside.connect(LOOPBACK, port), MakeStep::Failed));
    Ok(())
}
