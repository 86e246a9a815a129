use crate::Instance;
use host_port::{Bytes, Engine, Limits, Params, Reply, Spent, Start, Stop, has_form, resolve};
use memory_refusal::NoMemory;
use module_reader::read_module;
use module_validator::{Valid, accept};
use std::alloc::Global;
use std::sync::Arc;
use std::test::Fail;

/// `go` sums the numbers from 1 to 10 by a function that adds, in a loop, and stores the sum at 8.
const SUM: &[u8] = b"\0asm\x01\0\0\0\x01\x0A\x02\x60\0\0\x60\x02\x7F\x7F\x01\x7F\x03\x03\x02\0\x01\
\x05\x03\x01\0\x01\x07\x06\x01\x02go\0\0\x0A\x2C\x02\x22\x01\x02\x7F\
\x03\x40\x20\0\x20\x01\x41\x01\x6A\x22\x01\x10\x01\x21\0\x20\x01\x41\x0A\x49\x0D\0\x0B\
\x41\x08\x20\0\x36\x02\0\x0B\x07\0\x20\0\x20\x01\x6A\x0B";

/// `go` asks for the number of its process, and stores it at 0.
const NUMBER: &[u8] = b"\0asm\x01\0\0\0\x01\x08\x02\x60\0\0\x60\0\x01\x7E\
\x02\x1F\x01\x10lunatic::process\x0Aprocess_id\0\x01\x03\x02\x01\0\x05\x03\x01\0\x01\
\x07\x06\x01\x02go\0\x01\x0A\x0B\x01\x09\0\x41\0\x10\0\x37\x03\0\x0B";

/// The program that these bytes spell.
fn program(alloc: Global, bytes: &[u8]) -> Result<Arc<Valid>, Fail> {
    let module = read_module(alloc, bytes).ok().ok_or("not read")?;
    let valid = accept(alloc, module).ok().ok_or("not accepted")?;
    Ok(Arc::new(alloc, valid)?)
}

/// A start at `go` with this fuel.
fn start(alloc: Global, fuel: u64) -> Result<Start, NoMemory> {
    Ok(Start {
        pid: 1,
        module: 0,
        entry: Bytes::from_vec(Vec::from_slice(alloc, b"go")?),
        params: Params::new(alloc),
        limits: Limits::new(64, fuel, 1000),
    })
}

#[test]
fn a_loop_with_calls(rt: HostRuntime) -> Result<(), Fail> {
    let alloc = rt.alloc();
    let sum = program(alloc, SUM)?;
    for (fuel, want) in [
        (153, (Stop::Done, 153)),
        (152, (Stop::Spent(Spent::Fuel), 152)),
    ] {
        let start = start(alloc, fuel)?;
        let mut engine = Instance::start(alloc, &sum, &start).ok().ok_or("start")?;
        assert_eq!(rt; engine.step(50), (Stop::Slice, 50));
        let (stop, executed) = engine.step(1000);
        assert_eq!(rt; (stop, executed + 50), want);
        assert_eq!(rt; (engine.pages(), engine.done()), (1, want.0 == Stop::Done));
        assert_eq!(rt; engine.mark(), if want.0 == Stop::Done { 495 } else { 0 });
    }
    Ok(())
}

#[test]
fn an_ask(rt: HostRuntime) -> Result<(), Fail> {
    let alloc = rt.alloc();
    let number = program(alloc, NUMBER)?;
    let start = start(alloc, 1000)?;
    let mut engine = Instance::start(alloc, &number, &start).ok().ok_or("start")?;
    let (stop, executed) = engine.step(1000);
    let Stop::Asks(ask) = stop else {
        return Err("no ask".into());
    };
    assert_eq!(rt; (ask.call, ask.args, executed), (10, [0; 8], 2));
    let reply = Reply {
        result: Some(258),
        word: None,
        text: None,
    };
    let request = resolve(alloc, &engine, ask)?;
    if !request.fits || !has_form(&ask, &reply) {
        return Err("no reply".into());
    }
    engine.answer(&reply);
    assert!(rt; !engine.done());
    assert_eq!(rt; engine.step(1000), (Stop::Done, 1));
    assert_eq!(rt; engine.mark(), 4);
    Ok(())
}
