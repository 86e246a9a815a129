use crate::{Script, ScriptEngine};
use host_port::{Ask, Bytes, Engine, Limits, Params, Start, Stop};
use std::alloc::Global;
use std::sync::Arc;
use std::test::Fail;

fn first_start(alloc: Global) -> Start {
    Start {
        pid: 1,
        module: 0,
        entry: Bytes::new(alloc),
        params: Params::new(alloc),
        limits: Limits::new(64, 1000, 1000),
    }
}

#[test]
fn asks_its_first_call(rt: HostRuntime) -> Result<(), Fail> {
    let alloc = rt.alloc();
    let mut asks = Vec::new(alloc);
    asks.push(Ask {
        call: 10,
        args: [0; 8],
    })?;
    let script = Arc::new(alloc, Script { asks, end: None })?;
    let mut engine = ScriptEngine::start(alloc, &script, &first_start(alloc))
        .ok()
        .ok_or("start")?;
    assert!(rt; !engine.done());
    let (stop, executed) = engine.step(10000);
    assert_eq!(rt; executed, 1);
    assert!(rt; matches!(stop, Stop::Asks(Ask { call: 10, args: _ })));
    Ok(())
}

#[test]
fn returns_at_once(rt: HostRuntime) -> Result<(), Fail> {
    let alloc = rt.alloc();
    let asks = Vec::new(alloc);
    let script = Arc::new(alloc, Script { asks, end: None })?;
    let mut engine = ScriptEngine::start(alloc, &script, &first_start(alloc))
        .ok()
        .ok_or("start")?;
    assert!(rt; engine.done());
    assert_eq!(rt; engine.step(1), (Stop::Done, 0));
    assert_eq!(rt; (engine.pages(), engine.mark()), (0, 0));
    Ok(())
}
