use crate::{
    Ask, Bytes, Call, Calls, Limits, Param, Params, Reply, Request, Start, Text, host_row, import,
    known_row,
};
use std::test::Fail;
use wasm_ops::Num;

#[test]
fn knows_its_calls(rt: HostRuntime) -> Result<(), Fail> {
    for (call, module, name) in [
        (0, "lunatic::message", "create_data"),
        (8, "lunatic::message", "send"),
        (9, "lunatic::message", "receive"),
        (10, "lunatic::process", "process_id"),
    ] {
        let row = host_row(call).ok_or("a call that is there")?;
        assert_eq!(rt; row.name, name);
        let same = import(module.as_bytes(), name.as_bytes()).ok_or("an import that is there")?;
        assert_eq!(rt; same.call, call);
    }
    assert!(rt; known_row(35).is_some());
    assert!(rt; host_row(36).is_none());
    assert!(rt; import(b"lunatic::process", b"send").is_none());
    Ok(())
}

#[test]
fn copies_a_start(rt: HostRuntime) -> Result<(), Fail> {
    let alloc = rt.alloc();
    let mut entry = Bytes::new(alloc);
    entry.push(b'f')?;
    let mut params = Params::new(alloc);
    params.push(Param::new(Num::I64, 199))?;
    let limits = Limits::new(64, 1000, 500);
    let start = Start {
        pid: 1,
        module: 0,
        entry,
        params,
        limits,
    };
    let copy = start.try_clone()?;
    assert_eq!(rt; copy.entry.as_slice(), b"f".as_slice());
    assert_eq!(rt; copy.params.len(), 1);
    assert_eq!(rt; copy.limits.fuel(), 1000);
    Ok(())
}

#[test]
fn keeps_calls(rt: HostRuntime) -> Result<(), Fail> {
    let alloc = rt.alloc();
    let mut bytes = Bytes::new(alloc);
    bytes.push(7)?;
    let text = Text { addr: 16, bytes };
    let request = Request {
        ask: Ask {
            call: 10,
            args: [0; 8],
        },
        fits: true,
        first: text.try_clone()?.bytes,
        second: Bytes::new(alloc),
    };
    let mut calls = Calls::new(alloc);
    let reply = Reply {
        result: Some(1),
        word: None,
        text: None,
    };
    calls.push(Call {
        request: request.try_clone()?,
        reply,
    })?;
    assert_eq!(rt; calls.try_clone()?.len(), 1);
    assert_eq!(rt; request.first.as_slice(), [7].as_slice());
    Ok(())
}
