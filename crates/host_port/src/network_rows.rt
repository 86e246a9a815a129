//! The host calls of streams and listeners.

use crate::{
    Holds, HostRow, Kind, MayCome, ReadArea, Reads, Results, When, Width, WordValue, WrittenText,
    WrittenWord,
};
use wasm_ops::Num;

/// `tcp_bind(ip, port, id)`: 0 with the number of the listener at `id`, 1 where it failed, 2
/// where 16 are there, 12 for want of memory.
pub(crate) const TCP_BIND: HostRow = HostRow {
    call: 27,
    module: "lunatic::networking",
    name: "tcp_bind",
    params: &[Num::I32, Num::I32, Num::I32],
    result: Some(Num::I32),
    kind: Kind::Outside,
    reads: Reads::NoArea,
    text: None,
    word: Some(WrittenWord {
        addr: 2,
        width: Width::Eight,
        when: When::OnlyWith(0),
        value: WordValue::AnyValue,
    }),
    may_come: MayCome::Answer {
        pending: false,
        opened: false,
    },
    results: Results::OneOf(&[0, 1, 2, 12]),
    refusable: false,
};

/// `tcp_local_port(listener)`: its port.
pub(crate) const TCP_LOCAL_PORT: HostRow = HostRow {
    call: 28,
    module: "lunatic::networking",
    name: "tcp_local_port",
    params: &[Num::I64],
    result: Some(Num::I32),
    kind: Kind::Outside,
    reads: Reads::NoArea,
    text: None,
    word: None,
    may_come: MayCome::Answer {
        pending: false,
        opened: false,
    },
    results: Results::UpTo(65_535),
    refusable: false,
};

/// `tcp_accept(listener, id)`: 0 with the number of the stream at `id`, 1 where it failed, 2
/// where 256 are there, 12 for want of memory.
pub(crate) const TCP_ACCEPT: HostRow = HostRow {
    call: 29,
    module: "lunatic::networking",
    name: "tcp_accept",
    params: &[Num::I64, Num::I32],
    result: Some(Num::I32),
    kind: Kind::Outside,
    reads: Reads::NoArea,
    text: None,
    word: Some(WrittenWord {
        addr: 1,
        width: Width::Eight,
        when: When::OnlyWith(0),
        value: WordValue::AnyValue,
    }),
    may_come: MayCome::Answer {
        pending: true,
        opened: true,
    },
    results: Results::OneOf(&[0, 1, 2, 12]),
    refusable: false,
};

/// `tcp_connect(ip, port, id)`: 0 with the number of the stream at `id`, 1 where it failed, 2
/// where 256 are there, 12 for want of memory.
pub(crate) const TCP_CONNECT: HostRow = HostRow {
    call: 30,
    module: "lunatic::networking",
    name: "tcp_connect",
    params: &[Num::I32, Num::I32, Num::I32],
    result: Some(Num::I32),
    kind: Kind::Outside,
    reads: Reads::NoArea,
    text: None,
    word: Some(WrittenWord {
        addr: 2,
        width: Width::Eight,
        when: When::OnlyWith(0),
        value: WordValue::AnyValue,
    }),
    may_come: MayCome::Answer {
        pending: false,
        opened: true,
    },
    results: Results::OneOf(&[0, 1, 2, 12]),
    refusable: false,
};

/// `tcp_read(stream, ptr, len, n)`: 0 with the bytes at `ptr`, at most 65,536, and their count at
/// `n`; 1 where it failed.
pub(crate) const TCP_READ: HostRow = HostRow {
    call: 31,
    module: "lunatic::networking",
    name: "tcp_read",
    params: &[Num::I64, Num::I32, Num::I32, Num::I32],
    result: Some(Num::I32),
    kind: Kind::Outside,
    reads: Reads::NoArea,
    text: Some(WrittenText {
        addr: 1,
        length: 2,
        most: 65_536,
        when: When::OnlyWith(0),
        counted: false,
    }),
    word: Some(WrittenWord {
        addr: 3,
        width: Width::Four,
        when: When::OnlyWith(0),
        value: WordValue::LengthOfText,
    }),
    may_come: MayCome::Answer {
        pending: true,
        opened: false,
    },
    results: Results::OneOf(&[0, 1]),
    refusable: false,
};

/// `tcp_write(stream, ptr, len, n)`: 0 with the count of the bytes that were written at `n`, at
/// most 65,536; 1 where it failed.
pub(crate) const TCP_WRITE: HostRow = HostRow {
    call: 32,
    module: "lunatic::networking",
    name: "tcp_write",
    params: &[Num::I64, Num::I32, Num::I32, Num::I32],
    result: Some(Num::I32),
    kind: Kind::Outside,
    reads: Reads::OneArea(ReadArea {
        addr: 1,
        length: 2,
        holds: Holds::Plain,
    }),
    text: None,
    word: Some(WrittenWord {
        addr: 3,
        width: Width::Four,
        when: When::OnlyWith(0),
        value: WordValue::AtMost(2, 65_536),
    }),
    may_come: MayCome::Answer {
        pending: true,
        opened: false,
    },
    results: Results::OneOf(&[0, 1]),
    refusable: false,
};

/// `drop_tcp_stream(stream)`: closes it.
pub(crate) const DROP_TCP_STREAM: HostRow = HostRow {
    call: 33,
    module: "lunatic::networking",
    name: "drop_tcp_stream",
    params: &[Num::I64],
    result: None,
    kind: Kind::Local,
    reads: Reads::NoArea,
    text: None,
    word: None,
    may_come: MayCome::Nothing,
    results: Results::NoResult,
    refusable: false,
};

/// `drop_tcp_listener(listener)`: shuts it.
pub(crate) const DROP_TCP_LISTENER: HostRow = HostRow {
    call: 34,
    module: "lunatic::networking",
    name: "drop_tcp_listener",
    params: &[Num::I64],
    result: None,
    kind: Kind::Local,
    reads: Reads::NoArea,
    text: None,
    word: None,
    may_come: MayCome::Nothing,
    results: Results::NoResult,
    refusable: false,
};
