//! The host calls of the scratch message, and sending and receiving it.

use crate::{Holds, HostRow, Kind, MayCome, ReadArea, Reads, Results, When, WrittenText};
use wasm_ops::Num;

/// `create_data(tag, size)`: a new scratch message; the size is ignored.
pub(crate) const CREATE_DATA: HostRow = HostRow {
    call: 0,
    module: "lunatic::message",
    name: "create_data",
    params: &[Num::I64, Num::I64],
    result: None,
    kind: Kind::Local,
    reads: Reads::NoArea,
    text: None,
    word: None,
    may_come: MayCome::Nothing,
    results: Results::NoResult,
    refusable: false,
};

/// `write_data(ptr, len)`: appends bytes to the scratch message, and gives how many.
pub(crate) const WRITE_DATA: HostRow = HostRow {
    call: 1,
    module: "lunatic::message",
    name: "write_data",
    params: &[Num::I32, Num::I32],
    result: Some(Num::I32),
    kind: Kind::Local,
    reads: Reads::OneArea(ReadArea {
        addr: 0,
        length: 1,
        holds: Holds::Plain,
    }),
    text: None,
    word: None,
    may_come: MayCome::Nothing,
    results: Results::Count(1, 1_048_576),
    refusable: false,
};

/// `read_data(ptr, len)`: copies bytes of the scratch message from its read place, and gives how
/// many.
pub(crate) const READ_DATA: HostRow = HostRow {
    call: 2,
    module: "lunatic::message",
    name: "read_data",
    params: &[Num::I32, Num::I32],
    result: Some(Num::I32),
    kind: Kind::Local,
    reads: Reads::NoArea,
    text: Some(WrittenText {
        addr: 0,
        length: 1,
        most: 4_294_967_295,
        when: When::Always,
        counted: true,
    }),
    word: None,
    may_come: MayCome::Nothing,
    results: Results::Count(1, 4_294_967_295),
    refusable: false,
};

/// `seek_data(at)`: sets the read place of the scratch message.
pub(crate) const SEEK_DATA: HostRow = HostRow {
    call: 3,
    module: "lunatic::message",
    name: "seek_data",
    params: &[Num::I64],
    result: None,
    kind: Kind::Local,
    reads: Reads::NoArea,
    text: None,
    word: None,
    may_come: MayCome::Nothing,
    results: Results::NoResult,
    refusable: false,
};

/// `data_size()`: how many bytes the scratch message has.
pub(crate) const DATA_SIZE: HostRow = HostRow {
    call: 4,
    module: "lunatic::message",
    name: "data_size",
    params: &[],
    result: Some(Num::I64),
    kind: Kind::Local,
    reads: Reads::NoArea,
    text: None,
    word: None,
    may_come: MayCome::Nothing,
    results: Results::AnyI64,
    refusable: false,
};

/// `get_tag()`: the tag of the scratch message.
pub(crate) const GET_TAG: HostRow = HostRow {
    call: 5,
    module: "lunatic::message",
    name: "get_tag",
    params: &[],
    result: Some(Num::I64),
    kind: Kind::Local,
    reads: Reads::NoArea,
    text: None,
    word: None,
    may_come: MayCome::Nothing,
    results: Results::AnyI64,
    refusable: false,
};

/// `push_tcp_stream(handle)`: moves a stream into the next place of the scratch message, one of
/// 64, and gives the place.
pub(crate) const PUSH_TCP_STREAM: HostRow = HostRow {
    call: 6,
    module: "lunatic::message",
    name: "push_tcp_stream",
    params: &[Num::I64],
    result: Some(Num::I64),
    kind: Kind::Local,
    reads: Reads::NoArea,
    text: None,
    word: None,
    may_come: MayCome::Nothing,
    results: Results::UpTo(63),
    refusable: false,
};

/// `take_tcp_stream(place)`: moves a stream out of the scratch message, and gives its number.
pub(crate) const TAKE_TCP_STREAM: HostRow = HostRow {
    call: 7,
    module: "lunatic::message",
    name: "take_tcp_stream",
    params: &[Num::I64],
    result: Some(Num::I64),
    kind: Kind::Local,
    reads: Reads::NoArea,
    text: None,
    word: None,
    may_come: MayCome::Nothing,
    results: Results::AnyI64,
    refusable: false,
};

/// `send(pid)`: 0 where it was sent, 1 where no such process lives, 2 where its mailbox is full,
/// 12 for want of memory.
pub(crate) const SEND: HostRow = HostRow {
    call: 8,
    module: "lunatic::message",
    name: "send",
    params: &[Num::I64],
    result: Some(Num::I32),
    kind: Kind::World,
    reads: Reads::NoArea,
    text: None,
    word: None,
    may_come: MayCome::Nothing,
    results: Results::OneOf(&[0, 1, 2, 12]),
    refusable: true,
};

/// `receive(tags, count, ms)`: reads `count` tags of eight bytes; 0 for a message, 1 for a
/// signal, 9027 where the time is up.
pub(crate) const RECEIVE: HostRow = HostRow {
    call: 9,
    module: "lunatic::message",
    name: "receive",
    params: &[Num::I32, Num::I32, Num::I64],
    result: Some(Num::I32),
    kind: Kind::World,
    reads: Reads::OneArea(ReadArea {
        addr: 0,
        length: 1,
        holds: Holds::Tags,
    }),
    text: None,
    word: None,
    may_come: MayCome::Clock,
    results: Results::OneOf(&[0, 1, 9027]),
    refusable: false,
};
