//! The host calls of processes and their links.

use crate::{
    Holds, HostRow, Kind, MayCome, ReadArea, Reads, Results, When, Width, WordValue, WrittenWord,
};
use wasm_ops::Num;

/// `process_id()`: the number of the process.
pub(crate) const PROCESS_ID: HostRow = HostRow {
    call: 10,
    module: "lunatic::process",
    name: "process_id",
    params: &[],
    result: Some(Num::I64),
    kind: Kind::Local,
    reads: Reads::NoArea,
    text: None,
    word: None,
    may_come: MayCome::Nothing,
    results: Results::AnyI64,
    refusable: false,
};

/// `exists(pid)`: 1 where a live process has the number, else 0.
pub(crate) const EXISTS: HostRow = HostRow {
    call: 11,
    module: "lunatic::process",
    name: "exists",
    params: &[Num::I64],
    result: Some(Num::I32),
    kind: Kind::World,
    reads: Reads::NoArea,
    text: None,
    word: None,
    may_come: MayCome::Nothing,
    results: Results::OneOf(&[0, 1]),
    refusable: false,
};

/// `spawn(link, config, module, f, flen, p, plen, id)`: 0 with the number of the child at `id`, 1
/// where it cannot start, 2 where as many live as may, 3 where no numbers are left, 12 for want
/// of memory.
pub(crate) const SPAWN: HostRow = HostRow {
    call: 12,
    module: "lunatic::process",
    name: "spawn",
    params: &[
        Num::I64,
        Num::I64,
        Num::I64,
        Num::I32,
        Num::I32,
        Num::I32,
        Num::I32,
        Num::I32,
    ],
    result: Some(Num::I32),
    kind: Kind::World,
    reads: Reads::TwoAreas(
        ReadArea {
            addr: 3,
            length: 4,
            holds: Holds::Name,
        },
        ReadArea {
            addr: 5,
            length: 6,
            holds: Holds::Plain,
        },
    ),
    text: None,
    word: Some(WrittenWord {
        addr: 7,
        width: Width::Eight,
        when: When::OnlyWith(0),
        value: WordValue::AnyValue,
    }),
    may_come: MayCome::Nothing,
    results: Results::OneOf(&[0, 1, 2, 3, 12]),
    refusable: true,
};

/// `kill(pid)`: ends the process of this number.
pub(crate) const KILL: HostRow = HostRow {
    call: 13,
    module: "lunatic::process",
    name: "kill",
    params: &[Num::I64],
    result: None,
    kind: Kind::World,
    reads: Reads::NoArea,
    text: None,
    word: None,
    may_come: MayCome::Nothing,
    results: Results::NoResult,
    refusable: false,
};

/// `link(tag, pid)`: 0 where the two are linked, 1 where the other is the caller or no process,
/// 12 for want of memory.
pub(crate) const LINK: HostRow = HostRow {
    call: 14,
    module: "lunatic::process",
    name: "link",
    params: &[Num::I64, Num::I64],
    result: Some(Num::I32),
    kind: Kind::World,
    reads: Reads::NoArea,
    text: None,
    word: None,
    may_come: MayCome::Nothing,
    results: Results::OneOf(&[0, 1, 12]),
    refusable: true,
};

/// `unlink(pid)`: removes the link.
pub(crate) const UNLINK: HostRow = HostRow {
    call: 15,
    module: "lunatic::process",
    name: "unlink",
    params: &[Num::I64],
    result: None,
    kind: Kind::World,
    reads: Reads::NoArea,
    text: None,
    word: None,
    may_come: MayCome::Nothing,
    results: Results::NoResult,
    refusable: false,
};

/// `die_when_link_dies(x)`: 0 asks for signals, any other number for dying with links.
pub(crate) const DIE_WHEN_LINK_DIES: HostRow = HostRow {
    call: 16,
    module: "lunatic::process",
    name: "die_when_link_dies",
    params: &[Num::I32],
    result: None,
    kind: Kind::World,
    reads: Reads::NoArea,
    text: None,
    word: None,
    may_come: MayCome::Nothing,
    results: Results::NoResult,
    refusable: false,
};

/// `sleep_ms(ms)`: waits.
pub(crate) const SLEEP_MS: HostRow = HostRow {
    call: 17,
    module: "lunatic::process",
    name: "sleep_ms",
    params: &[Num::I64],
    result: None,
    kind: Kind::World,
    reads: Reads::NoArea,
    text: None,
    word: None,
    may_come: MayCome::Clock,
    results: Results::NoResult,
    refusable: false,
};
