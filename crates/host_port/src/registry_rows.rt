//! The host calls of names of processes.

use crate::{
    Holds, HostRow, Kind, MayCome, ReadArea, Reads, Results, When, Width, WordValue, WrittenWord,
};
use wasm_ops::Num;

/// `put(name, len, pid)`: 0 where the name now stands for the process, 1 where no such process
/// lives, 12 for want of memory.
pub(crate) const REGISTRY_PUT: HostRow = HostRow {
    call: 24,
    module: "lunatic::registry",
    name: "put",
    params: &[Num::I32, Num::I32, Num::I64],
    result: Some(Num::I32),
    kind: Kind::World,
    reads: Reads::OneArea(ReadArea {
        addr: 0,
        length: 1,
        holds: Holds::Name,
    }),
    text: None,
    word: None,
    may_come: MayCome::Nothing,
    results: Results::OneOf(&[0, 1, 12]),
    refusable: true,
};

/// `get(name, len, id)`: 0 with the number of the process at `id`, 1 where the name is not there.
pub(crate) const REGISTRY_GET: HostRow = HostRow {
    call: 25,
    module: "lunatic::registry",
    name: "get",
    params: &[Num::I32, Num::I32, Num::I32],
    result: Some(Num::I32),
    kind: Kind::World,
    reads: Reads::OneArea(ReadArea {
        addr: 0,
        length: 1,
        holds: Holds::Name,
    }),
    text: None,
    word: Some(WrittenWord {
        addr: 2,
        width: Width::Eight,
        when: When::OnlyWith(0),
        value: WordValue::AnyValue,
    }),
    may_come: MayCome::Nothing,
    results: Results::OneOf(&[0, 1]),
    refusable: false,
};

/// `remove(name, len)`: takes the name out.
pub(crate) const REGISTRY_REMOVE: HostRow = HostRow {
    call: 26,
    module: "lunatic::registry",
    name: "remove",
    params: &[Num::I32, Num::I32],
    result: None,
    kind: Kind::World,
    reads: Reads::OneArea(ReadArea {
        addr: 0,
        length: 1,
        holds: Holds::Name,
    }),
    text: None,
    word: None,
    may_come: MayCome::Nothing,
    results: Results::NoResult,
    refusable: false,
};
