//! The host calls of the output.

use crate::{Holds, HostRow, Kind, MayCome, ReadArea, Reads, Results};
use wasm_ops::Num;

/// `print(ptr, len)`: the bytes go to the output.
pub(crate) const PRINT: HostRow = HostRow {
    call: 35,
    module: "profile",
    name: "print",
    params: &[Num::I32, Num::I32],
    result: None,
    kind: Kind::Local,
    reads: Reads::OneArea(ReadArea {
        addr: 0,
        length: 1,
        holds: Holds::Plain,
    }),
    text: None,
    word: None,
    may_come: MayCome::Nothing,
    results: Results::NoResult,
    refusable: false,
};
