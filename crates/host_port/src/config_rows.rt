//! The host calls of the configs with which processes are spawned.

use crate::{HostRow, Kind, MayCome, Reads, Results};
use wasm_ops::Num;

/// `create_config()`: a new config, with the limits of the process; its number.
pub(crate) const CREATE_CONFIG: HostRow = HostRow {
    call: 18,
    module: "lunatic::process",
    name: "create_config",
    params: &[],
    result: Some(Num::I64),
    kind: Kind::Local,
    reads: Reads::NoArea,
    text: None,
    word: None,
    may_come: MayCome::Nothing,
    results: Results::AnyI64,
    refusable: false,
};

/// `drop_config(config)`: removes it.
pub(crate) const DROP_CONFIG: HostRow = HostRow {
    call: 19,
    module: "lunatic::process",
    name: "drop_config",
    params: &[Num::I64],
    result: None,
    kind: Kind::Local,
    reads: Reads::NoArea,
    text: None,
    word: None,
    may_come: MayCome::Nothing,
    results: Results::NoResult,
    refusable: false,
};

/// `config_set_max_memory(config, pages)`: at most the limit of the process.
pub(crate) const CONFIG_SET_MAX_MEMORY: HostRow = HostRow {
    call: 20,
    module: "lunatic::process",
    name: "config_set_max_memory",
    params: &[Num::I64, Num::I64],
    result: None,
    kind: Kind::Local,
    reads: Reads::NoArea,
    text: None,
    word: None,
    may_come: MayCome::Nothing,
    results: Results::NoResult,
    refusable: false,
};

/// `config_set_max_fuel(config, fuel)`: at most the limit of the process.
pub(crate) const CONFIG_SET_MAX_FUEL: HostRow = HostRow {
    call: 21,
    module: "lunatic::process",
    name: "config_set_max_fuel",
    params: &[Num::I64, Num::I64],
    result: None,
    kind: Kind::Local,
    reads: Reads::NoArea,
    text: None,
    word: None,
    may_come: MayCome::Nothing,
    results: Results::NoResult,
    refusable: false,
};

/// `config_get_max_memory(config)`: its pages.
pub(crate) const CONFIG_GET_MAX_MEMORY: HostRow = HostRow {
    call: 22,
    module: "lunatic::process",
    name: "config_get_max_memory",
    params: &[Num::I64],
    result: Some(Num::I64),
    kind: Kind::Local,
    reads: Reads::NoArea,
    text: None,
    word: None,
    may_come: MayCome::Nothing,
    results: Results::AnyI64,
    refusable: false,
};

/// `config_get_max_fuel(config)`: its fuel.
pub(crate) const CONFIG_GET_MAX_FUEL: HostRow = HostRow {
    call: 23,
    module: "lunatic::process",
    name: "config_get_max_fuel",
    params: &[Num::I64],
    result: Some(Num::I64),
    kind: Kind::Local,
    reads: Reads::NoArea,
    text: None,
    word: None,
    may_come: MayCome::Nothing,
    results: Results::AnyI64,
    refusable: false,
};
