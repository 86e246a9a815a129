ghost use Rattle.std.specs.Prelude.{◌≡◌, Some, None, All, true, IsSomeAnd, MatchOption, find, slice_get, option_copied};
ghost use Rattle.host_port.specs.HostTable.{all_rows, is_served, known_row_of, row_of, row_of_import, kind_of, is_local, may_come_of};
ghost use Rattle.host_port.specs.HostRows.{IsRow, ShowTable, shown_import};
ghost use Rattle.host_port.specs.SoundRows.{IsSoundRow, are_numbered, are_distinct};

use crate::config_rows::{
    CONFIG_GET_MAX_FUEL, CONFIG_GET_MAX_MEMORY, CONFIG_SET_MAX_FUEL, CONFIG_SET_MAX_MEMORY,
    CREATE_CONFIG, DROP_CONFIG,
};
use crate::message_rows::{
    CREATE_DATA, DATA_SIZE, GET_TAG, PUSH_TCP_STREAM, READ_DATA, RECEIVE, SEEK_DATA, SEND,
    TAKE_TCP_STREAM, WRITE_DATA,
};
use crate::network_rows::{
    DROP_TCP_LISTENER, DROP_TCP_STREAM, TCP_ACCEPT, TCP_BIND, TCP_CONNECT, TCP_LOCAL_PORT,
    TCP_READ, TCP_WRITE,
};
use crate::print_rows::PRINT;
use crate::process_rows::{
    DIE_WHEN_LINK_DIES, EXISTS, KILL, LINK, PROCESS_ID, SLEEP_MS, SPAWN, UNLINK,
};
use crate::registry_rows::{REGISTRY_GET, REGISTRY_PUT, REGISTRY_REMOVE};
use crate::{Kind, MayCome, Reads, Results, WrittenText, WrittenWord};
use wasm_ops::Num;

/// A row of the host table: a call that a guest may import.
#[derive(Clone, Copy, Debug)]
pub struct HostRow {
    /// The number of the call.
    pub call: u8,
    /// The module under which it is imported.
    pub module: &'static str,
    /// The name under which it is imported.
    pub name: &'static str,
    /// The types of its parameters.
    pub params: &'static [Num],
    /// The type of its result, where it has one.
    pub result: Option<Num>,
    /// Who performs it.
    pub kind: Kind,
    /// The areas that it reads.
    pub reads: Reads,
    /// The text that it writes, where it writes one.
    pub text: Option<WrittenText>,
    /// The word that it writes, where it writes one.
    pub word: Option<WrittenWord>,
    /// What may come beside it in an entry.
    pub may_come: MayCome,
    /// The results that it may give.
    pub results: Results,
    /// The world may refuse it memory, and then answers 12.
    pub refusable: bool,
}

static ROWS: [HostRow; 36] = [
    CREATE_DATA,
    WRITE_DATA,
    READ_DATA,
    SEEK_DATA,
    DATA_SIZE,
    GET_TAG,
    PUSH_TCP_STREAM,
    TAKE_TCP_STREAM,
    SEND,
    RECEIVE,
    PROCESS_ID,
    EXISTS,
    SPAWN,
    KILL,
    LINK,
    UNLINK,
    DIE_WHEN_LINK_DIES,
    SLEEP_MS,
    CREATE_CONFIG,
    DROP_CONFIG,
    CONFIG_SET_MAX_MEMORY,
    CONFIG_SET_MAX_FUEL,
    CONFIG_GET_MAX_MEMORY,
    CONFIG_GET_MAX_FUEL,
    REGISTRY_PUT,
    REGISTRY_GET,
    REGISTRY_REMOVE,
    TCP_BIND,
    TCP_LOCAL_PORT,
    TCP_ACCEPT,
    TCP_CONNECT,
    TCP_READ,
    TCP_WRITE,
    DROP_TCP_STREAM,
    DROP_TCP_LISTENER,
    PRINT,
];

/// The rows of all host calls, by rising number, each at the place of its number.
pub fn rows() -> &'static [HostRow]
    ensures { ShowTable result.now all_rows }
{
    &ROWS
}

/// Each row is sound: its addresses are arguments of type i32, its results are of its type, and so
/// on; each stands at the place of its number, and no two have one import. So it is for the rows
/// that are served, whichever they are. There is nothing to run; the clauses are the law.
pub fn rows_are_sound()
    ensures sound { All IsSoundRow all_rows }
    ensures numbered { are_numbered 0 all_rows ≡ true }
    ensures distinct { are_distinct all_rows ≡ true }
{}

/// The host serves the call of this number.
#[tactic(auto, unfolding(crate::specs::HostTable::is_served))]
pub fn is_served(call: u8) -> bool
    ensures { result ≡ is_served call }
{
    matches!(call, 0..=10 | 17 | 27..=35)
}

/// The row of this call, also of one that is not served; None exactly where there is no such call.
pub fn known_row(call: u8) -> Option<&'static HostRow>
    ensures { MatchOption result (known_row_of call ≡ None) (λ row. IsSomeAnd (known_row_of call) (IsRow row.now)) }
{
    at_place(rows(), usize::from(call))
}

/// The row at this place, if there is one.
fn at_place(rows: &'static [HostRow], place: usize) -> Option<&'static HostRow>
    ensures { option_copied result ≡ slice_get rows.now place }
{
    rows.get(place)
}

/// The row of this call; None exactly where the host serves no such call.
pub fn host_row(call: u8) -> Option<&'static HostRow>
    ensures { MatchOption result (row_of call ≡ None) (λ row. IsSomeAnd (row_of call) (IsRow row.now)) }
{
    if is_served(call) {
        known_row(call)
    } else {
        None
    }
}

/// The row of the call that is imported so; None exactly where the host serves no such import.
pub fn import(import_module: &[u8], import_name: &[u8]) -> Option<&'static HostRow>
    ensures { MatchOption result
        (row_of_import import_module.now import_name.now ≡ None)
        (λ row. IsSomeAnd (row_of_import import_module.now import_name.now) (IsRow row.now)) }
{
    first_imported(rows(), import_module, import_name)
}

/// The first of these rows that is served and imported so, if there is one.
fn first_imported(
    rows: &'static [HostRow],
    import_module: &[u8],
    import_name: &[u8],
) -> Option<&'static HostRow>
    ensures { option_copied result ≡ find (shown_import import_module.now import_name.now) rows.now }
{
    rows.iter()
        .find(|row| row.is_import(import_module, import_name))
}

/// Who performs this call; None exactly where the host serves no such call.
pub fn kind_of(call: u8) -> Option<Kind>
    ensures { result ≡ kind_of call }
{
    match host_row(call) {
        Some(row) => Some(row.kind),
        None => None,
    }
}

/// The turn itself answers the call.
pub fn is_local(call: u8) -> bool
    ensures { result ≡ is_local call }
{
    match kind_of(call) {
        Some(Kind::Local) => true,
        _ => false,
    }
}

/// What may come beside this call in an entry; None exactly where the host serves no such call.
pub fn may_come(call: u8) -> Option<MayCome>
    ensures { result ≡ may_come_of call }
{
    match host_row(call) {
        Some(row) => Some(row.may_come),
        None => None,
    }
}

impl HostRow {
    /// The row is served and imported so.
    fn is_import(&self, import_module: &[u8], import_name: &[u8]) -> bool
        ensures { result ≡ shown_import import_module.now import_name.now self.now }
    {
        is_served(self.call)
            && self.module.as_bytes() == import_module
            && self.name.as_bytes() == import_name
    }
}
