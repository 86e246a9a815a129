//! What stands between an engine, which executes one process, and its host.
//!
//! An engine runs one program from one start. Its run is a function of the start, of the host's
//! answers so far and of the fuel that was burnt, and `Engine` says of each call how it goes
//! along that run. The host knows an engine by this trait alone.
#![tactic(auto)]

mod areas;
mod ask;
mod bytes;
mod call;
mod config_rows;
mod engine;
mod form;
mod host_table;
mod limits;
mod message_rows;
mod network_rows;
mod param;
mod print_rows;
mod process_rows;
mod registry_rows;
mod reply;
mod request;
mod row;
mod start;
mod stop;
#[cfg(test)]
mod tests;

pub use areas::resolve;
pub use ask::Ask;
pub use bytes::Bytes;
pub use call::{Call, Calls};
pub use engine::Engine;
pub use form::has_form;
pub use host_table::{
    HostRow, host_row, import, is_local, is_served, kind_of, known_row, may_come, rows,
    rows_are_sound,
};
pub use limits::Limits;
pub use param::{Param, Params};
pub use reply::{Reply, Text, Word};
pub use request::Request;
pub use row::{
    Holds, Kind, MayCome, ReadArea, Reads, Results, When, Width, WordValue, WrittenText,
    WrittenWord,
};
pub use start::{Start, StartRefusal};
pub use stop::{Spent, Stop};
