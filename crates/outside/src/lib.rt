//! What lies outside the runtime: files, a sink of bytes, connections and a clock, with stand-ins in memory.
//!
//! An object of the outside is known by what was asked of it. A store may tell the bytes of its files, a sink what was
//! written to it, a stream what was read and written, an outside its clock; each keeps counts that never fall. The
//! theorem is each trait's contract: an answer that is no success, want of memory aside, comes only where a count of the
//! object rose in that call, and the counts of faults rise nowhere else.
#![tactic(auto)]

mod blank;
mod count;
mod files;
mod gate;
mod listener;
mod mem_files;
mod mem_listener;
mod mem_outside;
mod mem_sink;
mod mem_stream;
mod outside;
mod script;
mod sharing;
mod sink;
mod stream;
mod stream_counts;

pub use blank::{BlankListener, BlankOutside, BlankStream};
pub use count::raise;
pub use files::{FileStep, Files};
pub use gate::Gate;
pub use listener::Listener;
pub use mem_files::MemFiles;
pub use mem_listener::{MemListener, Offer};
pub use mem_outside::MemOutside;
pub use mem_sink::MemSink;
pub use mem_stream::MemStream;
pub use outside::{AcceptStep, MakeStep, Outside};
pub use script::Piece;
pub use sink::{Failed, Sink};
pub use stream::{IoStep, Stream};

#[cfg(test)]
mod tests;
