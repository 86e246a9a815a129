//! The scratch message of a process: bytes and streams on their way into a message, or out of one.
//!
//! A message is seen as its tag, its bytes and one slot for each stream that was pushed into it, with the very stream
//! while it is there. The scratch area holds one message, of which so many bytes were read, or none. No stream is lost:
//! a new message shuts those of the old one into the shed.
#![tactic(auto)]

mod message;
mod refused;
mod scratch;
#[cfg(test)]
mod tests;

pub use message::Message;
pub use refused::{PushRefused, ScratchFault};
pub use scratch::Scratch;
