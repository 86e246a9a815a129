//! Numbers as WebAssembly's binary format has them (LEB128; Core 1.0, 5.2.2).
//!
//! A [`Cursor`] stands at a place in bytes and has the bytes from there on. A number is read
//! exactly where a spelling stands at the cursor, in one of its spellings of at most 5 bytes for
//! 32 bits and 10 bytes for 64; each refusal has its one cause and leaves the cursor's place.
#![tactic(auto)]

mod cursor;
mod fault;
mod laws;
mod number;

pub use cursor::Cursor;
pub use fault::{LebFault, Short};
pub use laws::one_spelling;

#[cfg(test)]
mod tests;
