//! The linear memory of an instance: a list of bytes that grows by pages, up to a number of them that is reserved at first.
//!
//! Its model is that list and that number. Loads and stores are the list's bytes as little-endian numbers, refused exactly
//! where they pass its end, and only `Memory::new` takes memory.
#![tactic(auto)]

mod access;
mod memory;

pub use memory::Memory;
